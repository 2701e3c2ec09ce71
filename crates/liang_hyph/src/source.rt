//! Patterns and exceptions as a job hands them in (TeX: The Program, parts 42 and 43).
ghost use Rattle.std.specs.Prelude.{◌≡◌, ◌+◌, length};

use items::Items;

/// A hyphenation pattern: letters, and a value for each place before, between and after them
/// (F. M. Liang, Word Hy-phen-a-tion by Com-put-er). An odd value calls for a hyphen, an even one
/// forbids it, and of the values that meet at a place the greatest counts.
#[derive(Drop)]
pub struct Pattern {
    /// The letters, in lower case.
    pub letters: Items<u8>,
    /// One value more than there are letters: entry h belongs to the place after h letters, and is
    /// 0 where the pattern says nothing of it.
    pub values: Items<u8>,
    /// Whether the pattern occurs only at the beginning of a word.
    pub start: bool,
    /// Whether the pattern occurs only at the end of a word.
    pub end: bool,
    ghost one_value_more: { length values ≡ length letters + 1 },
}

/// A word whose hyphen places are given, whatever the patterns say.
#[derive(Drop)]
pub struct Exception {
    /// The letters of the word, in lower case.
    pub letters: Items<u8>,
    /// The places, each the number of letters before it.
    pub places: Items<u8>,
}

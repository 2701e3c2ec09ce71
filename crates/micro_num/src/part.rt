//! The parts of a paragraph's text, as a job spells them.
use crate::{Disc, Glue, Sp};

/// One part of a paragraph's text, before fonts, ligatures and spaces are worked out.
#[derive(Drop)]
pub enum Part {
    /// A character of the current font.
    Char { code: u8 },
    /// A space between words, which the space factor changes.
    Space,
    /// A space that the space factor doesn't change.
    Normal,
    /// A space at which no line ends.
    Tie,
    /// A kern of the author's.
    Kern { width: Sp },
    /// A glue of the author's.
    Skip { glue: Glue },
    /// A penalty of the author's.
    Penalty { value: i32 },
    /// A place at which the word may be hyphenated.
    Hyphen,
    /// A discretionary, and the codes of its three lists.
    Disc { lists: Disc<u8> },
    /// From here on the current font is this one, counted from 0 in the order of declaration.
    Font { font: u32 },
}

//! A word of the lig/kern programs (TFM description, "lig_kern"; TeX: The Program, section 545).

use items::Items;

/// A word of the lig/kern programs (TFM description, "lig_kern").
///
/// A `skip` above 128 ends a program, and as the first word of one it makes the program start at
/// word 256 `op` + `rest` instead. A word with a `skip` of at most 128 acts before the character
/// `next`: an `op` of 128 or more puts kern number 256 (`op` - 128) + `rest` there, a lower one
/// makes a ligature with the character `rest`. Where it doesn't act, a `skip` of 128 ends the
/// program, and a lower one is how many words are passed over.
#[derive(Clone, Copy, Debug, PartialEq, Eq)]
pub struct LigWord {
    /// How many words are passed over, 128 at the end of a program, more for a jump.
    pub skip: u8,
    /// The code before which the word acts.
    pub next: u8,
    /// The operation.
    pub op: u8,
    /// The character of a ligature, or the low byte of a kern number or of a place.
    pub rest: u8,
}

/// The words of the lig/kern programs, and the code of the right boundary character that the first
/// word tells.
#[derive(Drop)]
pub struct Programs {
    pub ligs: Items<LigWord>,
    pub right: Option<u8>,
}

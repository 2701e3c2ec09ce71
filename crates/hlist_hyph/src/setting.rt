//! How a word is hyphenated.
use items::Items;

/// How a word is hyphenated: in which font, by which hyphen character of it, and where.
#[derive(Drop)]
pub struct Setting {
    /// The number of the font.
    pub number: u32,
    /// The hyphen character.
    pub hyphen: u8,
    /// The hyphen places, each the number of letters before it.
    pub places: Items<u8>,
}

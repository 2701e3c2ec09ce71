//! The glyphs of a run, each with the codes that it stands for.

/// What a run of characters comes to be in a font.
#[derive(Clone, Copy, Debug, PartialEq, Eq)]
pub enum Glyph {
    /// The character of the code number `at` of the run.
    Char { code: u8, at: u32 },
    /// A ligature that stands for the codes from number `from` to before number `to`.
    Lig { code: u8, from: u32, to: u32 },
    /// A kern between two glyphs, or at an end of the run: a fix_word.
    Kern { fix: i32 },
}

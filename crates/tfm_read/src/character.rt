//! What a font says of one code (TFM description, "char_info").

/// What a font says of one code. The sizes are fix_words: numbers in units of 2^-20 of the design
/// size (TFM description).
///
/// The entry of a code whose character doesn't exist has `exists` false, sizes 0 and no program.
#[derive(Clone, Copy, Debug, PartialEq, Eq)]
pub struct CharInfo {
    /// Whether the font has the character.
    pub exists: bool,
    /// The width, a fix_word.
    pub width: i32,
    /// The height above the baseline, a fix_word.
    pub height: i32,
    /// The depth below the baseline, a fix_word.
    pub depth: i32,
    /// The place among the ligature words at which the character's lig/kern program starts.
    pub program: Option<u16>,
}

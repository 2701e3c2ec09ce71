//! What a font at a size says of one character.
use micro_num::Sp;

/// What a font at a size says of a character, in sp.
#[derive(Clone, Copy, Debug, PartialEq, Eq)]
pub struct ScaledChar {
    pub width: Sp,
    pub height: Sp,
    pub depth: Sp,
    /// How much the character gains at the greatest stretch, in its share of the expansion.
    pub stretch: i64,
    /// How much it loses at the greatest shrink.
    pub shrink: i64,
}

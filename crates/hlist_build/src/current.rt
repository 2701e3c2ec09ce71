//! The font that a paragraph's text is in, with its spaces (TeX: The Program, sections 1041 to
//! 1043).
use micro_num::{Glue, Sp};

/// The font that text is in at some part, by its number in the stock, and the spaces that go with
/// it.
#[derive(Clone, Copy, Debug, PartialEq, Eq)]
pub struct Current {
    pub font: u32,
    /// The normal space.
    pub normal: Glue,
    /// What a space is wider by after a full stop.
    pub extra: Sp,
}

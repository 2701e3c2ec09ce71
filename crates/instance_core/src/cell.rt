//! The name of an instance: a font at a step.
/// A font at a step of expansion, by the font's number in the order of declaration, from 0, and the
/// step in thousandths: 0 for the font as it is.
#[derive(Clone, Copy, Debug, PartialEq, Eq, Hash)]
pub struct Cell {
    pub font: u32,
    pub step: i32,
}

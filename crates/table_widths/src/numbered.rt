//! A cell with its number.
use instance_core::Cell;

/// A cell that a table has, with its number there.
#[derive(Clone, Copy, Debug, PartialEq, Eq)]
pub struct Numbered {
    pub cell: Cell,
    pub number: u32,
}

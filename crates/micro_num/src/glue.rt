//! Stretchable space (TeX: The Program, sections 149 and 150).
ghost use Rattle.std.specs.Prelude.{◌≤◌};

use crate::Sp;

/// Stretchable space: a natural width, and how far it may grow and shrink
/// (TeX: The Program, sections 149 and 150). Sizes are in scaled points.
#[derive(Clone, Copy, Debug, PartialEq, Eq)]
pub struct Glue {
    /// The natural width.
    pub width: Sp,
    /// How much it stretches, in units of its order.
    pub stretch: Sp,
    /// The order of the stretch: 0 finite, 1 fil, 2 fill, 3 filll.
    pub order: u8,
    /// How much it shrinks, always finitely.
    pub shrink: Sp,
    ghost order_exists: { order ≤ 3 },
}

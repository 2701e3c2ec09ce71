//! The size at which a job asks for a font (TeX: The Program, section 568).
use micro_num::{Sp, xn_over_d};

/// The size at which a font is asked for.
#[derive(Clone, Copy, Debug, PartialEq, Eq)]
pub enum Size {
    /// The design size.
    Design,
    /// This size, at least 1 sp.
    At { size: Sp },
    /// So many thousandths of the design size, from 1 to 32768.
    Scaled { by: u32 },
}

impl Size {
    ghost use Rattle.std.specs.Prelude.{◌≡◌, pos, ◌≤ℤ◌};
    ghost use Rattle.tfm_read.specs.Ranges.{IsDesignSize};
    ghost use Rattle.font_stock.specs.Sizes.{IsSize, size_of};

    /// The size in sp that is asked for of a font with a design size in sp. Thousandths of the
    /// design size are cut.
    #[tactic(auto, unfolding(crate::specs::Sizes::size_of))]
    pub fn of(self, design: Sp) -> i64
        requires asked { IsSize self }
        requires design { IsDesignSize design }
        ensures exact { result ≡ size_of design self }
        ensures some { pos 1 ≤ℤ result }
    {
        match self {
            Size::Design => design as i64,
            Size::At { size } => size as i64,
            Size::Scaled { by } => xn_over_d(design as i64, by as i64, 1000),
        }
    }
}

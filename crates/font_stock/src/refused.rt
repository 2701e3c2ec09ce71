//! Why a font can't be had at a size.
ghost use Rattle.std.specs.Prelude.{◌≡◌};
ghost use Rattle.font_stock.specs.declared.refused.FontRefused.TheVariants.{NoMemory};

use std::alloc::{AllocError, AllocFailed};
use std::error::Error;
use std::fmt;

/// Why a font can't be had at a size.
#[derive(Clone, Copy, Debug, PartialEq, Eq)]
pub enum FontRefused {
    /// The size is 2^27 sp or more.
    SizePast { size: i64 },
    /// At the greatest stretch the width of this character isn't from -16 to 16 times the size. It
    /// is the least code of which that is true.
    WidePast { code: u8 },
    /// At the greatest stretch this kern isn't from -16 to 16 times the size. It is the least index
    /// of which that is true.
    WideKern { index: u32 },
    /// Memory ran out.
    NoMemory,
}

impl fmt::Display for FontRefused {
    fn fmt<W: fmt::Write>(&self, f: &mut fmt::Formatter<W>) -> fmt::Result {
        match self {
            FontRefused::SizePast { size } => write!(f, "a size of {size} sp is too large"),
            FontRefused::WidePast { code } => write!(f, "character {code} is too wide"),
            FontRefused::WideKern { index } => write!(f, "kern {index} is too wide"),
            FontRefused::NoMemory => write!(f, "no memory"),
        }
    }
}

impl Error for FontRefused {}

impl From<AllocError> for FontRefused {
    ghost from_gives = { λ _ e. e ≡ NoMemory };

    fn from(_error: AllocError) -> FontRefused {
        FontRefused::NoMemory
    }
}

impl<T: Drop> From<AllocFailed<T>> for FontRefused {
    ghost from_gives = { λ _ e. e ≡ NoMemory };

    fn from(_error: AllocFailed<T>) -> FontRefused {
        FontRefused::NoMemory
    }
}

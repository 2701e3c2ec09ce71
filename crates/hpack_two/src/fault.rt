//! Why a line is not packed.
ghost use Rattle.std.specs.Prelude.{◌≡◌};
ghost use Rattle.hpack_two.specs.declared.fault.PackFault.TheVariants.{NoMemory};

use std::alloc::{AllocError, AllocFailed};
use std::error::Error;
use std::fmt;

/// Why a line was not packed.
#[derive(Clone, Copy, Debug, PartialEq, Eq)]
pub enum PackFault {
    /// The left or the right edge of this glyph, counted from 0, isn't within ±(2^30 - 1) sp, the
    /// line's indent counted. It is the first such glyph.
    OutOfRange { glyph: u32 },
    /// There was no memory.
    NoMemory,
}

impl fmt::Display for PackFault {
    fn fmt<W: fmt::Write>(&self, f: &mut fmt::Formatter<W>) -> fmt::Result {
        match self {
            PackFault::OutOfRange { glyph } => write!(f, "glyph {glyph} doesn't fit on the line"),
            PackFault::NoMemory => write!(f, "no memory"),
        }
    }
}

impl Error for PackFault {}

impl From<AllocError> for PackFault {
    ghost from_gives = { λ _ e. e ≡ NoMemory };

    fn from(_error: AllocError) -> PackFault {
        PackFault::NoMemory
    }
}

impl<T: Drop> From<AllocFailed<T>> for PackFault {
    ghost from_gives = { λ _ e. e ≡ NoMemory };

    fn from(_error: AllocFailed<T>) -> PackFault {
        PackFault::NoMemory
    }
}

//! Why a run has no glyphs.

ghost use Rattle.std.specs.Prelude.{◌≡◌};
ghost use Rattle.lig_kern.specs.declared.fault.LigFault.TheVariants.{NoMemory};

use std::alloc::{AllocError, AllocFailed};
use std::error::Error;
use std::fmt;

/// Why a run has no glyphs.
#[derive(Clone, Copy, Debug, PartialEq, Eq)]
pub enum LigFault {
    /// More than 256 (n + 2) ligature words would act on a run of n codes.
    TooManySteps,
    /// The font has no character for a code of the run: the number of the first such code.
    Missing { index: u32 },
    /// Want of memory.
    NoMemory,
}

impl fmt::Display for LigFault {
    fn fmt<W: fmt::Write>(&self, f: &mut fmt::Formatter<W>) -> fmt::Result {
        match self {
            LigFault::TooManySteps => write!(f, "the ligature programs don't end"),
            LigFault::Missing { index } => write!(f, "the font has no character for code {index}"),
            LigFault::NoMemory => write!(f, "no memory"),
        }
    }
}

impl Error for LigFault {}

impl From<AllocError> for LigFault {
    ghost from_gives = { λ _ e. e ≡ NoMemory };

    fn from(_error: AllocError) -> LigFault {
        LigFault::NoMemory
    }
}

impl<T: Drop> From<AllocFailed<T>> for LigFault {
    ghost from_gives = { λ _ e. e ≡ NoMemory };

    fn from(_error: AllocFailed<T>) -> LigFault {
        LigFault::NoMemory
    }
}

impl From<micro_num::NoMemory> for LigFault {
    ghost from_gives = { λ _ e. e ≡ NoMemory };

    fn from(_error: micro_num::NoMemory) -> LigFault {
        LigFault::NoMemory
    }
}

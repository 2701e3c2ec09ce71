//! Why a paragraph has no list, or can't be set.
ghost use Rattle.std.specs.Prelude.{◌≡◌};
ghost use Rattle.hlist_build.specs.declared.fault.ParFault.TheVariants.{NoMemory};

use std::alloc::{AllocError, AllocFailed};
use std::error::Error;
use std::fmt;

/// Why a paragraph can't be set. Offsets are those of parts in the source, in bytes.
#[derive(Clone, Copy, Debug, PartialEq, Eq)]
pub enum ParFault {
    /// The font has no character for a code: where the part begins that has it.
    MissingChar { offset: u32 },
    /// The ligature programs don't come to an end: where the run or the discretionary begins.
    LigTooLong { offset: u32 },
    /// There are more than 16,384 parts or items, the codes and items in discretionaries counted.
    TooManyItems,
    /// Fonts that may be expanded differ in how far or in what steps: the first that differs from
    /// the first of them.
    MixedExpansion { font: u32 },
    /// A line doesn't fit on the page: its number. A list is never refused so.
    OutOfRange { line: u32 },
    /// Want of memory.
    NoMemory,
}

impl fmt::Display for ParFault {
    fn fmt<W: fmt::Write>(&self, f: &mut fmt::Formatter<W>) -> fmt::Result {
        match self {
            ParFault::MissingChar { offset } => write!(f, "a character is missing at {offset}"),
            ParFault::LigTooLong { offset } => write!(f, "the run at {offset} has no end"),
            ParFault::TooManyItems => write!(f, "a paragraph has more than 16384 items"),
            ParFault::MixedExpansion { font } => write!(f, "font {font} expands otherwise"),
            ParFault::OutOfRange { line } => write!(f, "line {line} is out of range"),
            ParFault::NoMemory => write!(f, "no memory"),
        }
    }
}

impl Error for ParFault {}

impl From<AllocError> for ParFault {
    ghost from_gives = { λ _ e. e ≡ NoMemory };

    fn from(_error: AllocError) -> ParFault {
        ParFault::NoMemory
    }
}

impl<T: Drop> From<AllocFailed<T>> for ParFault {
    ghost from_gives = { λ _ e. e ≡ NoMemory };

    fn from(_error: AllocFailed<T>) -> ParFault {
        ParFault::NoMemory
    }
}

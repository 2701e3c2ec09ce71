//! Why a file was not read, or bytes were not written.
ghost use Rattle.std.specs.Prelude.{◌≡◌};
ghost use Rattle.outside_io.specs.declared.faults.ShelfFault.TheVariants.{NoMemory};

use std::alloc::{AllocError, AllocFailed};
use std::error::Error;
use std::fmt;

/// Why a file was not read.
#[derive(Clone, Copy, Debug, PartialEq, Eq, Drop)]
pub enum ShelfFault {
    /// No file has the name.
    Absent,
    /// The file has more bytes than the limit: the count that was reached, which is above the
    /// limit.
    TooLong { count: u64 },
    /// Any other failure.
    Failed,
    /// Want of memory.
    NoMemory,
}

impl fmt::Display for ShelfFault {
    fn fmt<W: fmt::Write>(&self, f: &mut fmt::Formatter<W>) -> fmt::Result {
        match self {
            ShelfFault::Absent => write!(f, "no such file"),
            ShelfFault::TooLong { count } => write!(f, "{count} bytes are too many"),
            ShelfFault::Failed => write!(f, "not readable"),
            ShelfFault::NoMemory => write!(f, "no memory"),
        }
    }
}

impl Error for ShelfFault {}

impl From<AllocError> for ShelfFault {
    ghost from_gives = { λ _ e. e ≡ NoMemory };

    fn from(_error: AllocError) -> ShelfFault {
        ShelfFault::NoMemory
    }
}

impl<T: Drop> From<AllocFailed<T>> for ShelfFault {
    ghost from_gives = { λ _ e. e ≡ NoMemory };

    fn from(_error: AllocFailed<T>) -> ShelfFault {
        ShelfFault::NoMemory
    }
}

/// A write that did not take all of its bytes.
#[derive(Clone, Copy, Debug, PartialEq, Eq)]
pub struct Failed;

impl fmt::Display for Failed {
    fn fmt<W: fmt::Write>(&self, f: &mut fmt::Formatter<W>) -> fmt::Result {
        write!(f, "not written")
    }
}

impl Error for Failed {}

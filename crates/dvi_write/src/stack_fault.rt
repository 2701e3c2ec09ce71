//! Why lines are refused.
ghost use Rattle.std.specs.Prelude.{◌≡◌};
ghost use Rattle.dvi_write.specs.declared.stack_fault.StackFault.TheVariants.{NoMemory};

use std::alloc::{AllocError, AllocFailed};
use std::error::Error;
use std::fmt;

/// Why lines were not put on a page.
#[derive(Clone, Copy, Debug, PartialEq, Eq)]
pub enum StackFault {
    /// The baseline of this line, counted from 1, or its lowest point is further than 2^30 - 1 sp
    /// from the page's top. It is the first such line.
    OutOfRange { line: u32 },
    /// There was no memory.
    NoMemory,
}

impl fmt::Display for StackFault {
    fn fmt<W: fmt::Write>(&self, f: &mut fmt::Formatter<W>) -> fmt::Result {
        match self {
            StackFault::OutOfRange { line } => write!(f, "line {line} doesn't fit on the page"),
            StackFault::NoMemory => write!(f, "no memory"),
        }
    }
}

impl Error for StackFault {}

impl From<AllocError> for StackFault {
    ghost from_gives = { λ _ e. e ≡ NoMemory };

    fn from(_error: AllocError) -> StackFault {
        StackFault::NoMemory
    }
}

impl<T: Drop> From<AllocFailed<T>> for StackFault {
    ghost from_gives = { λ _ e. e ≡ NoMemory };

    fn from(_error: AllocFailed<T>) -> StackFault {
        StackFault::NoMemory
    }
}

//! Why a job isn't set.
ghost use Rattle.std.specs.Prelude.{◌≡◌};
ghost use Rattle.para_workers.specs.declared.fault.SetFault.TheVariants.{NoMemory};

use hlist_build::ParFault;
use std::alloc::{AllocError, AllocFailed};
use std::error::Error;
use std::fmt;

/// A paragraph that can't be set, and why.
#[derive(Clone, Copy, Debug, PartialEq, Eq)]
pub struct ParAt {
    /// Its number in the job, counted from 1.
    pub paragraph: u32,
    /// Why it can't be set. Want of memory is none of these reasons.
    pub fault: ParFault,
}

/// Why a job wasn't set.
#[derive(Clone, Copy, Debug, PartialEq, Eq)]
pub enum SetFault {
    /// The first paragraph that can't be set.
    Par { at: ParAt },
    /// Want of memory.
    NoMemory,
}

impl fmt::Display for SetFault {
    fn fmt<W: fmt::Write>(&self, f: &mut fmt::Formatter<W>) -> fmt::Result {
        match self {
            SetFault::Par { at } => write!(f, "paragraph {}: {}", at.paragraph, at.fault),
            SetFault::NoMemory => write!(f, "no memory"),
        }
    }
}

impl Error for SetFault {}

impl From<AllocError> for SetFault {
    ghost from_gives = { λ _ e. e ≡ NoMemory };

    fn from(_error: AllocError) -> SetFault {
        SetFault::NoMemory
    }
}

impl<T: Drop> From<AllocFailed<T>> for SetFault {
    ghost from_gives = { λ _ e. e ≡ NoMemory };

    fn from(_error: AllocFailed<T>) -> SetFault {
        SetFault::NoMemory
    }
}

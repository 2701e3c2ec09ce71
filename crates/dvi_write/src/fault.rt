//! Why a file isn't written.
ghost use Rattle.std.specs.Prelude.{◌≡◌};
ghost use Rattle.dvi_write.specs.declared.fault.DviFault.TheVariants.{NoMemory};

use std::error::Error;
use std::fmt;

/// Why pages were not written as a DVI file.
#[derive(Clone, Copy, Debug, PartialEq, Eq)]
pub enum DviFault {
    /// The file has more bytes than were allowed: this many.
    TooLong { bytes: u64 },
    /// There was no memory.
    NoMemory,
}

impl fmt::Display for DviFault {
    fn fmt<W: fmt::Write>(&self, f: &mut fmt::Formatter<W>) -> fmt::Result {
        match self {
            DviFault::TooLong { bytes } => write!(f, "the DVI file has {bytes} bytes"),
            DviFault::NoMemory => write!(f, "no memory"),
        }
    }
}

impl Error for DviFault {}

impl From<micro_num::NoMemory> for DviFault {
    ghost from_gives = { λ _ e. e ≡ NoMemory };

    fn from(_error: micro_num::NoMemory) -> DviFault {
        DviFault::NoMemory
    }
}

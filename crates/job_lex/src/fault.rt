//! The faults of tokens, each with its number among the faults of a job.
ghost use Rattle.std.specs.Prelude.{◌≡◌};
ghost use Rattle.job_lex.specs.Tokens.{fault_number};

use std::alloc::{AllocError, AllocFailed};
use std::error::Error;
use std::fmt;

/// Why no token can begin at a byte.
#[derive(Clone, Copy, Debug, PartialEq, Eq)]
pub enum LexFaultKind {
    /// A byte 0 to 8, 11, 12, 14 to 31 or 127.
    BadByte,
    /// A backslash that no byte 32 to 126 follows.
    LoneBackslash,
    /// A bare `$`, `&`, `#`, `^` or `_`.
    SpecialByte,
}

impl LexFaultKind {
    /// Its number among the faults of a job: 16, 17 or 18.
    pub fn number(self) -> u8
        ensures { result ≡ fault_number self }
    {
        match self {
            LexFaultKind::BadByte => 16,
            LexFaultKind::LoneBackslash => 17,
            LexFaultKind::SpecialByte => 18,
        }
    }
}

/// Why a file has no tokens.
#[derive(Clone, Copy, Debug, PartialEq, Eq)]
pub enum LexFault {
    /// No token begins at this place, outside comments the first such.
    At {
        /// The place of the byte.
        offset: u32,
        /// What is wrong with it.
        kind: LexFaultKind,
    },
    /// Want of memory.
    NoMemory,
}

impl fmt::Display for LexFault {
    fn fmt<W: fmt::Write>(&self, f: &mut fmt::Formatter<W>) -> fmt::Result {
        match self {
            LexFault::At { offset, kind } => {
                let number = kind.number();
                write!(f, "offset {offset}: fault {number}")
            }
            LexFault::NoMemory => write!(f, "no memory"),
        }
    }
}

impl Error for LexFault {}

impl From<AllocError> for LexFault {
    ghost use Rattle.std.specs.Prelude.{◌≡◌};
    ghost use Rattle.job_lex.specs.declared.fault.LexFault.TheVariants.{NoMemory};

    ghost from_gives = { λ _ e. e ≡ NoMemory };

    fn from(_error: AllocError) -> LexFault {
        LexFault::NoMemory
    }
}

impl<T: Drop> From<AllocFailed<T>> for LexFault {
    ghost use Rattle.std.specs.Prelude.{◌≡◌};
    ghost use Rattle.job_lex.specs.declared.fault.LexFault.TheVariants.{NoMemory};

    ghost from_gives = { λ _ e. e ≡ NoMemory };

    fn from(_error: AllocFailed<T>) -> LexFault {
        LexFault::NoMemory
    }
}

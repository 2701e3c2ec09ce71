//! Why a file is no TFM file.

ghost use Rattle.std.specs.Prelude.{◌≡◌, ◌<◌, ◌^◌};
ghost use Rattle.tfm_read.specs.declared.fault.TfmFault.TheVariants.{NoMemory, At};
ghost use Rattle.tfm_read.specs.FaultNumbers.{number_of};

use std::alloc::{AllocError, AllocFailed};
use std::error::Error;
use std::fmt;

/// The check of a TFM file that failed.
#[derive(Clone, Copy, Debug, PartialEq, Eq)]
pub enum TfmFaultKind {
    /// The file ends before its first 24 bytes, or before the last of the words that it tells of.
    Short,
    /// The length of the file isn't the sum of the lengths of its parts.
    LengthsDisagree,
    /// A length is 2^15 or more, the header has fewer than two words, or the codes aren't from 0 to
    /// 255.
    BadRange,
    /// The table of widths, heights, depths or italic corrections is empty.
    EmptyTable,
    /// A character's index is past its table, or its program past the ligature words.
    IndexPast,
    /// The first word of a table of widths, heights, depths or italic corrections isn't 0.
    NotZeroFirst,
    /// A size isn't from -16 to 16 times the design size.
    BadFix,
    /// A ligature word leads past the ligature words or names a kern past the kerns.
    LigPast,
    /// A ligature word names a character that the font doesn't have.
    NoSuchChar,
    /// The design size is below 1pt.
    DesignTooSmall,
}

impl TfmFaultKind {
    /// The number of the kind, from 1 to 10.
    pub fn number(self) -> u8
        ensures { result ≡ number_of self }
    {
        match self {
            TfmFaultKind::Short => 1,
            TfmFaultKind::LengthsDisagree => 2,
            TfmFaultKind::BadRange => 3,
            TfmFaultKind::EmptyTable => 4,
            TfmFaultKind::IndexPast => 5,
            TfmFaultKind::NotZeroFirst => 6,
            TfmFaultKind::BadFix => 7,
            TfmFaultKind::LigPast => 8,
            TfmFaultKind::NoSuchChar => 9,
            TfmFaultKind::DesignTooSmall => 10,
        }
    }
}

/// Why no font was read.
#[derive(Clone, Copy, Debug, PartialEq, Eq)]
pub enum TfmFault {
    /// Memory ran out.
    NoMemory,
    /// The first check that failed, and the number of the word that it failed at: words of four
    /// bytes, counted from 0. For `Short` it is the count of whole words.
    At { kind: TfmFaultKind, word: u32 },
}

impl fmt::Display for TfmFault {
    fn fmt<W: fmt::Write>(&self, f: &mut fmt::Formatter<W>) -> fmt::Result {
        match self {
            TfmFault::NoMemory => write!(f, "no memory"),
            TfmFault::At { kind, word } => {
                let number = kind.number();
                write!(f, "fault {number} at word {word}")
            }
        }
    }
}

impl Error for TfmFault {}

impl From<AllocError> for TfmFault {
    ghost from_gives = { λ _ e. e ≡ NoMemory };

    fn from(_error: AllocError) -> TfmFault {
        TfmFault::NoMemory
    }
}

impl<T: Drop> From<AllocFailed<T>> for TfmFault {
    ghost from_gives = { λ _ e. e ≡ NoMemory };

    fn from(_error: AllocFailed<T>) -> TfmFault {
        TfmFault::NoMemory
    }
}

/// The fault of a check that failed at a word.
pub fn fault(kind: TfmFaultKind, word: usize) -> TfmFault
    requires { word < 2 ^ 32 }
    ensures { result ≡ At kind word }
{
    TfmFault::At {
        kind,
        word: word as u32,
    }
}

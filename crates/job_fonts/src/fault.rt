//! Why a font of a job can't be had.
ghost use Rattle.std.specs.Prelude.{◌≡◌};
ghost use Rattle.job_fonts.specs.declared.fault.FontFault.TheVariants.{NoMemory};
ghost use Rattle.job_fonts.specs.Faults.{font_fault_number, of_file, of_refusal};

use font_stock::FontRefused;
use std::alloc::{AllocError, AllocFailed};
use std::error::Error;
use std::fmt;
use tfm_read::{TfmFault, TfmFaultKind};

/// What is wrong with a font.
#[derive(Clone, Copy, Debug, PartialEq, Eq)]
pub enum FontFaultKind {
    /// Its file is no TFM file: this check failed.
    Tfm { kind: TfmFaultKind },
    /// Its size is 2^27 sp or more.
    SizePast,
    /// A character is too wide at the greatest stretch.
    WidePast,
    /// A kern is too wide at the greatest stretch.
    WideKern,
}

impl FontFaultKind {
    /// The number of the kind, from 1 to 13: those of a file's checks, then the size, a character
    /// and a kern.
    pub fn number(self) -> u8
        ensures { result ≡ font_fault_number self }
    {
        match self {
            FontFaultKind::Tfm { kind } => kind.number(),
            FontFaultKind::SizePast => 11,
            FontFaultKind::WidePast => 12,
            FontFaultKind::WideKern => 13,
        }
    }
}

/// Why a font of a job wasn't read.
#[derive(Clone, Copy, Debug, PartialEq, Eq)]
pub enum FontFault {
    /// Its first fault, and the word of the file that has it, 0 where it is no fault of the file.
    At { kind: FontFaultKind, word: u32 },
    /// Want of memory.
    NoMemory,
}

impl fmt::Display for FontFault {
    fn fmt<W: fmt::Write>(&self, f: &mut fmt::Formatter<W>) -> fmt::Result {
        match self {
            FontFault::At { kind, word } => {
                write!(f, "font fault {} at word {word}", kind.number())
            }
            FontFault::NoMemory => write!(f, "no memory"),
        }
    }
}

impl Error for FontFault {}

impl From<AllocError> for FontFault {
    ghost from_gives = { λ _ e. e ≡ NoMemory };

    fn from(_error: AllocError) -> FontFault {
        FontFault::NoMemory
    }
}

impl<T: Drop> From<AllocFailed<T>> for FontFault {
    ghost from_gives = { λ _ e. e ≡ NoMemory };

    fn from(_error: AllocFailed<T>) -> FontFault {
        FontFault::NoMemory
    }
}

impl From<TfmFault> for FontFault {
    ghost from_gives = { λ error fault. fault ≡ of_file error };

    fn from(error: TfmFault) -> FontFault {
        match error {
            TfmFault::At { kind, word } => FontFault::At {
                kind: FontFaultKind::Tfm { kind },
                word,
            },
            TfmFault::NoMemory => FontFault::NoMemory,
        }
    }
}

impl From<FontRefused> for FontFault {
    ghost from_gives = { λ error fault. fault ≡ of_refusal error };

    fn from(error: FontRefused) -> FontFault {
        let kind = match error {
            FontRefused::SizePast { .. } => FontFaultKind::SizePast,
            FontRefused::WidePast { .. } => FontFaultKind::WidePast,
            FontRefused::WideKern { .. } => FontFaultKind::WideKern,
            FontRefused::NoMemory => return FontFault::NoMemory,
        };
        FontFault::At { kind, word: 0 }
    }
}

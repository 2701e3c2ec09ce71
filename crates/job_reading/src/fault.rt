//! The faults of a job, each with its number and its place.
//!
//! A rule that finds no room for its list answers want of memory in place of a fault.
ghost use Rattle.std.specs.Prelude.{◌≡◌};
ghost use Rattle.job_reading.specs.Faults.{fault_number, job_kind};

use job_lex::LexFaultKind;
use micro_num::NoMemory;
use std::alloc::{AllocError, AllocFailed};
use std::error::Error;
use std::fmt;

/// Which fault a job has.
#[derive(Clone, Copy, Debug, PartialEq, Eq)]
pub enum JobFaultKind {
    /// 1: a word or symbol that has no meaning where it stands.
    UnknownWord,
    /// 2: no digit or constant where a number or a dimension must begin.
    NumberExpected,
    /// 3: a number past its range.
    NumberPast,
    /// 4: no unit behind a dimension's digits.
    UnitExpected,
    /// 5: a size of 2^30 sp or more.
    DimensionTooLarge,
    /// 6: an infinite amount behind `minus`.
    InfiniteShrink,
    /// 7: a declaration or a parameter in a paragraph.
    AssignmentInParagraph,
    /// 8: no declared font word behind a word that wants one.
    FontNotDeclared,
    /// 9: a pattern that breaks its rules.
    BadPattern,
    /// 10: an exception that breaks its rules.
    BadException,
    /// 11: a paragraph or the file ends in a group.
    UnclosedGroup,
    /// 12: a 33rd font.
    TooManyFonts,
    /// 13: a 65,536th paragraph.
    TooManyParagraphs,
    /// 14: an expansion of more than 128 steps.
    TooManyCells,
    /// 15: text with no current font.
    NoFont,
    /// 16: a byte that no token may hold.
    BadByte,
    /// 17: a backslash that begins no word or symbol.
    LoneBackslash,
    /// 18: a bare `$`, `&`, `#`, `^` or `_`.
    SpecialByte,
    /// 19: a declaration after the first paragraph.
    LateDeclaration,
    /// 20: a font word that has a meaning already, or a second expansion of a font.
    NameTaken,
    /// 21: no word behind `\font`, or a file name of no or more than 40 bytes.
    BadName,
    /// 22: a closing brace with no group open.
    StrayBrace,
    /// 23: a token that may not stand in a group of `\discretionary`.
    BadDiscretionary,
    /// 24: no group behind a word that wants one.
    GroupExpected,
}

impl JobFaultKind {
    /// Its number, 1 to 24.
    pub fn number(self) -> u8
        ensures { result ≡ fault_number self }
    {
        match self {
            JobFaultKind::UnknownWord => 1,
            JobFaultKind::NumberExpected => 2,
            JobFaultKind::NumberPast => 3,
            JobFaultKind::UnitExpected => 4,
            JobFaultKind::DimensionTooLarge => 5,
            JobFaultKind::InfiniteShrink => 6,
            JobFaultKind::AssignmentInParagraph => 7,
            JobFaultKind::FontNotDeclared => 8,
            JobFaultKind::BadPattern => 9,
            JobFaultKind::BadException => 10,
            JobFaultKind::UnclosedGroup => 11,
            JobFaultKind::TooManyFonts => 12,
            JobFaultKind::TooManyParagraphs => 13,
            JobFaultKind::TooManyCells => 14,
            JobFaultKind::NoFont => 15,
            JobFaultKind::BadByte => 16,
            JobFaultKind::LoneBackslash => 17,
            JobFaultKind::SpecialByte => 18,
            JobFaultKind::LateDeclaration => 19,
            JobFaultKind::NameTaken => 20,
            JobFaultKind::BadName => 21,
            JobFaultKind::StrayBrace => 22,
            JobFaultKind::BadDiscretionary => 23,
            JobFaultKind::GroupExpected => 24,
        }
    }
}

/// A fault, and the place of the byte that it names.
#[derive(Clone, Copy, Debug, PartialEq, Eq)]
pub struct Fault {
    /// The place in the file.
    pub offset: u32,
    /// What is wrong there.
    pub kind: JobFaultKind,
}

/// Why no job was read.
#[derive(Clone, Copy, Debug, PartialEq, Eq)]
pub enum JobFault {
    /// The job has a fault, of which this is the first.
    At {
        /// The place in the file.
        offset: u32,
        /// What is wrong there.
        kind: JobFaultKind,
    },
    /// Want of memory.
    NoMemory,
}

impl Error for JobFault {}

impl fmt::Display for JobFault {
    fn fmt<W: fmt::Write>(&self, f: &mut fmt::Formatter<W>) -> fmt::Result {
        match self {
            JobFault::At { offset, kind } => {
                let number = kind.number();
                write!(f, "offset {offset}: fault {number}")
            }
            JobFault::NoMemory => write!(f, "no memory"),
        }
    }
}

impl From<Fault> for JobFault {
    ghost use Rattle.std.specs.Prelude.{◌≡◌};
    ghost use Rattle.job_reading.specs.declared.fault.JobFault.TheVariants.{At};

    ghost from_gives = { λ fault e. e ≡ At fault.offset fault.kind };

    fn from(fault: Fault) -> JobFault {
        JobFault::At {
            offset: fault.offset,
            kind: fault.kind,
        }
    }
}

/// A fault of the tokens among the faults of a job.
pub(crate) fn job_kind(kind: LexFaultKind) -> JobFaultKind
    ensures { result ≡ job_kind kind }
{
    match kind {
        LexFaultKind::BadByte => JobFaultKind::BadByte,
        LexFaultKind::LoneBackslash => JobFaultKind::LoneBackslash,
        LexFaultKind::SpecialByte => JobFaultKind::SpecialByte,
    }
}

impl From<NoMemory> for JobFault {
    ghost use Rattle.std.specs.Prelude.{◌≡◌};
    ghost use Rattle.job_reading.specs.declared.fault.JobFault.TheVariants.{NoMemory as no_memory};

    ghost from_gives = { λ _ e. e ≡ no_memory };

    fn from(_error: NoMemory) -> JobFault {
        JobFault::NoMemory
    }
}

impl From<AllocError> for JobFault {
    ghost use Rattle.std.specs.Prelude.{◌≡◌};
    ghost use Rattle.job_reading.specs.declared.fault.JobFault.TheVariants.{NoMemory};

    ghost from_gives = { λ _ e. e ≡ NoMemory };

    fn from(_error: AllocError) -> JobFault {
        JobFault::NoMemory
    }
}

impl<T: Drop> From<AllocFailed<T>> for JobFault {
    ghost use Rattle.std.specs.Prelude.{◌≡◌};
    ghost use Rattle.job_reading.specs.declared.fault.JobFault.TheVariants.{NoMemory};

    ghost from_gives = { λ _ e. e ≡ NoMemory };

    fn from(_error: AllocFailed<T>) -> JobFault {
        JobFault::NoMemory
    }
}

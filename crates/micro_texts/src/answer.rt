//! What a run answers.
ghost use Rattle.std.specs.Prelude.{◌≡◌};
ghost use Rattle.micro_texts.specs.Status.{status_of};
ghost use Rattle.micro_texts.specs.declared.answer.Answer.TheVariants.{NoMemory};

use job_fonts::FontFaultKind;
use job_reading::JobFaultKind;
use para_workers::ParAt;
use std::alloc::{AllocError, AllocFailed};

/// How a run ended. File 0 is the job, and file f + 1 is font f.
#[derive(Clone, Copy, Debug, PartialEq, Eq)]
pub enum Answer {
    /// The command was carried out.
    Done,
    /// The job's first fault, and its place in the file, in bytes from 0.
    Job {
        offset: u32,
        kind: JobFaultKind,
    },
    /// The first font of the job, counted from 0 in the order of declaration, that can't be had:
    /// why, and the word of its file that is at fault, 0 where it is none of the file.
    Font {
        font: u32,
        kind: FontFaultKind,
        word: u32,
    },
    /// The first paragraph that can't be set, and why. Want of memory is none of these reasons.
    Par {
        at: ParAt,
    },
    /// The output would have this many bytes, 2^31 or more.
    DviTooLong {
        bytes: u64,
    },
    /// The words are no command.
    BadWords,
    /// The shelf has no such file.
    Absent {
        file: u32,
    },
    /// The shelf failed to read the file.
    ReadFault {
        file: u32,
    },
    /// The output failed.
    OutFault,
    /// What is told couldn't be written.
    TalkFault,
    /// Want of memory.
    NoMemory,
    /// The file has more than 16,777,216 bytes.
    FileTooLong {
        file: u32,
    },
}

impl Answer {
    /// The status that a program ends with, from 0 to 8.
    pub fn status(self) -> u8
        ensures { result ≡ status_of self }
    {
        match self {
            Answer::Done => 0,
            Answer::Job { .. } => 1,
            Answer::Font { .. } => 1,
            Answer::Par { .. } => 1,
            Answer::DviTooLong { .. } => 1,
            Answer::BadWords => 2,
            Answer::Absent { .. } => 3,
            Answer::ReadFault { .. } => 4,
            Answer::OutFault => 5,
            Answer::TalkFault => 6,
            Answer::NoMemory => 7,
            Answer::FileTooLong { .. } => 8,
        }
    }
}

impl From<AllocError> for Answer {
    ghost from_gives = { λ _ e. e ≡ NoMemory };

    fn from(_error: AllocError) -> Answer {
        Answer::NoMemory
    }
}

impl<T: Drop> From<AllocFailed<T>> for Answer {
    ghost from_gives = { λ _ e. e ≡ NoMemory };

    fn from(_error: AllocFailed<T>) -> Answer {
        Answer::NoMemory
    }
}

impl From<micro_num::NoMemory> for Answer {
    ghost from_gives = { λ _ e. e ≡ NoMemory };

    fn from(_error: micro_num::NoMemory) -> Answer {
        Answer::NoMemory
    }
}

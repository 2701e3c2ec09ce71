//! What becomes of a job once its fonts are read.
ghost use Rattle.std.specs.Prelude.{◌≡◌, ◌≤◌, IfOk, length};
ghost use Rattle.job_text.specs.Fits.{JobFits};
ghost use Rattle.micro_document.specs.Document.{finish_of};
ghost use Rattle.micro_document.specs.Making.{IsMadeBy, Settles};

use crate::breaking::break_job;
use crate::crew::Crew;
use crate::made::Made;
use crate::setting::set_job;
use font_stock::Stock;
use job_text::Job;
use micro_texts::Answer;
use outside_io::Gate;
use std::alloc::Global;
use std::thread::Threads;

/// What a command that reads a job makes of it.
#[derive(Clone, Copy)]
pub enum Task {
    /// Its DVI file and, if that is wanted, the report.
    Set { report: bool },
    /// The lines that tell how its paragraphs are broken.
    Breaks,
}

impl Task {
    /// What it makes of a job with its fonts.
    pub(crate) fn finish<R: Threads + Sync, G: Gate + Sync>(
        self,
        crew: &Crew<R, G>,
        alloc: Global,
        job: Job,
        stock: &Stock,
    ) -> Result<Made, Answer>
        requires some { 1 ≤ crew.now.workers }
        requires few { crew.now.workers ≤ 64 }
        requires fits { JobFits job }
        requires count { length stock.now ≡ length job.fonts }
        ensures settles { Settles (finish_of self job stock.now) result }
        ensures workers { IfOk result (IsMadeBy crew.now.workers) }
    {
        match self {
            Task::Set { report } => set_job(crew, alloc, job, stock, report),
            Task::Breaks => break_job(alloc, job, stock),
        }
    }
}

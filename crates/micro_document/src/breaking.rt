//! Breaks a job: its paragraphs as the lines that tell how they are broken.
ghost use Rattle.std.specs.Prelude.{◌≡◌, IfOk, None, length};
ghost use Rattle.job_text.specs.Fits.{JobFits};
ghost use Rattle.micro_document.specs.Breaking.{breaks_outcome};
ghost use Rattle.micro_document.specs.Making.{Settles};

use crate::made::Made;
use font_stock::Stock;
use items::Items;
use job_breaks::break_pars;
use job_text::Job;
use liang_hyph::Patterns;
use micro_texts::Answer;
use para_workers::SetFault;
use std::alloc::Global;

/// The lines that tell how the paragraphs of a job are broken, or the first that can't be.
pub(crate) fn break_job(alloc: Global, job: Job, stock: &Stock) -> Result<Made, Answer>
    requires fits { JobFits job }
    requires count { length stock.now ≡ length job.fonts }
    ensures settles { Settles (breaks_outcome job stock.now) result }
    ensures closed { IfOk result (λ made. made.closed ≡ None) }
{
    let table = Patterns::make(alloc, job.patterns.as_slice(), job.exceptions.as_slice())?;
    match break_pars(alloc, job.pars.as_slice(), &job.tables, &table, stock) {
        Ok(talk) => Ok(Made {
            out: Items::new(alloc),
            talk,
            closed: None,
        }),
        Err(SetFault::Par { at }) => Err(Answer::Par { at }),
        Err(SetFault::NoMemory) => Err(Answer::NoMemory),
    }
}

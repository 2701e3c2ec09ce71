//! Sets a job: its paragraphs as pages, and these as a DVI file.
ghost use Rattle.std.specs.Prelude.{◌≡◌, ◌≤◌, ◌<◌, ◌^◌, All, IfOk, IfErr, OnOk, Some, length};
ghost use Rattle.dvi_write.specs.Document.{dvi};
ghost use Rattle.job_dvi.specs.Rows.{rows_of};
ghost use Rattle.job_text.specs.Fits.{IsFileName, JobFits};
ghost use Rattle.job_text.specs.declared.font_decl.FontDecl.{FontDecl};
ghost use Rattle.para_workers.specs.Fitting.{IsPageOver};
ghost use Rattle.micro_document.specs.Making.{IsMadeBy, Settles};
ghost use Rattle.micro_document.specs.Setting.{RefusesLength, reports_of, set_outcome};

use crate::crew::Crew;
use crate::made::Made;
use crate::reports::reports;
use dvi_write::DviFault;
use font_stock::Stock;
use items::Items;
use job_dvi::job_bytes;
use job_text::{FontDecl, Job};
use micro_texts::Answer;
use outside_io::Gate;
use para_threads::{SetJob, set_all};
use para_workers::SetFault;
use std::alloc::Global;
use std::thread::Threads;

/// The fonts that a job declares. The rest of it is let go.
fn fonts_of(job: Job) -> Items<FontDecl>
    ensures { result ≡ job.fonts }
{
    let Job { fonts, .. } = job;
    fonts
}

/// The DVI file of pages in fonts that were declared and, if it is wanted, the report; or how long
/// the file is.
fn file_of(
    alloc: Global,
    fonts: &[FontDecl],
    stock: &Stock,
    set: SetJob,
    report: bool,
) -> Result<Made, Answer>
    requires same { length fonts.now ≡ length stock.now }
    requires names { All (λ (decl : FontDecl). IsFileName decl.name) fonts.now }
    requires few { length set.pages ≤ 65535 }
    requires over { All (IsPageOver stock.now) set.pages }
    ensures out { IfOk result (λ made.
        made.out ≡ dvi (rows_of fonts.now stock.now) set.pages) }
    ensures talk { IfOk result (λ made. made.talk
        ≡ reports_of report set.pages (dvi (rows_of fonts.now stock.now) set.pages)) }
    ensures closed { IfOk result (λ made. made.closed ≡ Some set.closed) }
    ensures within { OnOk result (length (dvi (rows_of fonts.now stock.now) set.pages) < 2 ^ 31) }
    ensures fault { IfErr result (RefusesLength
        (length (dvi (rows_of fonts.now stock.now) set.pages))) }
{
    let SetJob { pages, closed } = set;
    match job_bytes(alloc, fonts, stock, pages.as_slice()) {
        Ok(written) => {
            let talk = reports(alloc, report, pages.as_slice(), &written)?;
            Ok(Made {
                out: written.bytes,
                talk,
                closed: Some(closed),
            })
        }
        Err(DviFault::TooLong { bytes }) => Err(Answer::DviTooLong { bytes }),
        Err(DviFault::NoMemory) => Err(Answer::NoMemory),
    }
}

/// The DVI file of a job that workers set and, if that is wanted, the report; or the first
/// paragraph that can't be set, or how long the file is.
pub(crate) fn set_job<R: Threads + Sync, G: Gate + Sync>(
    crew: &Crew<R, G>,
    alloc: Global,
    job: Job,
    stock: &Stock,
    report: bool,
) -> Result<Made, Answer>
    requires some { 1 ≤ crew.now.workers }
    requires few { crew.now.workers ≤ 64 }
    requires fits { JobFits job }
    requires count { length stock.now ≡ length job.fonts }
    ensures settles { Settles (set_outcome report job stock.now) result }
    ensures workers { IfOk result (IsMadeBy crew.now.workers) }
{
    let set = match set_all(crew.rt, alloc, &job, stock, crew.workers, crew.gate) {
        Ok(set) => set,
        Err(SetFault::Par { at }) => return Err(Answer::Par { at }),
        Err(SetFault::NoMemory) => return Err(Answer::NoMemory),
    };
    let fonts = fonts_of(job);
    file_of(alloc, fonts.as_slice(), stock, set, report)
}

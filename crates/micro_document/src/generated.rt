//! A generated document: its job and the one file of its fonts are made in memory.
ghost use Rattle.std.specs.Prelude.{◌≡◌, ◌≤◌, ◌<◌, length, IfOk, IfErr};
ghost use Rattle.job_text.specs.Fits.{JobFits};
ghost use Rattle.micro_document.specs.Document.{GenFrom};
ghost use Rattle.micro_document.specs.Making.{IsMadeBy, SettlesSome};
ghost use Rattle.micro_document.specs.Steps.{GivesFonts, RefusesFonts};

use crate::command::job_of;
use crate::crew::Crew;
use crate::fonts::font_answer;
use crate::made::Made;
use crate::setting::set_job;
use font_stock::Stock;
use items::Items;
use job_fonts::read_font;
use job_text::Job;
use micro_texts::Answer;
use micro_words::{gen_font, gen_job};
use outside_io::Gate;
use std::alloc::Global;
use std::thread::Threads;

/// The fonts of a job that all have the same file, or the first that can't be had.
fn given_fonts(alloc: Global, job: &Job, bytes: &[u8]) -> Result<Stock, Answer>
    requires { JobFits job.now }
    ensures gives { IfOk result (GivesFonts job.now bytes.now) }
    ensures count { IfOk result (λ stock. length stock ≡ length job.now.fonts) }
    ensures refuses { IfErr result (RefusesFonts job.now bytes.now) }
{
    let mut fonts = Vec::new(alloc);
    for decl in job.fonts.as_slice() {
        let font = match read_font(alloc, decl, bytes) {
            Ok(font) => font,
            Err(fault) => return Err(font_answer(fonts.len() as u32, fault)),
        };
        fonts.push(font)?;
    }
    Ok(Stock::make(fonts))
}

/// The report of the generated document of so many paragraphs, from 1 to 20000.
pub(crate) fn generated<R: Threads + Sync, G: Gate + Sync>(
    crew: &Crew<R, G>,
    alloc: Global,
    number: u32,
) -> Result<Made, Answer>
    requires one { 1 ≤ crew.now.workers }
    requires most { crew.now.workers ≤ 64 }
    requires some { 1 ≤ number }
    requires few { number ≤ 20000 }
    ensures settles { SettlesSome (GenFrom number) result }
    ensures workers { IfOk result (IsMadeBy crew.now.workers) }
{
    let job = job_of(alloc, Items::from_vec(gen_job(alloc, number)?))?;
    let bytes = gen_font(alloc)?;
    let stock = given_fonts(alloc, &job, bytes.as_slice())?;
    let Made {
        out: _out,
        talk,
        closed,
    } = set_job(crew, alloc, job, &stock, true)?;
    Ok(Made {
        out: Items::new(alloc),
        talk,
        closed,
    })
}

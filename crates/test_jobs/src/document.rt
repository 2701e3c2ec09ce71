//! A job with its table of patterns and its fonts.
ghost use Rattle.std.specs.Prelude.{◌≡◌, ◌≤◌, All, IfOk, length};
ghost use Rattle.font_stock.specs.Sizes.{IsSize};
ghost use Rattle.job_text.specs.Fits.{JobFits};
ghost use Rattle.job_text.specs.declared.font_decl.FontDecl.{FontDecl};
ghost use Rattle.para_workers.specs.Pages.{IsSettable};

use anyhow::bail;
use font_stock::Stock;
use job_fonts::read_font;
use job_text::{FontDecl, Job, read_job};
use liang_hyph::Patterns;
use para_workers::paragraphs_of_a_job_can_be_set;
use std::alloc::Global;

/// A job, the table of its patterns and exceptions, and its fonts in the order of declaration.
#[derive(Drop)]
pub struct Document {
    pub job: Job,
    pub patterns: Patterns,
    pub stock: Stock,
}

/// The fonts of some declarations, all of which have the same file.
fn fonts_of(alloc: Global, decls: &[FontDecl], file: &[u8]) -> anyhow::Result<Stock>
    requires few { length decls.now ≤ 32 }
    requires sizes { All (λ (decl : FontDecl). IsSize decl.size) decls.now }
    ensures { IfOk result (λ stock. length stock ≡ length decls.now) }
{
    let mut fonts = Vec::with_capacity(alloc, decls.len())?;
    for decl in decls {
        fonts.push(read_font(alloc, decl, file)?)?;
    }
    Ok(Stock::make(fonts))
}

/// A job with its fonts, all of which have the same file.
pub fn read_document(alloc: Global, job: &[u8], file: &[u8]) -> anyhow::Result<Document>
    ensures fits { IfOk result (λ document. JobFits document.job) }
    ensures fonts { IfOk result (λ document.
        length document.stock ≡ length document.job.fonts) }
    ensures settable { IfOk result (λ document.
        All (IsSettable (length document.stock)) document.job.pars) }
{
    if job.len() >= 1 << 32 {
        bail!("a long job");
    }
    paragraphs_of_a_job_can_be_set();
    let job = read_job(alloc, job)?;
    let stock = fonts_of(alloc, job.fonts.as_slice(), file)?;
    let patterns = Patterns::make(alloc, job.patterns.as_slice(), job.exceptions.as_slice())?;
    Ok(Document {
        job,
        patterns,
        stock,
    })
}

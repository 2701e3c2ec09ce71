//! The report of a document that was set.
ghost use Rattle.std.specs.Prelude.{◌≡◌, IfOk};
ghost use Rattle.renumber.specs.Uses.{cells_of_pages, first_uses};
ghost use Rattle.micro_document.specs.Setting.{reports_of};

use instance_core::Page;
use items::{Items, Text};
use job_dvi::Written;
use micro_num::NoMemory;
use micro_texts::{report_of, report_text};
use std::alloc::Global;

/// The report of pages and of their file as the texts for talk: none where it isn't wanted.
pub(crate) fn reports(
    alloc: Global,
    report: bool,
    pages: &[Page],
    written: &Written,
) -> Result<Items<Text>, NoMemory>
    requires { written.now.numbering ≡ first_uses (cells_of_pages pages.now) }
    ensures { IfOk result (λ texts. texts ≡ reports_of report pages.now written.now.bytes) }
{
    let mut texts = Items::new(alloc);
    if report {
        let bytes = written.bytes.len() as u64;
        let found = report_of(pages, written.numbering.cells(), bytes);
        texts.push(report_text(alloc, &found)?)?;
    }
    Ok(texts)
}

//! The pages of a job, set over a source that computes each width, and when two pages are the same.
ghost use Rattle.std.specs.Prelude.{◌≡◌, All, length, map};
ghost use Rattle.hpack_two.specs.Over.{base_of};
ghost use Rattle.para_workers.specs.Pages.{IsSettable};

use hlist_build::ParFault;
use instance_core::{Packed, Page, PageLine, WidthSource};
use micro_num::Par;
use para_workers::set_par;
use std::alloc::Global;
use test_jobs::Document;

/// Whether two set lines have the same glyphs at the same places, and the same size.
fn same_line(one: &Packed, other: &Packed) -> bool {
    one.glyphs.as_slice() == other.glyphs.as_slice()
        && one.height == other.height
        && one.depth == other.depth
        && one.width == other.width
}

/// Whether two lines stand on the same baseline and are the same.
fn same_placed(one: &PageLine, other: &PageLine) -> bool {
    one.baseline == other.baseline && same_line(&one.line, &other.line)
}

/// Whether two pages have the same lines on the same baselines, and the same size.
pub fn same_page(one: &Page, other: &Page) -> bool {
    let lines = one.lines.as_slice();
    let others = other.lines.as_slice();
    if lines.len() != others.len() {
        return false;
    }
    for index in 0..lines.len() {
        if !same_placed(&lines[index], &others[index]) {
            return false;
        }
    }
    one.extent == other.extent && one.width == other.width
}

/// The pages of a job over a source, which must have none of its paragraphs refused.
pub fn plain_pages<W: WidthSource>(
    alloc: Global,
    document: &Document,
    source: &mut W,
) -> Result<Vec<Page>, ParFault>
    requires settable { All (IsSettable (length document.now.stock)) document.now.job.pars }
    requires bases { W.bases source.old ≡ map base_of document.now.stock }
{
    let mut pages = Vec::with_capacity(alloc, document.job.pars.len())?;
    for par in document.job.pars.as_slice() {
        let page = set_par(
            alloc,
            par,
            &document.job.tables,
            &document.patterns,
            &document.stock,
            source,
        )?;
        pages.push(page)?;
    }
    Ok(pages)
}

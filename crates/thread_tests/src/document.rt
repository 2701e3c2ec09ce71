//! What a job and its fonts come to by workers.
ghost use Rattle.std.specs.Prelude.{◌≡◌, ◌≤◌, length};
ghost use Rattle.job_text.specs.Fits.{JobFits};

use instance_core::Page;
use instance_table::Closed;
use items::Items;
use job_dvi::{Written, job_bytes};
use outside_io::Gate;
use para_threads::{SetJob, set_all};
use std::alloc::Global;
use std::thread::Threads;
use test_jobs::Document;

/// What a document came to: its pages, the receipt of the table of instances, and the DVI file with
/// the numbering of its fonts.
#[derive(Drop)]
pub struct SetDocument {
    pub pages: Items<Page>,
    pub closed: Closed,
    pub written: Written,
}

/// Sets a document by so many workers, and writes its file.
pub fn set_document<R: Threads + Sync, G: Gate + Sync>(
    rt: &R,
    alloc: Global,
    document: &Document,
    workers: u32,
    gate: &G,
) -> anyhow::Result<SetDocument>
    requires fits { JobFits document.now.job }
    requires fonts { length document.now.stock ≡ length document.now.job.fonts }
    requires some { 1 ≤ workers }
    requires few { workers ≤ 64 }
{
    let job = &document.job;
    let stock = &document.stock;
    let SetJob { pages, closed } = set_all(rt, alloc, job, stock, workers, gate)?;
    let written = job_bytes(alloc, job.fonts.as_slice(), stock, pages.as_slice())?;
    Ok(SetDocument {
        pages,
        closed,
        written,
    })
}

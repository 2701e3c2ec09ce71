//! A job that workers set beside one another, each in a thread of its own.
ghost use Rattle.std.specs.Prelude.{◌≡◌, ◌+◌, ◌≤◌, All, IfOk, length, map};
ghost use Rattle.hpack_two.specs.Over.{base_of};
ghost use Rattle.job_text.specs.Fits.{JobFits};
ghost use Rattle.para_workers.specs.Fitting.{IsPageOver};
ghost use Rattle.para_workers.specs.Pages.{pages_of};
ghost use Rattle.para_threads.specs.SetJobs.{IsOwnedBy, Owns, SetsJob};
ghost use Rattle.para_threads.specs.Slots.{IsSlotOver, pages_in, slot_of};
ghost use Rattle.renumber.specs.Uses.{used};

use crate::crew::crew;
use crate::slots::{Slot, in_order};
use font_stock::Stock;
use hpack_two::bases_of;
use instance_core::Page;
use instance_table::{Closed, InstanceTable};
use items::Items;
use job_text::Job;
use liang_hyph::Patterns;
use micro_num::NoMemory;
use outside_io::Gate;
use para_workers::SetFault;
use std::alloc::Global;
use std::thread::Threads;

/// A job that was set.
#[derive(Drop)]
pub struct SetJob {
    /// The pages of its paragraphs, in order.
    pub pages: Items<Page>,
    /// The receipt of the table of instances over which they were set.
    pub closed: Closed,
}

/// What became of each paragraph, in the slot of its place, and the receipt of the table.
#[derive(Drop)]
struct SetSlots {
    slots: Vec<Slot>,
    closed: Closed,
}

/// Sets the paragraphs of a job by so many workers over one table, and closes it. It fails only for
/// want of memory.
fn set_slots<R: Threads + Sync, G: Gate + Sync>(
    rt: &R,
    alloc: Global,
    job: &Job,
    stock: &Stock,
    workers: u32,
    gate: &G,
) -> Result<SetSlots, NoMemory>
    requires job { JobFits job.now }
    requires fonts { length stock.now ≡ length job.now.fonts }
    requires some { 1 ≤ workers }
    requires few { workers ≤ 64 }
    ensures slots { IfOk result (λ set. set.slots.items
        ≡ map (slot_of job.now stock.now) job.now.pars) }
    ensures over { IfOk result (λ set. All (IsSlotOver stock.now) set.slots.items) }
    ensures bases { IfOk result (λ set. set.closed.bases ≡ map base_of stock.now) }
    ensures seats { IfOk result (λ set. set.closed.seats ≡ workers + 1) }
    ensures cells { IfOk result (λ set. Owns (map base_of stock.now)
        (pages_in 1 set.slots.items) set.closed.owners) }
    ensures owners { IfOk result (λ set. All (IsOwnedBy workers) set.closed.owners) }
{
    let patterns = Patterns::make(alloc, job.patterns.as_slice(), job.exceptions.as_slice())?;
    let bases = bases_of(alloc, stock)?;
    let (table, mut first) = InstanceTable::make(alloc, &bases, job.pars.len() as u32)?;
    let slots = crew(
        rt, alloc, job, &patterns, stock, &table, &mut first, workers, gate,
    )?;
    let Ok(closed) = table.close(alloc, first) else {
        return Err(NoMemory);
    };
    Ok(SetSlots { slots, closed })
}

/// Sets the paragraphs of a job by so many workers, from 1 to 64, over one table of the instances
/// of its fonts, which stand in the stock in the order of their declaration. Each worker runs
/// [`work`](crate::work) in a thread of its own, with the seat of its number, from 1. What comes
/// out is the same for any number of them, in any order of their steps.
///
/// Where a paragraph can't be set, the first such paragraph is told, counted from 1, as
/// [`SetFault::Par`]. Besides, there is [`SetFault::NoMemory`]. Each page fits the stock.
///
/// The table is closed: its fonts are those of the stock, its seats one more than the workers, and
/// its owners the instances that the pages use, in cell order, each once with the worker that built
/// it.
pub fn set_all<R: Threads + Sync, G: Gate + Sync>(
    rt: &R,
    alloc: Global,
    job: &Job,
    stock: &Stock,
    workers: u32,
    gate: &G,
) -> Result<SetJob, SetFault>
    requires job { JobFits job.now }
    requires fonts { length stock.now ≡ length job.now.fonts }
    requires some { 1 ≤ workers }
    requires few { workers ≤ 64 }
    ensures pages { SetsJob (pages_of job.now stock.now) result }
    ensures over { IfOk result (λ set. All (IsPageOver stock.now) set.pages) }
    ensures count { IfOk result (λ set. length set.pages ≡ length job.now.pars) }
    ensures bases { IfOk result (λ set. set.closed.bases ≡ map base_of stock.now) }
    ensures seats { IfOk result (λ set. set.closed.seats ≡ workers + 1) }
    ensures cells { IfOk result (λ set. map (λ owner. owner.cell) set.closed.owners
        ≡ used (map base_of stock.now) set.pages) }
    ensures owners { IfOk result (λ set. All (IsOwnedBy workers) set.closed.owners) }
{
    let Ok(SetSlots { slots, closed }) = set_slots(rt, alloc, job, stock, workers, gate) else {
        return Err(SetFault::NoMemory);
    };
    let pages = in_order(alloc, slots)?;
    Ok(SetJob { pages, closed })
}

//! Slots, in which what became of paragraphs is put in the order of the job.
ghost use Rattle.std.specs.Prelude.{◌≡◌, ◌<◌, ◌≤◌, All, IfOk, Some, slice_set, vec_len};
ghost use Rattle.para_workers.specs.Pages.{SetsPages};
ghost use Rattle.para_threads.specs.Slots.{IsFull, filled, pages_in};

use crate::done::DoneAt;
use hlist_build::ParFault;
use instance_core::Page;
use items::Items;
use micro_num::NoMemory;
use para_workers::{ParAt, SetFault};
use std::alloc::Global;

/// A place for what became of a paragraph.
pub(crate) type Slot = Option<Result<Page, ParFault>>;

/// Slots for so many paragraphs.
pub(crate) fn blank_slots(alloc: Global, count: usize) -> Result<Vec<Slot>, NoMemory>
    ensures { IfOk result (λ slots. vec_len slots ≡ count) }
{
    let mut slots = Vec::with_capacity(alloc, count)?;
    for _ in 0..count {
        slots.push(None)?;
    }
    Ok(slots)
}

/// Puts what became of a paragraph at its place.
fn put(slots: &mut Vec<Slot>, place: u32, page: Result<Page, ParFault>)
    requires { place < vec_len slots.old }
    ensures items { slots.new.items ≡ slice_set slots.old.items place (Some page) }
    ensures length { vec_len slots.new ≡ vec_len slots.old }
{
    slots[place as usize] = Some(page);
}

/// Puts what became of each paragraph at its place.
pub(crate) fn fill(slots: &mut Vec<Slot>, done: Vec<DoneAt>)
    requires { All (λ one. one.place < vec_len slots.old) done.items }
    ensures filled { slots.new.items ≡ filled slots.old.items done.items }
    ensures length { vec_len slots.new ≡ vec_len slots.old }
{
    for one in done {
        let DoneAt { place, page } = one;
        put(slots, place, page);
    }
}

/// The pages in order, or the first paragraph that has none.
pub(crate) fn in_order(alloc: Global, slots: Vec<Slot>) -> Result<Items<Page>, SetFault>
    requires full { All IsFull slots.items }
    requires few { vec_len slots ≤ 65535 }
    ensures { SetsPages (pages_in 1 slots.items) result }
{
    let mut pages = Items::from_vec(Vec::with_capacity(alloc, slots.len())?);
    for slot in slots {
        let paragraph = pages.len() as u32 + 1;
        match slot {
            Some(Ok(page)) => pages.push(page)?,
            Some(Err(fault)) => {
                let at = ParAt { paragraph, fault };
                return Err(SetFault::Par { at });
            }
            None => unreachable!(),
        }
    }
    Ok(pages)
}

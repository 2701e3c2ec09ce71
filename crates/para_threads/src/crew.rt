//! Workers beside one another: their seats, and what they come back with.
ghost use Rattle.std.specs.Prelude.{◌≡◌, ◌+◌, ◌<◌, ◌≤◌, ◌++◌, All, IfOk, OnOk};
ghost use Rattle.std.specs.Prelude.{length, map, vec_len};
ghost use Rattle.hpack_two.specs.Over.{base_of};
ghost use Rattle.instance_table.specs.Closing.{IsAlone};
ghost use Rattle.instance_table.specs.Steps.{first_view};
ghost use Rattle.job_text.specs.Fits.{JobFits};
ghost use Rattle.liang_hyph.specs.Table.{IsMadeOf};
ghost use Rattle.para_threads.specs.Crews.{IsNew, IsWork, numbers, numbers_upto, seats_of};
ghost use Rattle.para_threads.specs.Gathering.{Gathered, HasPast};
ghost use Rattle.table_widths.specs.Widths.{IsIdle};

use crate::done::Work;
use crate::slots::{Slot, blank_slots, fill};
use crate::worker::work;
use font_stock::Stock;
use instance_table::{InstanceTable, Seat};
use job_text::Job;
use liang_hyph::Patterns;
use micro_num::NoMemory;
use outside_io::Gate;
use std::alloc::Global;
use std::thread;
use std::thread::Threads;

/// Seats 1 to the count, split off seat 0.
fn split_seats(
    table: &InstanceTable,
    alloc: Global,
    first: &mut Seat,
    count: u32,
) -> Result<Vec<Seat>, NoMemory>
    requires idle { IsIdle table.now first.old }
    requires view { first.old.view ≡ first_view table.now.bases table.now.draws }
    requires few { count ≤ 64 }
    ensures idle { OnOk result (IsIdle table.now first.new) }
    ensures view { OnOk result (first.new.view
        ≡ record (first_view table.now.bases table.now.draws) { made = count + 1 }) }
    ensures seats { IfOk result (λ seats. All (IsNew table.now) seats.items) }
    ensures numbers { IfOk result (λ seats. numbers seats.items ≡ numbers_upto count) }
{
    let mut seats = Vec::with_capacity(alloc, count as usize)?;
    for _ in 0..count {
        seats.push(table.split(alloc, first)?)?;
    }
    Ok(seats)
}

/// Joins the seats of workers to seat 0, and puts what they have done in the slots.
fn gather(
    table: &InstanceTable,
    first: &mut Seat,
    works: Vec<Work>,
    slots: &mut Vec<Slot>,
    _job: &Job,
    _stock: &Stock,
) -> Result<(), NoMemory>
    requires idle { IsIdle table.now first.old }
    requires number { first.old.view.number ≡ 0 }
    requires draws { table.now.draws ≡ length _job.now.pars }
    requires works { All (IsWork table.now _job.now _stock.now) works.items }
    requires some { 0 < vec_len works }
    requires slots { vec_len slots.old ≡ length _job.now.pars }
    requires gathered { Gathered _job.now _stock.now first.old.view slots.old.items }
    ensures idle { OnOk result (IsIdle table.now first.new) }
    ensures number { OnOk result (first.new.view.number ≡ 0) }
    ensures made { OnOk result (first.new.view.made ≡ first.old.view.made) }
    ensures joined { OnOk result (first.new.view.joined
        ≡ first.old.view.joined ++ numbers (seats_of works.items)) }
    ensures gathered { OnOk result (Gathered _job.now _stock.now first.new.view slots.new.items) }
    ensures past { OnOk result (HasPast (length _job.now.pars) first.new.view) }
    ensures length { OnOk result (vec_len slots.new ≡ length _job.now.pars) }
{
    for one in works {
        let Work { seat, done } = one;
        table.join(first, seat);
        fill(slots, done?);
    }
    Ok(())
}

/// So many workers draw the paragraphs of a job, each in a thread of its own, and their seats are
/// joined to seat 0. It gives what became of each paragraph, at its place, and fails only for want
/// of memory.
pub(crate) fn crew<R: Threads + Sync, G: Gate + Sync>(
    rt: &R,
    alloc: Global,
    job: &Job,
    patterns: &Patterns,
    stock: &Stock,
    table: &InstanceTable,
    first: &mut Seat,
    workers: u32,
    gate: &G,
) -> Result<Vec<Slot>, NoMemory>
    requires job { JobFits job.now }
    requires fonts { length stock.now ≡ length job.now.fonts }
    requires patterns { IsMadeOf patterns.now job.now.patterns job.now.exceptions }
    requires bases { table.now.bases ≡ map base_of stock.now }
    requires draws { table.now.draws ≡ length job.now.pars }
    requires idle { IsIdle table.now first.old }
    requires view { first.old.view ≡ first_view table.now.bases table.now.draws }
    requires some { 1 ≤ workers }
    requires few { workers ≤ 64 }
    ensures idle { OnOk result (IsIdle table.now first.new) }
    ensures number { OnOk result (first.new.view.number ≡ 0) }
    ensures made { OnOk result (first.new.view.made ≡ workers + 1) }
    ensures alone { OnOk result (IsAlone first.new.view) }
    ensures gathered { IfOk result (λ slots. Gathered job.now stock.now
        first.new.view slots.items) }
    ensures past { OnOk result (HasPast (length job.now.pars) first.new.view) }
    ensures length { IfOk result (λ slots. vec_len slots ≡ length job.now.pars) }
{
    let seats = split_seats(table, alloc, first, workers)?;
    let works = thread::map_vec(
        rt,
        seats,
        &|seat: Seat| -> Work
            requires { IsNew table.now seat × JobFits job.now
                × (length stock.now ≡ length job.now.fonts)
                × IsMadeOf patterns.now job.now.patterns job.now.exceptions
                × (table.now.bases ≡ map base_of stock.now)
                × (table.now.draws ≡ length job.now.pars) }
            ensures work { IsWork table.entry.now job.entry.now stock.entry.now result }
            ensures number { result.seat.view.number ≡ seat.view.number }
        {
            let number = seat.number();
            work(alloc, job, patterns, stock, table, seat, number, gate)
        },
    )?;
    let mut slots = blank_slots(alloc, job.pars.len())?;
    gather(table, first, works, &mut slots, job, stock)?;
    Ok(slots)
}

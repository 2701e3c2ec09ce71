//! What the threads do.
ghost use Rattle.std.specs.Prelude.{◌≡◌, ◌<◌, ◌≤◌, Contains};
ghost use Rattle.instance_table.specs.Places.{cell_count};
ghost use Rattle.table_races.specs.Crews.{IsIdle, IsFresh, Stays};

use instance_core::Bases;
use instance_table::{Claim, InstanceTable, Seat, Seen};
use micro_num::NoMemory;
use std::alloc::Global;
use std::thread;
use std::thread::Threads;
use table_races::{build, cells_of_table, claim_at, look_at, race, split_seats, wide_fonts};

/// A kind of work.
#[derive(Clone, Copy, Debug, PartialEq, Eq)]
pub enum Work {
    /// Tables are made, and their cells built in a race.
    Builds,
    /// Cells that are built are claimed, in vain.
    Claims,
    /// Widths of cells that are built are read.
    Loads,
}

/// Claims each cell, and builds it where it was won. It gives how many claims it made.
fn claim_each(table: &InstanceTable, cells: u32, seat: &mut Seat) -> u64
    requires fresh { IsFresh table.now seat.old }
    requires within { cells ≤ cell_count table.now.bases }
    ensures fresh { IsFresh table.now seat.new }
    ensures stays { Stays seat.old.view seat.new.view }
{
    let mut claims = 0u64;
    for cell in 0..cells {
        if let Claim::Won = claim_at(table, seat, cell) {
            build(table, seat);
        }
        claims += 1;
    }
    claims
}

/// Reads the widths of a built cell.
fn read_cell(table: &InstanceTable, seat: &mut Seat, cell: u32) -> u64
    requires fresh { IsFresh table.now seat.old }
    requires built { Contains seat.old.view.ready cell }
    ensures fresh { IsFresh table.now seat.new }
    ensures stays { Stays seat.old.view seat.new.view }
{
    let mut loads = 0u64;
    for code in 0..256u32 {
        table.width(seat, cell, code as u8);
        loads += 1;
    }
    loads
}

/// Reads the widths of each cell that is built. It gives how many loads it made of widths.
fn read_each(table: &InstanceTable, cells: u32, seat: &mut Seat) -> u64
    requires fresh { IsFresh table.now seat.old }
    requires within { cells ≤ cell_count table.now.bases }
    ensures fresh { IsFresh table.now seat.new }
    ensures stays { Stays seat.old.view seat.new.view }
{
    let mut loads = 0u64;
    for cell in 0..cells {
        if let Seen::Built = look_at(table, seat, cell) {
            loads = loads.wrapping_add(read_cell(table, seat, cell));
        }
    }
    loads
}

/// Goes over the cells so often, and gives how many steps of the work's kind it made.
fn labour(table: &InstanceTable, cells: u32, kind: Work, times: u32, mut seat: Seat) -> u64
    requires fresh { IsFresh table.now seat }
    requires within { cells ≤ cell_count table.now.bases }
{
    let mut made = 0u64;
    for _ in 0..times {
        let more = match kind {
            Work::Loads => read_each(table, cells, &mut seat),
            _ => claim_each(table, cells, &mut seat),
        };
        made = made.wrapping_add(more);
    }
    made
}

/// A table whose cells are built by seat 0, which threads then work on.
fn on_built<R: Threads + Sync>(
    rt: &R,
    alloc: Global,
    bases: &Bases,
    kind: Work,
    threads: u32,
    times: u32,
) -> Result<u64, NoMemory>
    requires { threads < 4294967000 }
{
    let (table, mut first) = InstanceTable::make(alloc, bases, 0)?;
    let table = &table;
    let cells = cells_of_table(table, bases);
    claim_each(table, cells, &mut first);
    let seats = split_seats(table, alloc, &mut first, threads)?;
    let counts = thread::map_vec(
        rt,
        seats,
        &|seat: Seat| -> u64
            requires { IsFresh table.now seat × (cells ≤ cell_count table.now.bases) }
        { labour(table, cells, kind, times, seat) },
    )?;
    Ok(
        counts
            .iter()
            .fold(0u64, |sum, count| sum.wrapping_add(*count)),
    )
}

/// Races of threads on tables of their own.
fn races<R: Threads + Sync>(
    rt: &R,
    alloc: Global,
    bases: &Bases,
    threads: u32,
    times: u32,
) -> Result<u64, NoMemory>
    requires { threads < 4294967000 }
{
    let mut built = 0u64;
    for _ in 0..times {
        let (table, mut first) = InstanceTable::make(alloc, bases, 0)?;
        let cells = cells_of_table(&table, bases);
        let (won, _) = race(rt, alloc, &table, &mut first, &[], cells, threads)?;
        built = built.wrapping_add(won);
    }
    Ok(built)
}

/// Does the work, and gives how many steps of its kind were made.
pub fn do_work<R: Threads + Sync>(
    rt: &R,
    alloc: Global,
    kind: Work,
    threads: u32,
    times: u32,
) -> Result<u64, NoMemory>
    requires { threads < 4294967000 }
{
    let bases = wide_fonts(alloc)?;
    match kind {
        Work::Builds => races(rt, alloc, &bases, threads, times),
        _ => on_built(rt, alloc, &bases, kind, threads, times),
    }
}

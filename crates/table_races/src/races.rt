//! Races of eight threads for the cells of a table.
ghost use Rattle.std.specs.Prelude.{◌≡◌, ◌<◌, Contains};
ghost use Rattle.instance_table.specs.Places.{cell_count};
ghost use Rattle.instance_table.specs.Closing.{IsAlone};
ghost use Rattle.table_races.specs.Crews.{IsIdle, Stays};

use crate::{cells_of_table, look_at, race, wide_fonts};
use instance_core::{Bases, Owner, cell_number, cell_of};
use instance_table::{InstanceTable, Seat, Seen};
use micro_num::NoMemory;
use std::alloc::{AllocError, Global};
use std::sync::atomic::{AtomicU64, Ordering};
use std::test::*;
use std::thread::Threads;

/// How often the test races.
const ROUNDS: u32 = 200;

/// How many threads race.
const WORKERS: u32 = 8;

/// How many draws a table has.
const DRAWS: u32 = 1000;

/// What a race came to.
#[derive(Clone, Copy, Debug, PartialEq, Eq)]
struct Round {
    /// How many cells the workers won, counted by them.
    won: u64,
    /// How many cells are built and have all widths right.
    right: u32,
    /// How many owners there are, and how many stand at their cell's place with a worker's number.
    owners: usize,
    placed: u32,
    /// How many draws were drawn once.
    drawn_once: u32,
    seats: u32,
}

/// Marks at which nothing was counted.
fn blank_marks(alloc: Global) -> Result<Vec<AtomicU64>, AllocError> {
    let mut marks = Vec::with_capacity(alloc, DRAWS as usize)?;
    for _ in 0..DRAWS {
        marks.push(AtomicU64::new(0))?;
    }
    Ok(marks)
}

/// How many of the marks counted one.
fn marked_once(marks: &[AtomicU64]) -> u32 {
    let mut once = 0u32;
    for mark in marks {
        if mark.load(Ordering::SeqCst) == 1 {
            once = once.wrapping_add(1);
        }
    }
    once
}

/// How many owners stand at the place of their cell, with a worker's number.
fn placed_owners(bases: &Bases, owners: &[Owner]) -> u32 {
    let mut placed = 0u32;
    for owner in owners {
        let is_worker = owner.worker >= 1 && owner.worker <= WORKERS;
        if is_worker && cell_number(bases, owner.cell) == Some(placed) {
            placed = placed.wrapping_add(1);
        }
    }
    placed
}

/// Whether each width of a built cell is what the fonts compute.
#[tactic(auto, unfolding(instance_table::specs::Places::cell_count))]
fn is_right(table: &InstanceTable, bases: &Bases, seat: &mut Seat, cell: u32) -> bool
    requires idle { IsIdle table.now seat.old }
    requires bases { table.now.bases ≡ bases.now }
    requires within { cell < cell_count table.now.bases }
    requires ready { Contains seat.old.view.ready cell }
    ensures idle { IsIdle table.now seat.new }
    ensures stays { Stays seat.old.view seat.new.view }
{
    let instance = cell_of(bases, cell);
    let mut right = true;
    for code in 0..256u32 {
        let width = bases.width(instance, code as u8);
        if table.width(seat, cell, code as u8) != width {
            right = false;
        }
    }
    right
}

/// How many cells are built and have all widths right.
fn right_cells(table: &InstanceTable, bases: &Bases, seat: &mut Seat) -> u32
    requires idle { IsIdle table.now seat.old }
    requires bases { table.now.bases ≡ bases.now }
    requires number { seat.old.view.number ≡ 0 }
    requires alone { IsAlone seat.old.view }
    ensures idle { IsIdle table.now seat.new }
    ensures number { seat.new.view.number ≡ 0 }
    ensures alone { IsAlone seat.new.view }
{
    let mut right = 0u32;
    for cell in 0..cells_of_table(table, bases) {
        if let Seen::Built = look_at(table, seat, cell) {
            if is_right(table, bases, seat, cell) {
                right = right.wrapping_add(1);
            }
        }
    }
    right
}

/// A race on a table of its own, which is closed.
fn raced<R: Threads + Sync>(rt: &R, alloc: Global, bases: &Bases) -> Result<Round, NoMemory> {
    let marks = blank_marks(alloc)?;
    let (table, mut first) = InstanceTable::make(alloc, bases, DRAWS)?;
    let cells = cells_of_table(&table, bases);
    let (won, _) = race(
        rt,
        alloc,
        &table,
        &mut first,
        marks.as_slice(),
        cells,
        WORKERS,
    )?;
    let right = right_cells(&table, bases, &mut first);
    let Ok(closed) = table.close(alloc, first) else {
        return Err(NoMemory);
    };
    Ok(Round {
        won,
        right,
        owners: closed.owners().len(),
        placed: placed_owners(closed.bases(), closed.owners()),
        drawn_once: marked_once(marks.as_slice()),
        seats: closed.seats(),
    })
}

#[test]
fn eight_threads_build_each_cell_and_draw_each_number_once(rt: HostRuntime) -> Result<(), Fail> {
    let alloc = rt.alloc();
    let bases = wide_fonts(alloc)?;
    let whole = Round {
        won: 300,
        right: 300,
        owners: 300,
        placed: 300,
        drawn_once: 1000,
        seats: 9,
    };
    for round in 0..ROUNDS {
        assert_eq!(rt; raced(&rt, alloc, &bases)?, whole, "in round {round}");
    }
    Ok(())
}

//! Races of four threads for the widths of a hundred cells.
ghost use Rattle.std.specs.Prelude.{◌≡◌, All};
ghost use Rattle.table_widths.specs.Widths.{IsIdle};

use crate::{HoldingGate, Measured, ask_twice, plain_widths};
use instance_core::{Bases, Cell, PlainWidths};
use instance_table::{InstanceTable, Seat};
use micro_num::{NoMemory, Sp};
use std::alloc::Global;
use std::test::*;
use std::thread;
use std::thread::Threads;
use table_races::{split_seats, wide_fonts};

/// How often the test races.
const ROUNDS: u32 = 100;

/// How many threads race.
const WORKERS: u32 = 4;

/// How many turns the owner of a cell is held at most.
const TURNS: u32 = 10000;

/// What a race came to.
#[derive(Clone, Copy, Debug, PartialEq, Eq)]
struct Round {
    /// How many answers are those of the source that computes them.
    right: u64,
    /// How many of the cells asked were claimed once and published once.
    built_once: u32,
    /// How often any cell was claimed, and published.
    claimed: u64,
    published: u64,
}

/// The workers ask for the widths, each in a thread of its own.
fn crew<R: Threads + Sync>(
    rt: &R,
    table: &InstanceTable,
    seats: Vec<Seat>,
    fonts: &Bases,
    widths: &[Sp],
    gate: &HoldingGate,
) -> Result<Vec<Measured>, NoMemory>
    requires idle { All (IsIdle table.now) seats.items }
    requires fonts { table.now.bases ≡ fonts.now }
{
    let done = thread::map_vec(
        rt,
        seats,
        &|seat: Seat| -> Measured
            requires { IsIdle table.now seat × (table.now.bases ≡ fonts.now) }
        { ask_twice(table, seat, fonts, widths, gate) },
    )?;
    Ok(done)
}

/// A race on a table of its own.
fn raced<R: Threads + Sync>(
    rt: &R,
    alloc: Global,
    fonts: &Bases,
    widths: &[Sp],
    asked: &[Cell],
) -> Result<Round, NoMemory> {
    let (table, mut first) = InstanceTable::make(alloc, fonts, 0)?;
    let gate = HoldingGate::new(alloc, fonts.cell_count(), TURNS)?;
    let seats = split_seats(&table, alloc, &mut first, WORKERS)?;
    let mut right = 0u64;
    for one in crew(rt, &table, seats, fonts, widths, &gate)? {
        right = right.wrapping_add(one.right);
    }
    let (claimed, published) = gate.all_passes(fonts);
    Ok(Round {
        right,
        built_once: gate.passed_once(fonts, asked),
        claimed,
        published,
    })
}

#[test]
fn four_threads_answer_as_one_does_and_build_the_cells_asked(rt: HostRuntime) -> Result<(), Fail> {
    let alloc = rt.alloc();
    let fonts = wide_fonts(alloc)?;
    let mut plain = PlainWidths::make(alloc, &fonts)?;
    let widths = plain_widths(alloc, &mut plain, &fonts)?;
    let whole = Round {
        right: 800,
        built_once: 100,
        claimed: 100,
        published: 100,
    };
    for round in 0..ROUNDS {
        let found = raced(&rt, alloc, &fonts, widths.as_slice(), plain.cells())?;
        assert_eq!(rt; found, whole, "in round {round}");
    }
    Ok(())
}

//! An owner that is held at its cell, worked out by hand: who asks meanwhile is answered at once.
ghost use Rattle.std.specs.Prelude.{◌≡◌, All};
ghost use Rattle.table_widths.specs.Widths.{IsIdle};

use crate::{HoldingGate, numbered_cell};
use instance_core::{Bases, WidthSource};
use instance_table::{InstanceTable, Seat};
use micro_num::{NoMemory, Sp};
use std::alloc::Global;
use std::test::*;
use std::thread;
use std::thread::Threads;
use table_races::{small_font, split_seats};
use table_widths::TableWidths;

/// How many turns a worker waits at most.
const TURNS: u32 = 200000000;

/// The width of code 97 in the widest instance. Worker 1 asks at once, every other worker when the
/// cell is claimed.
fn widest(table: &InstanceTable, seat: Seat, fonts: &Bases, gate: &HoldingGate) -> Option<Sp>
    requires idle { IsIdle table.now seat }
    requires fonts { table.now.bases ≡ fonts.now }
{
    if fonts.cell_count() <= 39 {
        return None;
    }
    let worker = seat.number();
    if worker != 1 {
        gate.wait_for_claim();
    }
    let mut source = TableWidths::make(table, seat, gate, worker);
    let width = source.width(numbered_cell(fonts, 39), 97);
    gate.tell();
    Some(width)
}

/// The workers ask, each in a thread of its own.
fn crew<R: Threads + Sync>(
    rt: &R,
    table: &InstanceTable,
    seats: Vec<Seat>,
    fonts: &Bases,
    gate: &HoldingGate,
) -> Result<Vec<Option<Sp>>, NoMemory>
    requires idle { All (IsIdle table.now) seats.items }
    requires fonts { table.now.bases ≡ fonts.now }
{
    let widths = thread::map_vec(
        rt,
        seats,
        &|seat: Seat| -> Option<Sp>
            requires { IsIdle table.now seat × (table.now.bases ≡ fonts.now) }
        { widest(table, seat, fonts, gate) },
    )?;
    Ok(widths)
}

#[test]
fn a_width_is_answered_while_the_owner_of_its_cell_is_held(rt: HostRuntime) -> Result<(), Fail> {
    let alloc = rt.alloc();
    let fonts = small_font(alloc)?;
    let (table, mut first) = InstanceTable::make(alloc, &fonts, 0)?;
    let gate = HoldingGate::new(alloc, fonts.cell_count(), TURNS)?;
    let seats = split_seats(&table, alloc, &mut first, 2)?;
    let widths = crew(&rt, &table, seats, &fonts, &gate)?;
    // The width 524288 is 534774 where it is 20 thousandths wider, and 334233 at 655360 sp.
    assert_eq!(rt; widths.as_slice(), [Some(334233), Some(334233)].as_slice());
    assert_eq!(rt; gate.passes(39), (1, 1));
    assert_eq!(rt; gate.given_up(), 0);
    Ok(())
}

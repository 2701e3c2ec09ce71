//! Two seats on one table: one claims a cell, and the other is shut out until it is published.
ghost use Rattle.std.specs.Prelude.{◌≡◌, ◌<◌, [], ◌∷◌, IfOk};
ghost use Rattle.instance_table.specs.Places.{cell_count};
ghost use Rattle.table_races.specs.Crews.{IsIdle, IsFresh, Stays};

use crate::steps::{build, claim_at, look_at};
use instance_core::Bases;
use instance_table::{Claim, Closed, InstanceTable, Seat, Seen};
use micro_num::{NoMemory, Sp};
use std::alloc::Global;

/// What seat 1 and then seat 0 found at a cell, before the cell was published.
#[derive(Clone, Copy, Debug, PartialEq, Eq)]
pub struct ShutOut {
    /// Seat 1 won the cell.
    pub won: bool,
    /// What seat 0 found there.
    pub found: Seen,
    /// The word that seat 0 lost to.
    pub lost_to: Option<u64>,
}

/// Seat 1 claims a cell, seat 0 looks at it and claims it, and then seat 1 builds it.
pub fn shut_out(table: &InstanceTable, first: &mut Seat, second: &mut Seat, cell: u32) -> ShutOut
    requires first { IsFresh table.now first.old }
    requires second { IsFresh table.now second.old }
    requires within { cell < cell_count table.now.bases }
    ensures first { IsFresh table.now first.new }
    ensures first_stays { Stays first.old.view first.new.view }
    ensures second { IsFresh table.now second.new }
    ensures second_stays { Stays second.old.view second.new.view }
{
    let claim = claim_at(table, second, cell);
    let found = look_at(table, first, cell);
    let lost_to = claim_or_build(table, first, cell);
    let won = matches!(claim, Claim::Won);
    if let Claim::Won = claim {
        build(table, second);
    }
    ShutOut {
        won,
        found,
        lost_to,
    }
}

/// Claims a cell, and builds it where it was won; else gives the word that was there.
fn claim_or_build(table: &InstanceTable, seat: &mut Seat, cell: u32) -> Option<u64>
    requires fresh { IsFresh table.now seat.old }
    requires within { cell < cell_count table.now.bases }
    ensures fresh { IsFresh table.now seat.new }
    ensures stays { Stays seat.old.view seat.new.view }
{
    match claim_at(table, seat, cell) {
        Claim::Won => {
            build(table, seat);
            None
        }
        Claim::Lost { word } => Some(word),
    }
}

/// The width of a character in a cell, where the cell is built.
pub fn built_width(table: &InstanceTable, seat: &mut Seat, cell: u32, code: u8) -> Option<Sp>
    requires fresh { IsFresh table.now seat.old }
    requires within { cell < cell_count table.now.bases }
    ensures fresh { IsFresh table.now seat.new }
    ensures stays { Stays seat.old.view seat.new.view }
{
    match look_at(table, seat, cell) {
        Seen::Built => Some(table.width(seat, cell, code)),
        _ => None,
    }
}

/// The next two draws of a seat, the second where the first wasn't past the last.
pub fn two_draws(table: &InstanceTable, seat: &mut Seat) -> (Option<u32>, Option<u32>)
    requires fresh { IsFresh table.now seat.old }
    ensures idle { IsIdle table.now seat.new }
    ensures stays { Stays seat.old.view seat.new.view }
{
    let Some(draw) = table.draw(seat) else {
        return (None, None);
    };
    (Some(draw), table.draw(seat))
}

/// Joins seat 1 to seat 0 and closes the table.
pub fn join_and_close(
    alloc: Global,
    table: InstanceTable,
    mut first: Seat,
    second: Seat,
) -> Result<Closed, NoMemory>
    requires first { IsIdle table first }
    requires number { first.view.number ≡ 0 }
    requires made { first.view.made ≡ 2 }
    requires second { IsIdle table second }
    requires second_number { second.view.number ≡ 1 }
{
    table.join(&mut first, second);
    match table.close(alloc, first) {
        Ok(closed) => Ok(closed),
        Err(_) => Err(NoMemory),
    }
}

/// A table with seats 0 and 1.
pub fn table_of_two(
    alloc: Global,
    bases: &Bases,
    draws: u32,
) -> Result<(InstanceTable, Seat, Seat), NoMemory>
    ensures bases { IfOk result (λ made. made.0.bases ≡ bases.now) }
    ensures first { IfOk result (λ made. IsFresh made.0 made.1) }
    ensures number { IfOk result (λ made. made.1.view.number ≡ 0) }
    ensures made { IfOk result (λ made. made.1.view.made ≡ 2) }
    ensures second { IfOk result (λ made. IsFresh made.0 made.2) }
    ensures second_number { IfOk result (λ made. made.2.view.number ≡ 1) }
{
    let (table, mut first) = InstanceTable::make(alloc, bases, draws)?;
    let second = table.split(alloc, &mut first)?;
    Ok((table, first, second))
}

//! Crews: seats are split, race in threads of their own, and are joined.
ghost use Rattle.std.specs.Prelude.{◌≡◌, ◌+◌, ◌<◌, ◌≤◌, ◌++◌, [], false, map, vec_len};
ghost use Rattle.std.specs.Prelude.{IfOk, OnOk, All};
ghost use Rattle.instance_table.specs.Places.{cell_count};
ghost use Rattle.table_races.specs.Crews.{IsIdle, IsFresh, Stays, numbers, numbers_upto};
ghost use Rattle.instance_table.specs.Closing.{IsAlone};

use crate::steps::{build, claim_at, look_at};
use instance_table::{Claim, InstanceTable, Seat, Seen};
use micro_num::NoMemory;
use std::alloc::Global;
use std::sync::atomic::{AtomicU64, Ordering};
use std::thread;
use std::thread::Threads;

/// What a worker came to: its seat, how many cells it built, and how many it found built.
#[derive(Drop)]
pub struct Raced {
    pub seat: Seat,
    pub won: u64,
    pub built: u64,
}

/// Seats 1 to the count, split off seat 0.
pub fn split_seats(
    table: &InstanceTable,
    alloc: Global,
    first: &mut Seat,
    count: u32,
) -> Result<Vec<Seat>, NoMemory>
    requires idle { IsIdle table.now first.old }
    requires number { first.old.view.number ≡ 0 }
    requires made { first.old.view.made ≡ 1 }
    requires joined { first.old.view.joined ≡ [] }
    requires few { count < 4294967000 }
    ensures idle { OnOk result (IsIdle table.now first.new) }
    ensures number { OnOk result (first.new.view.number ≡ 0) }
    ensures made { OnOk result (first.new.view.made ≡ count + 1) }
    ensures joined { OnOk result (first.new.view.joined ≡ []) }
    ensures seats { IfOk result (λ seats. All (IsFresh table.now) seats.items) }
    ensures numbers { IfOk result (λ seats. numbers seats.items ≡ numbers_upto count) }
{
    let mut seats = Vec::with_capacity(alloc, count as usize)?;
    for _ in 0..count {
        seats.push(table.split(alloc, first)?)?;
    }
    Ok(seats)
}

/// Visits the cells below a bound: claims each, builds it where it was won, and looks at it.
fn visit_all(table: &InstanceTable, cells: u32, seat: &mut Seat) -> (u64, u64)
    requires fresh { IsFresh table.now seat.old }
    requires within { cells ≤ cell_count table.now.bases }
    ensures fresh { IsFresh table.now seat.new }
    ensures stays { Stays seat.old.view seat.new.view }
{
    let mut won = 0u64;
    let mut built = 0u64;
    for cell in 0..cells {
        if let Claim::Won = claim_at(table, seat, cell) {
            build(table, seat);
            won += 1;
        }
        if let Seen::Built = look_at(table, seat, cell) {
            built += 1;
        }
    }
    (won, built)
}

/// Draws until nothing is left, and counts each draw at its mark.
fn draw_all(table: &InstanceTable, marks: &[AtomicU64], seat: &mut Seat)
    requires fresh { IsFresh table.now seat.old }
    ensures idle { IsIdle table.now seat.new }
    ensures stays { Stays seat.old.view seat.new.view }
{
    for _ in 0..=marks.len() {
        let Some(draw) = table.draw(seat) else {
            return;
        };
        if let Some(mark) = marks.get(draw as usize) {
            mark.fetch_add(1, Ordering::SeqCst);
        }
    }
}

/// What a worker of a race does: it visits the cells below a bound, and then draws.
pub fn run(table: &InstanceTable, marks: &[AtomicU64], cells: u32, mut seat: Seat) -> Raced
    requires fresh { IsFresh table.now seat }
    requires within { cells ≤ cell_count table.now.bases }
    ensures idle { IsIdle table.now result.seat }
    ensures stays { Stays seat.view result.seat.view }
{
    let (won, built) = visit_all(table, cells, &mut seat);
    draw_all(table, marks, &mut seat);
    Raced { seat, won, built }
}

/// Joins the seats of a race to seat 0, and gives how many cells they built and found built.
pub fn join_seats(table: &InstanceTable, first: &mut Seat, raced: Vec<Raced>) -> (u64, u64)
    requires idle { IsIdle table.now first.old }
    requires number { first.old.view.number ≡ 0 }
    requires others { All (λ r. IsIdle table.now r.seat) raced.items }
    ensures idle { IsIdle table.now first.new }
    ensures number { first.new.view.number ≡ 0 }
    ensures made { first.new.view.made ≡ first.old.view.made }
    ensures joined { first.new.view.joined
        ≡ first.old.view.joined ++ numbers (map (λ r. r.seat) raced.items) }
{
    let mut won = 0u64;
    let mut built = 0u64;
    for one in raced {
        won = won.wrapping_add(one.won);
        built = built.wrapping_add(one.built);
        table.join(first, one.seat);
    }
    (won, built)
}

/// A race on a table that was just made: so many workers visit the cells below a bound, each in a
/// thread of its own, and their seats are joined to seat 0. It gives how many cells they built, and
/// how many they found built, and fails only for want of memory.
pub fn race<R: Threads + Sync>(
    rt: &R,
    alloc: Global,
    table: &InstanceTable,
    first: &mut Seat,
    marks: &[AtomicU64],
    cells: u32,
    workers: u32,
) -> Result<(u64, u64), NoMemory>
    requires idle { IsIdle table.now first.old }
    requires number { first.old.view.number ≡ 0 }
    requires made { first.old.view.made ≡ 1 }
    requires joined { first.old.view.joined ≡ [] }
    requires few { workers < 4294967000 }
    requires within { cells ≤ cell_count table.now.bases }
    ensures idle { OnOk result (IsIdle table.now first.new) }
    ensures number { OnOk result (first.new.view.number ≡ 0) }
    ensures alone { OnOk result (IsAlone first.new.view) }
{
    let seats = split_seats(table, alloc, first, workers)?;
    let raced = thread::map_vec(
        rt,
        seats,
        &|seat: Seat| -> Raced
            requires { IsFresh table.now seat × (cells ≤ cell_count table.now.bases) }
            ensures idle { IsIdle table.entry.now result.seat }
            ensures stays { Stays seat.view result.seat.view }
        { run(table, marks, cells, seat) },
    )?;
    Ok(join_seats(table, first, raced))
}

//! The rounds: lines that were made once are packed again and again.
ghost use Rattle.std.specs.Prelude.{◌≡◌, All, OnOk, map};
ghost use Rattle.hpack_two.specs.Over.{base_of};
ghost use Rattle.pack_time.specs.Timed.{IsTimed};

use crate::metrics::stock;
use crate::setting::{TimedLine, lines};
use font_stock::Stock;
use hpack_two::{PackFault, bases_of, pack};
use instance_core::{Bases, PlainWidths, WidthSource};
use instance_table::InstanceTable;
use micro_num::NoMemory;
use outside_io::NoGate;
use std::alloc::Global;
use std::rt::{Clock, Runtime};
use std::time::Instant;
use table_widths::TableWidths;

/// Packs the lines, and gives how many glyphs they have.
fn packed<W: WidthSource>(
    alloc: Global,
    lines: &[TimedLine],
    stock: &Stock,
    source: &mut W,
) -> Result<usize, PackFault>
    requires lines { All (IsTimed stock.now) lines.now }
    requires source { W.bases source.old ≡ map base_of stock.now }
    ensures { OnOk result (W.bases source.new ≡ map base_of stock.now) }
{
    let mut count = 0usize;
    for timed in lines {
        let line = pack(alloc, &timed.line, stock, timed.width, 0, source)?;
        count = count.wrapping_add(line.glyphs.len());
    }
    Ok(count)
}

/// Copies the pieces of the lines, and gives how many there are.
fn copied(alloc: Global, lines: &[TimedLine]) -> Result<usize, NoMemory> {
    let mut count = 0usize;
    for timed in lines {
        let copy = Vec::from_slice(alloc, timed.line.pieces.as_slice())?;
        count = count.wrapping_add(copy.len());
    }
    Ok(count)
}

/// How many glyphs lines have, and for how many cells a source is asked.
fn sizes(
    alloc: Global,
    lines: &[TimedLine],
    stock: &Stock,
    bases: &Bases,
) -> anyhow::Result<(usize, usize)>
    requires lines { All (IsTimed stock.now) lines.now }
    requires bases { bases.now ≡ map base_of stock.now }
{
    let mut source = PlainWidths::make(alloc, bases)?;
    let glyphs = packed(alloc, lines, stock, &mut source)?;
    Ok((glyphs, source.cells().len()))
}

/// The microseconds that packing lines took.
fn packing_time<R: Clock>(
    rt: &R,
    alloc: Global,
    lines: &[TimedLine],
    stock: &Stock,
    bases: &Bases,
) -> anyhow::Result<u128>
    requires lines { All (IsTimed stock.now) lines.now }
    requires bases { bases.now ≡ map base_of stock.now }
{
    let mut source = PlainWidths::make(alloc, bases)?;
    let start = Instant::now(rt)?;
    packed(alloc, lines, stock, &mut source)?;
    Ok(start.elapsed(rt)?.as_micros())
}

/// The microseconds that packing lines over a table took, of which each cell that they ask for is
/// built.
fn table_time<R: Clock>(
    rt: &R,
    alloc: Global,
    lines: &[TimedLine],
    stock: &Stock,
    bases: &Bases,
) -> anyhow::Result<u128>
    requires lines { All (IsTimed stock.now) lines.now }
    requires bases { bases.now ≡ map base_of stock.now }
{
    let (table, seat) = InstanceTable::make(alloc, bases, 0)?;
    let mut source = TableWidths::make(&table, seat, &NoGate, 0);
    packed(alloc, lines, stock, &mut source)?;
    let start = Instant::now(rt)?;
    packed(alloc, lines, stock, &mut source)?;
    Ok(start.elapsed(rt)?.as_micros())
}

/// The microseconds that copying their pieces took.
fn copying_time<R: Clock>(rt: &R, alloc: Global, lines: &[TimedLine]) -> anyhow::Result<u128> {
    let start = Instant::now(rt)?;
    copied(alloc, lines)?;
    Ok(start.elapsed(rt)?.as_micros())
}

/// Makes so many lines, and prints their sizes and the times of so many rounds.
pub fn run<R: Runtime>(rt: &R, alloc: Global, count: u32, rounds: u32) -> anyhow::Result<()> {
    let stock = stock(alloc)?;
    let bases = bases_of(alloc, &stock)?;
    let expanded = lines(alloc, &stock, count, true)?;
    let plain = lines(alloc, &stock, count, false)?;
    let (glyphs, cells) = sizes(alloc, &expanded, &stock, &bases)?;
    println!(rt; "{glyphs} glyphs, {cells} cells")?;
    for _round in 0..rounds {
        let with = packing_time(rt, alloc, &expanded, &stock, &bases)?;
        let tabled = table_time(rt, alloc, &expanded, &stock, &bases)?;
        let without = packing_time(rt, alloc, &plain, &stock, &bases)?;
        let copying = copying_time(rt, alloc, &plain)?;
        println!(rt; "{with} {tabled} {without} {copying}")?;
    }
    Ok(())
}

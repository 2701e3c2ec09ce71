//! The rounds: pages that were made once are numbered and written again and again.
ghost use Rattle.std.specs.Prelude.{◌≡◌, ◌≤◌, IfOk, All, length};
ghost use Rattle.dvi_write.specs.Worked.{tiny10};
ghost use Rattle.page_bench.specs.Timed.{IsTimed, instances};

use crate::setting::{glyph_count, pages};
use dvi_write::{FontRow, dvi_bytes};
use instance_core::{Cell, Page};
use items::Text;
use micro_num::NoMemory;
use renumber::Numbering;
use std::alloc::Global;
use std::rt::{Clock, Runtime};
use std::time::Instant;

/// An instance of the font.
fn cell(step: i32) -> Cell
    ensures { result ≡ record { font = 0; step = step } }
{
    Cell { font: 0, step }
}

/// The instances that the lines are set in.
fn instances() -> [Cell; 7]
    ensures { result ≡ instances }
{
    [
        cell(-20),
        cell(-13),
        cell(-6),
        cell(0),
        cell(6),
        cell(13),
        cell(20),
    ]
}

/// What the file says of the font.
fn row(alloc: Global) -> Result<FontRow, NoMemory>
    ensures { IfOk result (λ row. row ≡ tiny10) }
{
    Ok(FontRow {
        name: Text::from_str(alloc, "tiny10")?,
        checksum: 0,
        size: 655_360,
        design: 655_360,
    })
}

/// Numbers and writes the pages, and gives how many fonts and bytes they have.
fn file_size(alloc: Global, pages: &[Page]) -> anyhow::Result<(usize, usize)>
    requires timed { All IsTimed pages.now }
    requires few { length pages.now ≤ 65535 }
{
    let fonts = [row(alloc)?];
    let numbering = Numbering::make(alloc, pages)?;
    let bytes = dvi_bytes(alloc, pages, &fonts, &numbering, 0x7fff_ffff)?;
    Ok((numbering.cells().len(), bytes.len()))
}

/// Times a round, and gives the microseconds of its three parts.
fn round<R: Clock>(rt: &R, alloc: Global, pages: &[Page]) -> anyhow::Result<[u128; 3]>
    requires timed { All IsTimed pages.now }
    requires few { length pages.now ≤ 65535 }
{
    let fonts = [row(alloc)?];
    let start = Instant::now(rt)?;
    let numbering = Numbering::make(alloc, pages)?;
    let numbered = start.elapsed(rt)?;
    let start = Instant::now(rt)?;
    let bytes = dvi_bytes(alloc, pages, &fonts, &numbering, 0x7fff_ffff)?;
    let written = start.elapsed(rt)?;
    let start = Instant::now(rt)?;
    let copy = Vec::from_slice(alloc, bytes.as_slice())?;
    let copied = start.elapsed(rt)?;
    Ok([
        numbered.as_micros(),
        written.as_micros(),
        copied.as_micros(),
    ])
}

/// Makes so many pages, and prints their sizes and the times of so many rounds.
pub fn run<R: Runtime>(rt: &R, alloc: Global, count: u16, rounds: u16) -> anyhow::Result<()> {
    let pages = pages(alloc, count, &instances())?;
    let glyphs = glyph_count(&pages);
    let (fonts, bytes) = file_size(alloc, &pages)?;
    println!(rt; "{glyphs} glyphs, {fonts} fonts, {bytes} bytes")?;
    for _round in 0..rounds {
        let [numbered, written, copied] = round(rt, alloc, &pages)?;
        println!(rt; "{numbered} {written} {copied}")?;
    }
    Ok(())
}

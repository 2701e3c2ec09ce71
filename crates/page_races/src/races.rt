//! Races of four threads over the pages of four jobs.
ghost use Rattle.std.specs.Prelude.{◌≡◌, All, length, map};
ghost use Rattle.hpack_two.specs.Over.{base_of};
ghost use Rattle.para_workers.specs.Pages.{IsSettable};
ghost use Rattle.table_widths.specs.Widths.{IsIdle};

use crate::{plain_pages, right_pages_of_worker};
use hpack_two::bases_of;
use instance_core::{Bases, Cell, Page, PlainWidths};
use instance_table::{InstanceTable, Seat};
use micro_num::NoMemory;
use std::alloc::Global;
use std::test::*;
use std::thread;
use std::thread::Threads;
use table_races::split_seats;
use test_fonts::{lig10, tiny10};
use test_jobs::{Document, EXPANDED, NARROW_AND_WIDE, long_job, read_document};
use width_races::HoldingGate;

/// How often each job is raced for.
const ROUNDS: u32 = 100;

/// How many threads race.
const WORKERS: u32 = 4;

/// How many turns the owner of a cell is held at most.
const TURNS: u32 = 10000;

/// What a race came to.
#[derive(Clone, Copy, Debug, PartialEq, Eq)]
struct Round {
    /// How many pages are those over the source that computes each width.
    right: u32,
    /// How many of the cells asked were claimed once and published once.
    built_once: u32,
    /// How often any cell was claimed, and published.
    claimed: u64,
    published: u64,
}

/// The workers set the paragraphs, each in a thread of its own.
fn crew<R: Threads + Sync>(
    rt: &R,
    alloc: Global,
    table: &InstanceTable,
    seats: Vec<Seat>,
    document: &Document,
    pages: &[Page],
    gate: &HoldingGate,
) -> Result<Vec<u32>, NoMemory>
    requires settable { All (IsSettable (length document.now.stock)) document.now.job.pars }
    requires idle { All (IsIdle table.now) seats.items }
    requires bases { table.now.bases ≡ map base_of document.now.stock }
{
    let right = thread::map_vec(
        rt,
        seats,
        &|seat: Seat| -> u32
            requires { All (IsSettable (length document.now.stock)) document.now.job.pars
                × (IsIdle table.now seat × (table.now.bases ≡ map base_of document.now.stock)) }
        { right_pages_of_worker(alloc, table, seat, document, pages, gate) },
    )?;
    Ok(right)
}

/// A race on a table of its own.
fn raced<R: Threads + Sync>(
    rt: &R,
    alloc: Global,
    document: &Document,
    bases: &Bases,
    pages: &[Page],
    asked: &[Cell],
) -> Result<Round, NoMemory>
    requires settable { All (IsSettable (length document.now.stock)) document.now.job.pars }
    requires bases { bases.now ≡ map base_of document.now.stock }
{
    let (table, mut first) = InstanceTable::make(alloc, bases, 0)?;
    let gate = HoldingGate::new(alloc, bases.cell_count(), TURNS)?;
    let seats = split_seats(&table, alloc, &mut first, WORKERS)?;
    let mut right = 0u32;
    for one in crew(rt, alloc, &table, seats, document, pages, &gate)? {
        right = right.wrapping_add(one);
    }
    let (claimed, published) = gate.all_passes(bases);
    Ok(Round {
        right,
        built_once: gate.passed_once(bases, asked),
        claimed,
        published,
    })
}

/// Races for the pages of a job, and gives how many cells they have.
fn race_for<R: Threads + Sync>(
    rt: &R,
    alloc: Global,
    job: &[u8],
    font: &[u8],
    pars: u32,
) -> Result<u32, Fail> {
    let document = read_document(alloc, job, font)?;
    let bases = bases_of(alloc, &document.stock)?;
    let mut source = PlainWidths::make(alloc, &bases)?;
    let pages = plain_pages(alloc, &document, &mut source)?;
    let cells = (source.cells().len() % 4097) as u32;
    let whole = Round {
        right: pars.wrapping_mul(WORKERS),
        built_once: cells,
        claimed: cells as u64,
        published: cells as u64,
    };
    for round in 0..ROUNDS {
        let found = raced(rt, alloc, &document, &bases, &pages, source.cells())?;
        if found != whole {
            return Err(Fail::new(format_args!("in round {round}: {found:?}")));
        }
    }
    Ok(cells)
}

/// A paragraph whose letters a have no share in the expansion.
const WITHOUT_SHARE: &[u8] = b"\\font\\f=tiny10 \\f
\\hsize=24pt \\pdffontexpand\\f 20 20 1 \\pdfadjustspacing=2 \\efcode\\f 97=0
\\noindent aa bb cc dd
";

#[test]
fn four_threads_set_the_pages_of_short_jobs_as_one_does(rt: HostRuntime) -> Result<(), Fail> {
    let alloc = rt.alloc();
    let font = tiny10(alloc)?;
    assert_eq!(rt; race_for(&rt, alloc, EXPANDED, &font, 1)?, 1);
    assert_eq!(rt; race_for(&rt, alloc, WITHOUT_SHARE, &font, 1)?, 1);
    assert_eq!(rt; race_for(&rt, alloc, NARROW_AND_WIDE, &font, 2)?, 2);
    Ok(())
}

#[test]
fn four_threads_set_a_job_of_two_fonts_as_one_does(rt: HostRuntime) -> Result<(), Fail> {
    let alloc = rt.alloc();
    let cells = race_for(&rt, alloc, &long_job(alloc)?, &lig10(alloc)?, 3)?;
    assert!(rt; cells >= 2 && cells <= 80);
    Ok(())
}

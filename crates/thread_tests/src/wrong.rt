//! Stand-ins for [`set_all`](para_threads::set_all) that set every paragraph, but not by workers
//! that draw theirs and set them over the table beside one another. No clause tells them apart, but
//! a gate that holds workers gives up over each of them.
ghost use Rattle.std.specs.Prelude.{◌≡◌, ◌≤◌, All, IfOk, length, map};
ghost use Rattle.hpack_two.specs.Over.{base_of};
ghost use Rattle.job_text.specs.Fits.{JobFits};
ghost use Rattle.liang_hyph.specs.Table.{IsMadeOf};
ghost use Rattle.para_workers.specs.Pages.{IsSettable};
ghost use Rattle.table_races.specs.Crews.{IsFresh};
ghost use Rattle.table_widths.specs.Widths.{IsIdle};

use font_stock::Stock;
use hpack_two::bases_of;
use instance_core::{Bases, Cell, PlainWidths, WidthSource};
use instance_table::{InstanceTable, Seat};
use job_text::Job;
use liang_hyph::Patterns;
use micro_num::NoMemory;
use outside_io::{Gate, Point};
use para_threads::{Work, work};
use para_workers::{paragraphs_of_a_job_can_be_set, set_par};
use std::alloc::Global;
use std::thread;
use std::thread::Threads;
use table_races::split_seats;
use table_widths::TableWidths;
use width_races::numbered_cell;

/// What workers set a job with: its patterns, the table, and their seats.
#[derive(Drop)]
struct Crew {
    patterns: Patterns,
    table: InstanceTable,
    seats: Vec<Seat>,
}

/// The crew of so many workers for a job and its fonts.
fn crew_for(alloc: Global, job: &Job, stock: &Stock, workers: u32) -> Result<Crew, NoMemory>
    requires job { JobFits job.now }
    requires few { workers ≤ 64 }
    ensures patterns { IfOk result (λ crew.
        IsMadeOf crew.patterns job.now.patterns job.now.exceptions) }
    ensures bases { IfOk result (λ crew. crew.table.bases ≡ map base_of stock.now) }
    ensures draws { IfOk result (λ crew. crew.table.draws ≡ length job.now.pars) }
    ensures seats { IfOk result (λ crew. All (IsFresh crew.table) crew.seats.items) }
{
    let patterns = Patterns::make(alloc, job.patterns.as_slice(), job.exceptions.as_slice())?;
    let bases = bases_of(alloc, stock)?;
    let (table, mut first) = InstanceTable::make(alloc, &bases, job.pars.len() as u32)?;
    let seats = split_seats(&table, alloc, &mut first, workers)?;
    Ok(Crew {
        patterns,
        table,
        seats,
    })
}

/// One worker after another draws paragraphs, on this thread. It gives how many were set.
pub(crate) fn set_serially<R: Threads + Sync, G: Gate + Sync>(
    _rt: &R,
    alloc: Global,
    job: &Job,
    stock: &Stock,
    workers: u32,
    gate: &G,
) -> Result<usize, NoMemory>
    requires job { JobFits job.now }
    requires fonts { length stock.now ≡ length job.now.fonts }
    requires few { workers ≤ 64 }
{
    let Crew {
        patterns,
        table,
        seats,
    } = crew_for(alloc, job, stock, workers)?;
    let patterns = &patterns;
    let table = &table;
    let mut count = 0usize;
    for seat in seats {
        let number = seat.number();
        let Work { seat: _, done } = work(alloc, job, patterns, stock, table, seat, number, gate);
        count = count.wrapping_add(done?.len());
    }
    Ok(count)
}

/// A fixed share of the paragraphs: worker 1 of 2 has the first, the third and so on.
#[derive(Clone, Copy)]
struct Share {
    worker: u32,
    workers: u32,
}

impl Share {
    /// Whether the paragraph of a number, from 1, is in the share.
    fn has(self, paragraph: u32) -> bool {
        self.workers != 0 && paragraph % self.workers == self.worker % self.workers
    }
}

/// A worker sets its share over a source, and passes the gate with each paragraph. It gives how
/// many were set.
fn set_share<W: WidthSource, G: Gate>(
    alloc: Global,
    job: &Job,
    patterns: &Patterns,
    stock: &Stock,
    share: Share,
    source: &mut W,
    gate: &G,
) -> usize
    requires pars { All (IsSettable (length stock.now)) job.now.pars }
    requires source { W.bases source.old ≡ map base_of stock.now }
{
    let mut count = 0usize;
    let mut paragraph = 0u32;
    for par in job.pars.as_slice() {
        paragraph = paragraph.wrapping_add(1);
        if share.has(paragraph) {
            if set_par(alloc, par, &job.tables, patterns, stock, source).is_ok() {
                count = count.wrapping_add(1);
            }
            gate.pass(share.worker, Point::Paragraph, paragraph);
        }
    }
    count
}

/// A source is asked for a width in each of some instances.
fn ask_each<W: WidthSource>(source: &mut W, bases: &Bases, cells: &[Cell])
    requires { W.bases source.old ≡ bases.now }
{
    for number in 0..bases.cell_count() {
        let cell = numbered_cell(bases, number);
        if cells.contains(&cell) {
            source.width(cell, 0);
        }
    }
}

/// A worker sets its share over computed widths, and then claims the instances of its pages.
fn pages_first<G: Gate>(
    alloc: Global,
    job: &Job,
    patterns: &Patterns,
    stock: &Stock,
    table: &InstanceTable,
    seat: Seat,
    workers: u32,
    gate: &G,
) -> Result<usize, NoMemory>
    requires pars { All (IsSettable (length stock.now)) job.now.pars }
    requires idle { IsIdle table.now seat }
    requires bases { table.now.bases ≡ map base_of stock.now }
{
    let worker = seat.number();
    let bases = table.bases();
    let mut plain = PlainWidths::make(alloc, bases)?;
    let share = Share { worker, workers };
    let count = set_share(alloc, job, patterns, stock, share, &mut plain, gate);
    let mut source = TableWidths::make(table, seat, gate, worker);
    ask_each(&mut source, bases, plain.cells());
    Ok(count)
}

/// The workers set fixed shares in threads, over computed widths, and claim the instances of their
/// pages afterwards. It gives how many paragraphs were set.
pub(crate) fn set_pages_first<R: Threads + Sync, G: Gate + Sync>(
    rt: &R,
    alloc: Global,
    job: &Job,
    stock: &Stock,
    workers: u32,
    gate: &G,
) -> Result<usize, NoMemory>
    requires job { JobFits job.now }
    requires fonts { length stock.now ≡ length job.now.fonts }
    requires few { workers ≤ 64 }
{
    paragraphs_of_a_job_can_be_set();
    let Crew {
        patterns,
        table,
        seats,
    } = crew_for(alloc, job, stock, workers)?;
    let patterns = &patterns;
    let table = &table;
    let counts = thread::map_vec(
        rt,
        seats,
        &|seat: Seat| -> Result<usize, NoMemory>
            requires { All (IsSettable (length stock.now)) job.now.pars
                × (IsIdle table.now seat × (table.now.bases ≡ map base_of stock.now)) }
        { pages_first(alloc, job, patterns, stock, table, seat, workers, gate) },
    )?;
    let mut count = 0usize;
    for one in counts {
        count = count.wrapping_add(one?);
    }
    Ok(count)
}

/// A worker sets its share over the table, and draws nothing.
fn fixed_share<G: Gate>(
    alloc: Global,
    job: &Job,
    patterns: &Patterns,
    stock: &Stock,
    table: &InstanceTable,
    seat: Seat,
    workers: u32,
    gate: &G,
) -> usize
    requires pars { All (IsSettable (length stock.now)) job.now.pars }
    requires idle { IsIdle table.now seat }
    requires bases { table.now.bases ≡ map base_of stock.now }
{
    let worker = seat.number();
    let share = Share { worker, workers };
    let mut source = TableWidths::make(table, seat, gate, worker);
    set_share(alloc, job, patterns, stock, share, &mut source, gate)
}

/// The workers set fixed shares in threads over the table. It gives how many paragraphs were set.
pub(crate) fn set_fixed_shares<R: Threads + Sync, G: Gate + Sync>(
    rt: &R,
    alloc: Global,
    job: &Job,
    stock: &Stock,
    workers: u32,
    gate: &G,
) -> Result<usize, NoMemory>
    requires job { JobFits job.now }
    requires fonts { length stock.now ≡ length job.now.fonts }
    requires few { workers ≤ 64 }
{
    paragraphs_of_a_job_can_be_set();
    let Crew {
        patterns,
        table,
        seats,
    } = crew_for(alloc, job, stock, workers)?;
    let patterns = &patterns;
    let table = &table;
    let counts = thread::map_vec(
        rt,
        seats,
        &|seat: Seat| -> usize
            requires { All (IsSettable (length stock.now)) job.now.pars
                × (IsIdle table.now seat × (table.now.bases ≡ map base_of stock.now)) }
        { fixed_share(alloc, job, patterns, stock, table, seat, workers, gate) },
    )?;
    let mut count = 0usize;
    for one in counts {
        count = count.wrapping_add(one);
    }
    Ok(count)
}

//! A worker, which draws paragraphs and sets them over the table of instances.
ghost use Rattle.std.specs.Prelude.{◌≡◌, ◌+◌, ◌<◌, ◌⊎◌, Err, IfOk, false, length, map};
ghost use Rattle.hlist_build.specs.declared.fault.ParFault.TheVariants.{NoMemory as no_memory};
ghost use Rattle.hpack_two.specs.Over.{base_of};
ghost use Rattle.job_text.specs.Fits.{JobFits};
ghost use Rattle.liang_hyph.specs.Table.{IsMadeOf};
ghost use Rattle.para_workers.specs.Touched.{TouchedByPage};
ghost use Rattle.para_threads.specs.Working.{HasWorked, IsReady, IsSetAt, lines_at, wants_memory};
ghost use Rattle.table_widths.specs.Widths.{IsIdle, lasting_of, touched_of};

use crate::done::{DoneAt, Work};
use font_stock::Stock;
use hlist_build::ParFault;
use instance_core::Page;
use instance_table::{InstanceTable, Seat};
use job_text::Job;
use liang_hyph::Patterns;
use micro_num::NoMemory;
use outside_io::{Gate, Point};
use para_workers::set_par;
use std::alloc::Global;
use std::snapshot::Snapshot;
use table_widths::TableWidths;

/// What a worker works with, and the gate that it passes under its number.
#[derive(Drop)]
struct Worker<'a, G> {
    job: &'a Job,
    patterns: &'a Patterns,
    stock: &'a Stock,
    table: &'a InstanceTable,
    gate: &'a G,
    number: u32,
}

/// A paragraph that was tried, and the seat over which it was.
#[derive(Drop)]
struct Tried {
    seat: Seat,
    page: Result<Page, ParFault>,
}

/// Whether memory ran out.
fn wants_memory(page: &Result<Page, ParFault>) -> bool
    ensures { result ≡ wants_memory page.now }
{
    matches!(page, Err(ParFault::NoMemory))
}

impl<'a, G: Gate> Worker<'a, G> {
    /// Sets the paragraph at a place. The seat comes back in every case.
    fn set(&self, alloc: Global, seat: Seat, place: u32) -> Tried
        requires ready { let own = self.now in
            IsReady own.job.now own.patterns.now own.stock.now own.table.now }
        requires idle { IsIdle self.now.table.now seat }
        requires within { place < length self.now.job.now.pars }
        ensures idle { IsIdle self.now.table.now result.seat }
        ensures lasts { let table = self.now.table.now in
            lasting_of table result.seat.view ≡ lasting_of table seat.view }
        ensures page { IsSetAt self.now.job.now self.now.stock.now place result.page
            ⊎ (result.page ≡ Err no_memory) }
        ensures touched { let bases = self.now.table.now.bases in
            TouchedByPage (lines_at self.now.job.now self.now.stock.now place) bases
            (touched_of bases seat.view.seen) (touched_of bases result.seat.view.seen) result.page }
    {
        let job = self.job;
        let par = &job.pars.as_slice()[place as usize];
        let mut source = TableWidths::make(self.table, seat, self.gate, self.number);
        let page = set_par(
            alloc,
            par,
            &job.tables,
            self.patterns,
            self.stock,
            &mut source,
        );
        self.pass_paragraph(&page, place, place + 1);
        Tried {
            seat: source.finish(),
            page,
        }
    }

    /// Passes the gate before the first step of a seat, which is as it was given.
    fn pass_started(&self, _seat: &Seat, _given: Snapshot<Seat>)
        requires { _seat.now ≡ _given.value }
    {
        self.gate.pass(self.number, Point::Started, 0);
    }

    /// Passes the gate with a paragraph that was set, by its number from 1.
    fn pass_paragraph(&self, _page: &Result<Page, ParFault>, _place: u32, paragraph: u32)
        requires { paragraph ≡ _place + 1 }
    {
        self.gate.pass(self.number, Point::Paragraph, paragraph);
    }

    /// Draws paragraphs until none is left, and sets each.
    fn run(&self, alloc: Global, mut seat: Seat) -> Work
        requires ready { let own = self.now in
            IsReady own.job.now own.patterns.now own.stock.now own.table.now }
        requires idle { IsIdle self.now.table.now seat }
        requires going { seat.view.ended ≡ false }
        ensures idle { IsIdle self.now.table.now result.seat }
        ensures number { result.seat.view.number ≡ seat.view.number }
        ensures done { IfOk result.done (λ done. HasWorked self.now.job.now self.now.stock.now
            seat.view result.seat.view done.items) }
    {
        let mut done = Vec::new(alloc);
        while let Some(place) = self.table.draw(&mut seat) {
            let Tried { seat: back, page } = self.set(alloc, seat, place);
            seat = back;
            if wants_memory(&page) {
                return Work {
                    seat,
                    done: Err(NoMemory),
                };
            }
            let Ok(()) = done.push(DoneAt { place, page }) else {
                return Work {
                    seat,
                    done: Err(NoMemory),
                };
            };
        }
        Work {
            seat,
            done: Ok(done),
        }
    }
}

/// What the worker of a number does: it draws numbers until none is left, and sets the paragraph at
/// each over the table. It goes on behind a paragraph that has a fault.
///
/// The fonts stand in the stock in the order of their declaration, and the patterns are made of the
/// job's. The table has the instances of these fonts, and a draw for each paragraph. The seat is
/// one of the table's, builds nothing, and was never answered that no draw is left.
///
/// The worker passes the gate at [`Point::Started`] before its first draw, and at
/// [`Point::Paragraph`] after each paragraph, with the paragraph's number from 1.
///
/// The seat comes back in every case. Where memory runs out, `done` is an `Err`; else it has an
/// entry for each number below the count of paragraphs that this call drew, in that order. Then the
/// seat has seen the instances of the pages, and besides only such as a refused paragraph asks for.
pub fn work<G: Gate + Sync>(
    alloc: Global,
    job: &Job,
    patterns: &Patterns,
    stock: &Stock,
    table: &InstanceTable,
    seat: Seat,
    worker: u32,
    gate: &G,
) -> Work
    requires job { JobFits job.now }
    requires fonts { length stock.now ≡ length job.now.fonts }
    requires patterns { IsMadeOf patterns.now job.now.patterns job.now.exceptions }
    requires bases { table.now.bases ≡ map base_of stock.now }
    requires draws { table.now.draws ≡ length job.now.pars }
    requires idle { IsIdle table.now seat }
    requires going { seat.view.ended ≡ false }
    ensures idle { IsIdle table.now result.seat }
    ensures number { result.seat.view.number ≡ seat.view.number }
    ensures done { IfOk result.done (λ done. HasWorked job.now stock.now seat.view
        result.seat.view done.items) }
{
    let own = Worker {
        job,
        patterns,
        stock,
        table,
        gate,
        number: worker,
    };
    let given = Snapshot::of(&seat);
    own.pass_started(&seat, given);
    own.run(alloc, seat)
}

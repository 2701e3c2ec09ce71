//! What a worker of a race does: it sets all paragraphs over the table.
ghost use Rattle.std.specs.Prelude.{◌≡◌, All, length, map};
ghost use Rattle.hpack_two.specs.Over.{base_of};
ghost use Rattle.para_workers.specs.Pages.{IsSettable};
ghost use Rattle.table_widths.specs.Widths.{IsIdle};

use crate::pages::same_page;
use instance_core::{Page, WidthSource};
use instance_table::{InstanceTable, Seat};
use para_workers::set_par;
use std::alloc::Global;
use table_widths::TableWidths;
use test_jobs::Document;
use width_races::HoldingGate;

/// Sets all paragraphs, forwards or backwards, and gives how many of the pages are those told.
fn right_pages<W: WidthSource>(
    alloc: Global,
    document: &Document,
    pages: &[Page],
    backwards: bool,
    source: &mut W,
    gate: &HoldingGate,
) -> u32
    requires settable { All (IsSettable (length document.now.stock)) document.now.job.pars }
    requires bases { W.bases source.old ≡ map base_of document.now.stock }
{
    let pars = document.job.pars.as_slice();
    let mut right = 0u32;
    for turn in 0..pars.len() {
        let index = if backwards {
            pars.len() - 1 - turn
        } else {
            turn
        };
        let page = set_par(
            alloc,
            &pars[index],
            &document.job.tables,
            &document.patterns,
            &document.stock,
            source,
        );
        if let (Ok(page), Some(told)) = (page, pages.get(index)) {
            if same_page(&page, told) {
                right = right.wrapping_add(1);
            }
        }
        gate.tell();
    }
    right
}

/// How many pages that a worker sets over the table are those told. Workers of even numbers begin
/// with the last paragraph.
pub fn right_pages_of_worker(
    alloc: Global,
    table: &InstanceTable,
    seat: Seat,
    document: &Document,
    pages: &[Page],
    gate: &HoldingGate,
) -> u32
    requires settable { All (IsSettable (length document.now.stock)) document.now.job.pars }
    requires idle { IsIdle table.now seat }
    requires bases { table.now.bases ≡ map base_of document.now.stock }
{
    let worker = seat.number();
    let backwards = worker % 2 == 0;
    let mut source = TableWidths::make(table, seat, gate, worker);
    right_pages(alloc, document, pages, backwards, &mut source, gate)
}

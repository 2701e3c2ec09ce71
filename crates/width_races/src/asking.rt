//! What a worker asks: the widths of every third cell, one of each.
ghost use Rattle.std.specs.Prelude.{◌≡◌, ◌<◌, length};
ghost use Rattle.instance_core.specs.Cells.{cells_of, IsCellOf};
ghost use Rattle.instance_table.specs.Seats.{IsSeatOf};
ghost use Rattle.table_widths.specs.Widths.{IsIdle};

use crate::holding::HoldingGate;
use instance_core::{Bases, Cell, PlainWidths, WidthSource, cell_of};
use instance_table::{InstanceTable, Seat};
use micro_num::{NoMemory, Sp};
use std::alloc::Global;
use table_widths::TableWidths;

/// What a worker came to: its seat, and how many widths were those that are computed.
#[derive(Drop)]
pub struct Measured {
    pub seat: Seat,
    pub right: u64,
}

/// The cell of a number, as one that sources over the fonts may be asked for.
pub fn numbered_cell(fonts: &Bases, number: u32) -> Cell
    requires { number < length (cells_of fonts.now) }
    ensures { IsCellOf fonts.now result }
{
    cell_of(fonts, number)
}

/// The widths that a source gives, in the order of the cells: of each cell the one of the code
/// with its place.
pub fn plain_widths(
    alloc: Global,
    source: &mut PlainWidths,
    fonts: &Bases,
) -> Result<Vec<Sp>, NoMemory>
    requires { source.old.bases.now ≡ fonts.now }
{
    let count = fonts.cell_count() / 3;
    let mut widths = Vec::with_capacity(alloc, count as usize)?;
    for place in 0..count {
        let cell = numbered_cell(fonts, 3 * place);
        widths.push(source.width(cell, (place % 256) as u8))?;
    }
    Ok(widths)
}

/// Asks a source for the same widths, forwards or backwards, and gives how many are the same.
fn right_widths<W: WidthSource>(
    source: &mut W,
    fonts: &Bases,
    widths: &[Sp],
    backwards: bool,
    gate: &HoldingGate,
) -> u64
    requires { W.bases source.old ≡ fonts.now }
    ensures bases { W.bases source.new ≡ fonts.now }
    ensures fixed { W.fixed source.new ≡ W.fixed source.old }
{
    let count = fonts.cell_count() / 3;
    let mut right = 0u64;
    for step in 0..count {
        let place = if backwards { count - 1 - step } else { step };
        let width = source.width(numbered_cell(fonts, 3 * place), (place % 256) as u8);
        if widths.get(place as usize) == Some(&width) {
            right = right.wrapping_add(1);
        }
        gate.tell();
    }
    right
}

/// A worker asks for the widths over the table, and then for the same once more by a new source.
pub fn ask_twice(
    table: &InstanceTable,
    seat: Seat,
    fonts: &Bases,
    widths: &[Sp],
    gate: &HoldingGate,
) -> Measured
    requires idle { IsIdle table.now seat }
    requires fonts { table.now.bases ≡ fonts.now }
    ensures idle { IsIdle table.now result.seat }
    ensures number { result.seat.view.number ≡ seat.view.number }
{
    let worker = seat.number();
    let backwards = worker % 2 == 0;
    let mut source = TableWidths::make(table, seat, gate, worker);
    let right = right_widths(&mut source, fonts, widths, backwards, gate);
    let mut source = TableWidths::make(table, source.finish(), gate, worker);
    let again = right_widths(&mut source, fonts, widths, backwards, gate);
    Measured {
        seat: source.finish(),
        right: right.wrapping_add(again),
    }
}

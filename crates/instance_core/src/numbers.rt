//! The numbers of cells: fonts in order, and each font's steps from its greatest shrink to its
//! greatest stretch, without 0.
ghost use Rattle.std.specs.Prelude.{◌≡◌, ◌<◌, length, slice_get, Some, IfSome};
ghost use Rattle.instance_core.specs.Cells.{cells_of, number_of};

use crate::bases::Bases;
use crate::cell::Cell;

/// The number of a cell, or `None` where the fonts have no such instance.
pub fn cell_number(bases: &Bases, cell: Cell) -> Option<u32>
    ensures exact { result ≡ number_of bases.now cell }
    ensures back { IfSome result (λ n. slice_get (cells_of bases.now) n ≡ Some cell) }
{
    let number = cell.font as usize;
    if number >= bases.fonts().len() {
        return None;
    }
    let place = bases.fonts()[number].place_of(cell.step)?;
    Some(bases.first_cell(number) + place)
}

/// The cell of a number below the count of cells.
pub fn cell_of(bases: &Bases, number: u32) -> Cell
    requires { number < length (cells_of bases.now) }
    ensures exact { slice_get (cells_of bases.now) number ≡ Some result }
    ensures back { number_of bases.now result ≡ Some number }
{
    let mut place = number;
    for (font, base) in bases.fonts().iter().enumerate() {
        let steps = base.steps();
        if place < steps {
            return Cell {
                font: font as u32,
                step: base.step_at(place),
            };
        }
        place -= steps;
    }
    unreachable!()
}

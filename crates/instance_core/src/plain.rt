//! A source of widths that computes each answer and remembers which cells were asked.
ghost use Rattle.std.specs.Prelude.{◌≡◌, ◌≤◌, length, map, vec_capacity};
ghost use Rattle.instance_core.specs.Bases.{AreBases};
ghost use Rattle.instance_core.specs.Cells.{cells_of, has_cell, in_cell_order};

use crate::bases::Bases;
use crate::cell::Cell;
use crate::numbers::cell_number;
use crate::source::WidthSource;
use crate::touching::put_in_order;
use micro_num::{NoMemory, Sp};
use std::alloc::Global;

/// A source that computes each answer, and keeps the cells asked in cell order. It has a mark for
/// each cell of its fonts, so that a cell asked again costs a look-up.
#[derive(Drop)]
pub struct PlainWidths<'a> {
    bases: &'a Bases,
    asked: Vec<bool>,
    cells: Vec<Cell>,
    pub ghost kept: { AreBases bases.now },
    pub ghost marks: { asked.items ≡ map (has_cell cells.items) (cells_of bases.now) },
    pub ghost order: { cells.items ≡ in_cell_order bases.now cells.items },
    pub ghost room: { length (cells_of bases.now) ≤ vec_capacity cells },
}

impl<'a> PlainWidths<'a> {
    ghost use Rattle.std.specs.Prelude.{[], IfOk};

    /// A source over fonts, of which no cell was asked. It has room for all of their cells, and
    /// fails only for want of memory.
    pub fn make(alloc: Global, bases: &'a Bases) -> Result<PlainWidths<'a>, NoMemory>
        ensures bases { IfOk result (λ source. source.bases.now ≡ bases.now) }
        ensures touched { IfOk result (λ source. source.cells.items ≡ []) }
    {
        bases.is_in_range();
        let count = bases.cell_count() as usize;
        Ok(PlainWidths {
            bases,
            asked: vec![in alloc; false; count]?,
            cells: Vec::with_capacity(alloc, count)?,
        })
    }

    /// The cells asked, in cell order and without repeats.
    pub fn cells(&self) -> &[Cell]
        ensures { result.now ≡ self.now.cells.items }
    {
        self.cells.as_slice()
    }
}

impl<'a> WidthSource for PlainWidths<'a> {
    type Fixed = ();

    ghost bases = { λ source. source.bases.now };

    ghost touched = { λ source. source.cells.items };

    ghost fixed = { λ _. tt };

    fn width(&mut self, cell: Cell, code: u8) -> Sp {
        if let Some(number) = cell_number(self.bases, cell) {
            let number = number as usize;
            if !self.asked[number] {
                put_in_order(&mut self.asked, &mut self.cells, number, cell);
            }
        }
        self.bases.width(cell, code)
    }

    ghost in_order = { λ source. source.order };
}

//! The numbers of fonts in a file: each instance by the place of its first use.
ghost use Rattle.std.specs.Prelude.{◌≡◌, ◌≤◌, ◌<◌, length, IfOk, IfSome};
ghost use Rattle.renumber.specs.Uses.{cells_of_pages, first_uses, number_in};

use crate::first_uses::first_uses;
use indexmap::IndexSet;
use instance_core::{Cell, Page};
use micro_num::NoMemory;
use std::alloc::Global;
use std::marker::Model;

/// The cells that pages use, in reading order and without repeats: at most 65,536 of them. A cell's
/// number is its place there.
#[derive(Drop)]
pub struct Numbering {
    cells: IndexSet<Cell>,
}

impl Model for Numbering {
    ghost use Rattle.std.specs.Prelude.{List, ◌≤◌, length};
    ghost use Rattle.instance_core.specs.declared.cell.Cell.{Cell};

    ghost Value = { List Cell };

    ghost view = { λ n. n.cells.keys };

    ghost invariant = { λ n. length n.cells.keys ≤ 65536 };
}

impl Numbering {
    /// The first uses of the pages. It fails only for want of memory.
    pub fn make(alloc: Global, pages: &[Page]) -> Result<Numbering, NoMemory>
        requires { length (first_uses (cells_of_pages pages.now)) ≤ 65536 }
        ensures { IfOk result (λ numbering. numbering ≡ first_uses (cells_of_pages pages.now)) }
    {
        let cells = first_uses(alloc, pages)?;
        Ok(Numbering { cells })
    }

    /// The cells, each at its number.
    pub fn cells(&self) -> &[Cell]
        ensures cells { result.now ≡ self.now }
        ensures few { length result.now ≤ 65536 }
    {
        self.cells.as_slice()
    }

    /// The number of a cell, or `None` where the pages don't use it.
    pub fn number_of(&self, cell: Cell) -> Option<u32>
        ensures exact { result ≡ number_in self.now cell }
        ensures few { IfSome result (λ number. number < 65536) }
    {
        let number = self.cells.get_index_of(&cell)?;
        Some(number as u32)
    }
}

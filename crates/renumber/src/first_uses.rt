//! First uses, as glyphs come one after another.
ghost use Rattle.std.specs.Prelude.{◌≡◌, [], OnOk, IfOk};
ghost use Rattle.std.specs.List.{list_all};
ghost use Rattle.indexmap.specs.IndexSet.{insert_key, insert_all};
ghost use Rattle.instance_core.specs.declared.page.Placed.{Placed};
ghost use Rattle.instance_core.specs.Cells.{same_cell};
ghost use Rattle.renumber.specs.Uses.{cells_of_line, cells_of_lines, cells_of_pages};

use indexmap::IndexSet;
use instance_core::{Cell, Packed, Page, PageLine, Placed};
use micro_num::NoMemory;
use std::alloc::Global;
use std::marker::Model;

/// The cells so far, each at the place of its first use. A glyph with the cell of the glyph before
/// costs no look-up.
#[derive(Drop)]
pub(crate) struct FirstUses {
    cells: IndexSet<Cell>,
    last: Option<Cell>,
}

impl Model for FirstUses {
    ghost use Rattle.std.specs.Prelude.{◌≡◌, List, true};
    ghost use Rattle.std.specs.Option.{ForSome};
    ghost use Rattle.instance_core.specs.declared.cell.Cell.{Cell};
    ghost use Rattle.instance_core.specs.Cells.{has_cell};

    ghost Value = { List Cell };

    ghost view = { λ u. u.cells.keys };

    ghost invariant = { λ u. ForSome u.last (λ cell. has_cell u.cells.keys cell ≡ true) };
}

impl FirstUses {
    fn new(alloc: Global) -> FirstUses
        ensures { result ≡ [] }
    {
        FirstUses {
            cells: IndexSet::new(alloc),
            last: None,
        }
    }

    fn put(&mut self, cell: Cell) -> Result<(), NoMemory>
        ensures { OnOk result (self.new ≡ insert_key same_cell self.old cell) }
    {
        if self.last != Some(cell) {
            self.cells.insert(cell)?;
            self.last = Some(cell);
        }
        Ok(())
    }

    fn put_each(&mut self, line: &Packed) -> Result<(), NoMemory>
        ensures { OnOk result (self.new ≡ insert_all same_cell self.old (cells_of_line line.now)) }
    {
        for glyph in line.glyphs.as_slice() {
            self.put(glyph.cell)?;
        }
        Ok(())
    }

    /// Puts the cells of a line. Most lines have one, which is put once.
    #[tactic(auto, using(crate::proofs::OneCell::insert_one_cell))]
    fn put_line(&mut self, line: &Packed) -> Result<(), NoMemory>
        ensures { OnOk result (self.new ≡ insert_all same_cell self.old (cells_of_line line.now)) }
    {
        let glyphs = line.glyphs.as_slice();
        if glyphs.is_empty() {
            return Ok(());
        }
        let first = glyphs[0].cell;
        if have_cell(glyphs, first) {
            self.put(first)
        } else {
            self.put_each(line)
        }
    }

    fn put_lines(&mut self, lines: &[PageLine]) -> Result<(), NoMemory>
        ensures { OnOk result (self.new
            ≡ insert_all same_cell self.old (cells_of_lines lines.now)) }
    {
        for placed in lines {
            self.put_line(&placed.line)?;
        }
        Ok(())
    }
}

/// Whether all of the glyphs have this cell.
fn have_cell(glyphs: &[Placed], cell: Cell) -> bool
    ensures { result ≡ list_all (λ (g : Placed). same_cell g.cell cell) glyphs.now }
{
    for glyph in glyphs {
        if glyph.cell != cell {
            return false;
        }
    }
    true
}

/// The first uses of pages.
pub(crate) fn first_uses(alloc: Global, pages: &[Page]) -> Result<IndexSet<Cell>, NoMemory>
    ensures { IfOk result (λ cells. cells.keys
        ≡ insert_all same_cell [] (cells_of_pages pages.now)) }
{
    let mut uses = FirstUses::new(alloc);
    for page in pages {
        uses.put_lines(page.lines.as_slice())?;
    }
    let FirstUses { cells, last: _ } = uses;
    Ok(cells)
}

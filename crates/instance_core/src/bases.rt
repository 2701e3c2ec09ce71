//! The fonts that instances are made of, kept in range, and the widths of their instances (Thành,
//! Micro-typographic extensions to the TeX typesetting system).
use crate::cell::Cell;
use crate::font::BaseFont;
use items::Items;
use micro_num::{NoMemory, Sp};
use std::alloc::Global;
use std::marker::Model;

/// The fonts that instances are made of, at most 32, in the order of declaration; contracts see the
/// list of them.
///
/// Wherever there is a value, each font has a size from 1 to 2^27 - 1, a step of at least 1, limits
/// that are multiples of the step, of which the shrink is at most 500, and at most 128 instances;
/// and each width of it is a fix_word, by itself and at the greatest stretch.
#[derive(Drop)]
pub struct Bases {
    fonts: Items<BaseFont>,
    firsts: Items<u32>,
    cells: u32,
}

impl Model for Bases {
    ghost use Rattle.std.specs.Prelude.{List};
    ghost use Rattle.instance_core.specs.declared.font.BaseFont.{BaseFont};
    ghost use Rattle.instance_core.specs.Numbered.{AreNumbered};

    ghost Value = { List BaseFont };

    ghost view = { λ b. b.fonts };

    ghost invariant = { λ b. AreNumbered b.fonts b.firsts b.cells };
}

impl Bases {
    ghost use Rattle.std.specs.Prelude.{◌≡◌, ◌≤◌, ◌<◌, length, take, IfOk};
    ghost use Rattle.instance_core.specs.Bases.{AreBases};
    ghost use Rattle.instance_core.specs.Cells.{cells_of, IsCellOf};
    ghost use Rattle.instance_core.specs.Instances.{instance_width};

    /// The fonts that instances are made of. It fails only for want of memory.
    pub fn make(alloc: Global, fonts: Vec<BaseFont>) -> Result<Bases, NoMemory>
        requires { AreBases fonts.items }
        ensures { IfOk result (λ bases. bases ≡ fonts.items) }
    {
        let mut firsts = Vec::with_capacity(alloc, fonts.len())?;
        let mut cells = 0;
        for font in &fonts {
            firsts.push(cells)?;
            cells += font.steps();
        }
        Ok(Bases {
            fonts: Items::from_vec(fonts),
            firsts: Items::from_vec(firsts),
            cells,
        })
    }

    /// The fonts.
    pub fn fonts(&self) -> &[BaseFont]
        ensures fonts { result.now ≡ self.now }
        ensures kept { AreBases result.now }
    {
        self.fonts.as_slice()
    }

    /// The law of the fonts: they are kept in range.
    pub fn is_in_range(&self)
        ensures { AreBases self.now }
    {
        let _ = &self.fonts;
    }

    /// How many cells there are: one for each instance of each font.
    pub fn cell_count(&self) -> u32
        ensures exact { result ≡ length (cells_of self.now) }
        ensures few { result ≤ 4096 }
    {
        self.cells
    }

    /// The width of a character in the instance of a cell.
    pub fn width(&self, cell: Cell, code: u8) -> Sp
        requires { IsCellOf self.now cell }
        ensures { result ≡ instance_width self.now cell code }
    {
        self.fonts.as_slice()[cell.font as usize].width_at(cell.step, code)
    }

    /// The number of the first cell of a font.
    pub(crate) fn first_cell(&self, font: usize) -> u32
        requires { font < length self.now }
        ensures exact { result ≡ length (cells_of (take font self.now)) }
        ensures few { result ≤ 4096 }
    {
        self.firsts.as_slice()[font]
    }

    /// A copy. It fails only for want of memory.
    pub fn copy(&self, alloc: Global) -> Result<Bases, NoMemory>
        ensures { IfOk result (λ copy. copy ≡ self.now) }
    {
        let fonts = Items::from_copies(alloc, self.fonts.as_slice(), |font| font.copy(alloc))?;
        let firsts = Items::from_slice(alloc, self.firsts.as_slice())?;
        Ok(Bases {
            fonts,
            firsts,
            cells: self.cells,
        })
    }
}

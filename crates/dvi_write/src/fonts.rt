//! The fonts of a DVI file: their definitions and selections.
ghost use Rattle.std.specs.Prelude.{◌≡◌, ◌<◌, ◌++◌, ◌∷◌, ◌≤◌, length, take, IfOk, OnOk, true, false};
ghost use Rattle.instance_core.specs.Cells.{has_cell};
ghost use Rattle.dvi_write.specs.Commands.{spell};
ghost use Rattle.dvi_write.specs.Document.{define, definition_head, row_sizes, name_bytes, is_selected, number_at, step_suffix};
ghost use Rattle.dvi_write.specs.Output.{grown};
ghost use Rattle.dvi_write.specs.Writable.{IsDefinable};
ghost use Rattle.dvi_write.specs.Writing.{font_bytes, font_after};

use crate::commands::{put_number, put_selection, put_signed};
use crate::opcodes::{FNT_DEF1, FNT_DEF2};
use crate::output::Output;
use crate::row::FontRow;
use byteorder::{BigEndian, ByteOrder};
use instance_core::Cell;
use itoa::Buffer;
use micro_num::NoMemory;
use renumber::Numbering;

/// What the file has said of fonts so far: how many are defined, in the order of their numbers, and
/// which one this page selected last.
#[derive(Clone, Copy)]
pub(crate) struct Fonts {
    pub defined: u32,
    pub selected: Option<Cell>,
}

impl Fonts {
    pub fn is_selected(&self, cell: Cell) -> bool
        ensures { result ≡ is_selected self.now.selected cell }
    {
        match self.selected {
            Some(selected) => selected == cell,
            None => false,
        }
    }
}

/// The number of a cell that the numbering has.
#[tactic(auto, unfolding(crate::specs::Document::number_at))]
fn number_of(numbering: &Numbering, cell: Cell) -> u32
    requires { has_cell numbering.now cell ≡ true }
    ensures exact { result ≡ number_at numbering.now cell }
    ensures few { result < 65536 }
{
    match numbering.number_of(cell) {
        Some(number) => number,
        None => unreachable!(),
    }
}

/// Puts the command that defines the font of this number, without what it says of the font.
fn put_definition_head(out: &mut Output, number: u32) -> Result<(), NoMemory>
    ensures { OnOk result (out.new ≡ grown out.old (definition_head number)) }
{
    let mut bytes = [0; 4];
    BigEndian::write_u32(&mut bytes, number);
    let [_, _, high, low] = bytes;
    if number < 256 {
        out.put(&[FNT_DEF1, low])
    } else {
        out.put(&[FNT_DEF2, high, low])
    }
}

/// Puts the checksum, the size and the design size of a font.
fn put_sizes(out: &mut Output, row: &FontRow) -> Result<(), NoMemory>
    ensures { OnOk result (out.new ≡ grown out.old (row_sizes row.now)) }
{
    put_number(out, row.checksum)?;
    put_signed(out, row.size)?;
    put_signed(out, row.design)
}

/// Puts a name of three parts behind its length.
fn put_name(out: &mut Output, name: &[u8], sign: &[u8], digits: &[u8]) -> Result<(), NoMemory>
    requires { length (name.now ++ sign.now ++ digits.now) ≤ 255 }
    ensures { OnOk result (out.new
        ≡ grown out.old (name_bytes (name.now ++ sign.now ++ digits.now))) }
{
    let length = name.len() + sign.len() + digits.len();
    out.put(&[0, length as u8])?;
    out.put(name)?;
    out.put(sign)?;
    out.put(digits)
}

/// Puts the name of a font's instance at a step behind its length.
#[tactic(auto, using(std::proofs::Common::append_assoc))]
fn put_instance_name(out: &mut Output, name: &[u8], step: i32) -> Result<(), NoMemory>
    requires { length (name.now ++ step_suffix step) ≤ 255 }
    ensures { OnOk result (out.new ≡ grown out.old (name_bytes (name.now ++ step_suffix step))) }
{
    if step == 0 {
        return put_name(out, name, b"", b"");
    }
    let mut buffer = Buffer::new();
    let digits = buffer.format(step.unsigned_abs()).as_bytes();
    let sign = if step < 0 { b"-" } else { b"+" };
    put_name(out, name, sign, digits)
}

/// Puts the definition of the font of a cell, which has this number.
#[tactic(auto, using(crate::proofs::Grown::grown_twice, std::proofs::Common::append_assoc), unfolding(crate::specs::Commands::spell, crate::specs::Document::define, crate::specs::Document::instance_name, crate::specs::Document::row_of))]
pub(crate) fn put_definition(
    out: &mut Output,
    rows: &[FontRow],
    number: u32,
    cell: Cell,
) -> Result<(), NoMemory>
    requires { IsDefinable rows.now cell }
    ensures { OnOk result (out.new ≡ grown out.old (spell (define rows.now number cell))) }
{
    let row = &rows[cell.font as usize];
    put_definition_head(out, number)?;
    put_sizes(out, row)?;
    put_instance_name(out, row.name.as_bytes(), cell.step)
}

/// Puts the font of a glyph, where it isn't the one that is selected.
#[tactic(auto, using(crate::proofs::Grown::grown_nothing), unfolding(crate::specs::Writing::font_bytes, crate::specs::Writing::font_after))]
pub(crate) fn put_font(
    out: &mut Output,
    rows: &[FontRow],
    numbering: &Numbering,
    fonts: &mut Fonts,
    cell: Cell,
) -> Result<(), NoMemory>
    requires definable { IsDefinable rows.now cell }
    requires numbered { has_cell numbering.now cell ≡ true }
    ensures bytes { OnOk result (out.new
        ≡ grown out.old (font_bytes rows.now numbering.now fonts.old cell)) }
    ensures after { OnOk result (fonts.new ≡ font_after numbering.now fonts.old cell) }
{
    if fonts.is_selected(cell) {
        Ok(())
    } else {
        put_other_font(out, rows, numbering, fonts, cell)
    }
}

/// Puts the font of a glyph behind the bytes gathered, where it isn't the one that is selected, and
/// gives how many bytes are left.
#[inline(always)]
#[tactic(auto, using(crate::proofs::Grown::grown_twice, crate::proofs::Grown::grown_nothing), unfolding(crate::specs::Writing::font_bytes, crate::specs::Writing::font_after))]
pub(crate) fn put_font_behind(
    out: &mut Output,
    rows: &[FontRow],
    numbering: &Numbering,
    fonts: &mut Fonts,
    gathered: &[u8; 64],
    count: usize,
    cell: Cell,
) -> Result<usize, NoMemory>
    requires definable { IsDefinable rows.now cell }
    requires numbered { has_cell numbering.now cell ≡ true }
    requires within { count ≤ 64 }
    ensures bytes { IfOk result (λ left. grown out.new (take left gathered.now)
        ≡ grown (grown out.old (take count gathered.now))
        (font_bytes rows.now numbering.now fonts.old cell)) }
    ensures after { OnOk result (fonts.new ≡ font_after numbering.now fonts.old cell) }
    ensures left { IfOk result (λ left. left ≤ count) }
{
    if fonts.is_selected(cell) {
        return Ok(count);
    }
    out.put(&gathered[..count])?;
    put_other_font(out, rows, numbering, fonts, cell)?;
    Ok(0)
}

/// Puts a font that isn't selected. It is rare, so it stands apart from the loop over glyphs.
#[inline(never)]
#[tactic(auto, using(crate::proofs::Grown::grown_twice), unfolding(crate::specs::Writing::font_bytes, crate::specs::Writing::font_after))]
fn put_other_font(
    out: &mut Output,
    rows: &[FontRow],
    numbering: &Numbering,
    fonts: &mut Fonts,
    cell: Cell,
) -> Result<(), NoMemory>
    requires definable { IsDefinable rows.now cell }
    requires numbered { has_cell numbering.now cell ≡ true }
    requires other { is_selected fonts.old.selected cell ≡ false }
    ensures bytes { OnOk result (out.new
        ≡ grown out.old (font_bytes rows.now numbering.now fonts.old cell)) }
    ensures after { OnOk result (fonts.new ≡ font_after numbering.now fonts.old cell) }
{
    let number = number_of(numbering, cell);
    if fonts.defined <= number {
        put_definition(out, rows, number, cell)?;
    }
    put_selection(out, number)?;
    fonts.defined = fonts.defined.max(number + 1);
    fonts.selected = Some(cell);
    Ok(())
}

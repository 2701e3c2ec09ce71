//! The pages of a DVI file.
ghost use Rattle.std.specs.Prelude.{◌≡◌, ◌≤◌, length, pos, None, OnOk, IfOk, All};
ghost use Rattle.renumber.specs.Uses.{cells_of_line, cells_of_lines};
ghost use Rattle.dvi_write.specs.Output.{grown};
ghost use Rattle.dvi_write.specs.Writable.{IsPlace, IsLinePuttable, IsPuttable};
ghost use Rattle.dvi_write.specs.Writing.{line_bytes, lines_bytes};
ghost use Rattle.dvi_write.specs.Writing.{page_bytes, page_head, pages_bytes, last_page};
ghost use Rattle.dvi_write.specs.Writing.{fonts_after, defined_after};

use crate::commands::{put_down, put_number, put_pointer};
use crate::fonts::Fonts;
use crate::glyphs::{distance, put_glyphs};
use crate::opcodes::{BOP, EOP, POP, PUSH};
use crate::output::Output;
use crate::row::FontRow;
use instance_core::{Page, PageLine};
use micro_num::{NoMemory, Sp};
use renumber::Numbering;

/// Puts a line on its baseline, after the one whose baseline is `v`.
#[tactic(auto, using(crate::proofs::Grown::grown_twice), unfolding(crate::specs::Writing::line_bytes, crate::specs::Commands::spell))]
fn put_line(
    out: &mut Output,
    rows: &[FontRow],
    numbering: &Numbering,
    fonts: &mut Fonts,
    v: Sp,
    placed: &PageLine,
) -> Result<(), NoMemory>
    requires from { IsPlace v }
    requires puttable { IsLinePuttable rows.now numbering.now placed.now }
    ensures bytes { OnOk result (out.new
        ≡ grown out.old (line_bytes rows.now numbering.now fonts.old v placed.now)) }
    ensures after { OnOk result (fonts.new
        ≡ fonts_after numbering.now fonts.old (cells_of_line placed.now.line)) }
{
    put_down(out, distance(v, placed.baseline))?;
    out.put(&[PUSH])?;
    put_glyphs(out, rows, numbering, fonts, placed.line.glyphs.as_slice())?;
    out.put(&[POP])
}

/// Puts the lines of a page.
#[tactic(auto, using(crate::proofs::Grown::grown_nothing))]
fn put_lines(
    out: &mut Output,
    rows: &[FontRow],
    numbering: &Numbering,
    fonts: &mut Fonts,
    lines: &[PageLine],
) -> Result<(), NoMemory>
    requires { All (IsLinePuttable rows.now numbering.now) lines.now }
    ensures bytes { OnOk result (out.new
        ≡ grown out.old (lines_bytes rows.now numbering.now fonts.old (pos 0) lines.now)) }
    ensures after { OnOk result (fonts.new
        ≡ fonts_after numbering.now fonts.old (cells_of_lines lines.now)) }
{
    let mut v = 0;
    for placed in lines {
        put_line(out, rows, numbering, fonts, v, placed)?;
        v = placed.baseline;
    }
    Ok(())
}

/// Puts the beginning of a page: its number, and the place of the page before.
#[tactic(auto, using(crate::proofs::Grown::grown_twice), unfolding(crate::specs::Writing::page_head, crate::specs::Commands::spell))]
fn put_page_head(out: &mut Output, number: u32, previous: Option<u64>) -> Result<(), NoMemory>
    ensures { OnOk result (out.new ≡ grown out.old (page_head number previous)) }
{
    out.put(&[BOP])?;
    put_number(out, number)?;
    out.put(&[0; 36])?;
    put_pointer(out, previous)
}

/// Puts a page, and gives how many fonts are defined after it.
#[tactic(auto, using(crate::proofs::Grown::grown_twice), unfolding(crate::specs::Writing::page_bytes, crate::specs::Writing::defined_after, crate::specs::Commands::spell))]
fn put_page(
    out: &mut Output,
    rows: &[FontRow],
    numbering: &Numbering,
    defined: u32,
    number: u32,
    previous: Option<u64>,
    page: &Page,
) -> Result<u32, NoMemory>
    requires { IsPuttable rows.now numbering.now page.now }
    ensures bytes { OnOk result (out.new
        ≡ grown out.old (page_bytes rows.now numbering.now defined number previous page.now)) }
    ensures after { IfOk result (λ after. after ≡ defined_after numbering.now defined page.now) }
{
    put_page_head(out, number, previous)?;
    let mut fonts = Fonts {
        defined,
        selected: None,
    };
    put_lines(out, rows, numbering, &mut fonts, page.lines.as_slice())?;
    out.put(&[EOP])?;
    Ok(fonts.defined)
}

/// Puts the pages, and gives where the last one begins.
#[tactic(auto, using(crate::proofs::Grown::grown_nothing))]
pub(crate) fn put_pages(
    out: &mut Output,
    rows: &[FontRow],
    numbering: &Numbering,
    pages: &[Page],
) -> Result<Option<u64>, NoMemory>
    requires puttable { All (IsPuttable rows.now numbering.now) pages.now }
    requires few { length pages.now ≤ 65535 }
    ensures bytes { OnOk result (out.new
        ≡ grown out.old (pages_bytes rows.now numbering.now 0 out.old.length 1 None pages.now)) }
    ensures last { IfOk result (λ last. last
        ≡ last_page rows.now numbering.now 0 out.old.length 1 None pages.now) }
{
    let mut defined = 0;
    let mut previous = None;
    for (before, page) in pages.iter().enumerate() {
        let place = out.length();
        let number = before as u32 + 1;
        defined = put_page(out, rows, numbering, defined, number, previous, page)?;
        previous = Some(place);
    }
    Ok(previous)
}

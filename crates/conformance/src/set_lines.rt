//! The lines of paragraphs as they are broken, packed one by one and printed, and the cells that
//! one source of widths was asked for.
ghost use Rattle.std.specs.Prelude.{◌≡◌, ◌<◌, ◌≤◌, ◌^◌, ◌+ℤ◌, ◌≤ℤ◌, ◌<ℤ◌, All, IsTrue};
ghost use Rattle.std.specs.Prelude.{map, neg_ℤ, pos, unsigned_abs};
ghost use Rattle.hlist.specs.Bounds.{IsSmall, IsListOf};
ghost use Rattle.break_rule.specs.Made.{IsPlace, IsFrom};
ghost use Rattle.break_rule.specs.Over.{Share};
ghost use Rattle.hpack_two.specs.Over.{base_of};

use crate::lists::fault_text;
use break_rule::{BreakRule, From};
use font_stock::Stock;
use hlist::HList;
use hlist_build::{ParFault, build};
use hpack_two::{PackFault, bases_of, pack};
use instance_core::{Cell, Packed, PlainWidths, WidthSource};
use liang_hyph::Patterns;
use list_fonts::{fonts_of_a_paragraph_expand_alike, lists_of_a_stock_are_over_it};
use micro_num::{NoMemory, Par, ShapeLine, Tables, shape_line};
use paragraph_breaks::breaks;
use std::alloc::{AllocError, Global};
use test_jobs::{are_within, name_fonts};

/// What is told so far, and whether a line was refused.
#[derive(Drop)]
struct Told {
    text: String,
    is_refused: bool,
}

/// The lines of all paragraphs and the cells asked. None where a paragraph names a font that isn't
/// there, or a length is out of range.
pub fn lines_text(
    alloc: Global,
    pars: &[Par],
    tables: &Tables,
    patterns: &Patterns,
    stock: &Stock,
) -> Result<Option<String>, AllocError> {
    let Ok(bases) = bases_of(alloc, stock) else {
        return Err(AllocError);
    };
    let Ok(mut source) = PlainWidths::make(alloc, &bases) else {
        return Err(AllocError);
    };
    let mut told = Told {
        text: String::new(alloc),
        is_refused: false,
    };
    if !tell_paragraphs(alloc, &mut told, pars, tables, patterns, stock, &mut source)? {
        return Ok(None);
    }
    if !told.is_refused {
        push_cells(alloc, &mut told.text, source.cells())?;
    }
    Ok(Some(told.text))
}

/// The cells asked, behind the paragraphs.
fn push_cells(alloc: Global, text: &mut String, cells: &[Cell]) -> Result<(), AllocError> {
    if !text.is_empty() {
        text.push_str("; ")?;
    }
    text.push_str("cells")?;
    if cells.is_empty() {
        text.push_str(" none")?;
    }
    for cell in cells {
        let font = cell.font;
        let step = cell.step;
        text.push_str(format!(in alloc; " {font}/{step}")?.as_str())?;
    }
    Ok(())
}

/// Tells paragraphs one after another, joined by `; `. False where one can't be told.
fn tell_paragraphs<W: WidthSource>(
    alloc: Global,
    told: &mut Told,
    pars: &[Par],
    tables: &Tables,
    patterns: &Patterns,
    stock: &Stock,
    source: &mut W,
) -> Result<bool, AllocError>
    requires { W.bases source.old ≡ map base_of stock.now }
{
    for par in pars {
        if !told.text.is_empty() {
            told.text.push_str("; ")?;
        }
        if !tell_paragraph(alloc, told, par, tables, patterns, stock, source)? {
            return Ok(false);
        }
    }
    Ok(true)
}

/// Tells a paragraph's lines, or its first fault.
fn tell_paragraph<W: WidthSource>(
    alloc: Global,
    told: &mut Told,
    par: &Par,
    tables: &Tables,
    patterns: &Patterns,
    stock: &Stock,
    source: &mut W,
) -> Result<bool, AllocError>
    requires { W.bases source.old ≡ map base_of stock.now }
    ensures { W.bases source.new ≡ W.bases source.old }
{
    if !name_fonts(stock, par.parts.as_slice()) {
        return Ok(false);
    }
    fonts_of_a_paragraph_expand_alike();
    match build(alloc, par, tables, stock) {
        Ok(list) => tell_lines(alloc, told, par, &list, tables, patterns, stock, source),
        Err(ParFault::NoMemory) => Err(AllocError),
        Err(fault) => {
            told.text.push_str(fault_text(alloc, fault)?.as_str())?;
            Ok(true)
        }
    }
}

/// Tells the lines of a paragraph's list as it is broken.
fn tell_lines<W: WidthSource>(
    alloc: Global,
    told: &mut Told,
    par: &Par,
    list: &HList,
    tables: &Tables,
    patterns: &Patterns,
    stock: &Stock,
    source: &mut W,
) -> Result<bool, AllocError>
    requires small { IsSmall list.now }
    requires own { IsListOf stock.now list.now }
    requires share { Share par.now.params stock.now list.now.items }
    requires source { W.bases source.old ≡ map base_of stock.now }
    ensures { W.bases source.new ≡ W.bases source.old }
{
    let params = &par.params;
    let shape = par.shape.as_slice();
    if !are_within(params, shape) {
        return Ok(false);
    }
    lists_of_a_stock_are_over_it();
    let Ok(broken) = breaks(alloc, list, params, shape, tables, patterns, stock) else {
        return Err(AllocError);
    };
    match BreakRule::make(alloc, &broken.list, params, shape, stock, false) {
        Ok(rule) => push_lines(alloc, told, &rule, broken.breaks.as_slice(), stock, source),
        Err(NoMemory) => Err(AllocError),
    }
}

/// The lines that end at some places, joined by ` | `.
fn push_lines<W: WidthSource>(
    alloc: Global,
    told: &mut Told,
    rule: &BreakRule,
    breaks: &[u32],
    stock: &Stock,
    source: &mut W,
) -> Result<bool, AllocError>
    requires places { All (IsPlace rule.now) breaks.now }
    requires hsize { unsigned_abs rule.now.params.hsize < 2 ^ 30 }
    requires hangindent { unsigned_abs rule.now.params.hangindent < 2 ^ 30 }
    requires stock { rule.now.stock ≡ stock.now }
    requires source { W.bases source.old ≡ map base_of stock.now }
    ensures { W.bases source.new ≡ W.bases source.old }
{
    let mut from = From::Start;
    let mut number: u32 = 1;
    for index in 0..breaks.len() {
        let to = breaks[index];
        if index > 0 {
            told.text.push_str(" | ")?;
        }
        if !push_line(alloc, told, rule, from, to, number, stock, source)? {
            return Ok(false);
        }
        from = From::After { at: to };
        number = number.saturating_add(1);
    }
    Ok(true)
}

/// The line of a number, or the glyph at which it is refused. False where its end is out of range.
fn push_line<W: WidthSource>(
    alloc: Global,
    told: &mut Told,
    rule: &BreakRule,
    from: From,
    to: u32,
    number: u32,
    stock: &Stock,
    source: &mut W,
) -> Result<bool, AllocError>
    requires from { IsFrom rule.now from }
    requires to { IsPlace rule.now to }
    requires number { 1 ≤ number }
    requires hsize { unsigned_abs rule.now.params.hsize < 2 ^ 30 }
    requires hangindent { unsigned_abs rule.now.params.hangindent < 2 ^ 30 }
    requires stock { rule.now.stock ≡ stock.now }
    requires source { W.bases source.old ≡ map base_of stock.now }
    ensures { W.bases source.new ≡ W.bases source.old }
{
    let ShapeLine { indent, width } = shape_line(rule.params(), rule.shape(), number);
    if !is_end(indent, width) {
        return Ok(false);
    }
    let Ok(line) = rule.line_in(alloc, from, to) else {
        return Err(AllocError);
    };
    match pack(alloc, &line, stock, width, indent, source) {
        Ok(packed) => push_packed(alloc, &mut told.text, &packed)?,
        Err(PackFault::OutOfRange { glyph }) => {
            told.is_refused = true;
            let refused = format!(in alloc; "out-of-range {glyph}")?;
            told.text.push_str(refused.as_str())?;
        }
        Err(PackFault::NoMemory) => return Err(AllocError),
    }
    Ok(true)
}

/// Whether a line so far indented and so wide ends at a length.
fn is_end(indent: i32, width: i32) -> bool
    ensures low { IsTrue result → neg_ℤ (pos (2 ^ 31)) ≤ℤ (indent +ℤ width) }
    ensures high { IsTrue result → (indent +ℤ width) <ℤ pos (2 ^ 31) }
{
    indent.checked_add(width).is_some()
}

/// A packed line: its size, and its glyphs at their places.
fn push_packed(alloc: Global, text: &mut String, line: &Packed) -> Result<(), AllocError> {
    let height = line.height;
    let depth = line.depth;
    let width = line.width;
    text.push_str(format!(in alloc; "{height},{depth},{width}")?.as_str())?;
    for glyph in line.glyphs.as_slice() {
        let Cell { font, step } = glyph.cell;
        let code = glyph.code;
        let x = glyph.x;
        let advance = glyph.advance;
        let told = format!(in alloc; " {font}/{step}/{code}@{x}+{advance}")?;
        text.push_str(told.as_str())?;
    }
    Ok(())
}

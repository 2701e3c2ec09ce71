//! Paragraphs as pages: where their glyphs stand, what is asked for them, and which line is told.
ghost use Rattle.std.specs.Prelude.{◌<◌, ◌^◌, All, IsTrue, length};
ghost use Rattle.micro_num.specs.Shape.{IsShapeLine};
ghost use Rattle.hlist_build.specs.Parts.{NamesFont};
ghost use Rattle.para_workers.specs.Lengths.{HasLengths};

use crate::fixture::{Sample, read_sample};
use font_stock::Stock;
use hlist_build::ParFault;
use hpack_two::bases_of;
use instance_core::{Cell, Page, PlainWidths};
use liang_hyph::Patterns;
use micro_num::{Par, ShapeLine, Sp, Tables};
use para_workers::set_par;
use std::alloc::Global;
use std::test::Fail;
use test_jobs::{are_within, name_fonts};

/// Whether a line of a shape is shorter than 2^30 sp, and its indent.
fn is_short(line: ShapeLine) -> bool
    ensures { IsTrue result → IsShapeLine line }
{
    let indent = line.indent.unsigned_abs() < 1 << 30;
    let width = line.width.unsigned_abs() < 1 << 30;
    indent & width
}

/// Whether each line of a shape is.
fn are_short(shape: &[ShapeLine]) -> bool
    ensures { IsTrue result → All IsShapeLine shape.now }
{
    for line in shape {
        if !is_short(*line) {
            return false;
        }
    }
    true
}

/// What became of a paragraph, and which cells were asked for it.
#[derive(Drop)]
struct Outcome {
    page: Result<Page, ParFault>,
    cells: Vec<Cell>,
}

/// A paragraph as a page.
fn page_of(
    alloc: Global,
    par: &Par,
    tables: &Tables,
    patterns: &Patterns,
    stock: &Stock,
) -> Result<Outcome, Fail>
    requires names { All (λ one. NamesFont (length stock.now) one.part) par.now.parts }
    requires lengths { HasLengths par.now.params par.now.shape }
    requires shape { length par.now.shape < 2 ^ 32 }
{
    let bases = bases_of(alloc, stock)?;
    let mut source = PlainWidths::make(alloc, &bases)?;
    let page = set_par(alloc, par, tables, patterns, stock, &mut source);
    let cells = Vec::from_slice(alloc, source.cells())?;
    Ok(Outcome { page, cells })
}

/// Whether a paragraph may be set with a stock.
fn may_be_set(par: &Par, stock: &Stock) -> bool
    ensures names { IsTrue result
        → All (λ one. NamesFont (length stock.now) one.part) par.now.parts }
    ensures lengths { IsTrue result → HasLengths par.now.params par.now.shape }
    ensures shape { IsTrue result → length par.now.shape < 2 ^ 32 }
{
    let shape = par.shape.as_slice();
    if !are_within(&par.params, shape) {
        return false;
    }
    if !are_short(shape) {
        return false;
    }
    name_fonts(stock, par.parts.as_slice())
}

/// The paragraph of a job as a page.
fn set(alloc: Global, settings: &[u8], text: &[u8]) -> Result<Outcome, Fail> {
    let Sample {
        par,
        tables,
        patterns,
        stock,
    } = read_sample(alloc, settings, text)?;
    if !may_be_set(&par, &stock) {
        return Err(Fail::new(format_args!("out of range")));
    }
    page_of(alloc, &par, &tables, &patterns, &stock)
}

/// The step and the place of each glyph of a line, by its number from 0.
fn places(alloc: Global, page: &Page, line: usize) -> Result<Vec<(i32, Sp)>, Fail> {
    let mut found = Vec::new(alloc);
    if let Some(placed) = page.lines.as_slice().get(line) {
        for glyph in placed.line.glyphs.as_slice() {
            found.push((glyph.cell.step, glyph.x))?;
        }
    }
    Ok(found)
}

/// The baseline of each line.
fn baselines(alloc: Global, page: &Page) -> Result<Vec<Sp>, Fail> {
    let mut found = Vec::new(alloc);
    for placed in page.lines.as_slice() {
        found.push(placed.baseline)?;
    }
    Ok(found)
}

/// Where each line begins, and how wide it is.
fn margins(alloc: Global, settings: &[u8]) -> Result<Vec<(Sp, Sp)>, Fail> {
    let page = set(alloc, settings, b"aa bb cc dd ee")?.page?;
    let mut lines = Vec::new(alloc);
    for placed in page.lines.as_slice() {
        if let Some(glyph) = placed.line.glyphs.as_slice().first() {
            lines.push((glyph.x, placed.line.width))?;
        }
    }
    Ok(lines)
}

/// The number of the line that is told, where one is.
fn refused(alloc: Global, settings: &[u8], text: &[u8]) -> Result<Option<u32>, Fail> {
    match set(alloc, settings, text)?.page {
        Err(ParFault::OutOfRange { line }) => Ok(Some(line)),
        _ => Ok(None),
    }
}

const EXPANDED: &[u8] = b"\\hsize=24pt \\pdffontexpand\\f 20 20 1 \\pdfadjustspacing=2";

const NARROW: &[u8] = b"\\hsize=22pt \\pdffontexpand\\f 20 20 1 \\pdfadjustspacing=2";

const RIGID: &[u8] =
    b"\\hsize=24pt \\pdffontexpand\\f 20 20 1 \\pdfadjustspacing=2 \\efcode\\f 97=0";

/// Glyphs at their natural widths, and at the steps 20 and -20.
const PLAIN: [(i32, Sp); 4] = [(0, 0), (0, 327680), (0, 819200), (0, 1146880)];

const WIDE: [(i32, Sp); 4] = [(20, 0), (20, 334233), (20, 904398), (20, 1238631)];

const TIGHT: [(i32, Sp); 4] = [(-20, 0), (-20, 321126), (-20, 799540), (-20, 1120666)];

/// The letter a without a share in the expansion.
const SHARED: [(i32, Sp); 4] = [(0, 0), (0, 327680), (20, 904398), (20, 1238631)];

/// Whether the paragraph of these settings has these two lines, and asks for one step.
fn has_lines(
    alloc: Global,
    settings: &[u8],
    first: &[(i32, Sp)],
    last: &[(i32, Sp)],
    step: i32,
) -> Result<bool, Fail> {
    let Outcome { page, cells } = set(alloc, settings, b"aa bb cc dd")?;
    let page = page?;
    let are_set = places(alloc, &page, 0)?.as_slice() == first;
    let are_ended = places(alloc, &page, 1)?.as_slice() == last;
    let are_stacked = baselines(alloc, &page)?.as_slice() == [327680, 1114112].as_slice();
    let are_asked = cells.as_slice() == [Cell { font: 0, step }].as_slice();
    Ok(are_set & are_ended & are_stacked & are_asked)
}

#[test]
fn lines_are_expanded_each_by_itself(rt: HostRuntime) -> Result<(), Fail> {
    let alloc = rt.alloc();
    assert!(rt; has_lines(alloc, EXPANDED, WIDE.as_slice(), PLAIN.as_slice(), 20)?);
    assert!(rt; has_lines(alloc, NARROW, TIGHT.as_slice(), TIGHT.as_slice(), -20)?);
    assert!(rt; has_lines(alloc, RIGID, SHARED.as_slice(), PLAIN.as_slice(), 20)?);
    Ok(())
}

/// Where the comma stands that ends the first line, and whether no cell was asked for.
fn comma(alloc: Global, settings: &[u8]) -> Result<Option<Sp>, Fail> {
    let Outcome { page, cells } = set(alloc, settings, b"aa bb, cc")?;
    let first = places(alloc, &page?, 0)?;
    match first.as_slice().last() {
        Some(last) if cells.is_empty() => Ok(Some(last.1)),
        _ => Ok(None),
    }
}

#[test]
fn a_comma_hangs_out_from_level_one_on(rt: HostRuntime) -> Result<(), Fail> {
    let alloc = rt.alloc();
    let two = b"\\hsize=22.5pt \\rpcode\\f 44=500 \\pdfprotrudechars=2";
    assert_eq!(rt; comma(alloc, two)?, Some(1474560));
    let one = b"\\hsize=22.5pt \\rpcode\\f 44=500 \\pdfprotrudechars=1";
    assert_eq!(rt; comma(alloc, one)?, Some(1474560));
    let none = b"\\hsize=22.5pt \\rpcode\\f 44=500";
    assert_eq!(rt; comma(alloc, none)?, Some(1433600));
    Ok(())
}

#[test]
fn each_line_has_the_indent_of_its_number(rt: HostRuntime) -> Result<(), Fail> {
    let alloc = rt.alloc();
    let later = margins(alloc, b"\\hsize=35pt \\hangindent=12.5pt")?;
    assert_eq!(rt;
        later.as_slice(),
        [(0, 2293760), (819200, 2293760)].as_slice()
    );
    let first = margins(alloc, b"\\hsize=35pt \\hangindent=12.5pt \\hangafter=-1")?;
    assert_eq!(rt;
        first.as_slice(),
        [(819200, 2293760), (0, 2293760)].as_slice()
    );
    let right = margins(alloc, b"\\hsize=35pt \\hangindent=-12.5pt")?;
    assert_eq!(rt; right.as_slice(), [(0, 2293760), (0, 1474560)].as_slice());
    let shape = margins(alloc, b"\\parshape 2 0pt 22.5pt 5pt 35pt")?;
    assert_eq!(rt;
        shape.as_slice(),
        [(0, 1474560), (327680, 2621440)].as_slice()
    );
    Ok(())
}

/// The third line is past the page, and the fourth has a letter out of range: all lines are set
/// before they become a page.
#[test]
fn a_line_is_told_by_its_number(rt: HostRuntime) -> Result<(), Fail> {
    let alloc = rt.alloc();
    let text = b"aa bb cc dd";
    let page: &[u8] = b"\\hsize=10pt \\baselineskip=16378pt";
    assert_eq!(rt; refused(alloc, page, text)?, Some(3));
    let last: &[u8] = b"\\parshape 4 0pt 10pt 0pt 10pt 0pt 10pt 16383pt 10pt";
    assert_eq!(rt; refused(alloc, last, text)?, Some(4));
    let both: &[u8] =
        b"\\baselineskip=16378pt \\parshape 4 0pt 10pt 0pt 10pt 0pt 10pt 16383pt 10pt";
    assert_eq!(rt; refused(alloc, both, text)?, Some(4));
    let first: &[u8] = b"\\parshape 2 16383pt 10pt 16383pt 10pt";
    assert_eq!(rt; refused(alloc, first, text)?, Some(1));
    Ok(())
}

#[test]
fn a_paragraph_without_a_list_is_refused(rt: HostRuntime) -> Result<(), Fail> {
    let outcome = set(rt.alloc(), b"\\hsize=100pt", b"\\char200")?;
    match outcome.page {
        Err(fault) => assert_eq!(rt; fault, ParFault::MissingChar { offset: 41 }),
        Ok(_) => return Err(Fail::new(format_args!("a page"))),
    }
    assert!(rt; outcome.cells.is_empty());
    Ok(())
}

//! Pages of lines of words, each line in one of seven instances of a font.
ghost use Rattle.std.specs.Prelude.{◌≡◌, ◌<◌, ◌≤◌, ◌+◌, ◌*◌, ◌^◌, length, IfOk, OnOk, All};
ghost use Rattle.page_bench.specs.Timed.{IsTimed, IsTimedCell, IsTimedGlyph, IsTimedLine};

use crate::draws::Draws;
use instance_core::{Cell, Packed, Page, PageLine, Placed};
use items::Items;
use micro_num::{NoMemory, Sp};
use std::alloc::Global;

/// The width of a letter and that of the space behind a word.
const LETTER: u32 = 327_680;

const SPACE: u32 = 218_453;

/// A letter at a place on the line.
fn letter(x: u32, cell: Cell, code: u8) -> Placed
    requires place { x < 2 ^ 29 }
    requires cell { IsTimedCell cell }
    ensures { IsTimedGlyph result }
{
    Placed {
        x: x as Sp,
        cell,
        code,
        advance: LETTER as Sp,
    }
}

/// Puts a word of one to nine letters, and gives where it ends.
fn put_word(
    glyphs: &mut Vec<Placed>,
    draws: &mut Draws,
    cell: Cell,
    from: u32,
) -> Result<u32, NoMemory>
    requires from { from < 2 ^ 28 }
    requires cell { IsTimedCell cell }
    requires glyphs { All IsTimedGlyph glyphs.old.items }
    ensures glyphs { OnOk result (All IsTimedGlyph glyphs.new.items) }
    ensures end { IfOk result (λ end. end ≤ from + 2949120) }
{
    let mut x = from;
    for _letter in 0..draws.below(9) + 1 {
        let code = 97 + draws.below(26) as u8;
        glyphs.push(letter(x, cell, code))?;
        x += LETTER;
    }
    Ok(x)
}

/// A line of seven words.
fn line(alloc: Global, draws: &mut Draws, cell: Cell) -> Result<Packed, NoMemory>
    requires { IsTimedCell cell }
    ensures { IfOk result (λ line. All IsTimedGlyph line.glyphs) }
{
    let mut glyphs = Vec::with_capacity(alloc, 63)?;
    let mut x = 0;
    for _word in 0..7u32 {
        x = put_word(&mut glyphs, draws, cell, x)? + SPACE;
    }
    Ok(Packed {
        glyphs: Items::from_vec(glyphs),
        height: LETTER as Sp,
        depth: 0,
        width: x as Sp,
    })
}

/// A line on its baseline, by its number from 0.
fn placed(alloc: Global, draws: &mut Draws, cell: Cell, number: u32) -> Result<PageLine, NoMemory>
    requires number { number < 1000 }
    requires cell { IsTimedCell cell }
    ensures { IfOk result (λ placed. IsTimedLine placed) }
{
    let line = line(alloc, draws, cell)?;
    Ok(PageLine {
        baseline: (LETTER + 786_432 * number) as Sp,
        line,
    })
}

/// A page of three to eleven lines, whose instances take turns.
fn page(alloc: Global, draws: &mut Draws, cells: &[Cell; 7]) -> Result<Page, NoMemory>
    requires { All IsTimedCell cells.now }
    ensures { IfOk result (λ page. IsTimed page) }
{
    let mut lines = Vec::with_capacity(alloc, 11)?;
    let first = draws.below(7);
    for number in 0..draws.below(9) + 3 {
        let cell = cells[((first + number) % 7) as usize];
        lines.push(placed(alloc, draws, cell, number)?)?;
    }
    Ok(Page {
        lines: Items::from_vec(lines),
        extent: 12 * 786_432,
        width: 13_107_200,
    })
}

/// So many pages.
pub fn pages(alloc: Global, count: u16, cells: &[Cell; 7]) -> Result<Vec<Page>, NoMemory>
    requires { All IsTimedCell cells.now }
    ensures timed { IfOk result (λ pages. All IsTimed pages.items) }
    ensures count { IfOk result (λ pages. length pages.items ≡ count) }
{
    let mut draws = Draws::from_seed(count as u32);
    let mut pages = Vec::with_capacity(alloc, count as usize)?;
    for _page in 0..count {
        pages.push(page(alloc, &mut draws, cells)?)?;
    }
    Ok(pages)
}

/// How many glyphs a page has.
fn glyphs_of(page: &Page) -> usize {
    let lines = page.lines.as_slice().iter();
    lines.fold(
        0usize,
        |count, placed| count.wrapping_add(placed.line.glyphs.len()),
    )
}

/// How many glyphs are on the pages.
pub fn glyph_count(pages: &[Page]) -> usize {
    pages
        .iter()
        .fold(0usize, |count, page| count.wrapping_add(glyphs_of(page)))
}

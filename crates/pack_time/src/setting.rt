//! Lines of about eighty letters, each with the width that it is set to.
ghost use Rattle.std.specs.Prelude.{◌≡◌, ◌≤◌, IfOk, IfSome, OnOk, All, length};
ghost use Rattle.pack_time.specs.Timed.{IsTimed, IsTimedPiece};

use crate::draws::Draws;
use break_rule::{LineIn, Piece};
use font_stock::Stock;
use items::Items;
use micro_num::{Glue, NoMemory, Sp};
use std::alloc::Global;

/// A line and the width that it is set to.
#[derive(Drop)]
pub struct TimedLine {
    pub line: LineIn,
    pub width: Sp,
}

/// The width of a letter and that of the space behind a word.
const LETTER: u32 = 327_680;

const SPACE: u32 = 163_840;

/// How many words a line has, and how many pieces at most.
const WORDS: u32 = 16;

const MOST_PIECES: u32 = 160;

/// A letter.
fn letter(stock: &Stock, code: u8) -> Piece
    requires { length stock.now ≡ 1 }
    ensures { IsTimedPiece stock.now result }
{
    Piece::Glyph { font: 0, code }
}

/// The space behind a word.
fn space(stock: &Stock) -> Piece
    ensures { IsTimedPiece stock.now result }
{
    Piece::Space {
        glue: Glue {
            width: SPACE as Sp,
            stretch: 81_920,
            order: 0,
            shrink: 40_960,
        },
    }
}

/// Puts a word of one to nine letters, and a space behind it.
fn put_word(pieces: &mut Items<Piece>, draws: &mut Draws, stock: &Stock) -> Result<(), NoMemory>
    requires one { length stock.now ≡ 1 }
    requires pieces { All (IsTimedPiece stock.now) pieces.old }
    ensures { OnOk result (All (IsTimedPiece stock.now) pieces.new) }
{
    for _letter in 0..draws.below(9) + 1 {
        pieces.push(letter(stock, 97 + draws.below(26) as u8))?;
    }
    pieces.push(space(stock))?;
    Ok(())
}

/// The pieces of a line.
fn pieces(alloc: Global, draws: &mut Draws, stock: &Stock) -> Result<Items<Piece>, NoMemory>
    requires { length stock.now ≡ 1 }
    ensures { IfOk result (All (IsTimedPiece stock.now)) }
{
    let mut pieces = Items::new(alloc);
    for _word in 0..WORDS {
        put_word(&mut pieces, draws, stock)?;
    }
    Ok(pieces)
}

/// A width that a line of so many pieces may be set to.
fn width(draws: &mut Draws, count: u32) -> Option<Sp> {
    if count < WORDS || count > MOST_PIECES {
        return None;
    }
    let natural = (count - WORDS) * LETTER + WORDS * SPACE;
    Some((natural + 1000 * draws.below(400) - 200_000) as Sp)
}

/// The line of pieces with its width, where there is one.
fn timed(draws: &mut Draws, stock: &Stock, pieces: Items<Piece>, expand: bool) -> Option<TimedLine>
    requires { All (IsTimedPiece stock.now) pieces }
    ensures { IfSome result (IsTimed stock.now) }
{
    let count = pieces.len();
    if count > MOST_PIECES as usize {
        return None;
    }
    let width = width(draws, count as u32)?;
    let line = LineIn { pieces, expand };
    Some(TimedLine { line, width })
}

/// So many lines, whose fonts may be expanded or not.
pub fn lines(
    alloc: Global,
    stock: &Stock,
    count: u32,
    expand: bool,
) -> Result<Vec<TimedLine>, NoMemory>
    requires { length stock.now ≡ 1 }
    ensures { IfOk result (λ lines. All (IsTimed stock.now) lines.items) }
{
    let mut draws = Draws::from_seed(count);
    let mut lines = Vec::new(alloc);
    for _line in 0..count {
        let pieces = pieces(alloc, &mut draws, stock)?;
        match timed(&mut draws, stock, pieces, expand) {
            Some(line) => lines.push(line)?,
            None => return Ok(lines),
        }
    }
    Ok(lines)
}

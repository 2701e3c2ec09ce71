//! What the pieces of a line add up to with its fonts as they are (TeX: The Program, sections 651
//! to 656).
ghost use Rattle.std.specs.Prelude.{◌≡◌, ◌≤◌, ◌^◌, ◌+◌, ℕ, Contains, Some, count_by, pos};
ghost use Rattle.std.specs.Prelude.{unsigned_abs};
ghost use Rattle.font_stock.specs.declared.font.Font.{Font};
ghost use Rattle.hlist.specs.Bounds.{OfFont};
ghost use Rattle.break_rule.specs.Adding.{rigid};
ghost use Rattle.break_rule.specs.Kept.{IsWithin};
ghost use Rattle.break_rule.specs.Packable.{IsPackablePiece};
ghost use Rattle.hpack_two.specs.Lines.{is_glyph};
ghost use Rattle.hpack_two.specs.Over.{IsOver};
ghost use Rattle.hpack_two.specs.Widths.{added as added_of, sums_of_font_move, with_piece};

use crate::steps::kern_as_it_is;
use break_rule::{Piece, Sums, glyph_sums, kern_sums};
use font_stock::Stock;
use hlist::KernLeft;

/// What pieces add to a line with its fonts as they are.
#[tactic(auto, unfolding(crate::specs::Widths::added))]
pub fn added(stock: &Stock, pieces: &[Piece]) -> Sums
    requires { IsOver stock.now pieces.now }
    ensures exact { result ≡ added_of stock.now pieces.now }
    ensures small { IsWithin 131076 result }
{
    let mut sums = Sums::nothing();
    for piece in pieces {
        sums = with_piece(stock, &sums, piece);
    }
    sums
}

/// What some pieces and one more add. A glyph leaves most of the sums as they are, which the
/// compiler sees where each kind of piece is added by itself.
#[inline(always)]
fn with_piece(stock: &Stock, sums: &Sums, piece: &Piece) -> Sums
    requires sums { IsWithin 131076 sums.now }
    requires piece { IsPackablePiece stock.now piece.now }
    ensures exact { result ≡ with_piece stock.now sums.now piece.now }
    ensures small { (count : ℕ) → IsWithin count sums.now → IsWithin (count + 1) result }
{
    match piece {
        Piece::Glyph { font, code } => sums.plus(&glyph_sums(stock, *font, *code)),
        Piece::Space { glue } => sums.plus(&Sums::of_glue(*glue)),
        Piece::Move { width } => sums.plus(&moved(*width)),
        Piece::FontMove {
            font,
            code,
            fix,
            ..
        } => sums.plus(&font_move_sums(stock, *font, *code, *fix)),
    }
}

/// What a move adds.
fn moved(width: i64) -> Sums
    requires { unsigned_abs width ≤ 2 ^ 32 }
    ensures exact { result ≡ rigid width }
    ensures small { IsWithin 1 result }
{
    let mut sums = Sums::nothing();
    sums.width = width;
    sums
}

/// What a kern adds that expands with the character before it.
fn font_move_sums(stock: &Stock, font: u32, code: u8, fix: i32) -> Sums
    requires { OfFont stock.now font (λ (f : Font). Contains f.tfm.kerns fix) }
    ensures exact { result ≡ sums_of_font_move stock.now font code fix }
    ensures small { IsWithin 1 result }
{
    let width = kern_as_it_is(stock, font, fix);
    kern_sums(stock, width, Some(KernLeft { font, code, fix }))
}

/// How many glyphs a line has.
pub fn glyph_count(pieces: &[Piece]) -> usize
    ensures { result ≡ count_by is_glyph pieces.now }
{
    let mut count = 0;
    for piece in pieces {
        if let Piece::Glyph { .. } = piece {
            count += 1;
        }
    }
    count
}

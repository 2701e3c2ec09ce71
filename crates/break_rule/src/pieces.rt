//! What a line hands to packing: its margins' glue and hangs, and what each item gives between
//! them (pdfTeX manual, `\\pdfprotrudechars`).
ghost use Rattle.std.specs.Prelude.{◌≡◌, ◌++◌, ◌≤◌, ◌^◌, All, IfOk, OnOk, flat_map, unsigned_abs};
ghost use Rattle.break_rule.specs.Lines.{pieces_of, piece_of_kern, unbroken, as_item};
ghost use Rattle.break_rule.specs.Lines.{moved as moved_by};
ghost use Rattle.break_rule.specs.Packable.{IsSmallMove};
ghost use Rattle.break_rule.specs.Pieces.{pieces_between, pieces_of_items, pieces_of_subs};
ghost use Rattle.break_rule.specs.Pieces.{piece_of_sub};
ghost use Rattle.break_rule.specs.declared.line.Piece.TheVariants.{Move};

use crate::line::Piece;
use hlist::{Item, KernLeft, Sub};
use items::Items;
use micro_num::{NoMemory, Params, Sp};
use std::alloc::Global;

/// How far the characters at the margins of a line hang out, in scaled points.
#[derive(Clone, Copy)]
pub struct Hangs {
    pub left: i64,
    pub right: i64,
}

/// What a line hands to packing: what stands behind the break that it begins with, its items, and
/// what stands before the break that it ends with.
#[tactic(auto, using(crate::proofs::PieceLaws::chained), unfolding(crate::specs::Pieces::pieces_between))]
pub fn line_between(
    alloc: Global,
    params: &Params,
    hangs: Hangs,
    post: &[Sub],
    middle: &[Item],
    pre: &[Sub],
) -> Result<Items<Piece>, NoMemory>
    requires left { unsigned_abs hangs.left ≤ 2 ^ 31 }
    requires right { unsigned_abs hangs.right ≤ 2 ^ 31 }
    ensures exact { IfOk result (λ pieces. pieces
        ≡ pieces_between params.now post.now middle.now pre.now hangs.left hangs.right) }
    ensures small { IfOk result (λ pieces. All IsSmallMove pieces) }
{
    let room = middle.len().saturating_add(4);
    let mut pieces = Items::from_vec(Vec::with_capacity(alloc, room)?);
    pieces.push(Piece::Space {
        glue: params.leftskip,
    })?;
    pieces.push(moved(params, hangs.left))?;
    push_subs(&mut pieces, post)?;
    push_items(&mut pieces, middle)?;
    push_subs(&mut pieces, pre)?;
    pieces.push(moved(params, hangs.right))?;
    pieces.push(Piece::Space {
        glue: params.rightskip,
    })?;
    Ok(pieces)
}

/// The move out into a margin, where characters may protrude.
fn moved(params: &Params, hang: i64) -> Piece
    requires { unsigned_abs hang ≤ 2 ^ 31 }
    ensures exact { result ≡ Move (moved_by params.now hang) }
    ensures small { IsSmallMove result }
{
    if params.pdfprotrudechars > 0 {
        Piece::Move { width: -hang }
    } else {
        Piece::Move { width: 0 }
    }
}

/// What the items of a line give.
fn push_items(pieces: &mut Items<Piece>, items: &[Item]) -> Result<(), NoMemory>
    requires { All IsSmallMove pieces.old }
    ensures exact { OnOk result (pieces.new ≡ pieces.old ++ pieces_of_items items.now) }
    ensures small { OnOk result (All IsSmallMove pieces.new) }
{
    for item in items {
        push_item(pieces, item)?;
    }
    Ok(())
}

/// What an item gives where no line ends in it.
#[tactic(auto, using(crate::proofs::PieceLaws::of_subs))]
fn push_item(pieces: &mut Items<Piece>, item: &Item) -> Result<(), NoMemory>
    requires { All IsSmallMove pieces.old }
    ensures exact { OnOk result (pieces.new
        ≡ pieces.old ++ flat_map pieces_of (unbroken item.now)) }
    ensures small { OnOk result (All IsSmallMove pieces.new) }
{
    match item {
        Item::Char { font, code } => pieces.push(Piece::Glyph {
            font: *font,
            code: *code,
        })?,
        Item::Lig { font, code, .. } => pieces.push(Piece::Glyph {
            font: *font,
            code: *code,
        })?,
        Item::FontKern { width, left } => pieces.push(font_kern(*width, *left))?,
        Item::Kern { width } => pieces.push(Piece::Move {
            width: *width as i64,
        })?,
        Item::Glue { glue } => pieces.push(Piece::Space { glue: *glue })?,
        Item::Penalty { .. } => (),
        Item::Disc { lists } => push_subs(pieces, lists.whole())?,
        Item::Box { width } => pieces.push(Piece::Move {
            width: *width as i64,
        })?,
    }
    Ok(())
}

/// What the entries of a discretionary give.
fn push_subs(pieces: &mut Items<Piece>, subs: &[Sub]) -> Result<(), NoMemory>
    requires { All IsSmallMove pieces.old }
    ensures exact { OnOk result (pieces.new ≡ pieces.old ++ pieces_of_subs subs.now) }
    ensures small { OnOk result (All IsSmallMove pieces.new) }
{
    for sub in subs {
        pieces.push(sub_piece(sub))?;
    }
    Ok(())
}

/// What an entry of a discretionary gives.
fn sub_piece(sub: &Sub) -> Piece
    ensures exact { result ≡ piece_of_sub sub.now }
    ensures small { IsSmallMove result }
{
    match sub {
        Sub::Char { font, code } => Piece::Glyph {
            font: *font,
            code: *code,
        },
        Sub::Lig { font, code, .. } => Piece::Glyph {
            font: *font,
            code: *code,
        },
        Sub::FontKern { width, left } => font_kern(*width, *left),
    }
}

/// What a kern of a font gives: a move that expands with the glyph before it, where there is one.
fn font_kern(width: Sp, left: Option<KernLeft>) -> Piece
    ensures exact { result ≡ piece_of_kern width left }
    ensures small { IsSmallMove result }
{
    match left {
        Some(left) => Piece::FontMove {
            font: left.font,
            code: left.code,
            fix: left.fix,
            width,
        },
        None => Piece::Move {
            width: width as i64,
        },
    }
}

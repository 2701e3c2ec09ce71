//! A font whose characters are all half a size wide, at 10 points, with a space of a quarter of the
//! size between words; and lines in it.
ghost use Rattle.std.specs.Prelude.{◌≡◌, ◌≤◌, ◌^◌, IfOk, IfSome, length, unsigned_abs};
ghost use Rattle.hpack_two.specs.Over.{IsOver};
ghost use Rattle.line_tests.specs.Simple.{IsSimple, AreSimple};

use break_rule::{LineIn, Piece};
use font_stock::{Expand, Font, FontCodes, Size, Stock};
use items::Items;
use micro_num::Glue;
use std::alloc::{AllocError, Global};
use std::test::Fail;
use test_fonts::{HALF, kerned10};
use tfm_read::{Tfm, TfmFault, read_tfm};

/// The metrics of a font of the codes 33 to 126, each half a design size wide and high, with a kern
/// of -1/16 of the design size.
fn metrics(alloc: Global) -> Result<Tfm, TfmFault> {
    read_tfm(alloc, &kerned10(alloc, HALF, 0xffff0000)?)
}

/// That font at 10 points, 20 thousandths wider or narrower at most, in steps of 1; the letter a
/// has this share in its expansion.
pub(crate) fn stock(alloc: Global, factor: u16) -> Result<Stock, Fail>
    requires { factor ≤ 1000 }
    ensures { IfOk result (λ stock. length stock ≡ 1) }
{
    let mut codes = FontCodes::plain();
    codes.set_ef(b'a', factor);
    let expand = Some(Expand {
        stretch: 20,
        shrink: 20,
        step: 1,
    });
    let mut fonts = Vec::new(alloc);
    fonts.push(Font::at(alloc, metrics(alloc)?, Size::Design, codes, expand)?)?;
    Ok(Stock::make(fonts))
}

const SPACE: Glue = Glue {
    width: 163840,
    stretch: 81920,
    order: 0,
    shrink: 40960,
};

pub(crate) const NONE: Glue = Glue {
    width: 0,
    stretch: 0,
    order: 0,
    shrink: 0,
};

pub(crate) const FIL: Glue = Glue {
    width: 0,
    stretch: 65536,
    order: 1,
    shrink: 0,
};

/// The piece of a code.
pub(crate) fn piece(stock: &Stock, code: u8) -> Piece
    requires { length stock.now ≡ 1 }
    ensures { IsSimple stock.now result }
{
    match code {
        b' ' => Piece::Space { glue: SPACE },
        _ => Piece::Glyph { font: 0, code },
    }
}

/// A space.
fn space(stock: &Stock, glue: Glue) -> Piece
    ensures { IsSimple stock.now result }
{
    Piece::Space { glue }
}

/// A move.
pub(crate) fn shift(stock: &Stock, width: i64) -> Piece
    requires { unsigned_abs width ≤ 2 ^ 32 }
    ensures { IsSimple stock.now result }
{
    Piece::Move { width }
}

/// The font's kern behind the letter o, as its programs would put it there.
pub(crate) fn kern_behind_o(stock: &Stock) -> Option<Piece>
    requires { length stock.now ≡ 1 }
    ensures { IfSome result (IsSimple stock.now) }
{
    let kerns = stock.font(0).tfm().kerns.as_slice();
    let fix = *kerns.first()?;
    Some(Piece::FontMove {
        font: 0,
        code: b'o',
        fix,
        width: -40960,
    })
}

/// A line of pieces, whose fonts may be expanded.
pub(crate) fn line(stock: &Stock, pieces: Items<Piece>) -> LineIn
    requires { AreSimple stock.now pieces }
    ensures { IsOver stock.now result.pieces }
{
    LineIn {
        pieces,
        expand: true,
    }
}

/// A line of words, with what stands at its ends.
pub(crate) fn words(
    alloc: Global,
    stock: &Stock,
    text: &[u8],
    right: i64,
    end: Glue,
) -> Result<LineIn, AllocError>
    requires one { length stock.now ≡ 1 }
    requires short { length text.now ≤ 1000 }
    requires right { unsigned_abs right ≤ 2 ^ 32 }
    ensures { IfOk result (λ line. IsOver stock.now line.pieces) }
{
    let mut pieces = Items::new(alloc);
    pieces.push(space(stock, NONE))?;
    pieces.push(shift(stock, 0))?;
    for code in text {
        pieces.push(piece(stock, *code))?;
    }
    pieces.push(shift(stock, right))?;
    pieces.push(space(stock, end))?;
    Ok(line(stock, pieces))
}

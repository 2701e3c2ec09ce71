//! Whether what setting and breaking ask of a paragraph holds.
ghost use Rattle.std.specs.Prelude.{◌≡◌, ◌<◌, ◌^◌, All, IsTrue, false, length, unsigned_abs};
ghost use Rattle.hlist_build.specs.Parts.{NamesFont};

use font_stock::Stock;
use micro_num::{Params, Part, PartAt, ShapeLine, Sp};

/// Whether a part names a font of the stock, if it names one.
fn names_font(stock: &Stock, part: &Part) -> bool
    ensures { IsTrue result → NamesFont (length stock.now) part.now }
{
    match part {
        Part::Font { font } => *font < stock.count(),
        _ => true,
    }
}

/// Whether each part names a font of the stock, if it names one.
pub fn name_fonts(stock: &Stock, parts: &[PartAt]) -> bool
    ensures { IsTrue result → All (λ one. NamesFont (length stock.now) one.part) parts.now }
{
    for one in parts {
        if !names_font(stock, &one.part) {
            return false;
        }
    }
    true
}

/// Whether a length is 2^30 sp or more, either way.
pub fn is_past(length: Sp) -> bool
    ensures { result ≡ false → unsigned_abs length < 2 ^ 30 }
{
    length.unsigned_abs() >= 1 << 30
}

/// Whether lines and what they hang by are shorter than 2^30 sp, and a shape than 2^32 lines.
pub fn are_within(params: &Params, shape: &[ShapeLine]) -> bool
    ensures hsize { IsTrue result → unsigned_abs params.now.hsize < 2 ^ 30 }
    ensures hangindent { IsTrue result → unsigned_abs params.now.hangindent < 2 ^ 30 }
    ensures shape { IsTrue result → length shape.now < 2 ^ 32 }
{
    let hsize = params.hsize.unsigned_abs() < 1 << 30;
    let hangindent = params.hangindent.unsigned_abs() < 1 << 30;
    let short = shape.len() < 1 << 32;
    hsize & hangindent & short
}

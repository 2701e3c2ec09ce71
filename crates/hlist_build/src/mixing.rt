//! Whether the fonts of a paragraph expand alike (pdfTeX manual, `\pdffontexpand` and
//! `\pdfadjustspacing`).
ghost use Rattle.std.specs.Prelude.{◌≡◌, ◌<◌, length, All, None};
ghost use Rattle.std.specs.Option.{ForSome};
ghost use Rattle.hlist_build.specs.Mixing.{stands_in, standing, expanding_in, expanding, expand_alike, first_other, mixed};
ghost use Rattle.hlist_build.specs.Parts.{font_after, NamesFont};

use font_stock::{Expand, Stock};
use micro_num::{Params, Part, PartAt};

/// A font of the stock that may be expanded, by its number, and how far.
#[derive(Clone, Copy, Debug, PartialEq, Eq)]
pub struct Expanding {
    pub font: u32,
    pub expand: Expand,
}

/// The font that is the current one behind a part.
fn font_after(font: Option<u32>, part: &Part) -> Option<u32>
    ensures { result ≡ font_after font part.now }
{
    match part {
        Part::Font { font: number } => Some(*number),
        _ => font,
    }
}

/// The font in which a part stands that takes one.
fn stands_in(font: Option<u32>, part: &Part) -> Option<u32>
    ensures { result ≡ stands_in font part.now }
{
    match part {
        Part::Char { .. } | Part::Hyphen | Part::Disc { .. } => font,
        _ => None,
    }
}

/// Whether two fonts expand alike.
fn expand_alike(a: Expand, b: Expand) -> bool
    ensures { result ≡ expand_alike a b }
{
    a.stretch == b.stretch && (a.shrink == b.shrink && a.step == b.step)
}

/// The font in which a part stands, if there is one and it may be expanded.
fn expanding_in(stock: &Stock, font: Option<u32>, part: &Part) -> Option<Expanding>
    requires { ForSome font (λ number. number < length stock.now) }
    ensures { result ≡ expanding_in stock.now font part.now }
{
    let font = stands_in(font, part)?;
    let expand = stock.font(font).expand?;
    Some(Expanding { font, expand })
}

/// The first font that doesn't expand as the first of those does in which parts stand.
fn first_other(stock: &Stock, parts: &[PartAt]) -> Option<u32>
    requires { All (λ one. NamesFont (length stock.now) one.part) parts.now }
    ensures { result ≡ first_other (expanding stock.now (standing None parts.now)) }
{
    let mut first: Option<Expanding> = None;
    let mut font = None;
    for one in parts {
        if let Some(here) = expanding_in(stock, font, &one.part) {
            match first {
                None => first = Some(here),
                Some(known) => {
                    if !expand_alike(known.expand, here.expand) {
                        return Some(here.font);
                    }
                }
            }
        }
        font = font_after(font, &one.part);
    }
    None
}

/// The font that is named where fonts are mixed that expand in different ways, which counts where
/// lines expand at all.
#[tactic(auto, unfolding(crate::specs::Mixing::mixed))]
pub fn mixed(params: &Params, stock: &Stock, parts: &[PartAt]) -> Option<u32>
    requires { All (λ one. NamesFont (length stock.now) one.part) parts.now }
    ensures { result ≡ mixed params.now stock.now parts.now }
{
    if params.pdfadjustspacing > 0 {
        first_other(stock, parts)
    } else {
        None
    }
}

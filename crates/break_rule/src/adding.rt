//! What each item adds to a line. Without a break a discretionary is its whole list.
ghost use Rattle.std.specs.Prelude.{◌≡◌, ◌<◌, ◌≤◌, ◌^◌, All, length, unsigned_abs};
ghost use Rattle.hlist.specs.Bounds.{unbroken_weight};
ghost use Rattle.break_rule.specs.Adding.{sums_of, sums_of_sub, sums_of_glyph, sums_of_kern};
ghost use Rattle.break_rule.specs.Adding.{added_subs, rigid as rigid_sums};
ghost use Rattle.break_rule.specs.Kept.{IsWithin};
ghost use Rattle.break_rule.specs.Over.{IsKernOver, IsSubOver, IsItemOver};

use crate::sums::Sums;
use font_stock::Stock;
use hlist::{Item, KernLeft, Sub};
use micro_num::Sp;

/// What an item adds.
pub fn item_sums(stock: &Stock, item: &Item) -> Sums
    requires over { IsItemOver stock.now item.now }
    requires short { unbroken_weight item.now ≤ 65536 }
    ensures exact { result ≡ sums_of stock.now item.now }
    ensures small { IsWithin (unbroken_weight item.now) result }
{
    match item {
        Item::Char { font, code } => glyph_sums(stock, *font, *code),
        Item::Lig { font, code, .. } => glyph_sums(stock, *font, *code),
        Item::FontKern { width, left } => kern_sums(stock, *width, *left),
        Item::Kern { width } => Sums::rigid(*width),
        Item::Glue { glue } => Sums::of_glue(*glue),
        Item::Penalty { .. } => Sums::nothing(),
        Item::Disc { lists } => subs_sums(stock, lists.whole()),
        Item::Box { width } => Sums::rigid(*width),
    }
}

/// What the entries of a discretionary add. Most often there are none, as nearly all breaks are at
/// glue.
#[inline(always)]
#[tactic(auto, unfolding(crate::specs::Adding::added_subs))]
pub fn subs_sums(stock: &Stock, subs: &[Sub]) -> Sums
    requires over { All (IsSubOver stock.now) subs.now }
    requires short { length subs.now ≤ 65536 }
    ensures exact { result ≡ added_subs stock.now subs.now }
    ensures small { IsWithin (length subs.now) result }
{
    if subs.is_empty() {
        Sums::nothing()
    } else {
        sums_of_all(stock, subs)
    }
}

/// What some entries of a discretionary add.
#[tactic(auto, unfolding(crate::specs::Adding::added_subs))]
fn sums_of_all(stock: &Stock, subs: &[Sub]) -> Sums
    requires over { All (IsSubOver stock.now) subs.now }
    requires short { length subs.now ≤ 65536 }
    ensures exact { result ≡ added_subs stock.now subs.now }
    ensures small { IsWithin (length subs.now) result }
{
    let mut sums = Sums::nothing();
    for sub in subs {
        sums = sums.plus(&sub_sums(stock, sub));
    }
    sums
}

/// What an entry of a discretionary adds.
fn sub_sums(stock: &Stock, sub: &Sub) -> Sums
    requires { IsSubOver stock.now sub.now }
    ensures exact { result ≡ sums_of_sub stock.now sub.now }
    ensures small { IsWithin 1 result }
{
    match sub {
        Sub::Char { font, code } => glyph_sums(stock, *font, *code),
        Sub::Lig { font, code, .. } => glyph_sums(stock, *font, *code),
        Sub::FontKern { width, left } => kern_sums(stock, *width, *left),
    }
}

/// What a character or ligature of a font adds.
#[tactic(auto, unfolding(crate::specs::Adding::sums_of_glyph))]
#[inline(always)]
pub fn glyph_sums(stock: &Stock, font: u32, code: u8) -> Sums
    requires { font < length stock.now }
    ensures exact { result ≡ sums_of_glyph stock.now font code }
    ensures small { IsWithin 1 result }
{
    let font = stock.font(font);
    expanding(
        font.width(code),
        font.stretch_of(code),
        font.shrink_of(code),
    )
}

/// What a font kern adds, and what it expands with the glyph before it.
#[tactic(auto, unfolding(crate::specs::Adding::sums_of_kern))]
pub fn kern_sums(stock: &Stock, width: Sp, left: Option<KernLeft>) -> Sums
    requires { IsKernOver stock.now left }
    ensures exact { result ≡ sums_of_kern stock.now width left }
    ensures small { IsWithin 1 result }
{
    match left {
        Some(left) => {
            let font = stock.font(left.font);
            let stretch = font.kern_stretch(left.code, left.fix);
            expanding(width, stretch, font.kern_shrink(left.code, left.fix))
        }
        None => Sums::rigid(width),
    }
}

/// A width that expands.
#[inline(always)]
fn expanding(width: Sp, font_stretch: i64, font_shrink: i64) -> Sums
    requires stretch { unsigned_abs font_stretch ≤ 2 ^ 32 }
    requires shrink { unsigned_abs font_shrink ≤ 2 ^ 32 }
    ensures exact { result ≡ record (rigid_sums width) {
      font_stretch = font_stretch;
      font_shrink = font_shrink;
    } }
    ensures small { IsWithin 1 result }
{
    let mut sums = Sums::rigid(width);
    sums.font_stretch = font_stretch;
    sums.font_shrink = font_shrink;
    sums
}

//! The search for the character at a margin, which may hang out (Thành, Micro-typographic
//! extensions to the TeX typesetting system). Penalties, font kerns, and kerns and boxes of width 0
//! are passed; a character or ligature hangs, and anything else ends the search.
ghost use Rattle.std.specs.Prelude.{◌≡◌, ◌<◌, ◌≤◌, ◌^◌, All, IfSome, length, unsigned_abs};
ghost use Rattle.std.specs.Option.{option_or};
ghost use Rattle.break_rule.specs.declared.margin.Side.TheVariants.{Left, Right};
ghost use Rattle.break_rule.specs.Lines.{hang_of_glyph};
ghost use Rattle.break_rule.specs.Margins.{item_margin as margin_of_item, sub_margin as margin_of_sub};
ghost use Rattle.break_rule.specs.Margins.{subs_margin as margin_of_subs, width_margin as margin_of_width};
ghost use Rattle.break_rule.specs.Over.{IsItemOver, IsSubOver};

use font_stock::Stock;
use hlist::{Item, Sub};
use micro_num::Sp;

/// A side of a line.
#[derive(Clone, Copy)]
pub enum Side {
    Left,
    Right,
}

/// The item that stops the search for a margin character, and how far it hangs out, in scaled
/// points.
#[derive(Clone, Copy)]
pub struct Stop {
    pub at: u32,
    pub hang: i64,
}

/// How far an item hangs out where no line ends in it, None where the search passes it.
#[inline(always)]
pub fn item_margin(side: Side, stock: &Stock, item: &Item) -> Option<i64>
    requires { IsItemOver stock.now item.now }
    ensures exact { result ≡ margin_of_item side stock.now item.now }
    ensures small { IfSome result (λ hang. unsigned_abs hang ≤ 2 ^ 31) }
{
    match item {
        Item::Char { font, code } => Some(glyph_hang(side, stock, *font, *code)),
        Item::Lig { font, code, .. } => Some(glyph_hang(side, stock, *font, *code)),
        Item::FontKern { .. } => None,
        Item::Kern { width } => width_margin(*width),
        Item::Glue { .. } => Some(0),
        Item::Penalty { .. } => None,
        Item::Disc { lists } => subs_margin(side, stock, lists.whole()),
        Item::Box { width } => width_margin(*width),
    }
}

/// How far the first entry of a discretionary that stops the search from a side hangs out.
pub fn subs_margin(side: Side, stock: &Stock, subs: &[Sub]) -> Option<i64>
    requires { All (IsSubOver stock.now) subs.now }
    ensures exact { result ≡ margin_of_subs side stock.now subs.now }
    ensures small { IfSome result (λ hang. unsigned_abs hang ≤ 2 ^ 31) }
{
    match side {
        Side::Left => first_margin(stock, subs),
        Side::Right => last_margin(stock, subs),
    }
}

/// The hang of the first entry that stops the search.
#[tactic(auto, using(crate::proofs::MarginLaws::subs_left_step, crate::proofs::MarginLaws::subs_none))]
fn first_margin(stock: &Stock, subs: &[Sub]) -> Option<i64>
    requires { All (IsSubOver stock.now) subs.now }
    ensures exact { result ≡ margin_of_subs Left stock.now subs.now }
    ensures small { IfSome result (λ hang. unsigned_abs hang ≤ 2 ^ 31) }
{
    let mut found = None;
    for sub in subs {
        found = first_of(found, sub_margin(Side::Left, stock, sub));
    }
    found
}

/// The hang of the last entry that stops the search.
#[tactic(auto, using(crate::proofs::MarginLaws::subs_right_step, crate::proofs::MarginLaws::subs_none))]
fn last_margin(stock: &Stock, subs: &[Sub]) -> Option<i64>
    requires { All (IsSubOver stock.now) subs.now }
    ensures exact { result ≡ margin_of_subs Right stock.now subs.now }
    ensures small { IfSome result (λ hang. unsigned_abs hang ≤ 2 ^ 31) }
{
    let mut found = None;
    for sub in subs {
        found = first_of(sub_margin(Side::Right, stock, sub), found);
    }
    found
}

/// The first of two hangs where there is one, else the second.
fn first_of(first: Option<i64>, second: Option<i64>) -> Option<i64>
    requires first { IfSome first (λ hang. unsigned_abs hang ≤ 2 ^ 31) }
    requires second { IfSome second (λ hang. unsigned_abs hang ≤ 2 ^ 31) }
    ensures exact { result ≡ option_or first second }
    ensures small { IfSome result (λ hang. unsigned_abs hang ≤ 2 ^ 31) }
{
    match first {
        Some(hang) => Some(hang),
        None => second,
    }
}

/// How far an entry of a discretionary hangs out.
fn sub_margin(side: Side, stock: &Stock, sub: &Sub) -> Option<i64>
    requires { IsSubOver stock.now sub.now }
    ensures exact { result ≡ margin_of_sub side stock.now sub.now }
    ensures small { IfSome result (λ hang. unsigned_abs hang ≤ 2 ^ 31) }
{
    match sub {
        Sub::Char { font, code } => Some(glyph_hang(side, stock, *font, *code)),
        Sub::Lig { font, code, .. } => Some(glyph_hang(side, stock, *font, *code)),
        Sub::FontKern { .. } => None,
    }
}

/// Where a kern or a box has a width, it stops the search and doesn't hang.
fn width_margin(width: Sp) -> Option<i64>
    ensures exact { result ≡ margin_of_width width }
    ensures small { IfSome result (λ hang. unsigned_abs hang ≤ 2 ^ 31) }
{
    if width == 0 { None } else { Some(0) }
}

/// How far a character or ligature hangs out.
#[inline(always)]
#[tactic(auto, unfolding(crate::specs::Lines::hang_of_glyph))]
pub fn glyph_hang(side: Side, stock: &Stock, font: u32, code: u8) -> i64
    requires { font < length stock.now }
    ensures exact { result ≡ hang_of_glyph side stock.now font code }
    ensures small { unsigned_abs result ≤ 2 ^ 31 }
{
    let font = stock.font(font);
    match side {
        Side::Left => font.left_hang(code),
        Side::Right => font.right_hang(code),
    }
}

//! What lies before each place of a list, and what from it on: two passes over the list, one from
//! either end.
ghost use Rattle.std.specs.Prelude.{◌≡◌, ◌+◌, ◌-◌, ◌<◌, ◌≤◌, ◌^◌, All, IfOk, IfSome, length, map, pos};
ghost use Rattle.std.specs.List.{range_with_len};
ghost use Rattle.hlist.specs.Bounds.{unbroken_count, unbroken_weight};
ghost use Rattle.break_rule.specs.Adding.{nothing, plus, sums_of, sums_of_glyph};
ghost use Rattle.break_rule.specs.Lines.{hang_of_glyph};
ghost use Rattle.break_rule.specs.declared.margin.Side.TheVariants.{Left, Right};
ghost use Rattle.break_rule.specs.Kept.{IsWithin, IsHang, IsSmallBefore, IsSmallRest, IsScan};
ghost use Rattle.break_rule.specs.Kept.{before_of, rest_of, stop_at as stop_of};
ghost use Rattle.break_rule.specs.Kept.{past_item as past_an_item, from_item as from_an_item};
ghost use Rattle.break_rule.specs.Over.{IsOver, IsItemOver};

use crate::adding::{glyph_sums, item_sums};
use crate::ends::{Before, Rest};
use crate::margin::{Side, Stop, glyph_hang, item_margin};
use crate::places::is_discardable;
use crate::sums::Sums;
use font_stock::Stock;
use hlist::Item;
use std::alloc::{AllocError, Global};

/// What lies before each place of a list, and what from each place on, of the end first.
#[derive(Drop)]
pub struct Scan {
    pub befores: Vec<Before>,
    pub rests: Vec<Rest>,
}

/// The scan of a list.
pub fn scan_list(alloc: Global, stock: &Stock, items: &[Item]) -> Result<Scan, AllocError>
    requires over { IsOver stock.now items.now }
    requires few { unbroken_count items.now ≤ 65536 }
    requires short { length items.now ≤ 65536 }
    ensures { IfOk result (λ made.
        IsScan stock.now items.now made.befores.items made.rests.items) }
{
    let befores = befores(alloc, stock, items)?;
    let rests = rests(alloc, stock, items)?;
    Ok(Scan { befores, rests })
}

/// What lies before each place.
fn befores(alloc: Global, stock: &Stock, items: &[Item]) -> Result<Vec<Before>, AllocError>
    requires over { IsOver stock.now items.now }
    requires few { unbroken_count items.now ≤ 65536 }
    requires short { length items.now ≤ 65536 }
    ensures exact { IfOk result (λ made. made.items
        ≡ map (before_of stock.now items.now) (range_with_len 0 (length items.now + 1))) }
    ensures small { IfOk result (λ made. All IsSmallBefore made.items) }
{
    let mut before = nothing_before();
    let mut made = Vec::with_capacity(alloc, items.len() + 1)?;
    made.push(before)?;
    for (place, item) in items.iter().enumerate() {
        before = past_item(stock, item, (place + 1) as u32, before);
        made.push(before)?;
    }
    Ok(made)
}

/// What lies from each place on, of the end first.
fn rests(alloc: Global, stock: &Stock, items: &[Item]) -> Result<Vec<Rest>, AllocError>
    requires over { IsOver stock.now items.now }
    requires short { length items.now ≤ 65536 }
    ensures exact { IfOk result (λ made.
        made.items
        ≡ map (λ passed. rest_of stock.now items.now (length items.now - passed))
        (range_with_len 0 (length items.now + 1))) }
    ensures small { IfOk result (λ made. All IsSmallRest made.items) }
{
    let count = items.len();
    let mut rest = nothing_from(count as u32);
    let mut made = Vec::with_capacity(alloc, count + 1)?;
    made.push(rest)?;
    for passed in 0..count {
        let place = count - 1 - passed;
        rest = from_item(stock, &items[place], place as u32, rest);
        made.push(rest)?;
    }
    Ok(made)
}

/// What lies before the first place.
fn nothing_before() -> Before
    ensures exact { result ≡ record {
      sums = nothing;
      behind = record { at = 0; hang = pos 0 };
    } }
    ensures small { IsWithin 0 result.sums }
{
    Before {
        sums: Sums::nothing(),
        behind: Stop { at: 0, hang: 0 },
    }
}

/// What lies from the end on.
fn nothing_from(end: u32) -> Rest
    ensures { result ≡ record {
      begin = end;
      ahead = record { at = end; hang = pos 0 };
    } }
{
    Rest {
        begin: end,
        ahead: Stop { at: end, hang: 0 },
    }
}

/// What lies before a place, by the item in front of it and what lies before that.
fn past_item(stock: &Stock, item: &Item, place: u32, before: Before) -> Before
    requires over { IsItemOver stock.now item.now }
    requires short { unbroken_weight item.now ≤ 65536 }
    requires small { IsSmallBefore before }
    ensures exact { result ≡ past_an_item stock.now item.now place before }
    ensures own { IsWithin (unbroken_weight item.now) (sums_of stock.now item.now) }
    ensures hang { IsHang result.behind.hang }
{
    match item {
        Item::Char { font, code } => past_glyph(stock, *font, *code, place, before),
        Item::Lig { font, code, .. } => past_glyph(stock, *font, *code, place, before),
        Item::Glue { glue } => Before {
            sums: before.sums.plus(&Sums::of_glue(*glue)),
            behind: Stop { at: place, hang: 0 },
        },
        _ => Before {
            sums: before.sums.plus(&item_sums(stock, item)),
            behind: stop_at(place, item_margin(Side::Right, stock, item), before.behind),
        },
    }
}

/// What lies before a place behind a glyph of a font.
#[inline(always)]
fn past_glyph(stock: &Stock, font: u32, code: u8, place: u32, before: Before) -> Before
    requires font { font < length stock.now }
    requires small { IsSmallBefore before }
    ensures sums { result.sums ≡ plus before.sums (sums_of_glyph stock.now font code) }
    ensures at { result.behind.at ≡ place }
    ensures hang { result.behind.hang ≡ hang_of_glyph Right stock.now font code }
    ensures own { IsWithin 1 (sums_of_glyph stock.now font code) }
    ensures small { IsHang result.behind.hang }
{
    Before {
        sums: before.sums.plus(&glyph_sums(stock, font, code)),
        behind: Stop {
            at: place,
            hang: glyph_hang(Side::Right, stock, font, code),
        },
    }
}

/// What lies from a place on, by the item there and what lies behind it.
fn from_item(stock: &Stock, item: &Item, place: u32, rest: Rest) -> Rest
    requires over { IsItemOver stock.now item.now }
    requires small { IsSmallRest rest }
    ensures exact { result ≡ from_an_item stock.now item.now place rest }
    ensures hang { IsSmallRest result }
{
    match item {
        Item::Char { font, code } => from_glyph(stock, *font, *code, place),
        Item::Lig { font, code, .. } => from_glyph(stock, *font, *code, place),
        Item::Glue { .. } => Rest {
            begin: rest.begin,
            ahead: Stop { at: place, hang: 0 },
        },
        _ => Rest {
            begin: if is_discardable(item) {
                rest.begin
            } else {
                place
            },
            ahead: stop_at(place, item_margin(Side::Left, stock, item), rest.ahead),
        },
    }
}

/// What lies from a glyph of a font on.
#[inline(always)]
fn from_glyph(stock: &Stock, font: u32, code: u8, place: u32) -> Rest
    requires { font < length stock.now }
    ensures begin { result.begin ≡ place }
    ensures at { result.ahead.at ≡ place }
    ensures hang { result.ahead.hang ≡ hang_of_glyph Left stock.now font code }
    ensures small { IsSmallRest result }
{
    Rest {
        begin: place,
        ahead: Stop {
            at: place,
            hang: glyph_hang(Side::Left, stock, font, code),
        },
    }
}

/// The stop at a place, where there is a hang, or else another.
fn stop_at(place: u32, hang: Option<i64>, other: Stop) -> Stop
    requires own { IfSome hang IsHang }
    requires other { IsHang other.hang }
    ensures exact { result ≡ stop_of place hang other }
    ensures small { IsHang result.hang }
{
    match hang {
        Some(hang) => Stop { at: place, hang },
        None => other,
    }
}

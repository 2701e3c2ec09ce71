//! What a line takes from either of its ends: from the break that it begins with, and from the
//! place at which it ends.
ghost use Rattle.std.specs.Prelude.{◌≡◌, ◌<◌, ◌≤◌, ◌^◌, All, IfOk, length, map};
ghost use Rattle.hlist.specs.Bounds.{BreaksShort};
ghost use Rattle.break_rule.specs.declared.line.From.TheVariants.{Start, After};
ghost use Rattle.break_rule.specs.Kept.{IsScan, IsSmallOpening, IsSmallClosing};
ghost use Rattle.break_rule.specs.Kept.{opening_of, opening_with, closing_of};
ghost use Rattle.break_rule.specs.Lines.{pre_of, post_of};
ghost use Rattle.break_rule.specs.Over.{IsOver, IsSubOver};
ghost use Rattle.break_rule.specs.Places.{begin_of};

use crate::adding::subs_sums;
use crate::ends::{Closing, Opening};
use crate::margin::{Side, subs_margin};
use crate::places::penalty;
use crate::scan::Scan;
use font_stock::Stock;
use hlist::{Item, Sub};
use micro_num::Params;
use std::alloc::{AllocError, Global};

/// What a line takes from each place of some, as the break behind which it begins.
pub fn openings(
    alloc: Global,
    stock: &Stock,
    items: &[Item],
    scan: &Scan,
    legal: &[u32],
) -> Result<Vec<Opening>, AllocError>
    requires over { IsOver stock.now items.now }
    requires breaks { All BreaksShort items.now }
    requires short { length items.now ≤ 65536 }
    requires scan { IsScan stock.now items.now scan.now.befores.items scan.now.rests.items }
    requires places { All (λ place. place ≤ length items.now) legal.now }
    ensures exact { IfOk result (λ made.
        made.items ≡ map (λ at. opening_of stock.now items.now (After at)) legal.now) }
    ensures small { IfOk result (λ made. All IsSmallOpening made.items) }
{
    let mut made = Vec::with_capacity(alloc, legal.len())?;
    for at in legal {
        made.push(opening(stock, items, scan, *at))?;
    }
    Ok(made)
}

/// What a line takes from each place of some, as the one at which it ends.
pub fn closings(
    alloc: Global,
    params: &Params,
    stock: &Stock,
    items: &[Item],
    scan: &Scan,
    legal: &[u32],
) -> Result<Vec<Closing>, AllocError>
    requires over { IsOver stock.now items.now }
    requires breaks { All BreaksShort items.now }
    requires short { length items.now ≤ 65536 }
    requires scan { IsScan stock.now items.now scan.now.befores.items scan.now.rests.items }
    requires places { All (λ place. place ≤ length items.now) legal.now }
    ensures exact { IfOk result (λ made.
        made.items ≡ map (closing_of params.now stock.now items.now) legal.now) }
    ensures small { IfOk result (λ made. All IsSmallClosing made.items) }
{
    let mut made = Vec::with_capacity(alloc, legal.len())?;
    for place in legal {
        made.push(closing(params, stock, items, scan, *place))?;
    }
    Ok(made)
}

/// What the first line takes from the start of the list.
#[tactic(auto, unfolding(crate::specs::Kept::opening_of, crate::specs::Places::begin_of, crate::specs::Lines::post_of))]
pub fn start(stock: &Stock, items: &[Item], scan: &Scan) -> Opening
    requires scan { IsScan stock.now items.now scan.now.befores.items scan.now.rests.items }
    requires short { length items.now ≤ 65536 }
    ensures exact { result ≡ opening_of stock.now items.now Start }
    ensures small { IsSmallOpening result }
{
    opening_with(stock, items, scan, 0, &[])
}

/// What a line takes from the break behind which it begins.
#[tactic(auto, unfolding(crate::specs::Kept::opening_of))]
fn opening(stock: &Stock, items: &[Item], scan: &Scan, at: u32) -> Opening
    requires over { IsOver stock.now items.now }
    requires breaks { All BreaksShort items.now }
    requires short { length items.now ≤ 65536 }
    requires scan { IsScan stock.now items.now scan.now.befores.items scan.now.rests.items }
    requires within { at ≤ length items.now }
    ensures exact { result ≡ opening_of stock.now items.now (After at) }
    ensures small { IsSmallOpening result }
{
    let begin = begin_behind(stock, items, scan, at);
    opening_with(stock, items, scan, begin, post(stock, items, at))
}

/// What a line takes from a break where it begins with an item and some entries before it.
#[tactic(auto, unfolding(crate::specs::Kept::opening_with))]
fn opening_with(stock: &Stock, items: &[Item], scan: &Scan, begin: u32, post: &[Sub]) -> Opening
    requires over { All (IsSubOver stock.now) post.now }
    requires breaks { length post.now ≤ 32768 }
    requires short { length items.now ≤ 65536 }
    requires scan { IsScan stock.now items.now scan.now.befores.items scan.now.rests.items }
    requires within { begin ≤ length items.now }
    ensures exact { result ≡ opening_with stock.now items.now begin post.now }
    ensures small { IsSmallOpening result }
{
    let before = scan.befores[begin as usize];
    let rest = scan.rests[items.len() - begin as usize];
    Opening {
        begin,
        less: before.sums.minus(&subs_sums(stock, post)),
        left: subs_margin(Side::Left, stock, post),
        right: subs_margin(Side::Right, stock, post),
        ahead: rest.ahead,
    }
}

/// The item with which a line begins behind a break.
#[tactic(auto, unfolding(crate::specs::Places::begin_of))]
fn begin_behind(_stock: &Stock, items: &[Item], scan: &Scan, at: u32) -> u32
    requires short { length items.now ≤ 65536 }
    requires scan { IsScan _stock.now items.now scan.now.befores.items scan.now.rests.items }
    requires within { at ≤ length items.now }
    ensures exact { result ≡ begin_of items.now (After at) }
    ensures within { result ≤ length items.now }
{
    let behind = items.len() - at as usize;
    if behind == 0 {
        return scan.rests[0].begin;
    }
    match &items[at as usize] {
        Item::Disc { lists } => {
            if lists.post().is_empty() {
                scan.rests[behind - 1].begin
            } else {
                at + 1
            }
        }
        _ => scan.rests[behind].begin,
    }
}

/// What a line takes from the place at which it ends.
#[tactic(auto, unfolding(crate::specs::Kept::closing_of))]
fn closing(params: &Params, stock: &Stock, items: &[Item], scan: &Scan, place: u32) -> Closing
    requires over { IsOver stock.now items.now }
    requires breaks { All BreaksShort items.now }
    requires short { length items.now ≤ 65536 }
    requires scan { IsScan stock.now items.now scan.now.befores.items scan.now.rests.items }
    requires within { place ≤ length items.now }
    ensures exact { result ≡ closing_of params.now stock.now items.now place }
    ensures small { IsSmallClosing result }
{
    let before = scan.befores[place as usize];
    let pre = pre(stock, items, place);
    Closing {
        sums: before.sums.plus(&subs_sums(stock, pre)),
        left: subs_margin(Side::Left, stock, pre),
        right: subs_margin(Side::Right, stock, pre),
        behind: before.behind,
        penalty: penalty(params, items, place as usize),
    }
}

/// What a broken discretionary at a place puts before the break.
#[tactic(auto, unfolding(crate::specs::Lines::pre_of))]
pub fn pre<'a>(_stock: &Stock, items: &'a [Item], place: u32) -> &'a [Sub]
    requires over { IsOver _stock.now items.now }
    requires breaks { All BreaksShort items.now }
    requires within { place ≤ length items.now }
    ensures exact { result.now ≡ pre_of items.now place }
    ensures over { All (IsSubOver _stock.now) result.now }
    ensures short { length result.now ≤ 32768 }
{
    let place = place as usize;
    if place == items.len() {
        return &[];
    }
    match &items[place] {
        Item::Disc { lists } => lists.pre(),
        _ => &[],
    }
}

/// What a broken discretionary at a place puts behind the break.
#[tactic(auto, unfolding(crate::specs::Lines::post_of))]
pub fn post<'a>(_stock: &Stock, items: &'a [Item], at: u32) -> &'a [Sub]
    requires over { IsOver _stock.now items.now }
    requires breaks { All BreaksShort items.now }
    requires within { at ≤ length items.now }
    ensures exact { result.now ≡ post_of items.now (After at) }
    ensures over { All (IsSubOver _stock.now) result.now }
    ensures short { length result.now ≤ 32768 }
{
    let at = at as usize;
    if at == items.len() {
        return &[];
    }
    match &items[at] {
        Item::Disc { lists } => lists.post(),
        _ => &[],
    }
}

//! Where a line may end, and with which penalty (TeX: The Program, sections 148 and 866 to 869).
ghost use Rattle.std.specs.Prelude.{◌≡◌, ◌+◌, ◌<◌, ◌≤◌, ◌^◌, Some, IfOk, filter, length, map};
ghost use Rattle.std.specs.Prelude.{slice_get};
ghost use Rattle.std.specs.List.{range_with_len};
ghost use Rattle.break_rule.specs.Places.{is_place as ends_at, legal_of, penalty_of};
ghost use Rattle.break_rule.specs.Places.{disc_penalty as penalty_of_disc, penalty_at_item};
ghost use Rattle.break_rule.specs.Places.{allows_glue as allows_a_glue, is_glue as is_a_glue};
ghost use Rattle.break_rule.specs.Places.{is_discardable as vanishes, item_before};
ghost use Rattle.break_rule.specs.Kept.{rank_of};

use hlist::{Item, Sub};
use micro_num::{Disc, Params};
use std::alloc::{AllocError, Global};

/// The penalty that forces a break.
const EJECT: i32 = -10000;

/// The penalty that forbids a break.
const INFINITE: i32 = 10000;

/// The places at which a line may end, as numbers of items, and how many of them there are before
/// each place.
#[derive(Drop)]
pub struct Places {
    pub legal: Vec<u32>,
    pub ranks: Vec<u32>,
}

/// The places of a list at which a line may end.
#[tactic(auto, using(crate::proofs::RangeSteps::filter_step, crate::proofs::RangeSteps::map_step), unfolding(crate::specs::Places::legal_of, crate::specs::Kept::rank_of))]
pub fn places_of(alloc: Global, params: &Params, items: &[Item]) -> Result<Places, AllocError>
    requires { length items.now < 2 ^ 31 }
    ensures legal { IfOk result (λ made. made.legal.items ≡ legal_of params.now items.now) }
    ensures ranks { IfOk result (λ made.
        made.ranks.items
        ≡ map (rank_of params.now items.now) (range_with_len 0 (length items.now + 1))) }
{
    let count = items.len() + 1;
    let mut legal = Vec::new(alloc);
    let mut ranks = Vec::with_capacity(alloc, count)?;
    for place in 0..count {
        ranks.push(legal.len() as u32)?;
        if is_place(params, items, place) {
            legal.push(place as u32)?;
        }
    }
    Ok(Places { legal, ranks })
}

/// Whether a line may end at a place.
#[tactic(auto, unfolding(crate::specs::Places::is_place))]
fn is_place(params: &Params, items: &[Item], place: usize) -> bool
    requires small { length items.now < 2 ^ 31 }
    requires within { place ≤ length items.now }
    ensures { result ≡ ends_at params.now items.now place }
{
    if place == items.len() {
        return true;
    }
    match &items[place] {
        Item::Glue { .. } => follows_more(items, place),
        Item::Kern { .. } => glue_follows(items, place),
        Item::Penalty { value } => *value < INFINITE,
        Item::Disc { lists } => disc_penalty(params, lists) < INFINITE,
        _ => false,
    }
}

/// Whether the item before a glue lets a line end there.
fn follows_more(items: &[Item], place: usize) -> bool
    requires { place < length items.now }
    ensures { result ≡ allows_a_glue (item_before items.now place) }
{
    if place == 0 {
        false
    } else {
        allows_glue(&items[place - 1])
    }
}

/// Whether a glue stands behind an item.
fn glue_follows(items: &[Item], place: usize) -> bool
    requires small { length items.now < 2 ^ 31 }
    requires within { place < length items.now }
    ensures { result ≡ is_a_glue (slice_get items.now (place + 1)) }
{
    let next = place + 1;
    if next == items.len() {
        false
    } else {
        is_glue(&items[next])
    }
}

fn is_glue(item: &Item) -> bool
    ensures { result ≡ is_a_glue (Some item.now) }
{
    match item {
        Item::Glue { .. } => true,
        _ => false,
    }
}

/// Whether a line may end at a glue right behind an item.
fn allows_glue(item: &Item) -> bool
    ensures { result ≡ allows_a_glue (Some item.now) }
{
    match item {
        Item::Char { .. } => true,
        Item::Lig { .. } => true,
        Item::FontKern { .. } => true,
        Item::Disc { .. } => true,
        Item::Box { .. } => true,
        _ => false,
    }
}

/// The penalty of ending a line at a place.
#[tactic(auto, unfolding(crate::specs::Places::penalty_of))]
pub fn penalty(params: &Params, items: &[Item], place: usize) -> i32
    requires { place ≤ length items.now }
    ensures { result ≡ penalty_of params.now items.now place }
{
    if place == items.len() {
        EJECT
    } else {
        item_penalty(params, &items[place])
    }
}

/// The penalty of ending a line at an item.
fn item_penalty(params: &Params, item: &Item) -> i32
    ensures { result ≡ penalty_at_item params.now (Some item.now) }
{
    match item {
        Item::Penalty { value } => (*value).max(EJECT),
        Item::Disc { lists } => disc_penalty(params, lists).max(EJECT),
        _ => 0,
    }
}

/// The penalty of ending a line at a discretionary.
fn disc_penalty(params: &Params, lists: &Disc<Sub>) -> i32
    ensures { result ≡ penalty_of_disc params.now lists.now }
{
    if lists.pre().is_empty() {
        params.exhyphenpenalty
    } else {
        params.hyphenpenalty
    }
}

/// Whether an item vanishes behind a break.
pub fn is_discardable(item: &Item) -> bool
    ensures { result ≡ vanishes item.now }
{
    match item {
        Item::Glue { .. } => true,
        Item::Penalty { .. } => true,
        Item::Kern { .. } => true,
        _ => false,
    }
}

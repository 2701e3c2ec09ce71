//! The legal places of a list, as a pass asks for them.
ghost use Rattle.std.specs.Prelude.{◌≡◌, ◌≤◌, ◌^◌, Some, IfOk, All, map, length, slice_get};
ghost use Rattle.break_pass.specs.LegalPlaces.{kind_of as kind_of_item, place_at, places_of};
ghost use Rattle.break_rule.specs.Made.{IsPlace};
ghost use Rattle.break_rule.specs.Places.{legal_of};

use break_rule::BreakRule;
use hlist::Item;
use micro_num::NoMemory;
use std::alloc::Global;

/// What a break at a place is, as far as the demerits of hyphens see it.
#[derive(Clone, Copy, Debug, PartialEq, Eq)]
pub enum BreakKind {
    /// At a discretionary.
    Discretionary,
    /// At the end of the paragraph.
    End,
    /// Anywhere else, the start included.
    Other,
}

/// A place at which a line may end: the number of its item, which is the count of items at the end;
/// the penalty of a break there, from -10000, which forces it, to 9999; and its kind.
#[derive(Clone, Copy, Debug, PartialEq, Eq)]
pub struct LegalPlace {
    pub at: u32,
    pub penalty: i32,
    pub kind: BreakKind,
}

/// The kind of a break at a place.
fn kind_of(items: &[Item], at: u32) -> BreakKind
    requires { at ≤ length items.now }
    ensures { result ≡ kind_of_item (slice_get items.now at) }
{
    if at as usize == items.len() {
        return BreakKind::End;
    }
    match &items[at as usize] {
        Item::Disc { .. } => BreakKind::Discretionary,
        _ => BreakKind::Other,
    }
}

/// What a pass keeps of a place.
fn legal_place(rule: &BreakRule, at: u32) -> LegalPlace
    requires { IsPlace rule.now at }
    ensures { result ≡ place_at rule.now.params rule.now.items at }
{
    LegalPlace {
        at,
        penalty: rule.penalty_at(at),
        kind: kind_of(rule.items(), at),
    }
}

/// The legal places of a list, in its order.
#[tactic(auto, unfolding(crate::specs::LegalPlaces::places_of))]
pub(crate) fn legal_places(alloc: Global, rule: &BreakRule) -> Result<Vec<LegalPlace>, NoMemory>
    ensures { IfOk result (λ places. places.items ≡ places_of rule.now.params rule.now.items) }
{
    let legal = rule.legal();
    let mut places = Vec::with_capacity(alloc, legal.len())?;
    for at in legal {
        places.push(legal_place(rule, *at))?;
    }
    Ok(places)
}

//! A pass over a list, lent to the sweep.
ghost use Rattle.std.specs.Prelude.{◌≡◌, ℕ, ◌<◌, ◌≤◌, ◌^◌, ◌-◌, IfOk, length, unsigned_abs, Some};
ghost use Rattle.line_break.specs.declared.node.Node.{Node};
ghost use Rattle.break_sweep.specs.Costs.{IsAmount};
ghost use Rattle.line_break.specs.Best.{best, end_of};
ghost use Rattle.line_break.specs.Sweep.{active};
ghost use Rattle.micro_num.specs.Shape.{open_group};
ghost use Rattle.break_rule.specs.Made.{IsFrom, IsPlace};
ghost use Rattle.break_rule.specs.Places.{legal_of};
ghost use Rattle.break_pass.specs.LegalPlaces.{from_of, kind_at, place_of, places_of};
ghost use Rattle.break_pass.specs.Passes.{pass_of};

use crate::demerits::{EJECT, added_parameters_fit, line_demerits};
use crate::place::{BreakKind, LegalPlace, legal_places};
use break_rule::{BreakRule, From};
use break_sweep::{ActiveNodes, LineCost, Lines, best as best_way};
use line_break::{Node, Way};
use micro_num::{NoMemory, open_ended_group};
use std::alloc::Global;

/// One pass over the legal places of a list, by its rule: with the greatest badness that a line may
/// have, and whether no other pass is tried after it.
#[derive(Drop)]
struct LinePass<'a> {
    rule: &'a BreakRule<'a>,
    places: Vec<LegalPlace>,
    threshold: i32,
    last: bool,
    open_ended: Option<u32>,
    ghost kept: { places.items ≡ places_of rule.now.params rule.now.items },
    ghost ended: { open_ended ≡ open_group rule.now.params rule.now.shape },
    ghost few: { end_of (pass_of rule.now threshold last) ≤ 2 ^ 17 },
    ghost amounts: { (x : Node) (to : ℕ)
        → IsAmount ((pass_of rule.now threshold last).demerits x to) },
    ghost groups: { (pass_of rule.now threshold last).open_ended ≡ Some 0 → ⊥ },
}

impl<'a> LinePass<'a> {
    /// A pass over the list of a rule.
    fn make(
        alloc: Global,
        rule: &'a BreakRule<'a>,
        threshold: i32,
        last: bool,
    ) -> Result<LinePass<'a>, NoMemory>
        requires few { length rule.now.items ≤ 65536 }
        requires shape { length rule.now.shape < 2 ^ 32 }
        ensures rule { IfOk result (λ pass. pass.rule.now ≡ rule.now) }
        ensures threshold { IfOk result (λ pass. pass.threshold ≡ threshold) }
        ensures last { IfOk result (λ pass. pass.last ≡ last) }
    {
        let places = legal_places(alloc, rule)?;
        let params = rule.params();
        let shape = rule.shape();
        added_parameters_fit(params);
        let open_ended = open_ended_group(params, shape);
        Ok(LinePass {
            rule,
            places,
            threshold,
            last,
            open_ended,
        })
    }

    /// The legal place of a number, counted from 1.
    fn place(&self, number: u32) -> LegalPlace
        requires from_1 { 0 < number }
        requires within { let rule = self.now.rule.now in
            number ≤ length (legal_of rule.params rule.items) }
        ensures exact { result ≡ place_of self.now.rule.now number }
        ensures legal { IsPlace self.now.rule.now result.at }
        ensures small { unsigned_abs result.penalty ≤ 10000 }
    {
        self.places[number as usize - 1]
    }

    /// Where the line after the break at a place begins.
    fn from(&self, place: u32) -> From
        requires { let rule = self.now.rule.now in
            place ≤ length (legal_of rule.params rule.items) }
        ensures exact { result ≡ from_of self.now.rule.now place }
        ensures legal { IsFrom self.now.rule.now result }
    {
        if place == 0 {
            From::Start
        } else {
            From::After {
                at: self.place(place).at,
            }
        }
    }

    /// The kind of the break at a place.
    fn kind(&self, place: u32) -> BreakKind
        requires { let rule = self.now.rule.now in
            place ≤ length (legal_of rule.params rule.items) }
        ensures { result ≡ kind_at self.now.rule.now place }
    {
        if place == 0 {
            BreakKind::Other
        } else {
            self.place(place).kind
        }
    }
}

#[tactic(auto, unfolding(crate::specs::Passes::pass_of, crate::specs::Passes::demerits_at))]
impl<'a> Lines for LinePass<'a> {
    ghost pass = { λ x. pass_of x.rule.now x.threshold x.last };

    ghost few = { λ x. x.few };

    ghost amounts = { λ x. x.amounts };

    ghost groups = { λ x. x.groups };

    fn places(&self) -> u32 {
        self.places.len() as u32
    }

    fn forces(&self, place: u32) -> bool {
        self.place(place).penalty == EJECT
    }

    fn cost(&self, from: Node, to: u32) -> LineCost {
        let place = self.place(to);
        let fit = self.rule.line(self.from(from.place), place.at, from.group);
        let before = self.kind(from.place);
        let demerits = line_demerits(self.rule.params(), before, from.class, fit, place);
        LineCost {
            badness: fit.badness,
            class: fit.class,
            demerits,
        }
    }

    fn threshold(&self) -> i32 {
        self.threshold
    }

    fn slack(&self) -> u32 {
        self.rule.params().adjdemerits.unsigned_abs()
    }

    fn is_final(&self) -> bool {
        self.last
    }

    fn open_ended(&self) -> Option<u32> {
        self.open_ended
    }
}

/// The best way of one pass over the list of a rule, where one reaches the end: with the greatest
/// badness that a line may have, and whether no other pass is tried after it. In the last pass one
/// always does.
pub fn best_of_pass(
    alloc: Global,
    rule: &BreakRule,
    threshold: i32,
    last: bool,
) -> Result<Option<Way>, NoMemory>
    requires few { length rule.now.items ≤ 65536 }
    requires shape { length rule.now.shape < 2 ^ 32 }
    ensures { IfOk result (λ way. way ≡ best (pass_of rule.now threshold last)) }
{
    let pass = LinePass::make(alloc, rule, threshold, last)?;
    best_way(alloc, &pass)
}

/// The active nodes at the end of one pass, as the ways that they stand for: the best of each group
/// and class to the end.
pub fn nodes_of_pass(
    alloc: Global,
    rule: &BreakRule,
    threshold: i32,
    last: bool,
) -> Result<ActiveNodes, NoMemory>
    requires few { length rule.now.items ≤ 65536 }
    requires shape { length rule.now.shape < 2 ^ 32 }
    ensures { IfOk result (λ nodes. let pass = pass_of rule.now threshold last in
        nodes ≡ active pass (end_of pass)) }
{
    let pass = LinePass::make(alloc, rule, threshold, last)?;
    ActiveNodes::sweep(alloc, &pass)
}

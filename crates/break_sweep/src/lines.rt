//! What the sweep asks of a pass: the trait through which one is lent.
ghost use Rattle.std.specs.Prelude.{◌≡◌, ℕ, ◌<◌, ◌≤◌, ◌^◌, Some, Option};
ghost use Rattle.line_break.specs.declared.node.Node.{Node};
ghost use Rattle.line_break.specs.Pass.{Pass};
ghost use Rattle.line_break.specs.Best.{end_of};
ghost use Rattle.break_sweep.specs.Costs.{IsAmount};

use line_break::Node;

/// What a line costs: its badness, from 0 to 10000 and 10001 where it is overfull; its class, from
/// 0 (very loose) to 3 (tight); and its demerits after the line before it.
#[derive(Clone, Copy, Debug, PartialEq, Eq)]
pub struct LineCost {
    pub badness: u16,
    pub class: u8,
    pub demerits: i64,
}

/// A pass over the legal places of a list, as the sweep asks for it. Places are counted from 1, in
/// the order of the list; place 0 is the start, and the last place is the end.
pub trait Lines {
    /// The pass that is lent.
    ghost pass: { Self → Pass };

    /// How many legal places there are, the end included: at most 2^17.
    fn places(&self) -> u32
        ensures { result ≡ end_of (pass self.now) };

    /// Whether the place forces a break.
    fn forces(&self, place: u32) -> bool
        requires from_1 { 0 < place }
        requires within { place ≤ end_of (pass self.now) }
        ensures { result ≡ (pass self.now).forced place };

    /// What the line from a node to a later place costs. It is asked once for each active node at
    /// each place.
    fn cost(&self, from: Node, to: u32) -> LineCost
        requires forward { from.place < to }
        requires within { to ≤ end_of (pass self.now) }
        requires group { 0 < from.group }
        ensures badness { result.badness ≡ (pass self.now).badness from.place from.group to }
        ensures class { result.class ≡ (pass self.now).class from.place from.group to }
        ensures demerits { result.demerits ≡ (pass self.now).demerits from to };

    /// The greatest badness that a line may have.
    fn threshold(&self) -> i32
        ensures { result ≡ (pass self.now).threshold };

    /// The absolute value of adjdemerits.
    fn slack(&self) -> u32
        ensures { result ≡ (pass self.now).slack };

    /// Whether this is the last pass that is tried.
    fn is_final(&self) -> bool
        ensures { result ≡ (pass self.now).final };

    /// The group that all later lines belong to, where there is one; it is above 0.
    fn open_ended(&self) -> Option<u32>
        ensures { result ≡ (pass self.now).open_ended };

    ghost few: { (x : Self) → end_of (pass x) ≤ 2 ^ 17 };

    ghost amounts: { (x : Self) (from : Node) (to : ℕ) → IsAmount ((pass x).demerits from to) };

    ghost groups: { (x : Self) → (pass x).open_ended ≡ Some 0 → ⊥ };
}

//! A slow program that lists all ways of a pass that is written out, by the definitions.
ghost use Rattle.std.specs.Prelude.{◌≡◌, ◌==◌, ◌^◌, ℤ, pos, neg_ℤ};
ghost use Rattle.std.specs.Prelude.{◌+ℤ◌, ◌≤ℤ◌, not, ◌||◌, int_le, IsTrue, IfOk};
ghost use Rattle.std.specs.List.{All, list_all, list_any};
ghost use Rattle.line_break.specs.Listing.{is_small_amount, is_small, IsNear};
ghost use Rattle.line_break.specs.Tables.{joins, line_at, badness_of, class_of};
ghost use Rattle.line_break.specs.Tables.{demerits_of, adjacent, pass_of};
ghost use Rattle.line_break.specs.Ways.{dies, extended, is_last, lives};
ghost use Rattle.line_break.specs.Ways.{records, same_start, stands, is_good};

use crate::node::{Node, Way};
use crate::ordering::{is_before, next_group};
use crate::table::{Line, Table};
use items::Items;
use micro_num::NoMemory;
use std::alloc::Global;

/// The bound that no total reaches.
const AWFUL_BAD: i64 = (1 << 30) - 1;

fn badness_of(line: Option<Line>) -> u16
    ensures { result ≡ badness_of line }
{
    match line {
        Some(line) => line.badness,
        None => 10001,
    }
}

fn class_of(line: Option<Line>) -> u8
    ensures { result ≡ class_of line }
{
    match line {
        Some(line) => line.class,
        None => 3,
    }
}

fn demerits_of(line: Option<Line>) -> i64
    ensures { result ≡ demerits_of line }
{
    match line {
        Some(line) => line.demerits,
        None => 0,
    }
}

/// What is added where two lines in a row have these classes.
fn adjacent(adjdemerits: i32, before: u8, class: u8) -> i64
    ensures value { result ≡ adjacent adjdemerits before class }
    ensures low { neg_ℤ (pos (2 ^ 31)) ≤ℤ result }
    ensures high { result ≤ℤ pos (2 ^ 31) }
{
    let looser = u16::from(before) + 1 < u16::from(class);
    let tighter = u16::from(class) + 1 < u16::from(before);
    if looser | tighter {
        adjdemerits as i64
    } else {
        0
    }
}

/// Whether two nodes are of one place and group.
fn same_start(x: &Node, y: &Node) -> bool
    ensures { result ≡ same_start x.now y.now }
{
    let place = x.place == y.place;
    let group = x.group == y.group;
    place & group
}

/// Whether it is the line from a place, as a line of a group, to a place.
fn joins(line: &Line, from: u32, group: u32, to: u32) -> bool
    ensures { result ≡ joins line.now from group to }
{
    let begins = (line.from == from) & (line.group == group);
    begins & (line.to == to)
}

/// Whether w is good enough beside v: of another place or group, or at most the slack above it.
fn is_good(slack: i64, w: &Way, v: &Way) -> bool
    requires near { IsNear v.now }
    requires low { pos 0 ≤ℤ slack }
    requires high { slack ≤ℤ pos (2 ^ 31) }
    ensures { result ≡ is_good slack w.now v.now }
{
    let apart = !same_start(&v.last, &w.last);
    let below = w.total <= v.total + slack;
    apart | below
}

/// Whether demerits are within 2^40.
fn is_small_amount(demerits: i64) -> bool
    ensures { result ≡ is_small_amount demerits }
{
    let low = -(1i64 << 40) <= demerits;
    low & (demerits <= 1 << 40)
}

fn are_small(lines: &[Line]) -> bool
    ensures { result ≡ list_all (λ l. is_small_amount l.demerits) lines.now }
{
    lines.iter().all(|l| is_small_amount(l.demerits))
}

impl Table {
    /// Whether the demerits of each line and adjdemerits are within 2^40, and there are at most
    /// 2^16 places: what the listing of ways asks, so that totals fit.
    pub fn is_small(&self) -> bool
        ensures { result ≡ is_small self.now }
    {
        let few = self.legal.len() <= 1 << 16;
        let adjacent = is_small_amount(self.adjdemerits as i64);
        few & adjacent & are_small(self.lines.as_slice())
    }

    fn line(&self, from: u32, group: u32, to: u32) -> Option<Line>
        ensures { result ≡ line_at self.now.lines from group to }
    {
        self.lines
            .as_slice()
            .iter()
            .copied()
            .find(|l| joins(l, from, group, to))
    }

    fn forces(&self, place: u32) -> bool
        ensures { result ≡ list_any (λ k. k == place) self.now.forced }
    {
        self.forced.as_slice().iter().any(|k| *k == place)
    }

    #[tactic(auto, unfolding(crate::specs::Tables::pass_of))]
    pub(crate) fn demerits(&self, x: &Node, to: u32) -> i64
        requires { IsTrue (is_small self.now) }
        ensures value { result ≡ (pass_of self.now).demerits x.now to }
        ensures low { neg_ℤ (pos (2 ^ 41)) ≤ℤ result }
        ensures high { result ≤ℤ pos (2 ^ 41) }
    {
        let line = self.line(x.place, x.group, to);
        demerits_of(line) + adjacent(self.adjdemerits, x.class, class_of(line))
    }

    #[tactic(auto, unfolding(crate::specs::Tables::pass_of, crate::specs::Ways::dies))]
    pub(crate) fn dies(&self, to: u32, x: &Node) -> bool
        ensures { result ≡ dies (pass_of self.now) to x.now }
    {
        let overfull = badness_of(self.line(x.place, x.group, to)) == 10001;
        self.forces(to) | overfull
    }

    #[tactic(auto, unfolding(crate::specs::Ways::lives))]
    pub(crate) fn lives(&self, to: u32, x: &Node) -> bool
        ensures { result ≡ lives (pass_of self.now) to x.now }
    {
        if to == 0 {
            return true;
        }
        let place = to - 1;
        let before = self.lives(place, x);
        let past = x.place < place;
        before & !(past & self.dies(place, x))
    }

    #[tactic(auto, unfolding(crate::specs::Tables::pass_of, crate::specs::Ways::stands))]
    pub(crate) fn stands(&self, ways: &[Way], w: &Way) -> bool
        requires { All (λ v. IsNear v) ways.now }
        ensures { result ≡ stands (pass_of self.now) ways.now w.now }
    {
        let slack = self.adjdemerits.unsigned_abs() as i64;
        ways.iter().all(|v| is_good(slack, w, v))
    }

    #[tactic(auto, unfolding(crate::specs::Tables::pass_of, crate::specs::Ways::records))]
    pub(crate) fn records(&self, to: u32, w: &Way) -> bool
        requires small { IsTrue (is_small self.now) }
        requires near { IsNear w.now }
        ensures { result ≡ records (pass_of self.now) to w.now }
    {
        let badness = badness_of(self.line(w.last.place, w.last.group, to));
        let admitted = badness as i32 <= self.threshold;
        let below = w.total + self.demerits(&w.last, to) < AWFUL_BAD;
        admitted & below
    }

    #[tactic(auto, unfolding(crate::specs::Tables::pass_of, crate::specs::Ways::is_last))]
    pub(crate) fn is_last(&self, ways: &[Way], w: &Way) -> bool
        ensures { result ≡ is_last (pass_of self.now) ways.now w.now }
    {
        ways.iter()
            .all(|v| !is_before(self.open_ended, &w.last, &v.last))
    }

    /// The way followed by a line to a place that adds so much.
    #[tactic(auto, unfolding(crate::specs::Tables::pass_of, crate::specs::Ways::extended))]
    pub(crate) fn extended(
        &self,
        alloc: Global,
        to: u32,
        added: i64,
        w: &Way,
    ) -> Result<Way, NoMemory>
        requires near { IsNear w.now }
        requires low { neg_ℤ (pos (2 ^ 41)) ≤ℤ added }
        requires high { added ≤ℤ pos (2 ^ 41) }
        ensures { IfOk result (λ v. v ≡ extended (pass_of self.now) to added w.now) }
    {
        let group = next_group(self.open_ended, w.last.group);
        let class = class_of(self.line(w.last.place, w.last.group, to));
        let mut earlier = Items::new(alloc);
        earlier.push(w.last)?;
        for node in w.earlier.as_slice() {
            earlier.push(*node)?;
        }
        Ok(Way {
            last: Node {
                place: to,
                group,
                class,
            },
            earlier,
            total: w.total + added,
        })
    }
}

//! The ways of a pass that is written out, place by place, and the best of them.
ghost use Rattle.std.specs.Prelude.{◌≡◌, ◌≤◌, ◌^◌, ◌++◌, length, IsTrue, IfOk};
ghost use Rattle.std.specs.List.{All};
ghost use Rattle.line_break.specs.Listing.{first_of_ended, is_better, better_of, is_small, IsNear};
ghost use Rattle.line_break.specs.Best.{best};
ghost use Rattle.line_break.specs.Tables.{pass_of};
ghost use Rattle.line_break.specs.Ways.{all_die, lines_to, only_last, open_ways};
ghost use Rattle.line_break.specs.Ways.{recorded_lines, rescued, rescued_lines, start, ways};

use crate::node::{Node, Way};
use crate::ordering::prefer;
use crate::table::Table;
use items::Items;
use micro_num::NoMemory;
use std::alloc::Global;
use std::cmp::Ordering;

/// A copy of a way.
fn copy(alloc: Global, w: &Way) -> Result<Way, NoMemory>
    ensures { IfOk result (λ v. v ≡ w.now) }
{
    let earlier = Items::from_slice(alloc, w.earlier.as_slice())?;
    Ok(Way {
        last: w.last,
        earlier,
        total: w.total,
    })
}

/// Puts copies of ways at the end of a list.
fn append(alloc: Global, all: &mut Items<Way>, more: &[Way]) -> Result<(), NoMemory>
    ensures { IfOk result (λ _. all.new ≡ all.old ++ more.now) }
{
    for w in more {
        all.push(copy(alloc, w)?)?;
    }
    Ok(())
}

/// Whether a way comes first of the best so far and itself.
fn is_better(ended: Option<u32>, best: &Option<Way>, w: &Way) -> bool
    ensures { result ≡ is_better ended best.now w.now }
{
    match best {
        Some(b) => !matches!(prefer(ended, b, w), Ordering::Less),
        None => true,
    }
}

/// The better one of the best so far and a way, where that reaches the end.
fn better(
    alloc: Global,
    ended: Option<u32>,
    end: u32,
    best: Option<Way>,
    w: &Way,
) -> Result<Option<Way>, NoMemory>
    ensures { IfOk result (λ found. found ≡ better_of ended end best w.now) }
{
    let ends = w.last.place == end;
    let first = is_better(ended, &best, w);
    if ends & first {
        let taken = copy(alloc, w)?;
        return Ok(Some(taken));
    }
    Ok(best)
}

impl Table {
    /// The way of no lines.
    #[tactic(auto, unfolding(crate::specs::Tables::pass_of, crate::specs::Ways::start))]
    fn start(&self, alloc: Global) -> Way
        ensures { result ≡ start (pass_of self.now) }
    {
        let group = match self.open_ended {
            Some(last) => 1u32.min(last),
            None => 1,
        };
        Way {
            last: Node {
                place: 0,
                group,
                class: 2,
            },
            earlier: Items::new(alloc),
            total: 0,
        }
    }

    /// Of the ways to the places before it, those that are open to a place.
    #[tactic(auto, unfolding(crate::specs::Ways::open_ways))]
    fn open_ways(&self, alloc: Global, to: u32, ways: &[Way]) -> Result<Items<Way>, NoMemory>
        requires { All (λ v. IsNear v) ways.now }
        ensures { IfOk result (λ found. found ≡ open_ways (pass_of self.now) to ways.now) }
    {
        let mut found = Items::new(alloc);
        for w in ways {
            let stands = self.stands(ways, w);
            let lives = self.lives(to, &w.last);
            if stands & lives {
                found.push(copy(alloc, w)?)?;
            }
        }
        Ok(found)
    }

    /// Whether all open ways die at the place.
    fn all_die(&self, to: u32, ways: &[Way]) -> bool
        ensures { result ≡ all_die (pass_of self.now) to ways.now }
    {
        ways.iter().all(|w| self.dies(to, &w.last))
    }

    /// Whether no line is recorded but from the last node.
    fn only_last(&self, to: u32, ways: &[Way]) -> bool
        requires small { IsTrue (is_small self.now) }
        requires near { All (λ v. IsNear v) ways.now }
        ensures { result ≡ only_last (pass_of self.now) to ways.now }
    {
        ways.iter()
            .filter(|w| self.records(to, w))
            .all(|w| self.is_last(ways, w))
    }

    #[tactic(auto, unfolding(crate::specs::Tables::pass_of, crate::specs::Ways::rescued))]
    fn rescued(&self, to: u32, ways: &[Way]) -> bool
        requires small { IsTrue (is_small self.now) }
        requires near { All (λ v. IsNear v) ways.now }
        ensures { result ≡ rescued (pass_of self.now) to ways.now }
    {
        let some = self.last & !ways.is_empty();
        some & self.all_die(to, ways) & self.only_last(to, ways)
    }

    /// The lines of a rescue: those from the last node, which add nothing.
    fn rescued_lines(&self, alloc: Global, to: u32, ways: &[Way]) -> Result<Items<Way>, NoMemory>
        requires small { IsTrue (is_small self.now) }
        requires near { All (λ v. IsNear v) ways.now }
        ensures { IfOk result (λ lines. lines ≡ rescued_lines (pass_of self.now) to ways.now) }
    {
        let mut lines = Items::new(alloc);
        for w in ways {
            if self.is_last(ways, w) {
                lines.push(self.extended(alloc, to, 0, w)?)?;
            }
        }
        Ok(lines)
    }

    /// The lines that are good enough, each with its demerits.
    fn recorded_lines(&self, alloc: Global, to: u32, ways: &[Way]) -> Result<Items<Way>, NoMemory>
        requires small { IsTrue (is_small self.now) }
        requires near { All (λ v. IsNear v) ways.now }
        ensures { IfOk result (λ lines. lines ≡ recorded_lines (pass_of self.now) to ways.now) }
    {
        let mut lines = Items::new(alloc);
        for w in ways {
            if self.records(to, w) {
                let added = self.demerits(&w.last, to);
                lines.push(self.extended(alloc, to, added, w)?)?;
            }
        }
        Ok(lines)
    }

    /// The ways that a place adds.
    #[tactic(auto, unfolding(crate::specs::Ways::lines_to))]
    fn lines_to(&self, alloc: Global, to: u32, ways: &[Way]) -> Result<Items<Way>, NoMemory>
        requires small { IsTrue (is_small self.now) }
        requires near { All (λ v. IsNear v) ways.now }
        ensures { IfOk result (λ lines. lines ≡ lines_to (pass_of self.now) to ways.now) }
    {
        if self.rescued(to, ways) {
            self.rescued_lines(alloc, to, ways)
        } else {
            self.recorded_lines(alloc, to, ways)
        }
    }

    /// All ways of the pass. It takes time and room that grow with their number, which may be
    /// exponential in the number of places.
    pub fn ways(&self, alloc: Global) -> Result<Items<Way>, NoMemory>
        requires { IsTrue (is_small self.now) }
        ensures { IfOk result (λ all. all ≡ ways (pass_of self.now) (length self.now.legal)) }
    {
        let mut all = Items::new(alloc);
        all.push(self.start(alloc))?;
        for place in 0..self.legal.len() {
            let to = place as u32 + 1;
            let open = self.open_ways(alloc, to, all.as_slice())?;
            let lines = self.lines_to(alloc, to, open.as_slice())?;
            append(alloc, &mut all, lines.as_slice())?;
        }
        Ok(all)
    }

    /// The best way to the end, where there is one.
    #[tactic(auto, unfolding(crate::specs::Tables::pass_of, crate::specs::Best::best, crate::specs::Best::to_the_end))]
    pub fn best(&self, alloc: Global) -> Result<Option<Way>, NoMemory>
        requires { IsTrue (is_small self.now) }
        ensures { IfOk result (λ found. found ≡ best (pass_of self.now)) }
    {
        let all = self.ways(alloc)?;
        let found = self.first(alloc, all.as_slice())?;
        Ok(found)
    }

    /// The first by preference of the ways that reach the end.
    fn first(&self, alloc: Global, ways: &[Way]) -> Result<Option<Way>, NoMemory>
        requires { length self.now.legal ≤ 2 ^ 16 }
        ensures { IfOk result (λ found. found ≡ first_of_ended (pass_of self.now) ways.now) }
    {
        let end = self.legal.len() as u32;
        let mut found: Option<Way> = None;
        for back in 0..ways.len() {
            let w = &ways[ways.len() - 1 - back];
            found = better(alloc, self.open_ended, end, found, w)?;
        }
        Ok(found)
    }
}

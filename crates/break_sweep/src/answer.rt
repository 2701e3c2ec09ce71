//! What a sweep ends with: the last list of active nodes, and the ways that they stand for.
ghost use Rattle.std.specs.Prelude.{◌≡◌, ◌<◌, ◌==◌, ℕ, List, length, map, option_map, if◌then◌else◌, IfOk, IfSome};
ghost use Rattle.std.specs.List.{All};
ghost use Rattle.line_break.specs.Best.{best, best_of_group, end_of};
ghost use Rattle.line_break.specs.Laws.{IsEnded, of_group};
ghost use Rattle.line_break.specs.Sweep.{active, first_of_least};
ghost use Rattle.break_sweep.specs.Made.{way_at, ways_of, listed};
ghost use Rattle.break_sweep.specs.Choosing.{is_to_take, is_wanted, of_wanted, way_back};

use crate::lines::Lines;
use crate::made::Made;
use crate::sweep::Arrays;
use items::Items;
use line_break::{Node, Way};
use micro_num::NoMemory;
use std::alloc::Global;
use std::marker::Model;

/// The active nodes after the last place, as the list of the ways that they stand for, in the order
/// of nodes.
#[derive(Drop)]
pub struct ActiveNodes {
    nodes: Vec<Made>,
    active: Vec<u32>,
}

impl Model for ActiveNodes {
    ghost use Rattle.std.specs.Prelude.{◌<◌, List, length};
    ghost use Rattle.std.specs.List.{All};
    ghost use Rattle.line_break.specs.declared.node.Way.{Way};
    ghost use Rattle.break_sweep.specs.Made.{listed, ways_of};

    ghost Value = { List Way };

    ghost view = { λ a. listed (ways_of a.nodes.items) a.active.items };

    ghost invariant = { λ a. All (λ i. i < length a.nodes.items) a.active.items };
}

impl ActiveNodes {
    /// Sweeps over all places of a pass.
    pub fn sweep<L: Lines>(alloc: Global, lines: &L) -> Result<ActiveNodes, NoMemory>
        ensures { IfOk result (λ nodes.
            nodes ≡ active (L.pass lines.now) (end_of (L.pass lines.now))) }
    {
        let mut arrays = Arrays::start(alloc, lines.open_ended())?;
        for place in 0..lines.places() {
            if arrays.active.is_empty() {
                // no node is made where there is none
                break;
            }
            arrays.after_place(lines, place)?;
        }
        let Arrays { nodes, active, .. } = arrays;
        Ok(ActiveNodes { nodes, active })
    }

    /// The way of the first node of least total, where there is a node.
    pub fn best(&self, alloc: Global) -> Result<Option<Way>, NoMemory>
        ensures { IfOk result (λ way. way ≡ first_of_least self.now) }
    {
        way_found(alloc, self.nodes.as_slice(), self.active.as_slice(), None)
    }

    /// The group of each node, in their order.
    pub fn groups(&self, alloc: Global) -> Result<Items<u32>, NoMemory>
        ensures { IfOk result (λ groups. groups ≡ map (λ way. way.last.group) self.now) }
    {
        let mut groups = Items::new(alloc);
        for at in 0..self.active.len() {
            let index = self.active[at];
            groups.push(self.nodes[index as usize].node.group)?;
        }
        Ok(groups)
    }

    /// The way of the first node of least total in a group, where there is one.
    pub fn best_of_group(&self, alloc: Global, group: u32) -> Result<Option<Way>, NoMemory>
        ensures { IfOk result (λ way. way ≡ first_of_least (of_group group self.now)) }
    {
        way_found(
            alloc,
            self.nodes.as_slice(),
            self.active.as_slice(),
            Some(group),
        )
    }
}

/// The best way of a pass, where one reaches the end.
pub fn best<L: Lines>(alloc: Global, lines: &L) -> Result<Option<Way>, NoMemory>
    requires { IsEnded (L.pass lines.now) }
    ensures { IfOk result (λ way. way ≡ best (L.pass lines.now)) }
{
    let nodes = ActiveNodes::sweep(alloc, lines)?;
    nodes.best(alloc)
}

/// Whether a node is of the group, where one is asked for.
fn is_wanted(node: Node, group: Option<u32>) -> bool
    ensures { result ≡ is_wanted node group }
{
    match group {
        Some(group) => node.group == group,
        None => true,
    }
}

/// Whether a node is to be taken in place of the one found so far, which is after it in the list:
/// where its total is no higher.
fn is_to_take(nodes: &[Made], found: Option<u32>, made: Made) -> bool
    requires { IfSome found (λ i. i < length nodes.now) }
    ensures { result ≡ is_to_take nodes.now found made }
{
    match found {
        Some(index) => made.total <= nodes[index as usize].total,
        None => true,
    }
}

/// A node, where it is to be taken, or the one found so far.
fn chosen(taken: bool, index: u32, found: Option<u32>) -> Option<u32>
    ensures { result ≡ (if taken then Some index else found) }
{
    if taken { Some(index) } else { found }
}

/// The index of the first node of least total, of a group or of all.
fn first_of_least(nodes: &[Made], active: &[u32], group: Option<u32>) -> Option<u32>
    requires { All (λ i. i < length nodes.now) active.now }
    ensures found { option_map (way_at (ways_of nodes.now)) result
        ≡ first_of_least (of_wanted group (listed (ways_of nodes.now) active.now)) }
    ensures within { IfSome result (λ i. i < length nodes.now) }
{
    let mut found: Option<u32> = None;
    for back in 0..active.len() {
        let index = active[active.len() - 1 - back];
        let made = nodes[index as usize];
        let wanted = is_wanted(made.node, group);
        let better = is_to_take(nodes, found, made);
        found = chosen(wanted & better, index, found);
    }
    found
}

/// The nodes before a node on its way, the latest first.
fn walk_back(alloc: Global, nodes: &[Made], index: u32) -> Result<Items<Node>, NoMemory>
    requires { index < length nodes.now }
    ensures { IfOk result (λ earlier. earlier ≡ (way_at (ways_of nodes.now) index).earlier) }
{
    let mut earlier = Items::new(alloc);
    let mut at = index;
    while nodes[at as usize].before < at {
        at = nodes[at as usize].before;
        earlier.push(nodes[at as usize].node)?;
    }
    Ok(earlier)
}

/// The way to a node, with the nodes before it.
fn way_back(made: Made, earlier: Items<Node>) -> Way
    ensures { result ≡ way_back made earlier }
{
    Way {
        last: made.node,
        earlier,
        total: made.total,
    }
}

/// The way of the first node of least total, of a group or of all.
fn way_found(
    alloc: Global,
    nodes: &[Made],
    active: &[u32],
    group: Option<u32>,
) -> Result<Option<Way>, NoMemory>
    requires { All (λ i. i < length nodes.now) active.now }
    ensures { IfOk result (λ way. way
        ≡ first_of_least (of_wanted group (listed (ways_of nodes.now) active.now))) }
{
    match first_of_least(nodes, active, group) {
        Some(index) => {
            let earlier = walk_back(alloc, nodes, index)?;
            Ok(Some(way_back(nodes[index as usize], earlier)))
        }
        None => Ok(None),
    }
}

//! The nodes that are made of the recorded lines, and their places in the list of active nodes.
ghost use Rattle.std.specs.Prelude.{◌≡◌, ◌≢◌, ℕ, [], ◌++◌, ◌∷◌, ◌≤◌, ◌<◌, ◌+◌, ◌-◌, ◌^◌, length, drop};
ghost use Rattle.std.specs.Prelude.{pos, ◌+ℤ◌, ◌≤ℤ◌, int_le, OnOk, slice_index, slice_index_or};
ghost use Rattle.std.specs.List.{All, filter, fold, list_all};
ghost use Rattle.std.specs.declared.cmp.Ordering.TheVariants.{Less};
ghost use Rattle.line_break.specs.Pass.{Pass, order};
ghost use Rattle.line_break.specs.Sweep.{put};
ghost use Rattle.line_break.specs.Ways.{awful_bad, same_start};
ghost use Rattle.break_sweep.specs.Joining.{IsToJoin};
ghost use Rattle.break_sweep.specs.Made.{listed, way_at, ways_of};
ghost use Rattle.break_sweep.specs.Standing.{is_good_line, is_made};

use crate::made::Made;
use crate::order::order;
use crate::trying::AWFUL_BAD;
use line_break::Node;
use micro_num::NoMemory;
use std::cmp::Ordering;

/// Whether two nodes are of one place and group.
fn same_start(x: Node, y: Node) -> bool
    ensures { result ≡ same_start x y }
{
    let place = x.place == y.place;
    let group = x.group == y.group;
    place & group
}

/// Whether a line is good enough beside another: of another group, or at most the slack above it.
fn is_good(slack: u32, line: &Made, other: &Made) -> bool
    requires { other.now.total ≤ℤ pos (2 ^ 30) }
    ensures { result ≡ is_good_line slack line.now other.now }
{
    let apart = !same_start(other.node, line.node);
    let below = line.total <= other.total + slack as i64;
    apart | below
}

/// Whether a total is below the bound.
fn is_below(line: &Made) -> bool
    ensures { result ≡ int_le line.now.total (pos (awful_bad - 1)) }
{
    line.total < AWFUL_BAD
}

/// Whether a line is good enough beside all.
fn stands(slack: u32, best: &[Made], line: &Made) -> bool
    requires { All (λ m. m.total ≤ℤ pos (2 ^ 30)) best.now }
    ensures { result ≡ list_all (is_good_line slack line.now) best.now }
{
    best.iter().all(|other| is_good(slack, line, other))
}

/// Whether a node is made of a line.
fn is_made(slack: u32, best: &[Made], line: &Made) -> bool
    requires { All (λ m. m.total ≤ℤ pos (2 ^ 30)) best.now }
    ensures { result ≡ is_made slack best.now line.now }
{
    stands(slack, best, line) & is_below(line)
}

/// Makes the nodes of a place, one for each line that stands. There is no memory for more than
/// 2^32 - 1 nodes.
pub(crate) fn make_nodes(slack: u32, best: &[Made], nodes: &mut Vec<Made>) -> Result<(), NoMemory>
    requires high { All (λ m. m.total ≤ℤ pos (2 ^ 30)) best.now }
    requires few { length nodes.old.items < 2 ^ 32 }
    ensures made { OnOk result (nodes.new.items
        ≡ nodes.old.items ++ filter (is_made slack best.now) best.now) }
    ensures few { OnOk result (length nodes.new.items < 2 ^ 32) }
{
    for line in best {
        if is_made(slack, best, line) {
            push_node(nodes, *line)?;
        }
    }
    Ok(())
}

/// Puts a node at the end of the array, if an index is left for it.
fn push_node(nodes: &mut Vec<Made>, made: Made) -> Result<(), NoMemory>
    requires { length nodes.old.items < 2 ^ 32 }
    ensures made { OnOk result (nodes.new.items ≡ nodes.old.items ++ made ∷ []) }
    ensures few { OnOk result (length nodes.new.items < 2 ^ 32) }
{
    if nodes.len() >= u32::MAX as usize {
        return Err(NoMemory);
    }
    nodes.push(made)?;
    Ok(())
}

/// Where a node belongs in a list of active nodes, looked for from the end: before all nodes that
/// it is lower than.
fn place_for(ended: Option<u32>, nodes: &[Made], active: &[u32], node: Node) -> usize
    requires { All (λ i. i < length nodes.now) active.now }
    ensures within { result ≤ length active.now }
    ensures above { (k : ℕ) (d : _) → result ≤ k → k < length active.now
        → order ended node (slice_index_or nodes.now (slice_index active.now k) d).node ≡ Less }
    ensures below { (d : _) → 0 < result
        → order ended node (slice_index_or nodes.now (slice_index active.now (result - 1)) d).node
        ≢ Less }
{
    for back in 0..active.len() {
        let at = active.len() - back;
        let other = nodes[active[at - 1] as usize];
        if order(ended, node, other.node) != Ordering::Less {
            return at;
        }
    }
    0
}

/// Puts the nodes from an index on into the list of active nodes. Where all lines are of one group
/// each goes to the end, and none is moved.
pub(crate) fn join(
    ended: Option<u32>,
    nodes: &[Made],
    first: usize,
    active: &mut Vec<u32>,
) -> Result<(), NoMemory>
    requires named { All (λ i. i < length nodes.now) active.old.items }
    requires few { length nodes.now < 2 ^ 32 }
    requires apart { IsToJoin ended (listed (ways_of nodes.now) active.old.items)
        (drop first (ways_of nodes.now)) }
    ensures put { OnOk result ((q : Pass) → q.open_ended ≡ ended
        → listed (ways_of nodes.now) active.new.items
        ≡ fold (put q) (listed (ways_of nodes.now) active.old.items)
        (drop first (ways_of nodes.now))) }
    ensures named { OnOk result (All (λ i. i < length nodes.now) active.new.items) }
{
    for index in first..nodes.len() {
        let at = place_for(ended, nodes, active.as_slice(), nodes[index].node);
        active.insert(at, index as u32)?;
    }
    Ok(())
}

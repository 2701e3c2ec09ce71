//! A node tried at a place: whether it dies there, and the line that is recorded from it.
ghost use Rattle.std.specs.Prelude.{◌≡◌, ◌≤◌, ◌<◌, ◌^◌, ◌++◌, ◌∷◌, [], pos, neg_ℤ, ◌≤ℤ◌};
ghost use Rattle.std.specs.Prelude.{◌+ℤ◌, ℕ, List, map, not, if◌then◌else◌, length, OnOk, true};
ghost use Rattle.std.specs.List.{All, filter, fold};
ghost use Rattle.std.specs.Option.{option_to_list};
ghost use Rattle.line_break.specs.declared.node.Way.{Way};
ghost use Rattle.line_break.specs.Pass.{Pass};
ghost use Rattle.line_break.specs.Sweep.{kept, put, tried};
ghost use Rattle.line_break.specs.Best.{end_of};
ghost use Rattle.line_break.specs.Ways.{dies};
ghost use Rattle.break_sweep.specs.Costs.{IsAmount};
ghost use Rattle.break_sweep.specs.Made.{IsFound, IsNear, listed, way_of, ways_of};
ghost use Rattle.break_sweep.specs.Trials.{line_from};

use crate::lines::{LineCost, Lines};
use crate::made::Made;
use crate::order::next_group;
use crate::putting::put_line;
use line_break::Node;
use micro_num::NoMemory;

/// The bound that no total reaches.
pub(crate) const AWFUL_BAD: i64 = (1 << 30) - 1;

/// A place at which nodes are tried: its number, and whether it forces a break.
#[derive(Clone, Copy)]
pub(crate) struct Stop {
    pub place: u32,
    pub forced: bool,
}

/// What comes of a node: whether it dies, and the line that is recorded from it.
#[derive(Clone, Copy)]
pub(crate) struct Trial {
    pub dies: bool,
    pub line: Option<Made>,
}

/// The total of a way with so much added.
fn added(total: i64, more: i64) -> i64
    requires low { neg_ℤ (pos (2 ^ 60)) ≤ℤ total }
    requires high { total ≤ℤ pos (2 ^ 30) }
    requires amount { IsAmount more }
    ensures { result ≡ total +ℤ more }
{
    total + more
}

/// A node tried at a place. `quiet` says that all nodes before it died there and none of their
/// lines was recorded, and `last` that no node is after it.
#[tactic(auto, unfolding(crate::specs::Trials::further, crate::specs::Trials::line_from, line_break::specs::Ways::dies, line_break::specs::Ways::records))]
pub(crate) fn try_node<L: Lines>(
    lines: &L,
    stop: Stop,
    quiet: bool,
    last: bool,
    index: u32,
    made: Made,
) -> Trial
    requires within { stop.place ≤ end_of (L.pass lines.now) }
    requires forced { stop.forced ≡ (L.pass lines.now).forced stop.place }
    requires near { IsNear stop.place made.node made.total }
    ensures dies { result.dies ≡ dies (L.pass lines.now) stop.place made.node }
    ensures line { result.line ≡ line_from (L.pass lines.now) stop.place quiet last index made }
{
    let cost = lines.cost(made.node, stop.place);
    let dies = stop.forced | (cost.badness == 10001);
    let total = added(made.total, cost.demerits);
    let admitted = cost.badness as i32 <= lines.threshold();
    let recorded = admitted & (total < AWFUL_BAD);
    let rescued = last & lines.is_final() & quiet & dies;
    let node = Node {
        place: stop.place,
        group: next_group(lines.open_ended(), made.node.group),
        class: cost.class,
    };
    let line = if rescued {
        Some(Made {
            node,
            total: made.total,
            before: index,
        })
    } else if recorded {
        Some(Made {
            node,
            total,
            before: index,
        })
    } else {
        None
    };
    Trial { dies, line }
}

/// Keeps the index of a node that doesn't die.
fn keep_living(living: &mut Vec<u32>, dies: bool, index: u32) -> Result<(), NoMemory>
    ensures { OnOk result (living.new.items
        ≡ living.old.items ++ (if dies then [] else (index ∷ []))) }
{
    if !dies {
        living.push(index)?;
    }
    Ok(())
}

/// Puts the line of a trial, where there is one, among those recorded.
fn put_tried(ended: Option<u32>, best: &mut Vec<Made>, line: Option<Made>) -> Result<(), NoMemory>
    ensures put { OnOk result ((q : Pass) (ws : List Way) → q.open_ended ≡ ended
        → map (way_of ws) best.new.items
        ≡ fold (put q) (map (way_of ws) best.old.items) (map (way_of ws) (option_to_list line))) }
    ensures found { OnOk result ((to n : ℕ) → All (IsFound to n) (option_to_list line)
        → All (IsFound to n) best.old.items → All (IsFound to n) best.new.items) }
{
    if let Some(line) = line {
        put_line(ended, best, line)?;
    }
    Ok(())
}

/// Tries the active nodes at a place, each once and in order: `living` gets those that don't die
/// there, and `best` the lines that are recorded. No node is made yet, and none is moved.
pub(crate) fn try_nodes<L: Lines>(
    lines: &L,
    stop: Stop,
    nodes: &[Made],
    active: &[u32],
    living: &mut Vec<u32>,
    best: &mut Vec<Made>,
) -> Result<(), NoMemory>
    requires within { stop.place ≤ end_of (L.pass lines.now) }
    requires forced { stop.forced ≡ (L.pass lines.now).forced stop.place }
    requires named { All (λ i. i < length nodes.now) active.now }
    requires near { All (λ w. IsNear stop.place w.last w.total)
        (listed (ways_of nodes.now) active.now) }
    requires none_living { living.old.items ≡ [] }
    requires none_best { best.old.items ≡ [] }
    ensures living { OnOk result (listed (ways_of nodes.now) living.new.items
        ≡ filter (λ w. not (dies (L.pass lines.now) stop.place w.last))
        (listed (ways_of nodes.now) active.now)) }
    ensures named { OnOk result (All (λ i. i < length nodes.now) living.new.items) }
    ensures best { OnOk result (map (way_of (ways_of nodes.now)) best.new.items
        ≡ kept (L.pass lines.now)
        (tried (L.pass lines.now) stop.place true (listed (ways_of nodes.now) active.now))) }
    ensures found { OnOk result (All (IsFound stop.place (length nodes.now)) best.new.items) }
{
    let mut quiet = true;
    for (i, index) in active.iter().enumerate() {
        let last = i + 1 == active.len();
        let trial = try_node(lines, stop, quiet, last, *index, nodes[*index as usize]);
        keep_living(living, trial.dies, *index)?;
        put_tried(lines.open_ended(), best, trial.line)?;
        quiet = quiet & trial.dies & trial.line.is_none();
    }
    Ok(())
}

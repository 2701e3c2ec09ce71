//! The lines recorded at a place: the best of each group and class, in the order of nodes.
ghost use Rattle.std.specs.Prelude.{◌≡◌, ℕ, ◌<◌, List, map, int_le, OnOk};
ghost use Rattle.std.specs.List.{All};
ghost use Rattle.line_break.specs.declared.node.Way.{Way};
ghost use Rattle.line_break.specs.Pass.{Pass};
ghost use Rattle.line_break.specs.Sweep.{put};
ghost use Rattle.break_sweep.specs.Made.{IsFound, way_of};

use crate::made::Made;
use crate::order::order;
use micro_num::NoMemory;
use std::cmp::Ordering;

/// Whether a line's total is no higher than another's.
fn is_no_higher(line: Made, other: Made) -> bool
    ensures { result ≡ int_le line.total other.total }
{
    line.total <= other.total
}

/// Puts a line among those recorded. At its own group and class it takes the place of a line whose
/// total is the same or higher, so that the later of two nodes wins a tie.
pub(crate) fn put_line(ended: Option<u32>, best: &mut Vec<Made>, line: Made) -> Result<(), NoMemory>
    ensures put { OnOk result ((q : Pass) (ws : List Way) → q.open_ended ≡ ended
        → map (way_of ws) best.new.items
        ≡ put q (map (way_of ws) best.old.items) (way_of ws line)) }
    ensures found { OnOk result ((to n : ℕ) → IsFound to n line → All (IsFound to n) best.old.items
        → All (IsFound to n) best.new.items) }
{
    for i in 0..best.len() {
        let other = best[i];
        match order(ended, line.node, other.node) {
            Ordering::Less => {
                best.insert(i, line)?;
                return Ok(());
            }
            Ordering::Equal => {
                if is_no_higher(line, other) {
                    best[i] = line;
                }
                return Ok(());
            }
            Ordering::Greater => {}
        }
    }
    best.push(line)?;
    Ok(())
}

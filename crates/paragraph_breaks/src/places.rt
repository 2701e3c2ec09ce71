//! The places of a way, as the list has them.
ghost use Rattle.std.specs.Prelude.{◌≡◌, ◌-◌, ◌<◌, ◌≤◌, IfOk, All, length, map, slice_index};
ghost use Rattle.line_break.specs.Taken.{places_of};
ghost use Rattle.paragraph_breaks.specs.WayNodes.{node_at};

use items::Items;
use line_break::{Node, Way};
use micro_num::NoMemory;
use std::alloc::Global;

/// The node at the end of a line of a way, whose lines are counted from 0.
fn node_at(way: &Way, line: usize) -> Node
    requires { line < length way.now.earlier }
    ensures { result ≡ node_at way.now line }
{
    let earlier = way.earlier.as_slice();
    if line + 1 == earlier.len() {
        way.last
    } else {
        earlier[earlier.len() - 2 - line]
    }
}

/// The items at which the lines of a way end.
pub(crate) fn break_places(alloc: Global, legal: &[u32], way: &Way) -> Result<Items<u32>, NoMemory>
    requires { All (λ place. (0 < place) × (place ≤ length legal.now)) (places_of way.now) }
    ensures { IfOk result (λ breaks. breaks
        ≡ map (λ place. slice_index legal.now (place - 1)) (places_of way.now)) }
{
    let mut breaks = Items::new(alloc);
    for line in 0..way.earlier.len() {
        let place = node_at(way, line).place;
        breaks.push(legal[place as usize - 1])?;
    }
    Ok(breaks)
}

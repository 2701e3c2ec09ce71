//! The order of nodes and the groups of lines, computed.
ghost use Rattle.std.specs.Prelude.{◌≡◌, ◌<◌, ◌^◌};
ghost use Rattle.line_break.specs.Pass.{order, order_of_places, group_of_line, next_group};

use line_break::Node;
use std::cmp::Ordering;

/// The group of the first line.
pub(crate) fn first_group(ended: Option<u32>) -> u32
    ensures { result ≡ group_of_line ended 1 }
{
    match ended {
        Some(last) => last.min(1),
        None => 1,
    }
}

/// The group after a group, where that from `ended` on is its own next one.
pub(crate) fn next_group(ended: Option<u32>, group: u32) -> u32
    requires { group < 2 ^ 31 }
    ensures { result ≡ next_group ended group }
{
    match ended {
        Some(last) => last.min(group + 1),
        None => group + 1,
    }
}

/// How two places of one group are ordered.
fn order_places(ended: Option<u32>, group: u32, x: u32, y: u32) -> Ordering
    ensures { result ≡ order_of_places ended group x y }
{
    let is_open_ended = ended == Some(group);
    if is_open_ended { x.cmp(&y) } else { y.cmp(&x) }
}

/// How two nodes are ordered in the list of active nodes.
pub(crate) fn order(ended: Option<u32>, x: Node, y: Node) -> Ordering
    ensures { result ≡ order ended x y }
{
    let groups = x.group.cmp(&y.group);
    let places = order_places(ended, x.group, x.place, y.place);
    let classes = x.class.cmp(&y.class);
    groups.then(places).then(classes)
}

//! The order of nodes and the preference among ways, computed.
ghost use Rattle.std.specs.Prelude.{◌≡◌, ◌<◌, ◌^◌};
ghost use Rattle.std.specs.Cmp.Lexicographic.{slice_cmp};
ghost use Rattle.std.specs.Ordering.{flip_args, is_lt};
ghost use Rattle.line_break.specs.Best.{preference};
ghost use Rattle.line_break.specs.Pass.{order, order_of_places, next_group};

use crate::node::{Node, Way};
use std::cmp::Ordering;

/// The group after a group, where that from `ended` on is its own next one.
pub(crate) fn next_group(ended: Option<u32>, group: u32) -> u32
    requires { group < 2 ^ 31 }
    ensures { result ≡ next_group ended group }
{
    match ended {
        Some(last) => last.min(group + 1),
        None => group + 1,
    }
}

/// How two places of one group are ordered.
fn order_places(ended: Option<u32>, group: u32, x: u32, y: u32) -> Ordering
    ensures { result ≡ order_of_places ended group x y }
{
    let is_open_ended = ended == Some(group);
    if is_open_ended { x.cmp(&y) } else { y.cmp(&x) }
}

/// How two nodes are ordered in a list of active nodes.
pub fn order(ended: Option<u32>, x: &Node, y: &Node) -> Ordering
    ensures { result ≡ order ended x.now y.now }
{
    let groups = x.group.cmp(&y.group);
    let places = order_places(ended, x.group, x.place, y.place);
    let classes = x.class.cmp(&y.class);
    groups.then(places).then(classes)
}

/// Whether a node is lower than another.
pub(crate) fn is_before(ended: Option<u32>, x: &Node, y: &Node) -> bool
    ensures { result ≡ is_lt (order ended x.now y.now) }
{
    matches!(order(ended, x, y), Ordering::Less)
}

/// How two lists of nodes are preferred, going back node by node: the later one comes first.
fn prefer_before(ended: Option<u32>, xs: &[Node], ys: &[Node]) -> Ordering
    ensures { result ≡ slice_cmp (flip_args (order ended)) xs.now ys.now }
{
    for (i, x) in xs.iter().enumerate() {
        if i >= ys.len() {
            return Ordering::Greater;
        }
        let here = order(ended, &ys[i], x);
        if here != Ordering::Equal {
            return here;
        }
    }
    if xs.len() < ys.len() {
        Ordering::Less
    } else {
        Ordering::Equal
    }
}

/// How two ways to a place are preferred: the better one comes first.
pub fn prefer(ended: Option<u32>, v: &Way, w: &Way) -> Ordering
    ensures { result ≡ preference ended v.now w.now }
{
    let totals = v.total.cmp(&w.total);
    let groups = v.last.group.cmp(&w.last.group);
    let classes = v.last.class.cmp(&w.last.class);
    let before = prefer_before(ended, v.earlier.as_slice(), w.earlier.as_slice());
    totals.then(groups).then(classes).then(before)
}

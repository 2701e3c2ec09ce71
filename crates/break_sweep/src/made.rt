//! The nodes that a sweep makes.

use line_break::Node;

/// A node that was made: the demerits of its way together, and the index of the node before it. The
/// start names itself.
#[derive(Clone, Copy, Debug, PartialEq, Eq)]
pub struct Made {
    pub total: i64,
    pub node: Node,
    pub before: u32,
}

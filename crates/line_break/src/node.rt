//! A break as a node, and a way from the start to a break.

use items::Items;

/// A break: its place among the legal places, which count from 1 (the start is place 0); the group
/// of the line that begins there; and the class of the line that ends there, from 0 (very loose) to
/// 3 (tight).
#[derive(Clone, Copy, Debug, PartialEq, Eq)]
pub struct Node {
    pub place: u32,
    pub group: u32,
    pub class: u8,
}

/// A way from the start to a break: its last node, those before it with the latest first, the start
/// included, and the demerits of its lines together.
#[derive(Drop)]
pub struct Way {
    pub last: Node,
    pub earlier: Items<Node>,
    pub total: i64,
}

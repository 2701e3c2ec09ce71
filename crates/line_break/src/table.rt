//! A pass given by lists: its places and its lines written out.

use items::Items;

/// A line from a place to a later one, as a line of a group, with its badness and class. The
/// demerits are those of the line but for the term that sees the class of the line before it.
#[derive(Clone, Copy, Debug, PartialEq, Eq)]
pub struct Line {
    pub from: u32,
    pub group: u32,
    pub to: u32,
    pub badness: u16,
    pub class: u8,
    pub demerits: i64,
}

/// A pass written out. `legal` names the legal places, and the last is the end; `forced` are the
/// numbers of those that force a break, counted from 1. A line that isn't listed is overfull.
/// `adjdemerits` is added where the classes of two lines in a row differ by more than 1. Lines from
/// number `open_ended` on belong to one group, where there is such a number.
#[derive(Drop)]
pub struct Table {
    pub legal: Items<u32>,
    pub forced: Items<u32>,
    pub lines: Items<Line>,
    pub adjdemerits: i32,
    pub threshold: i32,
    pub last: bool,
    pub open_ended: Option<u32>,
}

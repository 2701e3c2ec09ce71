//! What breaking gives.

use break_rule::BreakRule;
use hlist::HList;
use items::Items;

/// How a paragraph is broken: the list that was broken, which is the given one in the first pass
/// and the hyphenated one in the others; the number of the pass; the items at which lines end,
/// ascending, the last of them the end; and the demerits of all lines together.
#[derive(Drop)]
pub struct Broken {
    pub list: HList,
    pub pass: u8,
    pub breaks: Items<u32>,
    pub total: i64,
}

/// The same without the list.
#[derive(Drop)]
pub struct Breaks {
    pub pass: u8,
    pub places: Items<u32>,
    pub total: i64,
}

/// The same with the rule of the list that was broken, as the pass that is taken has it: the
/// emergency stretch counts in the third.
#[derive(Drop)]
pub struct BrokenRule<'a> {
    pub rule: BreakRule<'a>,
    pub breaks: Breaks,
}

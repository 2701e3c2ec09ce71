//! The breaks of a paragraph with least demerits: every way to break it, and which one is taken.
//!
//! TeX finds the breaks with a list of active nodes, carried from one legal place to the next (TeX:
//! The Program, parts 38 and 39). Here the rule is stated without such a list: a *way* is a list of
//! places with a total, a pass has all its ways, and the best of those that reach the end is taken.
//! Groups of lines (as a paragraph shape makes them), their order and looseness are in it.
//!
//! The laws are the main contract: a pure sweep over active nodes holds before each place the open
//! ways' nodes, each with its first way, and ends with the best way; and where nothing is rescued
//! no way at all, left out or not, has a lower total. [`Table`] is a pass written out, whose ways a
//! slow program lists. What a line's badness and demerits are is left to the crate that measures
//! lines.
#![tactic(auto)]

mod all_ways;
mod laws;
mod listing;
mod node;
mod ordering;
mod table;
#[cfg(test)]
mod tests;
mod worked;

pub use laws::{
    a_final_pass_reaches_the_end, active_nodes_are_the_open_ways,
    looseness_is_read_off_the_last_nodes, no_way_has_a_lower_total,
    no_way_with_as_many_lines_has_a_lower_total, nodes_and_ways_are_totally_ordered,
    the_first_node_of_least_total_is_best, ways_are_made_of_lines,
    where_nothing_is_rescued_no_way_at_all_is_better,
};
pub use node::{Node, Way};
pub use table::{Line, Table};
pub use worked::{
    a_class_that_does_not_stand_is_not_rescued, a_hanging_paragraph_has_two_groups,
    a_rescued_line_adds_nothing, looseness_asks_for_more_lines,
    passes_written_out_meet_the_premises, the_bound_leaves_a_line_out,
    the_last_open_node_is_rescued, the_later_break_wins_a_tie, ties_compare_node_by_node,
};

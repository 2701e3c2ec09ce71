//! The sweep over active nodes (TeX: The Program, parts 38 and 39): the breaks of one pass with
//! least demerits.
//!
//! A pass is lent by the trait [`Lines`], which tells badness, class and demerits of a line. At
//! each legal place each active node is tried once; of the lines recorded there the best of each
//! group and class is kept; nodes are made of those that stand, and go where the order of nodes
//! has them.
//! [`ActiveNodes`] is, as contracts see it, the list of the ways that the active nodes stand for:
//! after the last place it is exactly that of line_break's pure sweep, so that [`best`] gives the
//! best of all ways. What lines cost, and which pass is taken, is left to the crates above.
#![tactic(auto)]

mod answer;
mod lines;
mod made;
mod making;
mod order;
mod putting;
mod sweep;
mod trying;

pub use answer::{ActiveNodes, best};
pub use lines::{LineCost, Lines};

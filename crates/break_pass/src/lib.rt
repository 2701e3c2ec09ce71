//! One pass of the line breaker over a real list (TeX: The Program, parts 38 and 39): what a line
//! costs, by its fit, by the penalty of its break, and by the classes and hyphens at its two ends;
//! and the best way of the pass, by the sweep over active nodes.
//!
//! A pass lends the fits of break_rule and the demerits of lines to the sweep of break_sweep.
//! [`best_of_pass`] gives the best of all ways that line_break's definition of that pass has, and
//! [`nodes_of_pass`] the best to the end of each group and class. Which pass is taken is left to
//! the crate above.
#![tactic(auto)]

mod demerits;
mod laws;
mod pass;
mod place;

pub use demerits::line_demerits;
pub use laws::{
    demerits_see_little_of_the_line_before, every_pass_is_ended, the_last_pass_reaches_the_end,
};
pub use pass::{best_of_pass, nodes_of_pass};
pub use place::{BreakKind, LegalPlace};

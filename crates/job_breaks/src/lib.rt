//! How the paragraphs of a job are broken, told in a line each: what the command `breaks` prints.
//!
//! [`break_pars`] breaks every paragraph as setting would, before any line is set, and gives the
//! line of each, or the first paragraph that has no list. Printing them is left to others.
#![tactic(auto)]

mod laws;
mod lines;
#[cfg(test)]
mod tests;

pub use laws::{every_paragraph_is_broken, lines_are_those_of_the_job};
pub use lines::break_pars;

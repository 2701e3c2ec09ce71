//! A paragraph as a page: its items, where they are broken into lines, the lines set one by one,
//! and these one below the other (TeX: The Program, parts 38, 39 and 49).
//!
//! [`set_par`] takes all of these steps for one paragraph, over any source of widths, and gives its
//! page or its first fault. specs/ says what that makes of all paragraphs of a job: their pages in
//! order, or the first paragraph that has a fault. Who sets which paragraph is left to others.
#![tactic(auto)]

mod fault;
mod laws;
mod lines;
mod page;
mod paragraph;

pub use fault::{ParAt, SetFault};
pub use laws::paragraphs_of_a_job_can_be_set;
pub use paragraph::set_par;

//! Races of threads that set the same paragraphs over one table of instances, with owners that are
//! held at their cells, and their tests.
//!
//! Each worker sets all paragraphs of a job by a source of its own over the table, and its pages
//! are compared with those over a source that computes each width.
#![tactic(auto)]

mod pages;
#[cfg(test)]
mod races;
mod worker;

pub use pages::{plain_pages, same_page};
pub use worker::right_pages_of_worker;

//! Races of threads for widths over one table, with owners that are held at their cells, and their
//! tests.
//!
//! Each worker asks a source of its own over the table, and its answers are compared with those of
//! a source that computes them. A gate counts which cells were claimed and published.
#![tactic(auto)]

mod asking;
#[cfg(test)]
mod held;
mod holding;
#[cfg(test)]
mod races;

pub use asking::{Measured, ask_twice, numbered_cell, plain_widths};
pub use holding::HoldingGate;

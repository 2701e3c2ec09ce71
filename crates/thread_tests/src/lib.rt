//! Jobs that workers set in threads of their own, with pages, files and owners that were worked out
//! by hand, and gates that hold workers until others have got on.
//!
//! The crate has tests alone, but for what they share: documents that are set, and gates.
#![tactic(auto)]

mod document;
mod gates;
#[cfg(test)]
mod held;
#[cfg(test)]
mod rows;
#[cfg(test)]
mod wrong;

pub use document::{SetDocument, set_document};
pub use gates::{BuildGate, DrawGate};

//! Widths of font instances over the table that workers share.
//!
//! A [`TableWidths`] is a source of widths ([`instance_core::WidthSource`]) for one worker. It owns
//! the worker's seat and borrows the table: a width is read from the table where its instance is
//! built, and the first worker to ask for an instance builds it. Where another worker is at it, the
//! width is computed from the base font, so no worker waits for another (Herlihy, Wait-Free
//! Synchronization). Its main contract is that of `width`: the answer is the instance's width
//! whatever the other workers do, and each answer rests on a step of its own on the table.
//! Breaking, packing and the threads are left to the crates above.
#![tactic(auto)]

mod numbered;
mod source;
mod worker;

pub use source::{Fixed, TableWidths};

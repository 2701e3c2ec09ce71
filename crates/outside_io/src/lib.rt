//! The outside as traits: what files are read from, what bytes are written to, and where a worker
//! may be held up.
//!
//! A [`Shelf`] gives files, a [`Sink`] takes bytes, and a [`Gate`] is passed at points of the work.
//! Each counts what went wrong with it, and a refusal comes only where its count rose, so no caller
//! can make a fault of the outside up. One that knows its bytes tells them, and then each answer is
//! tied to them.
//!
//! [`MemShelf`] and [`MemSink`] stand in memory, tell their bytes, and fail exactly at the calls
//! that they are told to. [`FileShelf`] and [`StdSink`] reach the system and tell nothing: what a
//! file or a terminal really gives and takes is trusted.
#![tactic(auto)]

mod counts;
mod faults;
mod files;
mod gates;
mod memory_shelf;
mod memory_sink;
mod shelves;
mod sinks;
mod stdio;
mod tally;

pub use counts::Count;
pub use faults::{Failed, ShelfFault};
pub use files::FileShelf;
pub use gates::{Gate, NoGate, Point};
pub use memory_shelf::MemShelf;
pub use memory_sink::MemSink;
pub use shelves::Shelf;
pub use sinks::Sink;
pub use stdio::StdSink;
pub use tally::ShelfCounts;

#[cfg(test)]
mod tests;

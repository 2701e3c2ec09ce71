//! What the programs share that time the steps of a job: the job and its fonts, read from the
//! current folder, the clock, and how a run ends that can't go on.
#![tactic(auto)]

mod clock;
mod folder;
mod refusals;

pub use clock::since;
pub use folder::{file_bytes, stock_of};
pub use refusals::{lost, no_memory};

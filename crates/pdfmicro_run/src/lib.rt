//! The top call of the program.
//!
//! [`run_micro`] finds the document of the words of a command (`micro_document`) and then writes
//! what it gives, or ends with what it refuses and says the message of that; its contract says no
//! more than this of any command.
#![tactic(auto)]

mod ending;
mod lines;
pub mod pieces;
mod run;
mod telling;

pub use ending::RunEnd;
pub use micro_document::one_outcome;
pub use micro_texts::Answer;
pub use run::run_micro;

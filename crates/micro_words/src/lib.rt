//! The words of the command line, and the document that the command `gen` makes.
//!
//! [`read_words`] reads the words as one simple command of `clap`: it gives the command that
//! clap's definition and the three commands make of them, or says that they are none. [`gen_job`]
//! and [`gen_font`] give the job and the font of a test document of any length, which depends on
//! one number alone. What is done with a command is the business of the crate that runs it.
#![tactic(auto)]

mod command;
mod document;
mod draws;
mod fault;
mod font;
mod line;
mod numeral;
mod paragraph;
mod reading;
mod said;
#[cfg(test)]
mod tests;
mod worked;

pub use command::{Cmd, CommandKind};
pub use document::gen_job;
pub use fault::WordsFault;
pub use font::gen_font;
pub use reading::read_words;
pub use worked::{document_1_begins_so, words_are_no_command, words_are_these_commands};

//! What a run answers, and every text that the program prints: the message of each answer, the
//! report of a document, and the line of a broken paragraph.
//!
//! [`message`] gives the line of an answer, and [`fixed_line`] the lines that take no memory;
//! [`report_text`] and [`breaks_line`] print what a command asks for. A text ends with a line feed
//! and is meant for one write; writing it is the business of the crate that runs a command.
#![tactic(auto)]

mod answer;
mod broken;
mod fixed;
mod messages;
mod reports;
#[cfg(test)]
mod tests;

pub use answer::Answer;
pub use broken::breaks_line;
pub use fixed::fixed_line;
pub use hlist_build::ParFault;
pub use job_fonts::FontFaultKind;
pub use job_reading::JobFaultKind;
pub use messages::message;
pub use para_workers::ParAt;
pub use reports::{Report, report_of, report_text};

//! The job: what the tokens of a file say, or the first fault among them.
//!
//! The language is a small part of TeX's (TeX: The Program, parts 26 and 30 to 48) and pdfTeX's:
//! declarations of fonts, codes, patterns and exceptions before the first paragraph, assignments of
//! parameters between paragraphs, and in paragraphs text, kerns, glues, penalties, discretionaries,
//! font words and groups. A rule of the grammar is a function on lists of tokens that gives a value
//! and the tokens behind it, or a fault with its place; the rules stand in `specs/`, and those for
//! numbers and what else the rules share in the crate below.
//!
//! The contract of [`read_job`] says that its answer is the job that the rules read from the bytes,
//! or the first fault that they meet, and that every job keeps to the limits of `JobFits`. What the
//! parts look like when they are set is the business of the crates behind.
#![tactic(auto)]

mod braces;
mod discretionary;
mod font;
mod font_decl;
mod font_words;
mod fonts;
mod groups;
mod job;
mod names;
mod paragraph;
mod parameters;
mod part;
mod patterns;
mod plain;
mod reader;
mod setting;
mod shape;
mod spelling;
mod state;
mod tables;
#[cfg(test)]
mod tests;

pub use font_decl::FontDecl;
pub use job::Job;
pub use job_reading::{JobFault, JobFaultKind};
pub use reader::{job_or_fault, one_reading, read_job};

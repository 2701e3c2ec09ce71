//! What the rules of the job language read: the tokens of a file, one after another, and at their
//! front numbers, dimensions, glues and keywords.
//!
//! The rules are TeX's (TeX: The Program, part 26, sections 402 to 463), stated in `specs/` as
//! functions on lists of tokens that give a value and the tokens behind it, or a fault with its
//! place. Each call's contract says that what it reads is what its rule reads. [`Rest`] is where a
//! call stands in the file, [`Source`] the file itself.
//!
//! What the words of a job do is the business of the crate above.
#![tactic(auto)]

mod dimensions;
mod fault;
mod glues;
mod keyword;
mod numbers;
mod rest;
mod source;
mod token;
mod word;

pub use dimensions::dimension;
pub use fault::{Fault, JobFault, JobFaultKind};
pub use glues::glue;
pub use job_lex::PlainText;
pub use numbers::{natural, number};
pub use rest::Rest;
pub use source::Source;
pub use token::{Lexeme, Token};
pub use word::{Declaration, DimensionParameter, GlueParameter, IntegerParameter, Word};

//! The tokens of a job: the bytes of its file cut into words, symbols, braces, characters and gaps.
//!
//! A byte has a category, as a character has a category code in TeX (TeX: The Program, sections 207
//! and 343 to 356); here the categories are fixed. Blanks and comments form gaps. A gap with an
//! empty line in it ends a paragraph. The contract of [`tokens`] says that its answer is the one
//! list of adjoining tokens that covers the bytes, or the first byte at which no token can begin.
//!
//! What the words mean is the business of the crate that reads the grammar.
#![tactic(auto)]

mod category;
mod cursor;
mod fault;
mod gap;
mod laws;
mod lexer;
mod plain;
mod plain_text;
#[cfg(test)]
mod tests;
mod token;

pub use cursor::Cursor;
pub use fault::{LexFault, LexFaultKind};
pub use laws::{gaps_stand_apart, texts_are_the_source, tokens_are_one};
pub use lexer::{first_fault, tokens};
pub use plain_text::PlainText;
pub use token::{Tok, TokKind};

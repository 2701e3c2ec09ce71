//! Where a word may be hyphenated, by Liang's patterns and a list of exceptions.
//!
//! The rule is F. M. Liang's (Word Hy-phen-a-tion by Com-put-er, 1983; TeX: The Program, parts 42
//! and 43): at each place of a word the greatest value of all patterns that occur there counts, and
//! an odd one allows a hyphen. Here the patterns are merged into tables keyed by letters, so that a
//! look-up for each part of the word takes the place of a search through the patterns. The main
//! contract is that [`Patterns::places`] of what [`Patterns::make`] gave are exactly the places
//! that the definition gives for the lists that were handed to `make`. What a letter is, and which
//! words of a paragraph are hyphenated, is left to the caller.
#![tactic(auto)]

mod merge;
mod rows;
mod source;
mod table;
mod values;

pub use source::{Exception, Pattern};
pub use table::Patterns;

#[cfg(test)]
mod tests;

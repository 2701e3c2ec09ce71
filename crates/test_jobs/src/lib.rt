//! Jobs of tests, jobs with the fonts that they are set in, and what setting asks of a paragraph.
#![tactic(auto)]

mod document;
mod samples;
mod settable;

pub use document::{Document, read_document};
pub use samples::{
    EXPANDED, FOUR_LINES, FOUR_WORDS, HYPHENATED, NARROW_AND_WIDE, SHARING, THREE_LETTERS,
    TWO_FAULTS, long_job,
};
pub use settable::{are_within, is_past, name_fonts};

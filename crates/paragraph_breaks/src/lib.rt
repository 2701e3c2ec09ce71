//! How a paragraph is broken into lines (TeX: The Program, parts 38 and 39): by the first pass that
//! is taken of three, over its list as it stands, over its hyphenated list, and over that with an
//! emergency stretch.
//!
//! [`breaks`] gives the list that was broken, the pass, the places and the total, exactly as
//! line_break's definition of the pass that is taken has them over these passes. A looseness other
//! than 0 asks for more or for fewer lines. [`broken_unhyphenated`] and
//! [`broken_hyphenated`] are its two steps for who makes lines of the list: they give its rule.
#![tactic(auto)]

mod breaking;
mod broken;
mod loose;
mod pass;
mod places;

pub use breaking::{breaks, broken_hyphenated, broken_unhyphenated};
pub use broken::{Breaks, Broken, BrokenRule};

//! Lines packed over a small font, whose places were worked out by hand from TeX: The Program and
//! the pdfTeX manual.
//!
//! The crate has tests alone.
#![tactic(auto)]

#[cfg(test)]
mod fixture;
#[cfg(test)]
mod lines;

//! Whole paragraphs of jobs, broken by all their passes and set as pages, with the breaks, totals
//! and places that were worked out by hand from TeX: The Program and the pdfTeX manual.
//!
//! The crate has tests alone.
#![tactic(auto)]

#[cfg(test)]
mod fixture;
#[cfg(test)]
mod looseness;
#[cfg(test)]
mod pages;
#[cfg(test)]
mod passes;
#[cfg(test)]
mod random;

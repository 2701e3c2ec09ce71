//! Legal places, fits, lines and passes of paragraphs over a small font, worked out by hand from
//! TeX: The Program and the pdfTeX manual.
//!
//! The crate has tests alone.
#![tactic(auto)]

#[cfg(test)]
mod fits;
#[cfg(test)]
mod fixture;
#[cfg(test)]
mod passes;

//! Runs as the lists of discretionaries: what a font's ligature and kern programs make of codes, as
//! entries of such a list (TeX: The Program, sections 1032 to 1040, and 1117).
//!
//! [`run_subs`] gives exactly these entries, or the run's fault. A font kern has the glyph that
//! stands directly before it in its run as its `left`. [`subs_of`] gives the entries of a run's
//! glyphs alone; with what it takes of each, the items of a list are made too.
#![tactic(auto)]

mod laws;
mod running;
mod subs;

pub use laws::runs_give_lawful_lists;
pub use running::run_subs;
pub use subs::{covered, left_of, subs_of};

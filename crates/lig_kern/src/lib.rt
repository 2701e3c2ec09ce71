//! Runs a font's ligature and kern programs over a list of codes.
//!
//! The rules are those of TeX: The Program, part 46 (sections 1029 to 1040), and of the TFM
//! description, "lig_kern": a run is a list of symbols and a cursor, and the program of the symbol
//! at the cursor may put a kern before the next symbol, or a ligature in place of one of the two,
//! of both or of none.
//!
//! [`run`] gives exactly the glyphs that the rules lead to. It refuses a missing character first,
//! and programs that don't come to an end within a bound. A [`Workspace`] makes run after run in
//! lists that are kept. [`is_plain`] tells a run on which no word acts, whose glyphs are its
//! characters.
#![tactic(auto)]

mod fault;
mod glyph;
mod glyphs;
mod laws;
mod operation;
mod plain;
mod programs;
mod rewriting;
mod running;
mod stack;
mod symbols;
mod workspace;

pub use fault::LigFault;
pub use glyph::Glyph;
pub use laws::{ligatures_cover_what_they_replace, one_run, runs_are_lawful};
pub use plain::{acts_at, is_plain};
pub use workspace::{Workspace, run};

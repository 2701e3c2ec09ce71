//! The numbers of the fonts in a DVI file.
//!
//! Each instance that the glyphs of the pages use, a font as it is included, is a font of the file.
//! Its number is the place where it comes first in reading order: [`Numbering`] is the list of
//! first uses, and looks a number up. So the numbers depend on the pages alone. The file itself is
//! another crate's.
#![tactic(auto)]

mod first_uses;
mod numbering;

pub use numbering::Numbering;

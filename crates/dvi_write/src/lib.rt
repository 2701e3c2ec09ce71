//! Pages: set lines on baselines, and the bytes of a DVI file, format 2 (The DVI format: TeX: The
//! Program, part 31).
//!
//! [`stack`] puts the lines of a paragraph one below the other. [`dvi_bytes`] writes pages. A file
//! is the spelling of a list of commands: which fonts are defined at a glyph, and which is
//! selected, is what the cells of the glyphs before say. The same functions first count the bytes
//! and then keep them, so that a file that is too long takes no memory.
#![tactic(auto)]

mod commands;
mod fault;
mod file;
mod fonts;
mod gathering;
mod glyphs;
pub mod opcodes;
mod output;
mod page;
mod row;
mod stack_fault;
mod stacking;
mod worked;

pub use fault::DviFault;
pub use file::dvi_bytes;
pub use row::FontRow;
pub use stack_fault::StackFault;
pub use stacking::stack;

//! The fonts of a job: a declaration and the bytes of its file give a font, or the first fault
//! (TFM description; pdfTeX manual, `\pdffontexpand`).
//!
//! [`read_font`] gives exactly the font of a declaration at its size, with its codes and its limits
//! of expansion, or else the first fault: of the file, then of the size, of a character's width and
//! of a kern. [`file_name`] says which file to read. Reading it is left to others.
#![tactic(auto)]

mod fault;
mod laws;
mod name;
mod read;
#[cfg(test)]
mod tests;

pub use fault::{FontFault, FontFaultKind};
pub use laws::{font_or_fault, one_fault, one_font};
pub use name::file_name;
pub use read::read_font;

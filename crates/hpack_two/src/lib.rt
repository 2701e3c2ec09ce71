//! Packing a line: each of its glyphs gets its place.
//!
//! A line comes as pieces, from breaking: glyphs, glue, moves, and kerns that expand with the glyph
//! before them. Its fonts are expanded by as many thousandths of their limits as the line lacks or
//! has too much (pdfTeX manual, `\pdfadjustspacing`; Thành, Micro-typographic extensions to the TeX
//! typesetting system), its glue makes up for the rest (TeX: The Program, sections 649 to 667). The
//! shift of all the glue before a glyph is rounded once, as pdfTeX's output does, and not that of
//! each glue (TeX: The Program, section 625). [`pack`] gives the set line for every source of
//! widths, and asks it for the glyphs that are expanded alone; [`bases_of`] gives the fonts of a
//! stock as such a source takes them. How lines become a page is left to others.
#![tactic(auto)]

mod bases;
mod fault;
mod glue;
mod glyphs;
mod packing;
mod places;
mod quotients;
mod ratio;
mod steps;
mod sums;

pub use bases::bases_of;
pub use fault::PackFault;
pub use packing::pack;

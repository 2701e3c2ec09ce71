//! Where a line of a horizontal list may end, what it measures, and how well it fits (TeX: The
//! Program, parts 38 and 39; pdfTeX manual, `\\pdfprotrudechars` and `\\pdfadjustspacing`).
#![tactic(auto)]

mod adding;
mod ends;
mod expansion;
mod fit;
mod laws;
mod line;
mod margin;
mod opening;
mod pieces;
mod places;
mod rule;
mod scan;
mod step_laws;
mod sums;

pub use adding::{glyph_sums, kern_sums};
pub use laws::lines_of_a_group_fit_alike;
pub use line::{From, LineFit, LineIn, Measure, Piece};
pub use rule::BreakRule;
pub use step_laws::fonts_that_give_have_steps;
pub use sums::{Sums, where_order};

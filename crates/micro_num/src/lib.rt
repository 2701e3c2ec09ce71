//! The numbers of the workspace, and the types that a paragraph is made of before it is set.
//!
//! Lengths are whole scaled points, and every rule here is one of whole numbers: how bad a
//! stretched line is, how a decimal with a unit becomes a length, how a font's fix_word becomes a
//! width, how wide each line of a paragraph is. The rules are those of TeX: The Program (sections
//! 101 to 108, 458, 572 and 847 to 850). Each call gives exactly the number that its definition in
//! `specs/` gives, over its whole range.
#![tactic(auto)]

mod decimals;
mod disc;
mod expansion;
mod glue;
mod glue_badness;
mod lengths;
mod line_class;
mod memory;
mod paragraph;
mod params;
mod part;
mod rounding;
mod scaling;
mod shape;
mod tables;
#[cfg(test)]
mod tests;
mod unit;

pub use decimals::round_decimals;
pub use disc::{Disc, ThreeLists};
pub use expansion::{expanded_fix, expanded_width};
pub use glue::Glue;
pub use glue_badness::badness;
pub use lengths::unit_to_sp;
pub use line_class::{DECENT, LOOSE, TIGHT, VERY_LOOSE, shrunk_class, stretched_class};
pub use memory::NoMemory;
pub use paragraph::{Par, PartAt};
pub use params::Params;
pub use part::Part;
pub use rounding::{round_over, thousandths, xn_over_d};
pub use scaling::scale;
pub use shape::{ShapeLine, last_special_line, line_group, open_ended_group, shape_line};
pub use tables::Tables;
pub use unit::Unit;

/// A length in scaled points: 65536 of them are one printer's point, 72.27 of which are an inch
/// (TeX: The Program, section 101).
pub type Sp = i32;

//! Instances of fonts, and what a page is made of.
//!
//! An instance is a font at a step of expansion (Thành, Micro-typographic extensions to the TeX
//! typesetting system). A [`Cell`] names one: [`Bases`] are the fonts that instances are made of,
//! and number their cells. A [`WidthSource`] answers the widths of instances and keeps which of
//! them were asked; [`PlainWidths`] computes each answer. A width is the font's fix_word, expanded
//! by the step and scaled to the size (TeX: The Program, section 572). Here are also the types of a
//! set page, from the glyph to the page, which the crates that set, number and write pages share.
#![tactic(auto)]

mod bases;
mod cell;
mod font;
mod numbers;
mod page;
mod plain;
mod source;
mod touching;
mod widths;

pub use bases::Bases;
pub use cell::Cell;
pub use font::BaseFont;
pub use numbers::{cell_number, cell_of};
pub use page::{Owner, Packed, Page, PageLine, Placed};
pub use plain::PlainWidths;
pub use source::WidthSource;
pub use widths::scaled_width;

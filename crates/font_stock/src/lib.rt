//! Fonts at a size: what TeX and pdfTeX ask of a font when they build and break paragraphs.
//!
//! A [`Font`] is made of the metrics of a TFM file, a size and the settings of a job. It scales the
//! sizes of its 256 characters once, so that each call is a look-up or a few operations, and it
//! keeps that every width and kern, at every step of expansion, is one that can be scaled. Widths
//! are those of TeX: The Program (sections 539 to 576); hanging characters and expansion are those
//! of the pdfTeX manual and of Thành, Micro-typographic extensions to the TeX typesetting system.
//! [`Font::at`] gives the font exactly where its size, its widths and its kerns are in range, and
//! else says the first cause.
#![tactic(auto)]

mod codes;
mod expand;
mod font;
mod refused;
mod scaled;
mod size;
mod steps;
mod stock;
mod table;
#[cfg(test)]
mod tests;
mod widths;

pub use codes::FontCodes;
pub use expand::Expand;
pub use font::Font;
pub use refused::FontRefused;
pub use size::Size;
pub use stock::Stock;

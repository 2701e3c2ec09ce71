//! The DVI file of a job's pages (The DVI format: TeX: The Program, part 31).
//!
//! [`job_bytes`] writes pages that were set with the fonts of a stock: what the file says of a font
//! is read off the font's declaration and its metrics, and its fonts are numbered by first use. It
//! hands out the numbering beside the bytes, for reports. Setting the pages, and what becomes of
//! the bytes, is left to others.
#![tactic(auto)]

mod bytes;
mod laws;
mod rows;
mod written;

pub use bytes::job_bytes;
pub use laws::what_pages_touch_they_use;
pub use written::Written;

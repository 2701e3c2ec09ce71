//! Horizontal lists: what the lines of a paragraph are made of (TeX: The Program, part 10).
//!
//! [`Item`] is an item of a list, [`Sub`] what a list of a discretionary holds, and [`KernLeft`]
//! the glyph with which a font kern expands. A list is small where few items are in it, in bounds
//! where it may be hyphenated besides, and of a stock where its fonts, codes and kerns are there.
#![tactic(auto)]

mod item;
mod laws;

pub use item::{HList, Item, KernLeft, Sub};
pub use laws::small_lists_are_in_bounds;

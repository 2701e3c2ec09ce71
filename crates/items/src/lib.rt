//! The two list types that every contract of the workspace speaks of.
//!
//! [`Items`] is a `Vec` and [`Text`] a `String`, seen by contracts as the list of the elements and
//! as the list of the bytes, with no word of capacity or of where they lie. Both have a way in and
//! a way back that take no memory, so code works on the std type and stores this one.
#![tactic(auto)]

mod lists;
#[cfg(test)]
mod tests;
mod texts;

pub use lists::Items;
pub use texts::Text;

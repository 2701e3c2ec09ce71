//! Hyphenated lists: the words of a paragraph's list with discretionaries at their hyphen places
//! (TeX: The Program, parts 40 and 41).
//!
//! [`hyphenated`] gives exactly the list of the definition. A place inside a ligature makes the
//! ligature a discretionary that has it as what stands there without a break; a place between two
//! items puts a discretionary there, which takes the font kern between them. So where the new
//! discretionaries are taken out, the list before is back.
#![tactic(auto)]

mod copying;
mod hyphenating;
mod joining;
mod laws;
mod letters;
mod pieces;
mod places;
mod setting;
mod splitting;
mod unchanged;
mod word;

pub use copying::copied;
pub use hyphenating::hyphenated;
pub use laws::{
    fixed_items_stay, listed_fonts_are_below, only_discretionaries_are_new,
    places_are_those_of_the_patterns,
};
pub use unchanged::is_changed;

//! Horizontal lists: the parts of a paragraph's text become the items that lines are made of.
#![tactic(auto)]

mod building;
mod counting;
mod current;
mod ending;
mod fault;
mod glyphs;
mod mixing;
mod paragraph;
mod runs;
mod single;
mod space;

pub use fault::ParFault;
pub use paragraph::build;

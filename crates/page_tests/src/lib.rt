//! Pages, from the numbers of cells and the places of lines to the bytes of a file, over values
//! that the crates below are given one after another.
//!
//! The crate has tests alone. What they expect was worked out by hand, from TeX: The Program and
//! from the description of the DVI format.
#![tactic(auto)]

#[cfg(test)]
mod cells;
#[cfg(test)]
mod files;
#[cfg(test)]
mod fonts;
#[cfg(test)]
mod numbers;
#[cfg(test)]
mod stacks;

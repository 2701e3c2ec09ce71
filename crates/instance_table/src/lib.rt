//! The table of font instances that workers share, as words that change in single atomic steps.
//! Its main contract is the law of all interleavings: the rule holds after any steps.
//!
//! Each cell of the fonts (a font at a step of expansion) has a state and its 256 widths. A worker
//! steps on the table with a seat: it looks at a cell, claims an empty one by an exchange, stores
//! its widths, publishes them and reads them; it draws numbers from one count; seats are split off
//! seat 0 and joined to it. A rule holds between any two steps, whatever the seats do in any order:
//! a cell is built by the one seat that claimed it, and a built cell has all its widths, right
//! (Herlihy and Wing, Linearizability, on objects that change in single steps).
#![tactic(auto)]

mod answers;
mod closing;
mod joining;
mod laws;
mod rule;
mod seat;
mod table;
mod view;
mod words;

pub use answers::{Claim, Seen};
pub use closing::{CloseRefused, Closed};
pub use laws::the_rule_holds_between_any_two_steps;
pub use seat::Seat;
pub use table::InstanceTable;
pub use view::{Building, Claimed, Drawn, LastStep, View};

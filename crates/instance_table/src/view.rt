//! What a seat knows: which cells it claimed, found and built, and what it drew.
//!
//! Contracts alone speak of views: no value of `View` is made, and it takes no room in a run.
use instance_core::Bases;
use std::collections::LinkedList;

/// That the seat of a number claimed a cell.
#[derive(Clone, Copy)]
pub struct Claimed {
    pub cell: u32,
    pub number: u32,
}

/// That the seat of a number drew a draw.
#[derive(Clone, Copy)]
pub struct Drawn {
    pub draw: u64,
    pub number: u32,
}

/// A cell that is being built, and how many of its widths are stored, from code 0 on.
#[derive(Clone, Copy)]
pub struct Building {
    pub cell: u32,
    pub stored: u32,
}

/// The last step that answered a seat, with the cell, the code and the word found.
pub enum LastStep {
    NoStep,
    Looked(u32, u64),
    Tried(u32, u64),
    Read(u32, u8, u64),
}

/// What a seat knows.
pub struct View {
    pub number: u32,
    pub bases: Bases,
    pub draws: u32,
    /// The cells that it claimed, and those that seats joined to it claimed.
    pub claims: LinkedList<Claimed>,
    /// The draws that it drew, and those that seats joined to it drew.
    pub drawn: LinkedList<Drawn>,
    pub building: Option<Building>,
    /// The cells that it found not empty, or claimed.
    pub seen: LinkedList<u32>,
    /// The cells that it found built, or published.
    pub ready: LinkedList<u32>,
    /// It drew a draw past the last.
    pub ended: bool,
    pub last: LastStep,
    /// How many steps answered it.
    pub taken: u64,
    /// Of seat 0: how many seats were made.
    pub made: u32,
    /// Of seat 0: the numbers of the seats that were joined to it.
    pub joined: LinkedList<u32>,
    /// It was joined to seat 0.
    pub spent: bool,
}

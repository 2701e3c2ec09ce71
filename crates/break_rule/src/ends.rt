//! What is kept of each place at which a line may end, so that a line is worked out in constant
//! time from its two ends.
use crate::margin::Stop;
use crate::sums::Sums;

/// What lies before a place: the sums of it, and the item that stops the search for a margin
/// character backwards from there.
#[derive(Clone, Copy)]
pub struct Before {
    pub sums: Sums,
    pub behind: Stop,
}

/// What lies from a place on: the first item that doesn't vanish behind a break there, and the item
/// that stops the search for a margin character.
#[derive(Clone, Copy)]
pub struct Rest {
    pub begin: u32,
    pub ahead: Stop,
}

/// What a line takes from the break that it begins with.
#[derive(Clone, Copy)]
pub struct Opening {
    /// The item with which the line begins.
    pub begin: u32,
    /// What is taken from the sums at the line's end.
    pub less: Sums,
    /// The hang at the left where the break's own entries stop the search.
    pub left: Option<i64>,
    /// The hang at the right where they do, as of a line of nothing else.
    pub right: Option<i64>,
    /// The item that stops the search from the line's first item on.
    pub ahead: Stop,
}

/// What a line takes from the place at which it ends.
#[derive(Clone, Copy)]
pub struct Closing {
    /// The sums of all items before the place, and of what is put before the break.
    pub sums: Sums,
    /// The hang at the left where what is put before the break is all that stops the search.
    pub left: Option<i64>,
    /// The hang at the right where it stops the search.
    pub right: Option<i64>,
    /// The item that stops the search backwards from the place.
    pub behind: Stop,
    /// The penalty of the break.
    pub penalty: i32,
}

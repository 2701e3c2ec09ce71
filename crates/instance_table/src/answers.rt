//! What a look and a claim answer.

/// What a look finds a cell to be.
#[derive(Clone, Copy, Debug, PartialEq, Eq)]
pub enum Seen {
    /// No seat has claimed it.
    Empty,
    /// Another seat has claimed it and not published it.
    Building,
    /// All of its widths are stored.
    Built,
}

/// Whether a claim won the cell.
#[derive(Clone, Copy, Debug, PartialEq, Eq)]
pub enum Claim {
    /// The cell was empty, and is the seat's to build.
    Won,
    /// The cell was not empty: its state was this word, 1 for built, else 2 more than the number of
    /// the seat that builds it.
    Lost { word: u64 },
}

//! Seats, by which workers step on a table.
use crate::view::{Building, Claimed, View};
use std::marker::Model;

/// The right to step on a table, for one worker. Contracts see which table it is of, and what it
/// knows (`View`).
///
/// A seat keeps its number, the cell that it builds, and its claims, with room for a claim of each
/// cell, so that no step takes memory.
#[derive(Drop)]
pub struct Seat {
    pub(crate) place: atomic_table::Seat<u8, View>,
    pub(crate) number: u32,
    pub(crate) made: u32,
    pub(crate) building: Option<Building>,
    pub(crate) claims: Vec<Claimed>,
}

impl Model for Seat {
    ghost use Rattle.std.specs.Prelude.{vec_capacity};
    ghost use Rattle.instance_table.specs.Seats.{Sitting, IsSat};

    ghost Value = { Sitting };

    ghost view = { λ s. record { table = s.place.table_id; view = s.place.me.0 } };

    ghost invariant = { λ s. IsSat s.place.me s.number s.made s.building s.claims.items
        (vec_capacity s.claims) };
}

impl Seat {
    ghost use Rattle.std.specs.Prelude.{◌≡◌};

    /// The seat's number: 0 for the one that came with the table, and from 1 on in the order of
    /// splitting.
    pub fn number(&self) -> u32
        ensures { result ≡ self.now.view.number }
    {
        self.number
    }
}

//! The rule of the table's words, and what each step tells the seat that makes it.
use crate::view::View;
use atomic_table::{Join, Play, Split, TableRule};
use instance_core::Bases;

/// What a table is made for: the fonts of its instances, and how many draws there are.
#[derive(Drop)]
pub struct Key {
    pub bases: Bases,
    pub draws: u32,
}

/// The rule that every step keeps.
pub struct CellRule;

impl TableRule<u8, View, Key> for CellRule {
    ghost use Rattle.instance_table.specs.Rule.{Rule};
    ghost use Rattle.instance_table.specs.Steps.{first_view};

    ghost holds = { λ key s. Rule key.bases key.draws s.words s.views };

    ghost first = { λ key. first_view key.bases key.draws };
}

/// A load of a cell's state.
pub struct Looking;

impl Play<u8, View> for Looking {
    ghost use Rattle.instance_table.specs.Plays.{Looks};

    ghost then = { Looks };
}

/// An exchange of a cell's state, from empty to this seat's claim.
pub struct Claiming;

impl Play<u8, View> for Claiming {
    ghost use Rattle.instance_table.specs.Plays.{Tries};

    ghost then = { Tries };
}

/// A store of one width of the cell that the seat builds.
pub struct Storing;

impl Play<u8, View> for Storing {
    ghost use Rattle.instance_table.specs.Plays.{Stores};

    ghost then = { Stores };
}

/// A store that makes the cell built.
pub struct Publishing;

impl Play<u8, View> for Publishing {
    ghost use Rattle.instance_table.specs.Plays.{Publishes};

    ghost then = { Publishes };
}

/// A load of a width.
pub struct Reading;

impl Play<u8, View> for Reading {
    ghost use Rattle.instance_table.specs.Plays.{Reads};

    ghost then = { Reads };
}

/// A step of the count of draws.
pub struct Drawing;

impl Play<u8, View> for Drawing {
    ghost use Rattle.instance_table.specs.Plays.{Draws};

    ghost then = { Draws };
}

/// A load that changes nothing, by which a seat learns what holds of its own view.
pub struct Learning;

impl Play<u8, View> for Learning {
    ghost use Rattle.instance_table.specs.Plays.{Learns};

    ghost then = { Learns };
}

/// A new seat.
pub struct Splitting;

impl Split<View> for Splitting {
    ghost use Rattle.instance_table.specs.Steps.{after_split, split_off};

    ghost left = { after_split };

    ghost right = { split_off };
}

/// The end of a seat.
pub struct Joining;

impl Join<View> for Joining {
    ghost use Rattle.instance_table.specs.Rule.{spent_view};
    ghost use Rattle.instance_table.specs.Steps.{joined_with};

    ghost both = { joined_with };

    ghost spent = { spent_view };
}

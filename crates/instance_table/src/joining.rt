//! The end of a seat: seat 0 takes in what it claimed and drew.
ghost use Rattle.std.specs.Prelude.{◌≡◌, ◌+◌, ◌≤◌, ◌++◌, vec_len, vec_capacity};

use crate::rule::{Joining, Learning};
use crate::seat::Seat;
use crate::table::InstanceTable;
use crate::view::Claimed;

/// Puts claims behind others, in the room that there is.
fn take_in(claims: &mut Vec<Claimed>, more: Vec<Claimed>)
    requires { vec_len claims.old + vec_len more ≤ vec_capacity claims.old }
    ensures items { claims.new.items ≡ claims.old.items ++ more.items }
    ensures capacity { vec_capacity claims.new ≡ vec_capacity claims.old }
{
    for claimed in &more {
        claims.push_reserved(*claimed);
    }
}

impl InstanceTable {
    ghost use Rattle.std.specs.Prelude.{None};
    ghost use Rattle.instance_table.specs.Seats.{IsSeatOf, IsCarried};
    ghost use Rattle.instance_table.specs.Steps.{joined_with};

    /// Joins a seat to seat 0, which takes in its claims and draws. Each of them carries the number
    /// of the seat that is joined, which isn't 0 and is one of those made.
    pub fn join(&self, seat: &mut Seat, other: Seat)
        requires own { IsSeatOf self.now seat.old }
        requires other { IsSeatOf self.now other }
        requires first { seat.old.view.number ≡ 0 }
        requires free { seat.old.view.building ≡ None }
        requires other_free { other.view.building ≡ None }
        ensures own { IsSeatOf self.now seat.new }
        ensures view { seat.new.view ≡ joined_with seat.old.view other.view }
        ensures carried { IsCarried other.view seat.new.view }
    {
        let Seat {
            mut place,
            number: _,
            made: _,
            building: _,
            claims,
        } = other;
        let shared = &self.table.shared;
        shared.load::<Learning>(&mut place, 0);
        shared.join_seat::<Joining>(&mut seat.place, place);
        shared.load::<Learning>(&mut seat.place, 0);
        take_in(&mut seat.claims, claims);
    }
}

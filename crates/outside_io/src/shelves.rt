//! What files are read from: a shelf counts its calls and what went wrong in them, and where it
//! tells its files, each answer is tied to them.
ghost use Rattle.std.specs.Prelude.{◌≡◌, ◌<◌, ◌≤◌, length, IfOk, IfSome};
ghost use Rattle.outside_io.specs.Counts.{Rose, RisesBy};
ghost use Rattle.outside_io.specs.Reading.{NamesDiffer, OnAbsent, IfTooLong, OnFailed, Answers};
ghost use Rattle.outside_io.specs.States.{ShelfState, ShelfCountsFit};

use crate::faults::ShelfFault;
use items::Items;
use std::alloc::Global;

/// A place that files are read from by name.
///
/// Its meaning is one state: the files, as names and bytes, where it tells them, and four counts
/// that never fall and stand still at 2^64 - 1: its calls, the files that were absent, those that
/// were longer than the limit, and the other faults.
pub trait Shelf {
    ghost state: { Self → ShelfState };

    /// The bytes of a file, of which there may be `limit` at most.
    fn read(&mut self, alloc: Global, name: &str, limit: u64) -> Result<Items<u8>, ShelfFault>
        ensures called { RisesBy 1 (state self.old).calls (state self.new).calls }
        ensures absences { (state self.old).absences ≤ (state self.new).absences }
        ensures excesses { (state self.old).excesses ≤ (state self.new).excesses }
        ensures faults { (state self.old).faults ≤ (state self.new).faults }
        ensures within { IfOk result (λ bytes. length bytes ≤ limit) }

        // Each refusal has its cause.
        ensures absent { OnAbsent result
            (Rose (state self.old).absences (state self.new).absences) }
        ensures too_long { IfTooLong result (λ count. (limit < count)
            × Rose (state self.old).excesses (state self.new).excesses) }
        ensures failed { OnFailed result (Rose (state self.old).faults (state self.new).faults) }

        // Where the files are told.
        ensures told { IfSome (state self.old).files (λ files.
            Answers files name.now limit result) }
        ensures same { (state self.new).files ≡ (state self.old).files };

    ghost names_differ: { (shelf : Self) → IfSome (state shelf).files NamesDiffer };

    ghost counts_fit: { (shelf : Self) → ShelfCountsFit (state shelf) };
}

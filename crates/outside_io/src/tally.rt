//! The counts of a shelf, and which of them an answer raises.
ghost use Rattle.std.specs.Prelude.{◌≤◌};
ghost use Rattle.outside_io.specs.Counts.{Rose};
ghost use Rattle.outside_io.specs.Reading.{OnAbsent, IfTooLong, OnFailed};
ghost use Rattle.outside_io.specs.Tally.{Blames, IsZero};

use crate::counts::Count;
use crate::faults::ShelfFault;
use items::Items;

/// The counts of a shelf.
#[derive(Clone, Copy, Debug, PartialEq, Eq)]
pub struct ShelfCounts {
    pub calls: Count,
    pub absences: Count,
    pub excesses: Count,
    pub faults: Count,
}

impl ShelfCounts {
    /// The counts of a shelf that was never called.
    pub(crate) fn zero() -> ShelfCounts
        ensures { IsZero result }
    {
        ShelfCounts {
            calls: Count::zero(),
            absences: Count::zero(),
            excesses: Count::zero(),
            faults: Count::zero(),
        }
    }

    /// Counts what an answer stands for.
    pub(crate) fn blame(&mut self, answer: &Result<Items<u8>, ShelfFault>)
        ensures blames { Blames answer.now self.old self.new }
        ensures absences { self.old.absences.times ≤ self.new.absences.times }
        ensures excesses { self.old.excesses.times ≤ self.new.excesses.times }
        ensures faults { self.old.faults.times ≤ self.new.faults.times }
        ensures absent { OnAbsent answer.now
            (Rose self.old.absences.times self.new.absences.times) }
        ensures too_long { IfTooLong answer.now
            (λ _. Rose self.old.excesses.times self.new.excesses.times) }
        ensures failed { OnFailed answer.now (Rose self.old.faults.times self.new.faults.times) }
    {
        match answer {
            Err(ShelfFault::Absent) => self.absences.rise(),
            Err(ShelfFault::TooLong { .. }) => self.excesses.rise(),
            Err(ShelfFault::Failed) => self.faults.rise(),
            Ok(_) | Err(ShelfFault::NoMemory) => {}
        }
    }
}

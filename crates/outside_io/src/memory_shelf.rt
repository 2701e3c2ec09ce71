//! A shelf in memory, whose failures are listed.
ghost use Rattle.std.specs.Prelude.{◌≡◌, ◌<◌, ◌≤◌, ℕ, length, Contains, IfOk, MatchOption, Some};
ghost use Rattle.std.specs.Prelude.{Err};
ghost use Rattle.outside_io.specs.Counts.{Rose, RisesBy};
ghost use Rattle.outside_io.specs.Reading.{NamesDiffer, HasFile, OnFailed, IfTooLong, OnAbsent};
ghost use Rattle.outside_io.specs.Reading.{Answers, CopiesWithin};
ghost use Rattle.outside_io.specs.States.{shelf_state};
ghost use Rattle.outside_io.specs.Tally.{IsZero, Tallied};
ghost use Rattle.outside_io.specs.declared.faults.ShelfFault.TheVariants.{Failed};

use crate::faults::ShelfFault;
use crate::shelves::Shelf;
use crate::tally::ShelfCounts;
use items::Items;
use std::alloc::Global;

/// A shelf in memory that tells its files and fails exactly at the listed calls.
#[derive(Drop)]
pub struct MemShelf {
    files: Items<(Items<u8>, Items<u8>)>,
    failing: Items<u64>,
    counts: ShelfCounts,
    ghost names_differ: { NamesDiffer files },
}

impl MemShelf {
    /// A shelf of files, as names and bytes, with all counts at 0. Its calls are counted from 1,
    /// and those that `failing` lists fail.
    pub fn make(files: Items<(Items<u8>, Items<u8>)>, failing: Items<u64>) -> MemShelf
        requires { NamesDiffer files }
        ensures files { result.files ≡ files }
        ensures failing { result.failing ≡ failing }
        ensures counts { IsZero result.counts }
    {
        MemShelf {
            files,
            failing,
            counts: ShelfCounts::zero(),
        }
    }

    /// The bytes of the file with a name.
    fn find(&self, name: &[u8]) -> Option<&Items<u8>>
        ensures { MatchOption result ((bytes : _) → ¬ HasFile self.now.files name.now bytes)
            (λ bytes. HasFile self.now.files name.now bytes.now) }
    {
        for file in self.files.as_slice() {
            if file.0.as_slice() == name {
                return Some(&file.1);
            }
        }
        None
    }

    /// The answer of the call that was counted last.
    fn answer(&self, alloc: Global, name: &str, limit: u64) -> Result<Items<u8>, ShelfFault>
        ensures listed { Contains self.now.failing self.now.counts.calls.times
            → result ≡ Err Failed }
        ensures unlisted { OnFailed result (Contains self.now.failing self.now.counts.calls.times) }
        ensures within { IfOk result (λ bytes. length bytes ≤ limit) }
        ensures whole { IfTooLong result (λ count. (bytes : _)
            × HasFile self.now.files name.now bytes × (count ≡ length bytes)) }
        ensures excess { IfTooLong result (λ count. limit < count) }
        ensures told { Answers self.now.files name.now limit result }
    {
        if self.failing.as_slice().contains(&self.counts.calls.times()) {
            return Err(ShelfFault::Failed);
        }
        match self.find(name.as_bytes()) {
            None => Err(ShelfFault::Absent),
            Some(bytes) => copy_within(alloc, bytes, limit),
        }
    }
}

/// A copy of a file's bytes, of which there may be `limit` at most.
fn copy_within(alloc: Global, bytes: &Items<u8>, limit: u64) -> Result<Items<u8>, ShelfFault>
    ensures { CopiesWithin bytes.now limit result }
{
    let count = bytes.len() as u64;
    if count > limit {
        return Err(ShelfFault::TooLong { count });
    }
    Ok(Items::from_slice(alloc, bytes.as_slice())?)
}

impl Shelf for MemShelf {
    ghost state = { λ shelf. shelf_state (Some shelf.files) shelf.counts };

    fn read(&mut self, alloc: Global, name: &str, limit: u64) -> Result<Items<u8>, ShelfFault>
        ensures called { RisesBy 1 self.old.counts.calls.times self.new.counts.calls.times }
        ensures absences { self.old.counts.absences.times ≤ self.new.counts.absences.times }
        ensures excesses { self.old.counts.excesses.times ≤ self.new.counts.excesses.times }
        ensures faults { self.old.counts.faults.times ≤ self.new.counts.faults.times }
        ensures within { IfOk result (λ bytes. length bytes ≤ limit) }
        ensures absent { OnAbsent result
            (Rose self.old.counts.absences.times self.new.counts.absences.times) }
        ensures too_long { IfTooLong result (λ count. (limit < count)
            × Rose self.old.counts.excesses.times self.new.counts.excesses.times) }
        ensures failed { OnFailed result
            (Rose self.old.counts.faults.times self.new.counts.faults.times) }
        ensures told { Answers self.old.files name.now limit result }
        ensures same { self.new.files ≡ self.old.files }

        // Exactly the listed calls fail.
        ensures listed { Contains self.old.failing self.new.counts.calls.times
            → result ≡ Err Failed }
        ensures unlisted { OnFailed result (Contains self.old.failing self.new.counts.calls.times) }
        ensures failing { self.new.failing ≡ self.old.failing }

        // An excess tells the length of the file.
        ensures whole { IfTooLong result (λ count. (bytes : _)
            × HasFile self.old.files name.now bytes × (count ≡ length bytes)) }

        // Each count rises exactly where it should.
        ensures counts { Tallied result self.old.counts self.new.counts }
    {
        self.counts.calls.rise();
        let answer = self.answer(alloc, name, limit);
        self.counts.blame(&answer);
        answer
    }

    ghost names_differ = { λ shelf. shelf.names_differ };

    ghost counts_fit = { λ shelf. record {
      calls = shelf.counts.calls.fits;
      absences = shelf.counts.absences.fits;
      excesses = shelf.counts.excesses.fits;
      faults = shelf.counts.faults.fits;
    } };
}

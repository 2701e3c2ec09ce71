//! A shelf of the system's files. The loop that reads one gives all bytes that its reader had left.
ghost use Rattle.std.specs.Prelude.{◌≡◌, ◌≢◌, ◌<◌, ◌≤◌, ℕ, List, length, IfOk, IfErr, OnOk, Err};
ghost use Rattle.std.specs.Prelude.{None};
ghost use Rattle.std.specs.Io.KnownBytes.{Consumes, IsAtEnd};
ghost use Rattle.std.specs.IoError.{error_kind};
ghost use Rattle.std.specs.declared.io.ErrorKind.TheVariants.{NotFound};
ghost use Rattle.outside_io.specs.declared.faults.ShelfFault.TheVariants.{Absent, Failed};
ghost use Rattle.outside_io.specs.Counts.{Rose, RisesBy};
ghost use Rattle.outside_io.specs.Reading.{OnAbsent, IfTooLong, OnFailed};
ghost use Rattle.outside_io.specs.States.{shelf_state};
ghost use Rattle.outside_io.specs.Tally.{IsZero, Tallied};

use crate::faults::ShelfFault;
use crate::shelves::Shelf;
use crate::tally::ShelfCounts;
use items::Items;
use std::alloc::Global;
use std::io::{ErrorKind, Read};
use std::rt::Files;
use std::{fs, io};

/// How many bytes one call of the system reads at most.
const PIECE: usize = 16_384;

/// A shelf of the files in the current folder. It tells nothing of what they hold.
///
/// A file that isn't found is an absence, one with more bytes than the limit an excess, and any
/// other failure a fault.
#[derive(Drop)]
pub struct FileShelf<'a, R> {
    rt: &'a R,
    counts: ShelfCounts,
}

impl<'a, R: Files> FileShelf<'a, R> {
    /// A shelf over a runtime, with all counts at 0.
    pub fn make(rt: &'a R) -> FileShelf<'a, R>
        ensures { IsZero result.counts }
    {
        FileShelf {
            rt,
            counts: ShelfCounts::zero(),
        }
    }
}

/// The rest of a reader, of which there may be `limit` bytes at most. It stops once it has read
/// more.
fn read_within<F: Read>(alloc: Global, reader: &mut F, limit: u64) -> Result<Items<u8>, ShelfFault>
    ensures within { IfOk result (λ bytes. length bytes ≤ limit) }
    ensures excess { IfTooLong result (λ count. limit < count) }
    ensures present { OnAbsent result ⊥ }
    // The bytes are all that the reader had left, and a refusal counts what was read.
    ensures whole { IfOk result (λ bytes.
        Consumes (F.remaining reader.old) (F.remaining reader.new) bytes
        × IsAtEnd (F.remaining reader.new)) }
    ensures counted { IfTooLong result (λ count. (bytes : List ℕ)
        × Consumes (F.remaining reader.old) (F.remaining reader.new) bytes
        × (length bytes ≡ count)) }
{
    let mut piece = [0u8; PIECE];
    let mut bytes = Vec::new(alloc);
    while bytes.len() as u64 <= limit {
        match reader.read(&mut piece) {
            Ok(0) => return Ok(Items::from_vec(bytes)),
            Ok(count) => bytes.extend_from_slice(&piece[..count])?,
            Err(_) => return Err(ShelfFault::Failed),
        }
    }
    Err(ShelfFault::TooLong {
        count: bytes.len() as u64,
    })
}

/// What an error in opening a file says of the file.
fn open_fault(kind: ErrorKind) -> ShelfFault
    ensures absent { kind ≡ NotFound → result ≡ Absent }
    ensures failed { kind ≢ NotFound → result ≡ Failed }
{
    if kind == ErrorKind::NotFound {
        ShelfFault::Absent
    } else {
        ShelfFault::Failed
    }
}

/// The bytes of a file, by what came of opening it.
fn read_opened<F: Read + Drop>(
    alloc: Global,
    opened: io::Result<F>,
    limit: u64,
) -> Result<Items<u8>, ShelfFault>
    ensures within { IfOk result (λ bytes. length bytes ≤ limit) }
    ensures excess { IfTooLong result (λ count. limit < count) }
    // A file that was opened is there, and an error in opening is told for what it is.
    ensures present { OnOk opened (OnAbsent result ⊥) }
    ensures absent { IfErr opened (λ error. error_kind error ≡ NotFound → result ≡ Err Absent) }
    ensures failed { IfErr opened (λ error. error_kind error ≢ NotFound → result ≡ Err Failed) }
{
    match opened {
        Ok(mut file) => read_within(alloc, &mut file, limit),
        Err(error) => Err(open_fault(error.kind())),
    }
}

impl<'a, R: Files> Shelf for FileShelf<'a, R> {
    ghost state = { λ shelf. shelf_state None shelf.counts };

    fn read(&mut self, alloc: Global, name: &str, limit: u64) -> Result<Items<u8>, ShelfFault>
        ensures called { RisesBy 1 self.old.counts.calls.times self.new.counts.calls.times }
        ensures absences { self.old.counts.absences.times ≤ self.new.counts.absences.times }
        ensures excesses { self.old.counts.excesses.times ≤ self.new.counts.excesses.times }
        ensures faults { self.old.counts.faults.times ≤ self.new.counts.faults.times }
        ensures within { IfOk result (λ bytes. length bytes ≤ limit) }
        ensures absent { OnAbsent result
            (Rose self.old.counts.absences.times self.new.counts.absences.times) }
        ensures too_long { IfTooLong result (λ count. (limit < count)
            × Rose self.old.counts.excesses.times self.new.counts.excesses.times) }
        ensures failed { OnFailed result
            (Rose self.old.counts.faults.times self.new.counts.faults.times) }
        // Each count rises exactly where it should.
        ensures counts { Tallied result self.old.counts self.new.counts }
    {
        self.counts.calls.rise();
        let answer = read_opened(alloc, fs::open(self.rt, name), limit);
        self.counts.blame(&answer);
        answer
    }

    ghost names_differ = { λ _. tt };

    ghost counts_fit = { λ shelf. record {
      calls = shelf.counts.calls.fits;
      absences = shelf.counts.absences.fits;
      excesses = shelf.counts.excesses.fits;
      faults = shelf.counts.faults.fits;
    } };
}

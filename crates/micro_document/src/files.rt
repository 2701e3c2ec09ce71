//! Reads the files of a run.
ghost use Rattle.std.specs.Prelude.{IfOk, IfErr};
ghost use Rattle.outside_io.specs.Counts.{RisesBy};
ghost use Rattle.micro_document.specs.Finding.{WasRead, Misses, ShelfStays};

use crate::stop::Stop;
use items::Items;
use micro_texts::Answer;
use outside_io::{Shelf, ShelfFault};
use std::alloc::Global;

/// The greatest length of a file, in bytes.
pub const MOST_FILE_BYTES: u64 = 16_777_216;

/// The bytes of a file, and why it isn't read, as the file of a number.
pub(crate) fn read_file<S: Shelf>(
    alloc: Global,
    name: &str,
    file: u32,
    shelf: &mut S,
) -> Result<Items<u8>, Stop>
    ensures stays { ShelfStays (S.state shelf.old) (S.state shelf.new) }
    ensures called { RisesBy 1 (S.state shelf.old).calls (S.state shelf.new).calls }
    ensures read { IfOk result (λ bytes. WasRead (S.state shelf.old).files name.now bytes) }
    ensures missed { IfErr result (λ stop.
        Misses name.now file (S.state shelf.old) (S.state shelf.new) stop) }
{
    match shelf.read(alloc, name, MOST_FILE_BYTES) {
        Ok(bytes) => Ok(bytes),
        Err(ShelfFault::Absent) => Err(Stop::at(alloc, name, Answer::Absent { file })),
        Err(ShelfFault::TooLong { .. }) => Err(Stop::at(alloc, name, Answer::FileTooLong { file })),
        Err(ShelfFault::Failed) => Err(Stop::at(alloc, name, Answer::ReadFault { file })),
        Err(ShelfFault::NoMemory) => Err(Stop::of(Answer::NoMemory)),
    }
}

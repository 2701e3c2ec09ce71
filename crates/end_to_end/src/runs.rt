//! One run over a shelf and an output in memory.
ghost use Rattle.std.specs.Prelude.{IfOk};
ghost use Rattle.outside_io.specs.Reading.{NamesDiffer};

use instance_core::Owner;
use instance_table::Closed;
use items::Items;
use outside_io::{Gate, MemShelf, MemSink, NoGate};
use pdfmicro_run::{Answer, run_micro};
use std::alloc::{AllocError, Global};
use std::test::Fail;
use std::thread::Threads;
use test_fonts::tiny10;

/// What fails in a run: reads, writes to the output and writes to talk by their numbers, from 1,
/// and the room for the output.
#[derive(Clone, Copy, Drop)]
pub struct Failing<'a> {
    pub reads: &'a [u64],
    pub writes: &'a [u64],
    pub lines: &'a [u64],
    pub room: u64,
}

/// Nothing fails.
pub const SOUND: Failing<'static> = Failing {
    reads: &[],
    writes: &[],
    lines: &[],
    room: 100_000,
};

/// A run's status, answer, output and talk, and the receipt of its table of instances.
#[derive(Drop)]
pub struct Run {
    pub status: u8,
    pub answer: Answer,
    pub written: Vec<u8>,
    pub told: Vec<u8>,
    pub closed: Option<Closed>,
}

impl Run {
    /// What was told on talk, as text.
    pub fn told(&self) -> &str {
        str::from_utf8(self.told.as_slice()).unwrap_or("no text")
    }

    /// The instances that were built, with who built them.
    pub fn owners(&self) -> &[Owner] {
        match &self.closed {
            Some(closed) => closed.owners(),
            None => &[],
        }
    }
}

/// A list of two files, the job and the font `tiny10`.
fn two_files(
    alloc: Global,
    job: &[u8],
    font: &[u8],
) -> Result<Items<(Items<u8>, Items<u8>)>, AllocError>
    ensures { IfOk result (λ files. NamesDiffer files) }
{
    let mut files = Items::new(alloc);
    let name = Items::from_slice(alloc, b"j")?;
    let bytes = Items::from_slice(alloc, job)?;
    if files.push((name, bytes)).is_err() {
        return Err(AllocError);
    }
    let name = Items::from_slice(alloc, b"tiny10.tfm")?;
    let bytes = Items::from_slice(alloc, font)?;
    if files.push((name, bytes)).is_err() {
        return Err(AllocError);
    }
    Ok(files)
}

/// Words as texts.
fn texts(alloc: Global, words: &[&str]) -> Result<Vec<String>, AllocError> {
    let mut texts = Vec::new(alloc);
    for word in words {
        texts.push(String::from_str(alloc, word)?)?;
    }
    Ok(texts)
}

/// Runs the words over a shelf of the two files, with a gate that the workers pass.
pub fn run_gated<R: Threads + Sync, G: Gate + Sync>(
    rt: &R,
    alloc: Global,
    words: &[&str],
    job: &[u8],
    font: &[u8],
    failing: &Failing,
    gate: &G,
) -> Result<Run, Fail> {
    let words = texts(alloc, words)?;
    let reads = Items::from_slice(alloc, failing.reads)?;
    let writes = Items::from_slice(alloc, failing.writes)?;
    let mut shelf = MemShelf::make(two_files(alloc, job, font)?, reads);
    let mut out = MemSink::make(alloc, writes);
    out.reserve(failing.room)?;
    let mut talk = MemSink::make(alloc, Items::from_slice(alloc, failing.lines)?);
    talk.reserve(100_000)?;
    let end = run_micro(
        rt,
        alloc,
        words.as_slice(),
        &mut shelf,
        &mut out,
        &mut talk,
        gate,
    );
    Ok(Run {
        status: end.status,
        answer: end.answer,
        written: out.written().to_vec(alloc)?,
        told: talk.written().to_vec(alloc)?,
        closed: end.closed,
    })
}

/// Runs the words over a shelf of the two files.
pub fn run_words<R: Threads + Sync>(
    rt: &R,
    alloc: Global,
    words: &[&str],
    job: &[u8],
    font: &[u8],
    failing: &Failing,
) -> Result<Run, Fail> {
    run_gated(rt, alloc, words, job, font, failing, &NoGate)
}

/// The words that set the job.
pub const SET: &[&str] = &["pdfmicro", "set", "j"];

/// Runs the words over the job in the font `tiny10`.
pub fn run_tiny<R: Threads + Sync>(
    rt: &R,
    alloc: Global,
    words: &[&str],
    job: &[u8],
    failing: &Failing,
) -> Result<Run, Fail> {
    run_words(rt, alloc, words, job, &tiny10(alloc)?, failing)
}

/// Sets the job in the font, with room enough and nothing that fails.
pub fn set<R: Threads + Sync>(rt: &R, alloc: Global, job: &[u8], font: &[u8]) -> Result<Run, Fail> {
    run_words(rt, alloc, SET, job, font, &SOUND)
}

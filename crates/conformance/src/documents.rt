//! The cases of whole documents: what a run answers to a job, and what it writes, with any number
//! of workers.
ghost use Rattle.std.specs.Prelude.{◌≡◌, ◌≢◌, ◌<◌, ◌^◌, length, false, All, OnOk, IfOk};
ghost use Rattle.outside_io.specs.Reading.{NamesDiffer};

use crate::bytes::bytes_of;
use crate::run_text::run_text;
use crate::tfm::font_bytes;
use items::Items;
use job_text::{FontDecl, JobFault, read_job};
use micro_num::NoMemory;
use outside_io::{MemShelf, MemSink, NoGate};
use pdfmicro_run::run_micro;
use std::alloc::{AllocError, Global};
use std::rt::Files;
use std::thread::Threads;

/// The name of a job's file.
const JOB: &str = "job";

/// How many workers set a job besides one alone.
const MORE_WORKERS: [&str; 4] = ["2", "5", "7", "64"];

/// How many bytes a sink has room for: more than any case writes.
const ROOM: u64 = 1 << 20;

/// Whether a file of this name is there.
fn has_name(files: &[(Items<u8>, Items<u8>)], name: &[u8]) -> bool
    ensures { result ≡ false → All (λ file. file.0 ≢ name.now) files.now }
{
    for file in files {
        if file.0.as_slice() == name {
            return true;
        }
    }
    false
}

/// Puts a file where there is none of its name.
fn put_file(
    files: &mut Items<(Items<u8>, Items<u8>)>,
    name: Items<u8>,
    bytes: Items<u8>,
) -> Result<(), NoMemory>
    requires { NamesDiffer files.old }
    ensures { OnOk result (NamesDiffer files.new) }
{
    if has_name(files.as_slice(), name.as_slice()) {
        return Ok(());
    }
    files.push((name, bytes))?;
    Ok(())
}

/// Puts the file of a font, where the current folder has it.
fn put_font<R: Files>(
    rt: &R,
    alloc: Global,
    files: &mut Items<(Items<u8>, Items<u8>)>,
    decl: &FontDecl,
) -> Result<(), NoMemory>
    requires { NamesDiffer files.old }
    ensures { OnOk result (NamesDiffer files.new) }
{
    let name = String::from_utf8_lossy(alloc, decl.name.as_slice())?;
    let Ok(bytes) = font_bytes(rt, alloc, name.as_str()) else {
        return Ok(());
    };
    let name = format!(in alloc; "{name}.tfm")?;
    put_file(
        files,
        Items::from_vec(name.into_bytes()),
        Items::from_vec(bytes),
    )
}

/// A job's file, and those of the fonts that it declares.
fn files_of<R: Files>(
    rt: &R,
    alloc: Global,
    bytes: Vec<u8>,
) -> Result<Items<(Items<u8>, Items<u8>)>, NoMemory>
    ensures { IfOk result NamesDiffer }
{
    let mut files = Items::new(alloc);
    let fonts = if bytes.len() < 1 << 32 {
        declared(alloc, bytes.as_slice())?
    } else {
        Items::new(alloc)
    };
    let name = Items::from_slice(alloc, JOB.as_bytes())?;
    put_file(&mut files, name, Items::from_vec(bytes))?;
    for decl in fonts.as_slice() {
        put_font(rt, alloc, &mut files, decl)?;
    }
    Ok(files)
}

/// The fonts that a job declares, none where it has a fault.
fn declared(alloc: Global, bytes: &[u8]) -> Result<Items<FontDecl>, NoMemory>
    requires { length bytes.now < 2 ^ 32 }
{
    match read_job(alloc, bytes) {
        Ok(job) => Ok(job.fonts),
        Err(JobFault::At { .. }) => Ok(Items::new(alloc)),
        Err(JobFault::NoMemory) => Err(NoMemory),
    }
}

/// The words of the command line that sets the job by so many workers.
fn words(alloc: Global, workers: &str) -> Result<Vec<String>, AllocError> {
    let mut words = Vec::new(alloc);
    for word in ["pdfmicro", "set", JOB, "--workers", workers] {
        words.push(String::from_str(alloc, word)?)?;
    }
    Ok(words)
}

/// What a run by so many workers answers.
fn run_with<R: Threads + Sync>(
    rt: &R,
    alloc: Global,
    shelf: &mut MemShelf,
    workers: &str,
) -> Result<Option<String>, AllocError> {
    let mut out = MemSink::make(alloc, Items::new(alloc));
    let mut talk = MemSink::make(alloc, Items::new(alloc));
    if out.reserve(ROOM).is_err() || talk.reserve(ROOM).is_err() {
        return Err(AllocError);
    }
    let words = words(alloc, workers)?;
    let end = run_micro(rt, alloc, &words, shelf, &mut out, &mut talk, &NoGate);
    run_text(alloc, &end, out.written())
}

/// What runs answer to the job that the bytes spell which `left` gives in hexadecimal. Where they
/// don't all answer the same, that is told, which no case expects.
pub fn answer<R: Files + Threads + Sync>(
    rt: &R,
    alloc: Global,
    left: &str,
) -> Result<Option<String>, AllocError> {
    let Some(bytes) = bytes_of(alloc, left)? else {
        return Ok(None);
    };
    let Ok(files) = files_of(rt, alloc, bytes) else {
        return Err(AllocError);
    };
    let mut shelf = MemShelf::make(files, Items::new(alloc));
    let first = run_with(rt, alloc, &mut shelf, "1")?;
    for workers in MORE_WORKERS {
        if run_with(rt, alloc, &mut shelf, workers)? != first {
            return Ok(Some(format!(in alloc; "otherwise with {workers} workers")?));
        }
    }
    Ok(first)
}

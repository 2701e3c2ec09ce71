//! Finds the document of the words of a command.
ghost use Rattle.std.specs.Prelude.{◌≡◌, ◌≤◌, ◌<◌, ◌^◌, ◌⊎◌, length, IfOk, IfErr, None, Err};
ghost use Rattle.job_text.specs.Answers.{said_of, IsJobOf};
ghost use Rattle.job_text.specs.Fits.{JobFits};
ghost use Rattle.micro_words.specs.Commands.{cmd_of, IsKept};
ghost use Rattle.micro_document.specs.Document.{CommandFrom, Doc, FilesFrom, JobFrom, IsJobRefusal};
ghost use Rattle.micro_document.specs.Document.{file_named, finish_of};
ghost use Rattle.micro_document.specs.Finding.{Finds};
ghost use Rattle.micro_document.specs.Making.{IsMadeBy};
ghost use Rattle.micro_document.specs.Outcome.Outcome.{Refuses};
ghost use Rattle.micro_document.specs.Stopping.{stop_of};
ghost use Rattle.micro_document.specs.Words.{word_texts, workers_of};

use crate::crew::Crew;
use crate::files::{MOST_FILE_BYTES, read_file};
use crate::fonts::read_fonts;
use crate::generated::generated;
use crate::made::Made;
use crate::stop::Stop;
use crate::task::Task;
use items::Items;
use job_text::{Job, JobFault, read_job};
use micro_texts::Answer;
use micro_words::{Cmd, CommandKind, WordsFault, read_words};
use outside_io::{Gate, Shelf};
use std::alloc::Global;
use std::thread::Threads;

/// The job of the bytes, which are let go.
pub(crate) fn job_of(alloc: Global, bytes: Items<u8>) -> Result<Job, Answer>
    requires { length bytes < 2 ^ 32 }
    ensures job { IfOk result (λ job. IsJobOf bytes (said_of job)) }
    ensures fits { IfOk result JobFits }
    ensures fault { IfErr result (λ answer.
        IsJobRefusal bytes (Refuses answer) ⊎ (answer ≡ Answer.NoMemory)) }
{
    match read_job(alloc, bytes.as_slice()) {
        Ok(job) => Ok(job),
        Err(JobFault::At { offset, kind }) => Err(Answer::Job { offset, kind }),
        Err(JobFault::NoMemory) => Err(Answer::NoMemory),
    }
}

/// What the job of the bytes and its fonts come to.
fn from_job<R: Threads + Sync, S: Shelf, G: Gate + Sync>(
    crew: &Crew<R, G>,
    alloc: Global,
    bytes: Items<u8>,
    task: Task,
    shelf: &mut S,
) -> Result<Made, Stop>
    requires some { 1 ≤ crew.now.workers }
    requires few { crew.now.workers ≤ 64 }
    requires within { length bytes ≤ MOST_FILE_BYTES }
    ensures finds { Finds 1 (JobFrom (finish_of task) bytes)
        (S.state shelf.old) (S.state shelf.new) result }
    ensures workers { IfOk result (IsMadeBy crew.now.workers) }
{
    // Named arms and not `?`, since a clause speaks of the shelf at these errors.
    let job = match job_of(alloc, bytes) {
        Ok(job) => job,
        Err(answer) => return Err(Stop::of(answer)),
    };
    let stock = match read_fonts(alloc, &job, shelf) {
        Ok(stock) => stock,
        Err(stop) => return Err(stop),
    };
    match task.finish(crew, alloc, job, &stock) {
        Ok(made) => Ok(made),
        Err(answer) => Err(Stop::of(answer)),
    }
}

/// What the job of a name and its fonts come to.
fn from_file<R: Threads + Sync, S: Shelf, G: Gate + Sync>(
    crew: &Crew<R, G>,
    alloc: Global,
    name: &str,
    task: Task,
    shelf: &mut S,
) -> Result<Made, Stop>
    requires some { 1 ≤ crew.now.workers }
    requires few { crew.now.workers ≤ 64 }
    ensures finds { Finds 0 (FilesFrom (finish_of task) name.now)
        (S.state shelf.old) (S.state shelf.new) result }
    ensures workers { IfOk result (IsMadeBy crew.now.workers) }
{
    // A named arm and not `?`, since a clause speaks of the shelf at this error.
    let bytes = match read_file(alloc, name, 0, shelf) {
        Ok(bytes) => bytes,
        Err(stop) => return Err(stop),
    };
    from_job(crew, alloc, bytes, task, shelf)
}

/// What a command comes to.
fn from_command<R: Threads + Sync, S: Shelf, G: Gate + Sync>(
    rt: &R,
    alloc: Global,
    cmd: &Cmd,
    shelf: &mut S,
    gate: &G,
) -> Result<Made, Stop>
    requires { IsKept cmd.now }
    ensures finds { Finds 0 (CommandFrom cmd.now) (S.state shelf.old) (S.state shelf.new) result }
    ensures workers { IfOk result (IsMadeBy cmd.now.workers) }
{
    let crew = Crew {
        rt,
        workers: cmd.workers,
        gate,
    };
    let report = cmd.report;
    match cmd.command {
        CommandKind::Set => from_file(&crew, alloc, name_in(cmd), Task::Set { report }, shelf),
        CommandKind::Breaks => from_file(&crew, alloc, name_in(cmd), Task::Breaks, shelf),
        CommandKind::Gen => match generated(&crew, alloc, cmd.number) {
            Ok(made) => Ok(made),
            Err(answer) => Err(Stop::of(answer)),
        },
    }
}

/// The name of the one file that a command names.
fn name_in(cmd: &Cmd) -> &str
    requires { length cmd.now.files ≡ 1 }
    ensures { result.now ≡ file_named cmd.now }
{
    cmd.files.as_slice()[0].as_str()
}

/// What the words of a command line and the files that they name come to, read from the shelf in
/// turn: the job first, then its fonts in the order of declaration. The first word is the program's
/// name. Files are at most 16,777,216 bytes long; `gen` reads none.
///
/// The first fault is the stop's answer, in the order of the words, the job's read, its grammar,
/// each font's read, its file, size and widths, the paragraphs and the file's length. An answer
/// that blames the shelf comes only where the shelf counted it, and with the name of the file. Want
/// of memory may come in the place of any.
///
/// As many workers as the words say set the paragraphs of `set` and `gen`, each in a thread of its
/// own, and pass the gate. Nothing that is made depends on their number or on the order of their
/// steps but which of them built an instance.
pub fn find<R: Threads + Sync, S: Shelf, G: Gate + Sync>(
    rt: &R,
    alloc: Global,
    words: &[String],
    shelf: &mut S,
    gate: &G,
) -> Result<Made, Stop>
    ensures finds { Finds 0 (Doc (word_texts words.now))
        (S.state shelf.old) (S.state shelf.new) result }
    ensures bad { cmd_of (word_texts words.now) ≡ None
        → (result ≡ Err (stop_of Answer.BadWords)) ⊎ (result ≡ Err (stop_of Answer.NoMemory)) }
    ensures only { IfErr result (λ stop. stop.answer ≡ Answer.BadWords
        → cmd_of (word_texts words.now) ≡ None) }
    ensures workers { IfOk result (IsMadeBy (workers_of (cmd_of (word_texts words.now)))) }
    ensures calls { (S.state shelf.old).calls ≤ (S.state shelf.new).calls }
{
    match read_words(alloc, words) {
        Ok(cmd) => from_command(rt, alloc, &cmd, shelf, gate),
        Err(WordsFault::BadWords) => Err(Stop::of(Answer::BadWords)),
        Err(WordsFault::NoMemory) => Err(Stop::of(Answer::NoMemory)),
    }
}

//! Writes what was found of a document, and ends the run.
ghost use Rattle.std.specs.Prelude.{◌≡◌, ◌≤◌, ◌⊎◌, [], None, unwrap_or};
ghost use Rattle.outside_io.specs.States.{ShelfState, SinkState};
ghost use Rattle.micro_texts.specs.Status.{status_of};
ghost use Rattle.pdfmicro_run.specs.Ran.{outside, IsWriting, SaysAnswer, Tells, TellsMade};

use crate::ending::RunEnd;
use crate::lines::{say, write_texts};
use crate::pieces::write_pieces;
use micro_document::{Made, Stop};
use micro_texts::Answer;
use outside_io::Sink;
use std::alloc::Global;

/// Ends the run with an answer about the file of a name, which its message tells.
fn told<T: Sink>(alloc: Global, answer: Answer, name: &str, talk: &mut T) -> RunEnd
    ensures says { SaysAnswer answer name.now
        (T.state talk.old) (T.state talk.new) result.answer }
    ensures closed { result.closed ≡ None }
    ensures status { result.status ≡ status_of result.answer }
    ensures calls { (T.state talk.old).calls ≤ (T.state talk.new).calls }
    ensures faults { (T.state talk.old).faults ≤ (T.state talk.new).faults }
{
    let said = say(alloc, answer, name, talk);
    RunEnd::with(said, None)
}

/// Writes what was made: the output, and then the texts.
fn written<O: Sink, T: Sink>(alloc: Global, made: Made, out: &mut O, talk: &mut T) -> RunEnd
    ensures tells { (shelf later : ShelfState) → TellsMade made
        (outside shelf (O.state out.old) (T.state talk.old))
        (outside later (O.state out.new) (T.state talk.new)) result }
    ensures writing { IsWriting result.answer }
    ensures status { result.status ≡ status_of result.answer }
    ensures out_calls { (O.state out.old).calls ≤ (O.state out.new).calls }
    ensures out_faults { (O.state out.old).faults ≤ (O.state out.new).faults }
    ensures calls { (T.state talk.old).calls ≤ (T.state talk.new).calls }
    ensures faults { (T.state talk.old).faults ≤ (T.state talk.new).faults }
{
    let Made {
        out: bytes,
        talk: texts,
        closed,
    } = made;
    match write_pieces(out, bytes.as_slice()) {
        Ok(()) => {}
        Err(_) => return told(alloc, Answer::OutFault, "", talk),
    }
    match write_texts(talk, texts.as_slice()) {
        Ok(()) => RunEnd::with(Answer::Done, closed),
        Err(_) => RunEnd::with(Answer::TalkFault, None),
    }
}

/// The name of the file that a stop is about, empty where it is about none.
fn name_of(stop: &Stop) -> &str
    ensures { result.now ≡ unwrap_or stop.now.name [] }
{
    match &stop.name {
        Some(name) => name.as_str(),
        None => "",
    }
}

/// Writes what was made, or answers with the stop's answer and says its message.
pub(crate) fn tell<O: Sink, T: Sink>(
    alloc: Global,
    found: Result<Made, Stop>,
    out: &mut O,
    talk: &mut T,
) -> RunEnd
    ensures tells { (shelf later : ShelfState) → Tells found
        (outside shelf (O.state out.old) (T.state talk.old))
        (outside later (O.state out.new) (T.state talk.new)) result }
    ensures unchanged { IsWriting result.answer ⊎ (out.new ≡ out.old) }
    ensures status { result.status ≡ status_of result.answer }
    ensures out_calls { (O.state out.old).calls ≤ (O.state out.new).calls }
    ensures out_faults { (O.state out.old).faults ≤ (O.state out.new).faults }
    ensures calls { (T.state talk.old).calls ≤ (T.state talk.new).calls }
    ensures faults { (T.state talk.old).faults ≤ (T.state talk.new).faults }
{
    match found {
        Ok(made) => written(alloc, made, out, talk),
        Err(stop) => told(alloc, stop.answer, name_of(&stop), talk),
    }
}

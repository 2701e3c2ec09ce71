//! Writes what is told on talk: texts, and the message of an answer.
ghost use Rattle.std.specs.Prelude.{◌≡◌, ◌≤◌, ◌<◌, OnOk, OnErr, is_some, length};
ghost use Rattle.outside_io.specs.Counts.{Rose, RisesBy};
ghost use Rattle.micro_texts.specs.Messages.{fixed_of};
ghost use Rattle.pdfmicro_run.specs.Ran.{IsLineTold, IsMessage, SaysAnswer, Talks, TalksPart};

use items::Text;
use micro_texts::{Answer, fixed_line, message};
use outside_io::{Failed, Sink};
use std::alloc::Global;

/// Writes texts, each in one call.
pub(crate) fn write_texts<T: Sink>(talk: &mut T, texts: &[Text]) -> Result<(), Failed>
    ensures calls { (T.state talk.old).calls ≤ (T.state talk.new).calls }
    ensures faults { (T.state talk.old).faults ≤ (T.state talk.new).faults }
    ensures ok { OnOk result (Talks texts.now (T.state talk.old) (T.state talk.new)) }
    ensures failed { OnErr result (Rose (T.state talk.old).faults (T.state talk.new).faults) }
    ensures some { OnErr result (0 < length texts.now) }
    ensures part { OnErr result (TalksPart texts.now (T.state talk.old) (T.state talk.new)) }
{
    for text in texts {
        // A named arm and not `?`, since a clause speaks of the sink at this error.
        match talk.write(text.as_bytes()) {
            Ok(()) => {}
            Err(failed) => return Err(failed),
        }
    }
    Ok(())
}

/// Writes a line in one call, whose failure changes nothing.
fn say_line<T: Sink>(line: &str, talk: &mut T)
    ensures line { IsLineTold line.now (T.state talk.old) (T.state talk.new) }
    ensures called { RisesBy 1 (T.state talk.old).calls (T.state talk.new).calls }
    ensures faults { (T.state talk.old).faults ≤ (T.state talk.new).faults }
{
    match talk.write(line.as_bytes()) {
        Ok(()) | Err(_) => {}
    }
}

/// Says the line of an answer that takes no memory, and whether there is one.
fn say_fixed<T: Sink>(answer: Answer, talk: &mut T) -> bool
    ensures message { IsMessage (fixed_of answer) (T.state talk.old) (T.state talk.new) }
    ensures is { result ≡ is_some (fixed_of answer) }
    ensures calls { (T.state talk.old).calls ≤ (T.state talk.new).calls }
    ensures faults { (T.state talk.old).faults ≤ (T.state talk.new).faults }
{
    match fixed_line(&answer) {
        Some(line) => {
            say_line(line, talk);
            true
        }
        None => false,
    }
}

/// Says the message of an answer about the file of a name, and the answer that it told: want of
/// memory where the message couldn't be made.
pub(crate) fn say<T: Sink>(alloc: Global, answer: Answer, name: &str, talk: &mut T) -> Answer
    ensures says { SaysAnswer answer name.now (T.state talk.old) (T.state talk.new) result }
    ensures calls { (T.state talk.old).calls ≤ (T.state talk.new).calls }
    ensures faults { (T.state talk.old).faults ≤ (T.state talk.new).faults }
{
    if say_fixed(answer, talk) {
        return answer;
    }
    match message(alloc, &answer, name) {
        Ok(Some(line)) => {
            say_line(line.as_str(), talk);
            answer
        }
        Ok(None) => answer,
        Err(_) => {
            say_fixed(Answer::NoMemory, talk);
            Answer::NoMemory
        }
    }
}

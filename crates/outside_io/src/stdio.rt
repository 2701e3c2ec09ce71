//! A sink over one of the outputs of the program.
ghost use Rattle.std.specs.Prelude.{◌≡◌, OnOk, OnErr, None};
ghost use Rattle.std.specs.Io.KnownBytes.{Appends};
ghost use Rattle.outside_io.specs.Counts.{RisesBy};
ghost use Rattle.outside_io.specs.States.{sink_state};
ghost use Rattle.outside_io.specs.Writing.{AppendsPrefix};

use crate::counts::Count;
use crate::faults::Failed;
use crate::sinks::Sink;
use std::io::Write;

/// A sink over one of the program's outputs, as standard output. It tells nothing of what was
/// written.
///
/// A failure of the writer is a fault, and so is a write that takes nothing of what is left.
#[derive(Drop)]
pub struct StdSink<W> {
    writer: W,
    calls: Count,
    faults: Count,
}

impl<W: Write + Drop> StdSink<W> {
    /// A sink over a writer, with both counts at 0.
    pub fn make(writer: W) -> StdSink<W>
        ensures writer { result.writer ≡ writer }
        ensures calls { result.calls.times ≡ 0 }
        ensures faults { result.faults.times ≡ 0 }
    {
        StdSink {
            writer,
            calls: Count::zero(),
            faults: Count::zero(),
        }
    }
}

/// Hands all of the bytes to a writer, or a first part.
fn write_through<W: Write>(writer: &mut W, bytes: &[u8]) -> Result<(), Failed>
    ensures ok { OnOk result (Appends (W.contents writer.old) (W.contents writer.new) bytes.now) }
    ensures part { OnErr result
        (AppendsPrefix (W.contents writer.old) (W.contents writer.new) bytes.now) }
{
    let mut rest = bytes;
    while !rest.is_empty() {
        match writer.write(rest) {
            Ok(0) | Err(_) => return Err(Failed),
            Ok(count) => rest = &rest[count..],
        }
    }
    writer.flush().map_err(|_error| Failed)
}

impl<W: Write + Drop> Sink for StdSink<W> {
    ghost state = { λ sink. sink_state None sink.calls sink.faults };

    fn write(&mut self, bytes: &[u8]) -> Result<(), Failed>
        ensures called { RisesBy 1 self.old.calls.times self.new.calls.times }
        ensures ok { OnOk result (self.new.faults.times ≡ self.old.faults.times) }
        ensures failed { OnErr result (RisesBy 1 self.old.faults.times self.new.faults.times) }

        // What the writer holds, where it says so.
        ensures all { OnOk result
            (Appends (W.contents self.old.writer) (W.contents self.new.writer) bytes.now) }
        ensures part { OnErr result
            (AppendsPrefix (W.contents self.old.writer) (W.contents self.new.writer) bytes.now) }
    {
        self.calls.rise();
        let answer = write_through(&mut self.writer, bytes);
        if answer.is_err() {
            self.faults.rise();
        }
        answer
    }

    ghost counts_fit = { λ sink. record { calls = sink.calls.fits; faults = sink.faults.fits } };
}

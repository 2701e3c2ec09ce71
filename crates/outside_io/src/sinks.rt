//! What bytes are written to: a sink counts its calls and its faults, and where it tells what was
//! written, each answer is tied to that.
ghost use Rattle.std.specs.Prelude.{◌≡◌, ◌≤◌, OnOk, OnErr};
ghost use Rattle.std.specs.Io.KnownBytes.{Appends};
ghost use Rattle.outside_io.specs.Counts.{Rose, RisesBy};
ghost use Rattle.outside_io.specs.States.{SinkState, SinkCountsFit};
ghost use Rattle.outside_io.specs.Writing.{AppendsPrefix};

use crate::faults::Failed;

/// A place that bytes are written to.
///
/// Its meaning is one state: the bytes written, where it tells them, and two counts that never fall
/// and stand still at 2^64 - 1: its calls and its faults.
pub trait Sink {
    ghost state: { Self → SinkState };

    /// Writes all of the bytes. At a `Failed`, which comes only where a fault was counted, the sink
    /// has taken a first part of them.
    fn write(&mut self, bytes: &[u8]) -> Result<(), Failed>
        ensures called { RisesBy 1 (state self.old).calls (state self.new).calls }
        ensures faults { (state self.old).faults ≤ (state self.new).faults }
        ensures ok { OnOk result
            (Appends (state self.old).written (state self.new).written bytes.now) }
        ensures failed { OnErr result (Rose (state self.old).faults (state self.new).faults) }
        ensures part { OnErr result
            (AppendsPrefix (state self.old).written (state self.new).written bytes.now) };

    ghost counts_fit: { (sink : Self) → SinkCountsFit (state sink) };
}

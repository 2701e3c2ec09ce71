//! A sink in memory, with room of its own, whose failures are listed.
ghost use Rattle.std.specs.Prelude.{◌≡◌, ◌+◌, ◌<◌, ◌≤◌, ◌⊎◌, ◌++◌, [], length, vec_len};
ghost use Rattle.std.specs.Prelude.{vec_capacity, Contains, OnOk, OnErr, IsErr, Some};
ghost use Rattle.outside_io.specs.Counts.{RisesBy};
ghost use Rattle.outside_io.specs.States.{sink_state};

use crate::counts::Count;
use crate::faults::Failed;
use crate::sinks::Sink;
use items::Items;
use micro_num::NoMemory;
use std::alloc::Global;

/// A sink in memory that tells what was written, and fails exactly at the listed calls and at a
/// write of more bytes than it has room for.
///
/// Room is a number of its own, 0 at first, which `reserve` makes greater: so a write takes no
/// memory.
#[derive(Drop)]
pub struct MemSink {
    bytes: Vec<u8>,
    room: u64,
    failing: Items<u64>,
    calls: Count,
    faults: Count,
    ghost reserved: { vec_len bytes + room ≤ vec_capacity bytes },
}

impl MemSink {
    /// An empty sink with no room and both counts at 0. Its calls are counted from 1, and those
    /// that `failing` lists fail.
    pub fn make(alloc: Global, failing: Items<u64>) -> MemSink
        ensures bytes { result.bytes.items ≡ [] }
        ensures room { result.room ≡ 0 }
        ensures failing { result.failing ≡ failing }
        ensures calls { result.calls.times ≡ 0 }
        ensures faults { result.faults.times ≡ 0 }
    {
        MemSink {
            bytes: Vec::new(alloc),
            room: 0,
            failing,
            calls: Count::zero(),
            faults: Count::zero(),
        }
    }

    /// Makes the room greater by a number of bytes, or leaves all as it is.
    pub fn reserve(&mut self, bytes: u64) -> Result<(), NoMemory>
        ensures ok { OnOk result (self.new.room ≡ self.old.room + bytes) }
        ensures err { OnErr result (self.new.room ≡ self.old.room) }
        ensures written { self.new.bytes.items ≡ self.old.bytes.items }
        ensures failing { self.new.failing ≡ self.old.failing }
        ensures calls { self.new.calls ≡ self.old.calls }
        ensures faults { self.new.faults ≡ self.old.faults }
    {
        let Some(room) = self.room.checked_add(bytes) else {
            return Err(NoMemory);
        };
        self.bytes.reserve(room as usize)?;
        self.room = room;
        Ok(())
    }

    /// What was written.
    pub fn written(&self) -> &[u8]
        ensures { result.now ≡ self.now.bytes.items }
    {
        self.bytes.as_slice()
    }
}

impl Sink for MemSink {
    ghost state = { λ sink. sink_state (Some sink.bytes.items) sink.calls sink.faults };

    fn write(&mut self, bytes: &[u8]) -> Result<(), Failed>
        ensures called { RisesBy 1 self.old.calls.times self.new.calls.times }
        ensures failing { self.new.failing ≡ self.old.failing }

        // A write fails exactly at the listed calls and past the room, and then takes nothing.
        ensures listed { Contains self.old.failing self.new.calls.times → IsErr result }
        ensures past_room { self.old.room < length bytes.now → IsErr result }
        ensures cause { OnErr result (Contains self.old.failing self.new.calls.times
            ⊎ (self.old.room < length bytes.now)) }
        ensures failed { OnErr result (RisesBy 1 self.old.faults.times self.new.faults.times) }
        ensures nothing { OnErr result (self.new.bytes.items ≡ self.old.bytes.items) }
        ensures room_kept { OnErr result (self.new.room ≡ self.old.room) }

        ensures ok { OnOk result (self.new.bytes.items ≡ self.old.bytes.items ++ bytes.now) }
        ensures room { OnOk result (self.new.room + length bytes.now ≡ self.old.room) }
        ensures faultless { OnOk result (self.new.faults.times ≡ self.old.faults.times) }
    {
        self.calls.rise();
        let count = bytes.len() as u64;
        if self.failing.as_slice().contains(&self.calls.times()) {
            self.faults.rise();
            return Err(Failed);
        }
        if count > self.room {
            self.faults.rise();
            return Err(Failed);
        }
        self.room -= count;
        self.bytes.extend_from_slice(bytes).map_err(|_error| Failed)
    }

    ghost counts_fit = { λ sink. record { calls = sink.calls.fits; faults = sink.faults.fits } };
}

//! Where the bytes of a file go: they are counted, and kept where they are wanted. So the same
//! functions give a file's length, without taking memory, and then its bytes.
use micro_num::NoMemory;
use std::alloc::{AllocError, Global};
use std::marker::Model;

/// How many bytes were put, and the bytes themselves where they are kept.
#[derive(Drop)]
pub(crate) struct Output {
    kept: bool,
    length: u64,
    bytes: Vec<u8>,
}

impl Model for Output {
    ghost use Rattle.dvi_write.specs.Output.{Output as Grown};

    ghost Value = { Grown };

    ghost view = { λ o. record { kept = o.kept; length = o.length; bytes = o.bytes.items } };
}

impl Output {
    ghost use Rattle.std.specs.Prelude.{◌≡◌, ◌+◌, [], true, false, OnOk, IfOk};
    ghost use Rattle.dvi_write.specs.Output.{grown};

    /// One that counts alone.
    pub fn counting(alloc: Global) -> Output
        ensures { result ≡ record { kept = false; length = 0; bytes = [] } }
    {
        Output {
            kept: false,
            length: 0,
            bytes: Vec::new(alloc),
        }
    }

    /// One that keeps the bytes, with room for so many.
    pub fn keeping(alloc: Global, room: usize) -> Result<Output, AllocError>
        ensures { IfOk result (λ out. out ≡ record { kept = true; length = 0; bytes = [] }) }
    {
        Ok(Output {
            kept: true,
            length: 0,
            bytes: Vec::with_capacity(alloc, room)?,
        })
    }

    /// Puts more bytes. A count that passes 2^64 - 1 is want of memory.
    #[inline(always)]
    #[tactic(auto, unfolding(crate::specs::Output::grown))]
    pub fn put(&mut self, more: &[u8]) -> Result<(), NoMemory>
        ensures { OnOk result (self.new ≡ grown self.old more.now) }
    {
        let Some(length) = self.length.checked_add(more.len() as u64) else {
            return Err(NoMemory);
        };
        if self.kept {
            self.bytes.extend_from_slice(more)?;
        }
        self.length = length;
        Ok(())
    }

    /// Counts more bytes, where none are kept. A count that passes 2^64 - 1 is want of memory.
    pub fn count(&mut self, more: u64) -> Result<(), NoMemory>
        requires { self.old.kept ≡ false }
        ensures kept { OnOk result (self.new.kept ≡ false) }
        ensures length { OnOk result (self.new.length ≡ self.old.length + more) }
        ensures bytes { OnOk result (self.new.bytes ≡ self.old.bytes) }
    {
        let Some(length) = self.length.checked_add(more) else {
            return Err(NoMemory);
        };
        self.length = length;
        Ok(())
    }

    /// Whether the bytes are kept.
    pub fn keeps(&self) -> bool
        ensures { result ≡ self.now.kept }
    {
        self.kept
    }

    /// How many bytes were put.
    pub fn length(&self) -> u64
        ensures { result ≡ self.now.length }
    {
        self.length
    }

    /// The bytes that were kept.
    pub fn into_bytes(self) -> Vec<u8>
        ensures { result.items ≡ self.bytes }
    {
        let Output {
            kept: _,
            length: _,
            bytes,
        } = self;
        bytes
    }
}

//! A paragraph as far as it was read: its parts, the current font and the open groups.
ghost use Rattle.job_reading.specs.Reading.{Gives};
ghost use Rattle.std.specs.Prelude.{◌≡◌, ◌+◌, ◌<◌, ◌≤◌, ◌^◌, length, OnOk};
ghost use Rattle.job_text.specs.Parts.{add_part, with_current, require_font};
ghost use Rattle.job_text.specs.PlainParts.{plain_parts, add_parts};

use crate::groups::Groups;
use crate::plain::with_plain;
use items::Items;
use job_reading::{Fault, JobFaultKind, PlainText, Token};
use micro_num::{NoMemory, Part, PartAt};
use std::alloc::Global;

/// A paragraph as far as it was read.
#[derive(Drop)]
pub(crate) struct Setting {
    pub parts: Items<PartAt>,
    /// The current font, None before one was selected.
    pub current: Option<u32>,
    pub groups: Groups,
}

impl Setting {
    /// One more part.
    #[inline(always)]
    pub(crate) fn add(&mut self, offset: u32, part: Part) -> Result<(), NoMemory>
        ensures { OnOk result (self.new ≡ add_part self.old offset part) }
    {
        self.parts.push(PartAt { offset, part })?;
        Ok(())
    }

    /// The parts of plain text.
    pub(crate) fn add_plain(&mut self, alloc: Global, text: PlainText) -> Result<(), NoMemory>
        requires within { text.from + text.count ≤ length text.bytes.now }
        requires small { length text.bytes.now < 2 ^ 32 }
        ensures { OnOk result (self.new ≡ add_parts self.old
            (plain_parts text.entry.bytes.now text.entry.from text.entry.count)) }
    {
        let parts = std::mem::replace(&mut self.parts, Items::new(alloc));
        self.parts = with_plain(parts, text)?;
        Ok(())
    }

    /// A Font part of the current font, if there is one.
    pub(crate) fn add_current(&mut self, offset: u32) -> Result<(), NoMemory>
        ensures { OnOk result (self.new ≡ with_current self.old offset) }
    {
        match self.current {
            Some(font) => self.add(offset, Part::Font { font }),
            None => Ok(()),
        }
    }

    /// That there is a current font, which a part that begins with a token needs.
    #[inline(always)]
    pub(crate) fn require_font(&self, token: Token) -> Result<(), Fault>
        ensures { Gives (λ x. x) result (require_font self.now token.from) }
    {
        match self.current {
            Some(_) => Ok(()),
            None => Err(token.fault(JobFaultKind::NoFont)),
        }
    }
}

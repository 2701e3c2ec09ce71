//! The groups that are open in a paragraph, as the save stack of TeX keeps them (TeX: The Program,
//! part 19), as far as the current font goes.
ghost use Rattle.job_reading.specs.Reading.{Gives};
ghost use Rattle.std.specs.Prelude.{◌≡◌, [], ◌∷◌, OnOk, MatchOption, option_copied, slice_get};

use job_reading::{Fault, JobFaultKind};
use micro_num::NoMemory;
use std::alloc::Global;
use std::marker::Model;

/// An open group: the font that comes back where it closes, and the place of its brace.
#[derive(Clone, Copy, Debug)]
pub(crate) struct Group {
    pub font: Option<u32>,
    pub brace: u32,
}

/// The groups that are open, the innermost first.
#[derive(Drop)]
pub(crate) struct Groups {
    stack: Vec<Group>,
}

impl Model for Groups {
    ghost use Rattle.std.specs.Prelude.{List, reverse};
    ghost use Rattle.job_text.specs.declared.groups.Group.{Group};

    ghost Value = { List Group };

    ghost view = { λ g. reverse g.stack.items };
}

impl Groups {
    ghost use Rattle.job_text.specs.Paragraphs.{no_open_group};

    pub(crate) fn new(alloc: Global) -> Groups
        ensures { result ≡ [] }
    {
        Groups {
            stack: Vec::new(alloc),
        }
    }

    /// Opens a group.
    pub(crate) fn open(&mut self, group: Group) -> Result<(), NoMemory>
        ensures { OnOk result (self.new ≡ group ∷ self.old) }
    {
        self.stack.push(group)?;
        Ok(())
    }

    /// Closes the innermost group, if there is one.
    pub(crate) fn close(&mut self) -> Option<Group>
        ensures { MatchOption result (self.old ≡ []) (λ group. self.old ≡ group ∷ self.new) }
    {
        self.stack.pop()
    }

    /// That no group is open. The fault is at the brace of the innermost one.
    pub(crate) fn no_open_group(&self) -> Result<(), Fault>
        ensures { Gives (λ x. x) result (no_open_group self.now) }
    {
        match self.stack.last() {
            Some(group) => Err(Fault {
                offset: group.brace,
                kind: JobFaultKind::UnclosedGroup,
            }),
            None => Ok(()),
        }
    }
}

//! The font words of a job, which are looked up by their names.
ghost use Rattle.std.specs.Prelude.{◌≡◌, ◌+◌, ◌-◌, ◌<◌, ◌≤◌, ◌++◌, ◌∷◌, [], length, slice_range};
ghost use Rattle.std.specs.Prelude.{position, OnOk, IfSome};
ghost use Rattle.std.specs.Str.{bytes_eq};
ghost use Rattle.job_text.specs.Names.{font_named};

use items::Items;
use micro_num::NoMemory;
use std::alloc::Global;
use std::marker::Model;

/// The most fonts of a job.
pub(crate) const MOST_FONTS: usize = 32;

/// The font words of a job, in the order of declaration, without their backslashes.
#[derive(Drop)]
pub(crate) struct Names {
    list: Vec<Items<u8>>,
}

impl Model for Names {
    ghost use Rattle.std.specs.Prelude.{List, ℕ, ◌≤◌, vec_len};

    ghost Value = { List (List ℕ) };

    ghost view = { λ n. n.list.items };

    ghost invariant = { λ n. vec_len n.list ≤ 32 };
}

impl Names {
    pub(crate) fn new(alloc: Global) -> Names
        ensures { result ≡ [] }
    {
        Names {
            list: Vec::new(alloc),
        }
    }

    /// How many there are, at most 32.
    pub(crate) fn len(&self) -> usize
        ensures count { result ≡ length self.now }
        ensures few { result ≤ 32 }
    {
        self.list.len()
    }

    /// The font that a name stands for.
    pub(crate) fn find(&self, name: &[u8]) -> Option<u32>
        ensures found { result ≡ font_named self.now name.now }
        ensures declared { IfSome result (λ font. font < length self.now) }
    {
        for (font, own) in self.list.iter().enumerate() {
            if own.as_slice() == name {
                return Some(font as u32);
            }
        }
        None
    }

    /// One more font word.
    pub(crate) fn push(&mut self, name: Items<u8>) -> Result<(), NoMemory>
        requires { length self.old < 32 }
        ensures { OnOk result (self.new ≡ self.old ++ name ∷ []) }
    {
        self.list.push(name)?;
        Ok(())
    }
}

//! The glyphs of the symbols before the cursor, in a list whose memory is kept.

ghost use Rattle.std.specs.Prelude.{◌≡◌, [], ◌∷◌, ◌++◌, OnOk};

use crate::glyph::Glyph;
use items::Items;
use std::alloc::{AllocFailed, Global};
use std::marker::Model;

/// Glyphs in order: a `Vec` that is emptied and filled again.
#[derive(Drop)]
pub struct Glyphs {
    list: Vec<Glyph>,
}

impl Model for Glyphs {
    ghost use Rattle.std.specs.Prelude.{List};
    ghost use Rattle.lig_kern.specs.declared.glyph.Glyph.{Glyph};

    ghost Value = { List Glyph };

    ghost view = { λ a. a.list.items };
}

impl Glyphs {
    /// No glyphs. It takes no memory.
    pub fn new(alloc: Global) -> Glyphs
        ensures { result ≡ [] }
    {
        Glyphs {
            list: Vec::new(alloc),
        }
    }

    /// Takes all glyphs out, and keeps the memory.
    pub fn clear(&mut self)
        ensures { self.new ≡ [] }
    {
        self.list.clear();
    }

    /// Puts a glyph at the end.
    pub fn push(&mut self, glyph: Glyph) -> Result<(), AllocFailed<Glyph>>
        ensures { OnOk result (self.new ≡ self.old ++ glyph ∷ []) }
    {
        self.list.push(glyph)
    }

    /// The glyphs as a slice.
    pub fn as_slice(&self) -> &[Glyph]
        ensures { result.now ≡ self.now }
    {
        self.list.as_slice()
    }

    /// The glyphs as a list to keep, without taking memory.
    pub fn into_items(self) -> Items<Glyph>
        ensures { result ≡ self }
    {
        let Glyphs { list } = self;
        Items::from_vec(list)
    }
}

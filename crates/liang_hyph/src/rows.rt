//! Tables of patterns: the values at the places of each list of letters.
ghost use Rattle.std.specs.Prelude.{◌≡◌, [], IfOk, OnOk, true};
ghost use Rattle.std.specs.Map.{lookup};
ghost use Rattle.std.specs.Option.{option_copied};
ghost use Rattle.std.specs.Str.{bytes_eq};
ghost use Rattle.indexmap.specs.IndexMap.{insert_entry};
ghost use Rattle.liang_hyph.specs.Table.{row, row_if};

use indexmap::IndexMap;
use items::Items;
use micro_num::NoMemory;
use std::alloc::Global;
use std::marker::Model;

/// Rows of numbers, each under its letters.
#[derive(Drop)]
pub(crate) struct Rows {
    map: IndexMap<Vec<u8>, Items<u8>>,
}

impl Model for Rows {
    ghost use Rattle.std.specs.Prelude.{List, ℕ, map as map_list};

    ghost Value = { List (List ℕ × List ℕ) };

    ghost view = { λ r. map_list (λ e. (e.0.items, e.1)) r.map.entries };
}

impl Rows {
    pub(crate) fn new(alloc: Global) -> Rows
        ensures { result ≡ [] }
    {
        Rows {
            map: IndexMap::new(alloc),
        }
    }

    /// Whether there are no rows.
    pub(crate) fn is_empty(&self) -> bool
        ensures { result ≡ true → self.now ≡ [] }
    {
        self.map.is_empty()
    }

    /// The row under the letters, if there is one.
    pub(crate) fn find(&self, letters: &[u8]) -> Option<&[u8]>
        ensures { option_copied result ≡ lookup (bytes_eq letters.now) self.now }
    {
        match self.map.get(letters) {
            Some(found) => Some(found.as_slice()),
            None => None,
        }
    }

    /// The row under the letters, empty where there is none.
    pub(crate) fn row(&self, letters: &[u8]) -> &[u8]
        ensures { result.now ≡ row self.now letters.now }
    {
        match self.find(letters) {
            Some(found) => found,
            None => &[],
        }
    }

    /// The row under the letters where they fit, else an empty one.
    pub(crate) fn row_if(&self, fits: bool, letters: &[u8]) -> &[u8]
        ensures { result.now ≡ row_if fits self.now letters.now }
    {
        if fits { self.row(letters) } else { &[] }
    }

    /// Puts a row under the letters, in the place of what was there.
    pub(crate) fn put(
        &mut self,
        alloc: Global,
        letters: &[u8],
        row: Items<u8>,
    ) -> Result<(), NoMemory>
        ensures { OnOk result (self.new ≡ insert_entry bytes_eq self.old letters.now row) }
    {
        let key = Vec::from_slice(alloc, letters)?;
        self.map.insert(key, row)?;
        Ok(())
    }
}

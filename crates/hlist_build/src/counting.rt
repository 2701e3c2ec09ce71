//! Whether a paragraph has more parts or items than it may, those in discretionaries counted.
ghost use Rattle.std.specs.Prelude.{◌≡◌, ◌+◌, ◌<◌, ◌↔◌, IsTrue, MatchOption};
ghost use Rattle.hlist.specs.Counts.{entry_count, item_weight, item_count};
ghost use Rattle.hlist_build.specs.Counts.{part_weight, part_count};

use hlist::Item;
use micro_num::{Disc, Part, PartAt};

/// How many parts and items a paragraph may have.
const MOST_ITEMS: usize = 16384;

/// What is left of some room behind an entry and its lists, if it has that room.
fn behind_lists<T>(room: usize, lists: &Disc<T>) -> Option<usize>
    ensures { MatchOption result (room < 1 + entry_count lists.now)
        (λ left. left + (1 + entry_count lists.now) ≡ room) }
{
    let left = room.checked_sub(1)?;
    let left = left.checked_sub(lists.pre().len())?;
    let left = left.checked_sub(lists.post().len())?;
    left.checked_sub(lists.whole().len())
}

/// What is left of some room behind a part.
fn behind_part(room: usize, part: &Part) -> Option<usize>
    ensures { MatchOption result (room < part_weight part.now)
        (λ left. left + part_weight part.now ≡ room) }
{
    match part {
        Part::Disc { lists } => behind_lists(room, lists),
        _ => room.checked_sub(1),
    }
}

/// What is left of some room behind an item.
fn behind_item(room: usize, item: &Item) -> Option<usize>
    ensures { MatchOption result (room < item_weight item.now)
        (λ left. left + item_weight item.now ≡ room) }
{
    match item {
        Item::Disc { lists } => behind_lists(room, lists),
        _ => room.checked_sub(1),
    }
}

/// Whether there are more than 16,384 parts.
pub fn has_many_parts(parts: &[PartAt]) -> bool
    ensures { IsTrue result ↔ (16384 < part_count parts.now) }
{
    let mut room = MOST_ITEMS;
    for one in parts {
        match behind_part(room, &one.part) {
            Some(left) => room = left,
            None => return true,
        }
    }
    false
}

/// Whether there are more than 16,384 items.
pub fn has_many_items(items: &[Item]) -> bool
    ensures { IsTrue result ↔ (16384 < item_count items.now) }
{
    let mut room = MOST_ITEMS;
    for item in items {
        match behind_item(room, item) {
            Some(left) => room = left,
            None => return true,
        }
    }
    false
}

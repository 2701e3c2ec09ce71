//! The items of a word with discretionaries at its hyphen places (TeX: The Program, sections 903 to
//! 918).
ghost use Rattle.std.specs.Prelude.{◌≡◌, ◌+◌, ◌≤◌, ◌++◌, length, false, OnOk};
ghost use Rattle.std.specs.List.{flat_map};
ghost use Rattle.hlist_hyph.specs.Pieces.{hyphening, own, unless_taken, pieces};
ghost use Rattle.hlist_hyph.specs.Words.{letters};

use crate::joining::push_joint;
use crate::letters::letter_count;
use crate::setting::Setting;
use crate::splitting::own;
use font_stock::Font;
use hlist::Item;
use items::Items;
use micro_num::NoMemory;
use std::alloc::Global;

/// Puts what an item becomes into a list, unless it stands in the discretionary before it.
fn push_own(
    alloc: Global,
    list: &mut Items<Item>,
    font: &Font,
    setting: &Setting,
    from: usize,
    taken: bool,
    item: &Item,
) -> Result<(), NoMemory>
    requires { from + length (letters item.now) ≤ 63 }
    ensures { OnOk result (list.new ≡ list.old ++ unless_taken taken
        (own (hyphening font.now setting.now) from item.now)) }
{
    if !taken {
        list.push(own(alloc, font, setting, from, item)?)?;
    }
    Ok(())
}

/// Puts the items of a word of at most 63 letters into a list, with discretionaries.
pub fn push_pieces(
    alloc: Global,
    list: &mut Items<Item>,
    font: &Font,
    setting: &Setting,
    items: &[Item],
) -> Result<(), NoMemory>
    requires { length (flat_map letters items.now) ≤ 63 }
    ensures { OnOk result (list.new ≡ list.old
        ++ pieces (hyphening font.now setting.now) 0 false items.now) }
{
    let mut from = 0;
    let mut taken = false;
    for (k, item) in items.iter().enumerate() {
        let end = from + letter_count(item);
        push_own(alloc, list, font, setting, from, taken, item)?;
        taken = push_joint(alloc, list, font, setting, end, item, &items[k + 1..])?;
        from = end;
    }
    Ok(())
}

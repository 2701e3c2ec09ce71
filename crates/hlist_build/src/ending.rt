//! The end of a paragraph's list (TeX: The Program, section 816).
ghost use Rattle.std.specs.Prelude.{◌≡◌, ◌-◌, length, false, IfOk, OnOk, slice_get};
ghost use Rattle.std.specs.Option.{option_map_or};
ghost use Rattle.hlist_build.specs.Paragraph.{is_glue, without_last_glue, ended};

use hlist::Item;
use items::Items;
use micro_num::Glue;
use std::alloc::AllocError;

/// Whether the last of some items is a glue.
fn ends_in_glue(items: &[Item]) -> bool
    ensures { result ≡ option_map_or is_glue (slice_get items.now (length items.now - 1)) false }
{
    match items.last() {
        Some(Item::Glue { .. }) => true,
        _ => false,
    }
}

/// Takes the last of some items away where that is a glue.
fn drop_last_glue(items: &mut Vec<Item>)
    ensures { items.new.items ≡ without_last_glue items.old.items }
{
    if ends_in_glue(items.as_slice()) {
        items.pop();
    }
}

/// The list that ends in a place where no line ends, and parfillskip, in place of a last glue.
#[tactic(auto, unfolding(crate::specs::Paragraph::ended))]
pub fn end_list(list: Items<Item>, parfillskip: Glue) -> Result<Items<Item>, AllocError>
    ensures { IfOk result (λ whole. whole ≡ ended parfillskip list) }
{
    let mut items = list.into_vec();
    drop_last_glue(&mut items);
    items.push(Item::Penalty { value: 10000 })?;
    items.push(Item::Glue { glue: parfillskip })?;
    Ok(Items::from_vec(items))
}

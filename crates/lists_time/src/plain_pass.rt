//! A plain pass that pushes items, to measure others by.
use hlist::{Item, Sub};
use items::Items;
use micro_num::Disc;
use std::alloc::{AllocError, Global};

/// A list of the same items. A discretionary's lists are left empty.
pub fn copied(alloc: Global, items: &[Item]) -> Result<Items<Item>, AllocError> {
    let mut list = Items::from_vec(Vec::with_capacity(alloc, items.len())?);
    for item in items {
        push_copy(alloc, &mut list, item)?;
    }
    Ok(list)
}

/// Pushes a copy of an item.
fn push_copy(alloc: Global, list: &mut Items<Item>, item: &Item) -> Result<(), AllocError> {
    match item {
        Item::Char { font, code } => {
            let (font, code) = (*font, *code);
            list.push(Item::Char { font, code })?;
        }
        Item::Lig { font, code, covers } => {
            let (font, code) = (*font, *code);
            let covers = Items::from_slice(alloc, covers.as_slice())?;
            list.push(Item::Lig { font, code, covers })?;
        }
        Item::FontKern { width, left } => {
            let (width, left) = (*width, *left);
            list.push(Item::FontKern { width, left })?;
        }
        Item::Kern { width } => list.push(Item::Kern { width: *width })?,
        Item::Glue { glue } => list.push(Item::Glue { glue: *glue })?,
        Item::Penalty { value } => list.push(Item::Penalty { value: *value })?,
        Item::Disc { lists: _lists } => push_disc(alloc, list)?,
        Item::Box { width } => list.push(Item::Box { width: *width })?,
    }
    Ok(())
}

fn push_disc(alloc: Global, list: &mut Items<Item>) -> Result<(), AllocError> {
    let none: Items<Sub> = Items::new(alloc);
    let lists = Disc::new(alloc, none, Items::new(alloc), Items::new(alloc))?;
    list.push(Item::Disc { lists })?;
    Ok(())
}

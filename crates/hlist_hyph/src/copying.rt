//! Copies of items, whose types aren't `Copy`.
ghost use Rattle.std.specs.Prelude.{◌≡◌, ◌++◌, ◌∷◌, [], IfOk, OnOk};

use hlist::{HList, Item, Sub};
use items::Items;
use micro_num::Disc;
use std::alloc::{AllocError, Global};

/// A copy of an entry of a discretionary's list.
fn copy_sub(alloc: Global, sub: &Sub) -> Result<Sub, AllocError>
    ensures { IfOk result (λ twin. twin ≡ sub.now) }
{
    match sub {
        Sub::Char { font, code } => Ok(Sub::Char {
            font: *font,
            code: *code,
        }),
        Sub::Lig { font, code, covers } => Ok(Sub::Lig {
            font: *font,
            code: *code,
            covers: Items::from_slice(alloc, covers.as_slice())?,
        }),
        Sub::FontKern { width, left } => Ok(Sub::FontKern {
            width: *width,
            left: *left,
        }),
    }
}

/// A copy of a discretionary's list.
fn copy_subs(alloc: Global, subs: &[Sub]) -> Result<Items<Sub>, AllocError>
    ensures { IfOk result (λ twin. twin ≡ subs.now) }
{
    Items::from_copies(alloc, subs, |sub: &Sub| copy_sub(alloc, sub))
}

/// A copy of a discretionary.
fn copy_disc(alloc: Global, lists: &Disc<Sub>) -> Result<Disc<Sub>, AllocError>
    ensures { IfOk result (λ twin. twin ≡ lists.now) }
{
    let pre = copy_subs(alloc, lists.pre())?;
    let post = copy_subs(alloc, lists.post())?;
    let whole = copy_subs(alloc, lists.whole())?;
    Disc::new(alloc, pre, post, whole)
}

/// A copy of an item.
pub fn copy_item(alloc: Global, item: &Item) -> Result<Item, AllocError>
    ensures { IfOk result (λ twin. twin ≡ item.now) }
{
    match item {
        Item::Char { font, code } => Ok(Item::Char {
            font: *font,
            code: *code,
        }),
        Item::Lig { font, code, covers } => Ok(Item::Lig {
            font: *font,
            code: *code,
            covers: Items::from_slice(alloc, covers.as_slice())?,
        }),
        Item::FontKern { width, left } => Ok(Item::FontKern {
            width: *width,
            left: *left,
        }),
        Item::Kern { width } => Ok(Item::Kern { width: *width }),
        Item::Glue { glue } => Ok(Item::Glue { glue: *glue }),
        Item::Penalty { value } => Ok(Item::Penalty { value: *value }),
        Item::Disc { lists } => Ok(Item::Disc {
            lists: copy_disc(alloc, lists)?,
        }),
        Item::Box { width } => Ok(Item::Box { width: *width }),
    }
}

/// Puts a copy of an item at the end of a list. An item that owns no memory is made in its place.
fn push_copy(alloc: Global, list: &mut Items<Item>, item: &Item) -> Result<(), AllocError>
    ensures { OnOk result (list.new ≡ list.old ++ item.now ∷ []) }
{
    match item {
        Item::Char { font, code } => list.push(Item::Char {
            font: *font,
            code: *code,
        })?,
        Item::FontKern { width, left } => list.push(Item::FontKern {
            width: *width,
            left: *left,
        })?,
        Item::Glue { glue } => list.push(Item::Glue { glue: *glue })?,
        _ => list.push(copy_item(alloc, item)?)?,
    }
    Ok(())
}

/// Puts copies of items at the end of a list.
pub fn push_copies(alloc: Global, list: &mut Items<Item>, items: &[Item]) -> Result<(), AllocError>
    ensures { OnOk result (list.new ≡ list.old ++ items.now) }
{
    for item in items {
        push_copy(alloc, list, item)?;
    }
    Ok(())
}

/// A copy of a list.
pub fn copied(alloc: Global, list: &HList) -> Result<HList, AllocError>
    ensures { IfOk result (λ twin. twin ≡ list.now) }
{
    let mut items = Items::from_vec(Vec::with_capacity(alloc, list.items.len())?);
    push_copies(alloc, &mut items, list.items.as_slice())?;
    Ok(HList { items })
}

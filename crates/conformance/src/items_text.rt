//! The items of a horizontal list, printed.
use hlist::{Item, KernLeft, Sub};
use items::Items;
use micro_num::{Disc, Glue};
use std::alloc::{AllocError, Global};

/// The items of a list, joined by spaces.
pub fn items_text(alloc: Global, items: &[Item]) -> Result<String, AllocError> {
    let mut text = String::new(alloc);
    for item in items {
        if !text.is_empty() {
            text.push(' ')?;
        }
        text.push_str(item_text(alloc, item)?.as_str())?;
    }
    Ok(text)
}

fn item_text(alloc: Global, item: &Item) -> Result<String, AllocError> {
    match item {
        Item::Char { font, code } => format!(in alloc; "C{font},{code}"),
        Item::Lig { font, code, covers } => lig_text(alloc, *font, *code, covers),
        Item::FontKern { width, left } => kern_text(alloc, *width, *left),
        Item::Kern { width } => format!(in alloc; "K{width}"),
        Item::Glue { glue } => glue_text(alloc, *glue),
        Item::Penalty { value } => format!(in alloc; "P{value}"),
        Item::Disc { lists } => disc_text(alloc, lists),
        Item::Box { width } => format!(in alloc; "B{width}"),
    }
}

/// A ligature: its font, its code, and in hexadecimal what it stands for.
fn lig_text(alloc: Global, font: u32, code: u8, covers: &Items<u8>) -> Result<String, AllocError> {
    let mut text = format!(in alloc; "L{font},{code}:")?;
    if covers.as_slice().is_empty() {
        text.push('-')?;
    }
    for covered in covers.as_slice() {
        text.push_str(format!(in alloc; "{covered:02x}")?.as_str())?;
    }
    Ok(text)
}

/// A font kern, and what it expands with, if anything.
fn kern_text(alloc: Global, width: i32, left: Option<KernLeft>) -> Result<String, AllocError> {
    match left {
        None => format!(in alloc; "F{width}"),
        Some(KernLeft { font, code, fix }) => format!(in alloc; "F{width}:{font},{code},{fix}"),
    }
}

fn glue_text(alloc: Global, glue: Glue) -> Result<String, AllocError> {
    let width = glue.width;
    let stretch = glue.stretch;
    let order = glue.order;
    let shrink = glue.shrink;
    format!(in alloc; "G{width},{stretch},{order},{shrink}")
}

/// A discretionary: what stands before a break, after it, and where there is none.
fn disc_text(alloc: Global, lists: &Disc<Sub>) -> Result<String, AllocError> {
    let pre = subs_text(alloc, lists.pre())?;
    let post = subs_text(alloc, lists.post())?;
    let whole = subs_text(alloc, lists.whole())?;
    format!(in alloc; "D[{pre}|{post}|{whole}]")
}

fn subs_text(alloc: Global, subs: &[Sub]) -> Result<String, AllocError> {
    let mut text = String::new(alloc);
    for sub in subs {
        if !text.is_empty() {
            text.push('/')?;
        }
        text.push_str(sub_text(alloc, sub)?.as_str())?;
    }
    Ok(text)
}

fn sub_text(alloc: Global, sub: &Sub) -> Result<String, AllocError> {
    match sub {
        Sub::Char { font, code } => format!(in alloc; "C{font},{code}"),
        Sub::Lig { font, code, covers } => lig_text(alloc, *font, *code, covers),
        Sub::FontKern { width, left } => kern_text(alloc, *width, *left),
    }
}

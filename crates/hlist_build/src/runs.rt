//! What a run and a discretionary of a paragraph give, or why they give nothing (TeX: The Program,
//! sections 1032 to 1040, and 1117).
ghost use Rattle.std.specs.Prelude.{◌≡◌, ◌<◌, ◌^◌, ◌⊎◌, [], ◌∷◌, ◌++◌, length, Ok, Err, IfOk, IfErr, OnOk};
ghost use Rattle.std.specs.Option.{ForSome};
ghost use Rattle.hlist_build.specs.Given.{behind};
ghost use Rattle.hlist_build.specs.Parts.{run_codes, offset_at};
ghost use Rattle.hlist_build.specs.Runs.{run_fault, disc_fault, run_given, run_in, list_given, disc_given, disc_in, hyphen_disc, hyphen_in, hyphen_sub};
ghost use Rattle.hlist_build.specs.declared.fault.ParFault.TheVariants.{NoMemory};

use crate::current::Current;
use crate::fault::ParFault;
use crate::glyphs::{push_glyphs, push_plain};
use font_stock::{Font, Stock};
use hlist::{Item, Sub};
use hlist_runs::subs_of;
use items::Items;
use lig_kern::{LigFault, Workspace, is_plain};
use micro_num::{Disc, PartAt};
use std::alloc::{AllocError, Global};

/// Where a part begins in the source.
fn offset_at(parts: &[PartAt], number: u32) -> u32
    ensures { result ≡ offset_at parts.now number }
{
    match parts.get(number as usize) {
        Some(one) => one.offset,
        None => 0,
    }
}

/// Why the run that some parts begin with has no items.
fn run_fault(parts: &[PartAt], fault: LigFault) -> ParFault
    ensures { result ≡ run_fault parts.now fault }
{
    match fault {
        LigFault::Missing { index } => ParFault::MissingChar {
            offset: offset_at(parts, index),
        },
        LigFault::TooManySteps => ParFault::LigTooLong {
            offset: offset_at(parts, 0),
        },
        LigFault::NoMemory => ParFault::NoMemory,
    }
}

/// Why a list of the discretionary at an offset has no items.
fn disc_fault(offset: u32, fault: LigFault) -> ParFault
    ensures { result ≡ disc_fault offset fault }
{
    match fault {
        LigFault::Missing { .. } => ParFault::MissingChar { offset },
        LigFault::TooManySteps => ParFault::LigTooLong { offset },
        LigFault::NoMemory => ParFault::NoMemory,
    }
}

/// Puts the run that some parts begin with, whose codes these are, into a list.
fn push_run_in(
    alloc: Global,
    work: &mut Workspace,
    list: &mut Items<Item>,
    number: u32,
    font: &Font,
    codes: &[u8],
    parts: &[PartAt],
) -> Result<(), ParFault>
    requires few { length codes.now < 2 ^ 20 }
    requires codes { codes.now ≡ run_codes parts.now }
    ensures ok { OnOk result
        (behind list.old (run_given number font.now parts.now) ≡ Ok list.new) }
    ensures err { IfErr result (λ fault.
        (run_given number font.now parts.now ≡ Err fault) ⊎ (fault ≡ NoMemory)) }
{
    if is_plain(font.tfm(), codes, true, true) {
        push_plain(alloc, list, number, font, codes)?;
        return Ok(());
    }
    match work.run(font.tfm(), codes, true, true) {
        Ok(()) => {
            push_glyphs(alloc, list, number, font, codes, work.glyphs())?;
            Ok(())
        }
        Err(fault) => Err(run_fault(parts, fault)),
    }
}

/// Puts the run that some parts begin with, whose codes these are, into a list, where there is a
/// font for it.
pub fn push_run(
    alloc: Global,
    work: &mut Workspace,
    list: &mut Items<Item>,
    stock: &Stock,
    current: Option<Current>,
    codes: &[u8],
    parts: &[PartAt],
) -> Result<(), ParFault>
    requires few { length codes.now < 2 ^ 20 }
    requires codes { codes.now ≡ run_codes parts.now }
    requires font { ForSome current (λ now. now.font < length stock.now) }
    ensures ok { OnOk result
        (behind list.old (run_in stock.now current parts.now) ≡ Ok list.new) }
    ensures err { IfErr result (λ fault.
        (run_in stock.now current parts.now ≡ Err fault) ⊎ (fault ≡ NoMemory)) }
{
    match current {
        Some(now) => {
            let font = stock.font(now.font);
            push_run_in(alloc, work, list, now.font, font, codes, parts)
        }
        None => Ok(()),
    }
}

/// A list of the discretionary at an offset.
fn list_of(
    alloc: Global,
    work: &mut Workspace,
    number: u32,
    font: &Font,
    offset: u32,
    entries: &[u8],
) -> Result<Items<Sub>, ParFault>
    requires few { length entries.now < 2 ^ 20 }
    ensures { (result ≡ list_given number font.now offset entries.now) ⊎ (result ≡ Err NoMemory) }
{
    match work.run(font.tfm(), entries, true, true) {
        Ok(()) => {
            let subs = subs_of(alloc, number, font, entries, work.glyphs())?;
            Ok(subs)
        }
        Err(fault) => Err(disc_fault(offset, fault)),
    }
}

/// Puts a discretionary at an offset into a list.
fn push_disc_in(
    alloc: Global,
    work: &mut Workspace,
    list: &mut Items<Item>,
    number: u32,
    font: &Font,
    offset: u32,
    lists: &Disc<u8>,
) -> Result<(), ParFault>
    requires pre { length lists.now.pre < 2 ^ 20 }
    requires post { length lists.now.post < 2 ^ 20 }
    requires whole { length lists.now.whole < 2 ^ 20 }
    ensures ok { OnOk result
        (behind list.old (disc_given number font.now offset lists.now) ≡ Ok list.new) }
    ensures err { IfErr result (λ fault.
        (disc_given number font.now offset lists.now ≡ Err fault) ⊎ (fault ≡ NoMemory)) }
{
    let pre = list_of(alloc, work, number, font, offset, lists.pre())?;
    let post = list_of(alloc, work, number, font, offset, lists.post())?;
    let whole = list_of(alloc, work, number, font, offset, lists.whole())?;
    let lists = Disc::new(alloc, pre, post, whole)?;
    list.push(Item::Disc { lists })?;
    Ok(())
}

/// Puts a discretionary at an offset into a list, where there is a font for it.
pub fn push_disc(
    alloc: Global,
    work: &mut Workspace,
    list: &mut Items<Item>,
    stock: &Stock,
    current: Option<Current>,
    offset: u32,
    lists: &Disc<u8>,
) -> Result<(), ParFault>
    requires pre { length lists.now.pre < 2 ^ 20 }
    requires post { length lists.now.post < 2 ^ 20 }
    requires whole { length lists.now.whole < 2 ^ 20 }
    requires font { ForSome current (λ now. now.font < length stock.now) }
    ensures ok { OnOk result
        (behind list.old (disc_in stock.now current offset lists.now) ≡ Ok list.new) }
    ensures err { IfErr result (λ fault.
        (disc_in stock.now current offset lists.now ≡ Err fault) ⊎ (fault ≡ NoMemory)) }
{
    match current {
        Some(now) => {
            let font = stock.font(now.font);
            push_disc_in(alloc, work, list, now.font, font, offset, lists)
        }
        None => Ok(()),
    }
}

/// The list with the font's hyphen character, if it has one.
fn hyphen_sub(alloc: Global, number: u32, hyphen: Option<u8>) -> Result<Items<Sub>, AllocError>
    ensures { IfOk result (λ subs. subs ≡ hyphen_sub number hyphen) }
{
    let mut subs = Items::new(alloc);
    if let Some(code) = hyphen {
        subs.push(Sub::Char { font: number, code })?;
    }
    Ok(subs)
}

/// Puts a place at which a word may be hyphenated into a list.
fn push_hyphen_in(
    alloc: Global,
    list: &mut Items<Item>,
    number: u32,
    font: &Font,
) -> Result<(), ParFault>
    ensures ok { OnOk result (list.new ≡ list.old ++ hyphen_disc number font.now ∷ []) }
    ensures err { IfErr result (λ fault. fault ≡ NoMemory) }
{
    let pre = hyphen_sub(alloc, number, font.hyphen_code())?;
    let lists = Disc::new(alloc, pre, Items::new(alloc), Items::new(alloc))?;
    list.push(Item::Disc { lists })?;
    Ok(())
}

/// Puts a place at which a word may be hyphenated into a list, where there is a font for it.
pub fn push_hyphen(
    alloc: Global,
    list: &mut Items<Item>,
    stock: &Stock,
    current: Option<Current>,
) -> Result<(), ParFault>
    requires font { ForSome current (λ now. now.font < length stock.now) }
    ensures ok { OnOk result (behind list.old (hyphen_in stock.now current) ≡ Ok list.new) }
    ensures err { IfErr result (λ fault. fault ≡ NoMemory) }
{
    match current {
        Some(now) => push_hyphen_in(alloc, list, now.font, stock.font(now.font)),
        None => Ok(()),
    }
}

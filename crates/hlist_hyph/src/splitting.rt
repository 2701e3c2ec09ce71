//! A place inside a ligature (TeX: The Program, sections 903 to 918).
ghost use Rattle.std.specs.Prelude.{◌≡◌, ◌+◌, ◌<◌, ◌≤◌, ◌^◌, ◌++◌, ◌∷◌, [], Some, length, IfOk};
ghost use Rattle.hlist_hyph.specs.Pieces.{hyphening, run_of, broken, split, own};
ghost use Rattle.hlist_hyph.specs.Words.{letters};

use crate::copying::copy_item;
use crate::places::first_inside;
use crate::setting::Setting;
use font_stock::Font;
use hlist::{Item, Sub};
use hlist_runs::run_subs;
use items::Items;
use lig_kern::LigFault;
use micro_num::{Disc, NoMemory};
use std::alloc::{AllocError, Global};

/// The list that a run gives, where the run has an end.
pub fn run_of(
    alloc: Global,
    font: &Font,
    setting: &Setting,
    codes: &[u8],
    left: bool,
    right: bool,
) -> Result<Option<Items<Sub>>, NoMemory>
    requires { length codes.now < 2 ^ 20 }
    ensures { IfOk result (λ list. list
        ≡ run_of (hyphening font.now setting.now) codes.now left right) }
{
    match run_subs(alloc, setting.number, font, codes, left, right) {
        Ok(subs) => Ok(Some(subs)),
        Err(LigFault::NoMemory) => Err(NoMemory),
        Err(LigFault::TooManySteps) => Ok(None),
        Err(LigFault::Missing { .. }) => Ok(None),
    }
}

/// A ligature of a font as a discretionary, where both lists are there.
fn broken(
    alloc: Global,
    font: u32,
    code: u8,
    covers: &[u8],
    pre: Option<Items<Sub>>,
    post: Option<Items<Sub>>,
) -> Result<Item, AllocError>
    ensures { IfOk result (λ item. item ≡ broken font code covers.now pre post) }
{
    let covers = Items::from_slice(alloc, covers)?;
    match pre {
        Some(pre) => match post {
            Some(post) => {
                let mut whole = Items::new(alloc);
                whole.push(Sub::Lig { font, code, covers })?;
                let lists = Disc::new(alloc, pre, post, whole)?;
                Ok(Item::Disc { lists })
            }
            None => Ok(Item::Lig { font, code, covers }),
        },
        None => Ok(Item::Lig { font, code, covers }),
    }
}

/// Some codes and a hyphen character.
fn with_hyphen(alloc: Global, codes: &[u8], hyphen: u8) -> Result<Vec<u8>, AllocError>
    requires { length codes.now ≤ 63 }
    ensures { IfOk result (λ all. all.items ≡ codes.now ++ hyphen ∷ []) }
{
    let mut all = Vec::with_capacity(alloc, codes.len() + 1)?;
    all.extend_from_slice(codes)?;
    all.push(hyphen)?;
    Ok(all)
}

/// A ligature with a place behind its first `n` letters.
fn split(
    alloc: Global,
    font: &Font,
    setting: &Setting,
    number: u32,
    code: u8,
    covers: &[u8],
    n: usize,
) -> Result<Item, NoMemory>
    requires inside { n ≤ length covers.now }
    requires few { length covers.now ≤ 63 }
    ensures { IfOk result (λ item. item
        ≡ split (hyphening font.now setting.now) number code covers.now (Some n)) }
{
    let first = with_hyphen(alloc, &covers[..n], setting.hyphen)?;
    let pre = run_of(alloc, font, setting, &first, false, true)?;
    let post = run_of(alloc, font, setting, &covers[n..], true, false)?;
    let item = broken(alloc, number, code, covers, pre, post)?;
    Ok(item)
}

/// What an item of a word becomes with `from` letters before it.
pub fn own(
    alloc: Global,
    font: &Font,
    setting: &Setting,
    from: usize,
    item: &Item,
) -> Result<Item, NoMemory>
    requires { from + length (letters item.now) ≤ 63 }
    ensures { IfOk result (λ made. made
        ≡ own (hyphening font.now setting.now) from item.now) }
{
    if let Item::Lig {
        font: number,
        code,
        covers,
    } = item
    {
        let covers = covers.as_slice();
        if let Some(n) = first_inside(setting.places.as_slice(), from, covers.len()) {
            return split(alloc, font, setting, *number, *code, covers, n);
        }
    }
    let same = copy_item(alloc, item)?;
    Ok(same)
}

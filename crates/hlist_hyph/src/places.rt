//! The hyphen places of a word, and those that stand inside a ligature.
ghost use Rattle.std.specs.Prelude.{◌≡◌, ◌+◌, ◌<◌, ◌≤◌, ◌^◌, ◌++◌, length, map, IfOk, OnOk, IfSome};
ghost use Rattle.std.specs.List.{flat_map};
ghost use Rattle.liang_hyph.specs.Table.{places_read};
ghost use Rattle.hlist_hyph.specs.Hyphenated.{lower_word, places_in};
ghost use Rattle.hlist_hyph.specs.Pieces.{is_place, first_inside};
ghost use Rattle.hlist_hyph.specs.Words.{letters, lower};

use hlist::Item;
use liang_hyph::Patterns;
use micro_num::{NoMemory, Params, Tables};
use std::alloc::{AllocError, Global};

/// Whether a place is one of some.
pub fn is_place(places: &[u8], at: usize) -> bool
    ensures { result ≡ is_place places.now at }
{
    for place in places {
        if usize::from(*place) == at {
            return true;
        }
    }
    false
}

/// How many of `count` letters, with `from` letters before them, stand before the first place
/// inside them.
pub fn first_inside(places: &[u8], from: usize, count: usize) -> Option<usize>
    requires { from + count < 2 ^ 32 }
    ensures exact { result ≡ first_inside places.now from count }
    ensures inside { IfSome result (λ n. n < count) }
{
    for n in 1..count {
        if is_place(places, from + n) {
            return Some(n);
        }
    }
    None
}

/// Puts the lower-case letters of an item behind others.
fn push_lower(word: &mut Vec<u8>, tables: &Tables, item: &Item) -> Result<(), AllocError>
    ensures { OnOk result
        (word.new.items ≡ word.old.items ++ map (lower tables.now) (letters item.now)) }
{
    match item {
        Item::Char { code, .. } => word.push(tables.lccode[*code as usize])?,
        Item::Lig { covers, .. } => push_lower_codes(word, tables, covers.as_slice())?,
        _ => (),
    }
    Ok(())
}

/// Puts the lower-case letters of codes behind others.
fn push_lower_codes(word: &mut Vec<u8>, tables: &Tables, codes: &[u8]) -> Result<(), AllocError>
    ensures { OnOk result
        (word.new.items ≡ word.old.items ++ map (lower tables.now) codes.now) }
{
    for code in codes {
        word.push(tables.lccode[*code as usize])?;
    }
    Ok(())
}

/// The lower-case letters of a word.
fn lower_word(alloc: Global, tables: &Tables, items: &[Item]) -> Result<Vec<u8>, AllocError>
    ensures { IfOk result (λ word. word.items ≡ lower_word tables.now items.now) }
{
    let mut word = Vec::with_capacity(alloc, 64)?;
    for item in items {
        push_lower(&mut word, tables, item)?;
    }
    Ok(word)
}

/// The places at which a word may be hyphenated.
pub fn word_places(
    alloc: Global,
    params: &Params,
    tables: &Tables,
    patterns: &Patterns,
    items: &[Item],
) -> Result<Vec<u8>, NoMemory>
    requires { length (flat_map letters items.now) ≤ 63 }
    ensures { IfOk result (λ places. places.items
        ≡ places_in patterns.now params.now (lower_word tables.now items.now)) }
{
    let word = lower_word(alloc, tables, items)?;
    if word.is_empty() {
        return Ok(word);
    }
    patterns.places(alloc, &word, params.lefthyphenmin, params.righthyphenmin)
}

//! Lists that have no word to be hyphenated (TeX: The Program, sections 891 to 902).
ghost use Rattle.std.specs.Prelude.{◌≡◌, ◌≤◌, ◌<◌, length, take, drop, All, IfOk, IfSome, false};
ghost use Rattle.hlist_hyph.specs.Hyphenated.{places_in, front, front_count};
ghost use Rattle.hlist_hyph.specs.Untouched.{Stays};
ghost use Rattle.hlist_hyph.specs.Words.{HasFontBelow};

use crate::places::word_places;
use crate::word::{passed, word_of};
use font_stock::Stock;
use hlist::{HList, Item};
use liang_hyph::Patterns;
use micro_num::{NoMemory, Params, Tables};
use std::alloc::Global;

/// How many items follow a glue up to the end of its word, where that has no hyphen place.
fn unchanged_front(
    alloc: Global,
    params: &Params,
    tables: &Tables,
    patterns: &Patterns,
    stock: &Stock,
    items: &[Item],
) -> Result<Option<usize>, NoMemory>
    requires { All (HasFontBelow (length stock.now)) items.now }
    ensures same { IfOk result (λ found. IfSome found (λ count. front tables.now stock.now
        (places_in patterns.now params.now) items.now ≡ take count items.now)) }
    ensures exact { IfOk result (λ found. IfSome found (λ count.
        count ≡ front_count tables.now stock.now items.now)) }
    ensures within { IfOk result (λ found. IfSome found (λ count. count ≤ length items.now)) }
{
    let passed = passed(tables, items);
    let rest = &items[passed..];
    match word_of(tables, stock, rest) {
        Some(word) => {
            let count = word.count;
            let places = word_places(alloc, params, tables, patterns, &rest[..count])?;
            if places.is_empty() {
                Ok(Some(passed + count))
            } else {
                Ok(None)
            }
        }
        None => Ok(Some(passed)),
    }
}

/// How many items stay at the front of some: the first one, and behind a glue what follows it up to
/// the end of its word, where that has no hyphen place.
fn unchanged_start(
    alloc: Global,
    params: &Params,
    tables: &Tables,
    patterns: &Patterns,
    stock: &Stock,
    items: &[Item],
) -> Result<Option<usize>, NoMemory>
    requires some { 0 < length items.now }
    requires fonts { All (HasFontBelow (length stock.now)) items.now }
    ensures same { IfOk result (λ found. IfSome found (λ count.
        let places = places_in patterns.now params.now in
        Stays tables.now stock.now places (drop count items.now)
        → Stays tables.now stock.now places items.now)) }
    ensures some { IfOk result (λ found. IfSome found (λ count. 1 ≤ count)) }
    ensures within { IfOk result (λ found. IfSome found (λ count. count ≤ length items.now)) }
{
    match &items[0] {
        Item::Glue { .. } => {
            match unchanged_front(alloc, params, tables, patterns, stock, &items[1..])? {
                Some(count) => Ok(Some(1 + count)),
                None => Ok(None),
            }
        }
        _ => Ok(Some(1)),
    }
}

/// Whether some items have a word behind a glue that has a hyphen place.
fn has_places(
    alloc: Global,
    items: &[Item],
    params: &Params,
    tables: &Tables,
    patterns: &Patterns,
    stock: &Stock,
) -> Result<bool, NoMemory>
    requires { All (HasFontBelow (length stock.now)) items.now }
    ensures { IfOk result (λ has. has ≡ false
        → Stays tables.now stock.now (places_in patterns.now params.now) items.now) }
{
    let mut at = 0;
    while at < items.len() {
        match unchanged_start(alloc, params, tables, patterns, stock, &items[at..])? {
            Some(count) => at += count,
            None => return Ok(true),
        }
    }
    Ok(false)
}

/// Whether hyphenating may change a list, where the fonts are in the stock: whether one of its
/// words has a hyphen place. Where it may not, the hyphenated list is the list. It fails only for
/// want of memory.
pub fn is_changed(
    alloc: Global,
    list: &HList,
    params: &Params,
    tables: &Tables,
    patterns: &Patterns,
    stock: &Stock,
) -> Result<bool, NoMemory>
    requires { All (HasFontBelow (length stock.now)) list.now.items }
    ensures { IfOk result (λ changed. changed ≡ false
        → Stays tables.now stock.now (places_in patterns.now params.now) list.now.items) }
{
    if patterns.is_empty() {
        return Ok(false);
    }
    has_places(
        alloc,
        list.items.as_slice(),
        params,
        tables,
        patterns,
        stock,
    )
}

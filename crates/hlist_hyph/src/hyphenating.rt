//! A list with its words hyphenated (TeX: The Program, sections 891 to 918).
ghost use Rattle.std.specs.Prelude.{◌≡◌, ◌≤◌, ◌<◌, ◌++◌, length, All, IfOk, OnOk, ℕ, Bool};
ghost use Rattle.std.specs.List.{flat_map};
ghost use Rattle.hlist.specs.Bounds.{IsSmall, IsInBounds, IsListOf};
ghost use Rattle.hlist_hyph.specs.Fonts.{Passes};
ghost use Rattle.hlist_hyph.specs.Hyphenated.{places_in, word_items, front, front_count};
ghost use Rattle.hlist_hyph.specs.Hyphenated.{hyphenated_items};
ghost use Rattle.hlist_hyph.specs.Words.{letters, HasFontBelow};

use crate::copying::{copy_item, push_copies};
use crate::pieces::push_pieces;
use crate::places::word_places;
use crate::setting::Setting;
use crate::word::{Word, passed, word_of};
use font_stock::Stock;
use hlist::{HList, Item};
use items::Items;
use liang_hyph::Patterns;
use micro_num::{NoMemory, Params, Tables};
use std::alloc::Global;

/// Puts the items of a word into a list, hyphenated.
fn push_word(
    alloc: Global,
    list: &mut Items<Item>,
    params: &Params,
    tables: &Tables,
    patterns: &Patterns,
    stock: &Stock,
    word: Word,
    items: &[Item],
) -> Result<(), NoMemory>
    requires font { word.number < length stock.now }
    requires few { length (flat_map letters items.now) ≤ 63 }
    ensures { OnOk result (list.new ≡ list.old ++ word_items tables.now stock.now
        (places_in patterns.now params.now) word items.now) }
{
    let places = Items::from_vec(word_places(alloc, params, tables, patterns, items)?);
    if places.len() == 0 {
        push_copies(alloc, list, items)?;
        return Ok(());
    }
    let setting = Setting {
        number: word.number,
        hyphen: word.hyphen,
        places,
    };
    push_pieces(alloc, list, stock.font(word.number), &setting, items)
}

/// Puts what follows a glue up to the end of its word into a list, and tells how many items that
/// was.
fn push_front(
    alloc: Global,
    list: &mut Items<Item>,
    params: &Params,
    tables: &Tables,
    patterns: &Patterns,
    stock: &Stock,
    items: &[Item],
) -> Result<usize, NoMemory>
    requires { All (HasFontBelow (length stock.now)) items.now }
    ensures put { OnOk result (list.new ≡ list.old ++ front tables.now stock.now
        (places_in patterns.now params.now) items.now) }
    ensures exact { IfOk result (λ count. count ≡ front_count tables.now stock.now items.now) }
    ensures within { IfOk result (λ count. count ≤ length items.now) }
{
    let passed = passed(tables, items);
    push_copies(alloc, list, &items[..passed])?;
    let rest = &items[passed..];
    match word_of(tables, stock, rest) {
        Some(word) => {
            let count = word.count;
            push_word(
                alloc,
                list,
                params,
                tables,
                patterns,
                stock,
                word,
                &rest[..count],
            )?;
            Ok(passed + count)
        }
        None => Ok(passed),
    }
}

/// The items of a list with the words hyphenated that follow a glue.
fn hyphenated_items(
    alloc: Global,
    items: &[Item],
    params: &Params,
    tables: &Tables,
    patterns: &Patterns,
    stock: &Stock,
) -> Result<Items<Item>, NoMemory>
    requires { All (HasFontBelow (length stock.now)) items.now }
    ensures { IfOk result (λ made. made ≡ hyphenated_items tables.now stock.now
        (places_in patterns.now params.now) items.now) }
{
    let mut list = Items::from_vec(Vec::with_capacity(alloc, items.len())?);
    let mut at = 0;
    while at < items.len() {
        let item = &items[at];
        list.push(copy_item(alloc, item)?)?;
        at += 1;
        if let Item::Glue { .. } = item {
            at += push_front(
                alloc,
                &mut list,
                params,
                tables,
                patterns,
                stock,
                &items[at..],
            )?;
        }
    }
    Ok(list)
}

/// A small list with each word hyphenated that follows a glue, where the fonts are in the stock.
///
/// A search from each glue passes font kerns and what isn't a letter. The word that it comes to has
/// at most 63 letters of one font, and is hyphenated where a glue, a penalty or a kern follows it,
/// after more text of any kind, and the font has a hyphen character. Its places are those of the
/// patterns for its lower-case letters. A place between two characters or ligatures, or with a font
/// kern between them, gets a discretionary; so does the first place inside a ligature, in place of
/// it. It fails only for want of memory.
pub fn hyphenated(
    alloc: Global,
    list: &HList,
    params: &Params,
    tables: &Tables,
    patterns: &Patterns,
    stock: &Stock,
) -> Result<HList, NoMemory>
    requires small { IsSmall list.now }
    requires fonts { All (HasFontBelow (length stock.now)) list.now.items }
    ensures exact { IfOk result (λ made. made.items ≡ hyphenated_items tables.now stock.now
        (places_in patterns.now params.now) list.now.items) }
    ensures bounds { IfOk result IsInBounds }
    ensures own { IsListOf stock.now list.now → IfOk result (IsListOf stock.now) }
    ensures fonts { (test : ℕ → Bool) → All (Passes test) list.now.items
        → IfOk result (λ made. All (Passes test) made.items) }
{
    let items = list.items.as_slice();
    let items = hyphenated_items(alloc, items, params, tables, patterns, stock)?;
    Ok(HList { items })
}

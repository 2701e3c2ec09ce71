//! The letters of items (TeX: The Program, sections 891 to 898).
ghost use Rattle.std.specs.Prelude.{◌≡◌, ◌<◌, ◌≤◌, ◌++◌, [], length, IfOk, OnOk, map};
ghost use Rattle.std.specs.List.{flat_map, list_all};
ghost use Rattle.hlist_hyph.specs.Words.{letters, font_of, lower, is_letter, is_passed, is_of};
ghost use Rattle.hlist_hyph.specs.Words.{joins, is_text, ends_word, begins_with_letter};
ghost use Rattle.hlist_hyph.specs.Pieces.{covers_letters, code_of};

use hlist::Item;
use micro_num::Tables;

/// Whether a code is a letter.
fn is_letter(tables: &Tables, code: u8) -> bool
    ensures { result ≡ is_letter tables.now code }
{
    tables.lccode[code as usize] != 0
}

/// Whether the first of some codes is a letter.
fn begins_with_letter(tables: &Tables, codes: &[u8]) -> bool
    ensures { result ≡ begins_with_letter tables.now codes.now }
{
    match codes.first() {
        Some(code) => is_letter(tables, *code),
        None => false,
    }
}

/// Whether all codes are letters.
fn are_letters(tables: &Tables, codes: &[u8]) -> bool
    ensures { result ≡ list_all (is_letter tables.now) codes.now }
{
    for code in codes {
        if !is_letter(tables, *code) {
            return false;
        }
    }
    true
}

/// How many letters an item stands for.
pub fn letter_count(item: &Item) -> usize
    ensures { result ≡ length (letters item.now) }
{
    match item {
        Item::Char { .. } => 1,
        Item::Lig { covers, .. } => covers.len(),
        _ => 0,
    }
}

/// The font of a character or a ligature.
pub fn font_of(item: &Item) -> Option<u32>
    ensures { result ≡ font_of item.now }
{
    match item {
        Item::Char { font, .. } | Item::Lig { font, .. } => Some(*font),
        _ => None,
    }
}

/// The code of a character or a ligature.
pub fn code_of(item: &Item) -> Option<u8>
    ensures { result ≡ code_of item.now }
{
    match item {
        Item::Char { code, .. } | Item::Lig { code, .. } => Some(*code),
        _ => None,
    }
}

/// Whether a search for a word passes an item.
pub fn is_passed(tables: &Tables, item: &Item) -> bool
    ensures { result ≡ is_passed tables.now item.now }
{
    match item {
        Item::Char { code, .. } => !is_letter(tables, *code),
        Item::Lig { covers, .. } => !begins_with_letter(tables, covers.as_slice()),
        Item::FontKern { .. } => true,
        _ => false,
    }
}

/// Whether a word in a font that has room for so many letters goes on with an item.
pub fn joins(tables: &Tables, number: u32, room: usize, item: &Item) -> bool
    ensures { result ≡ joins tables.now number room item.now }
{
    match item {
        Item::Char { font, code } => *font == number && is_letter(tables, *code) && 1 <= room,
        Item::Lig { font, covers, .. } => {
            *font == number && are_letters(tables, covers.as_slice()) && covers.len() <= room
        }
        Item::FontKern { .. } => true,
        _ => false,
    }
}

/// Whether an item is passed behind a word.
pub fn is_text(item: &Item) -> bool
    ensures { result ≡ is_text item.now }
{
    match item {
        Item::Char { .. } | Item::Lig { .. } | Item::FontKern { .. } => true,
        _ => false,
    }
}

/// Whether a word may be hyphenated that an item follows.
pub fn ends_word(item: &Item) -> bool
    ensures { result ≡ ends_word item.now }
{
    match item {
        Item::Glue { .. } | Item::Penalty { .. } | Item::Kern { .. } => true,
        _ => false,
    }
}

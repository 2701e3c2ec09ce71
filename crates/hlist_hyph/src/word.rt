//! The word that follows a space (TeX: The Program, sections 891 to 899).
ghost use Rattle.std.specs.Prelude.{◌≡◌, ◌<◌, ◌≤◌, Some, length, All, IfSome, take};
ghost use Rattle.std.specs.List.{flat_map};
ghost use Rattle.hlist_hyph.specs.Words.{letters, passed, word_length, is_closed, word_of};
ghost use Rattle.hlist_hyph.specs.Words.{HasFontBelow, first_font, word_with};

use crate::letters::{ends_word, font_of, is_passed, is_text, joins, letter_count};
use font_stock::Stock;
use hlist::Item;
use micro_num::Tables;

/// How many letters a word has at most.
const MOST_LETTERS: usize = 63;

/// A word that is hyphenated.
#[derive(Clone, Copy, Debug, PartialEq, Eq)]
pub struct Word {
    /// The number of its font.
    pub number: u32,
    /// The font's hyphen character.
    pub hyphen: u8,
    /// How many items it has.
    pub count: usize,
}

/// How many items a search for a word passes.
pub fn passed(tables: &Tables, items: &[Item]) -> usize
    ensures exact { result ≡ passed tables.now items.now }
    ensures within { result ≤ length items.now }
{
    let mut count = 0;
    for item in items {
        if !is_passed(tables, item) {
            return count;
        }
        count += 1;
    }
    count
}

/// How many items belong to a word in a font.
fn word_length(tables: &Tables, number: u32, items: &[Item]) -> usize
    ensures exact { result ≡ word_length tables.now number 63 items.now }
    ensures within { result ≤ length items.now }
{
    let mut count = 0;
    let mut room = MOST_LETTERS;
    for item in items {
        if !joins(tables, number, room, item) {
            return count;
        }
        room -= letter_count(item);
        count += 1;
    }
    count
}

/// Whether a word may be hyphenated that items follow.
fn is_closed(items: &[Item]) -> bool
    ensures { result ≡ is_closed items.now }
{
    for item in items {
        if !is_text(item) {
            return ends_word(item);
        }
    }
    false
}

/// The font of the first of some items.
fn first_font(items: &[Item]) -> Option<u32>
    ensures { result ≡ first_font items.now }
{
    match items.first() {
        Some(item) => font_of(item),
        None => None,
    }
}

/// The word of a font with a hyphen character that items begin with, where they end it.
fn word_with(tables: &Tables, number: u32, hyphen: u8, items: &[Item]) -> Option<Word>
    ensures exact { result ≡ word_with tables.now number (Some hyphen) items.now }
    ensures within { IfSome result (λ word. word.count ≤ length items.now) }
    ensures font { IfSome result (λ word. word.number ≡ number) }
    ensures few { IfSome result (λ word.
        length (flat_map letters (take word.count items.now)) ≤ 63) }
{
    let count = word_length(tables, number, items);
    if is_closed(&items[count..]) {
        Some(Word {
            number,
            hyphen,
            count,
        })
    } else {
        None
    }
}

/// The word that is hyphenated of items that a search has come to.
pub fn word_of(tables: &Tables, stock: &Stock, items: &[Item]) -> Option<Word>
    requires { All (HasFontBelow (length stock.now)) items.now }
    ensures exact { result ≡ word_of tables.now stock.now items.now }
    ensures within { IfSome result (λ word. word.count ≤ length items.now) }
    ensures font { IfSome result (λ word. word.number < length stock.now) }
    ensures few { IfSome result (λ word.
        length (flat_map letters (take word.count items.now)) ≤ 63) }
{
    match first_font(items) {
        Some(number) => match stock.font(number).hyphen_code() {
            Some(hyphen) => word_with(tables, number, hyphen, items),
            None => None,
        },
        None => None,
    }
}

//! The programs of a font: where that of a symbol starts, and which of its words acts before a code
//! (TFM description, "lig_kern"; TeX: The Program, section 1039).

ghost use Rattle.std.specs.Prelude.{◌≡◌, ◌<◌, ◌≤◌, length};
ghost use Rattle.lig_kern.specs.Programs.{entry, character_program, program_of, acts_before, walk, acting_word};
ghost use Rattle.lig_kern.specs.Rewriting.{kern_of};

use crate::symbols::SymbolKind;
use tfm_read::{LigWord, Tfm};

/// Where the program of a character starts that is placed here.
fn entry(tfm: &Tfm, place: u16) -> usize
    requires { place < length tfm.now.ligs }
    ensures { result ≡ entry tfm.now.ligs place }
{
    let first = tfm.ligs.as_slice()[usize::from(place)];
    if first.skip > 128 {
        256 * usize::from(first.op) + usize::from(first.rest)
    } else {
        usize::from(place)
    }
}

/// Where the program of a code's character starts, if it has one.
pub fn character_program(tfm: &Tfm, code: u8) -> Option<usize>
    ensures { result ≡ character_program tfm.now code }
{
    match tfm.char_info(code).program {
        None => None,
        Some(place) => Some(entry(tfm, place)),
    }
}

/// Where the program of a symbol starts, if it has one.
#[tactic(auto, unfolding(crate::specs::Programs::program_of))]
fn program_of(tfm: &Tfm, kind: SymbolKind) -> Option<usize>
    ensures { result ≡ program_of tfm.now kind }
{
    match kind {
        SymbolKind::LeftBoundary => match tfm.left {
            None => None,
            Some(place) => Some(usize::from(place)),
        },
        SymbolKind::Character { code } | SymbolKind::Ligature { code } => {
            character_program(tfm, code)
        }
        SymbolKind::RightBoundary { .. } | SymbolKind::FontKern { .. } => None,
    }
}

/// Whether a word acts before a code.
fn acts_before(word: LigWord, code: u8) -> bool
    ensures { result ≡ acts_before word code }
{
    word.skip <= 128 && word.next == code
}

/// The word of the program from a place on that acts before a code. Each skip leads on, so a walk
/// looks at a word once at most.
pub fn walk(words: &[LigWord], start: usize, code: u8) -> Option<LigWord>
    ensures { result ≡ walk code start words.now }
{
    let mut place = start;
    while place < words.len() {
        let word = words[place];
        if acts_before(word, code) {
            return Some(word);
        }
        if word.skip >= 128 {
            return None;
        }
        place += usize::from(word.skip) + 1;
    }
    None
}

/// The word that acts between two symbols.
pub fn acting_word(tfm: &Tfm, current: SymbolKind, next: SymbolKind) -> Option<LigWord>
    ensures { result ≡ acting_word tfm.now current next }
{
    match (program_of(tfm, current), next.code()) {
        (Some(start), Some(code)) => walk(tfm.ligs.as_slice(), start, code),
        (Some(_), None) | (None, _) => None,
    }
}

/// The kern of a word whose op is 128 or more.
pub fn kern_of(tfm: &Tfm, word: LigWord) -> i32
    requires { 128 ≤ word.op }
    ensures { result ≡ kern_of tfm.now.kerns word }
{
    let number = 256 * (usize::from(word.op) - 128) + usize::from(word.rest);
    tfm.kerns.as_slice().get(number).copied().unwrap_or(0)
}

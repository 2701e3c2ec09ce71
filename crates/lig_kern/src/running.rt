//! A run from its codes to its glyphs: the list that it starts as, which is rewritten to its end or
//! to the limit of words that act (TFM description, "lig_kern"; TeX: The Program, sections 1032 to
//! 1040). What an earlier run left in the lists is taken out first, and their memory is used again.

ghost use Rattle.std.specs.Prelude.{◌≡◌, ℕ, ◌^◌, ◌<◌, [], length, Err, MatchOption, OnOk};
ghost use Rattle.lig_kern.specs.Running.{left_symbols, right_symbols, code_symbols, start_of, AllExist, IsFirstMissing, Answers, ComesTo, given};

use crate::fault::LigFault;
use crate::rewriting::Rewriting;
use crate::stack::Stack;
use crate::symbols::{Symbol, SymbolKind};
use micro_num::NoMemory;
use tfm_read::Tfm;

/// The number of the first code for which the font has no character.
fn first_missing(tfm: &Tfm, codes: &[u8]) -> Option<u32>
    requires { length codes.now < 2 ^ 20 }
    ensures { MatchOption result (AllExist tfm.now.chars codes.now)
        (IsFirstMissing tfm.now.chars codes.now) }
{
    for (index, code) in codes.iter().enumerate() {
        if !tfm.exists(*code) {
            return Some(index as u32);
        }
    }
    None
}

/// Puts the left boundary before a list, where it is asked for and the font has a program for it.
fn push_left(symbols: &mut Stack, tfm: &Tfm, left: bool) -> Result<(), NoMemory>
    ensures { OnOk result (symbols.new ≡ left_symbols left tfm.now.left symbols.old) }
{
    if left {
        if let Some(_) = tfm.left {
            let kind = SymbolKind::LeftBoundary;
            symbols.push(Symbol {
                kind,
                from: 0,
                to: 0,
            })?;
        }
    }
    Ok(())
}

/// Puts the right boundary after `end` codes before a list, where it is asked for and the font has
/// a character for it.
fn push_right(symbols: &mut Stack, tfm: &Tfm, right: bool, end: u32) -> Result<(), NoMemory>
    ensures { OnOk result (symbols.new ≡ right_symbols right tfm.now.right end symbols.old) }
{
    if right {
        if let Some(code) = tfm.right {
            let kind = SymbolKind::RightBoundary { code };
            symbols.push(Symbol {
                kind,
                from: end,
                to: end,
            })?;
        }
    }
    Ok(())
}

/// Puts the symbols of codes before a list.
fn push_codes(symbols: &mut Stack, codes: &[u8]) -> Result<(), NoMemory>
    requires { length codes.now < 2 ^ 20 }
    ensures { OnOk result (symbols.new ≡ code_symbols 0 codes.now symbols.old) }
{
    let mut at = codes.len();
    while at > 0 {
        at -= 1;
        let kind = SymbolKind::Character { code: codes[at] };
        let from = at as u32;
        symbols.push(Symbol {
            kind,
            from,
            to: from + 1,
        })?;
    }
    Ok(())
}

/// Makes the list that a run starts as, with the cursor at its head.
fn start(
    state: &mut Rewriting,
    tfm: &Tfm,
    codes: &[u8],
    left: bool,
    right: bool,
) -> Result<(), NoMemory>
    requires { length codes.now < 2 ^ 20 }
    ensures done { OnOk result (state.new.done ≡ []) }
    ensures ahead { OnOk result (state.new.ahead ≡ start_of tfm.now codes.now left right) }
{
    state.clear_for(codes.len() + 2)?;
    push_right(&mut state.ahead, tfm, right, codes.len() as u32)?;
    push_codes(&mut state.ahead, codes)?;
    push_left(&mut state.ahead, tfm, left)
}

/// Rewrites a list to its end, unless more words act than the limit. The cursor is at its head.
fn rewrite(state: &mut Rewriting, tfm: &Tfm, limit: usize) -> Result<(), LigFault>
    requires few { limit < 2 ^ 32 }
    requires head { state.old.done ≡ [] }
    ensures { ComesTo tfm.now state.old.ahead limit (given result state.new.done) }
{
    let mut acted = 0usize;
    while let Some(current) = state.ahead.pop() {
        acted += state.step(tfm, current)?;
        if acted > limit {
            return Err(LigFault::TooManySteps);
        }
    }
    Ok(())
}

/// Makes the glyphs of a run of fewer than 2^20 codes.
pub fn run_in(
    state: &mut Rewriting,
    tfm: &Tfm,
    codes: &[u8],
    left: bool,
    right: bool,
) -> Result<(), LigFault>
    requires { length codes.now < 2 ^ 20 }
    ensures answer { Answers tfm.now codes.now left right (given result state.new.done) }
    ensures missing { (index : ℕ) → IsFirstMissing tfm.now.chars codes.now index
        → given result state.new.done ≡ Err (LigFault.Missing index) }
{
    match first_missing(tfm, codes) {
        Some(index) => Err(LigFault::Missing { index }),
        None => {
            start(state, tfm, codes, left, right)?;
            rewrite(state, tfm, 256 * (codes.len() + 2))
        }
    }
}

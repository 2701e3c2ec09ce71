//! A file cut into tokens from its first byte on: each is the one that begins where the last ended
//! (TeX: The Program, section 343). A file is also looked through for its first fault alone, which
//! takes no memory.
ghost use Rattle.std.specs.Prelude.{◌≡◌, ◌≢◌, ℕ, ◌+◌, ◌<◌, ◌≤◌, ◌^◌, List, length, slice_index};
ghost use Rattle.std.specs.Prelude.{MatchResult, MatchOption};
ghost use Rattle.job_lex.specs.Tokens.{category_at, IsToken, AreTokens, HasTokens, IsFirstFault};
ghost use Rattle.job_lex.specs.Tokens.{IsStop};
ghost use Rattle.job_lex.specs.Answers.{IsAnswer, GivesTokens, GivesFault};
ghost use Rattle.job_lex.specs.declared.token.Tok.{Tok};
ghost use Rattle.job_lex.specs.declared.fault.LexFaultKind.{LexFaultKind};
ghost use Rattle.job_lex.specs.declared.category.Category.TheVariants.{Escape, Letter};

use crate::category::{Category, category_of};
use crate::fault::{LexFault, LexFaultKind};
use crate::gap::gap_at;
use crate::plain::plain_at;
use crate::plain_text::plain_end;
use crate::token::{Tok, TokKind};
use items::Items;
use std::alloc::Global;

/// The tokens of a file, which adjoin and cover its bytes, or the first place outside comments
/// where no token begins.
pub fn tokens(alloc: Global, bytes: &[u8]) -> Result<Items<Tok>, LexFault>
    requires { length bytes.now < 2 ^ 32 }
    ensures answer { IsAnswer bytes.now result }
    // No other list is made of tokens that cover the bytes, so it is found unless memory runs out.
    ensures only { (toks : List Tok) → AreTokens bytes.now toks → GivesTokens result toks }
    // And a fault is found wherever there is one.
    ensures fault { (place : ℕ) (kind : LexFaultKind) → IsFirstFault bytes.now place kind →
        GivesFault result place kind }
{
    let mut toks = Vec::new(alloc);
    let mut place = 0;
    while place < bytes.len() {
        let tok = match token_at(bytes, place) {
            Ok(tok) => tok,
            Err(kind) => {
                return Err(LexFault::At {
                    offset: place as u32,
                    kind,
                });
            }
        };
        toks.push(tok)?;
        place = tok.to as usize;
    }
    Ok(Items::from_vec(toks))
}

/// The first place outside comments where no token begins, and why, if there is one. A file without
/// such a place has tokens, so that every file has tokens or a fault. Plain text is passed over.
pub fn first_fault(bytes: &[u8]) -> Option<(u32, LexFaultKind)>
    requires { length bytes.now < 2 ^ 32 }
    ensures { MatchOption result (HasTokens bytes.now) (λ x. IsFirstFault bytes.now x.0 x.1) }
{
    let mut place = plain_end(bytes, 0);
    while place < bytes.len() {
        match token_at(bytes, place) {
            Ok(tok) => place = plain_end(bytes, tok.to as usize),
            Err(kind) => return Some((place as u32, kind)),
        }
    }
    None
}

/// The token that begins at a place of a file of fewer than 2^32 bytes, or why none does. Plain
/// text, which most of a file is, comes first.
#[inline(always)]
pub(crate) fn token_at(bytes: &[u8], place: usize) -> Result<Tok, LexFaultKind>
    requires small { length bytes.now < 2 ^ 32 }
    requires inside { place < length bytes.now }
    ensures { MatchResult result (λ tok. (tok.from ≡ place) × IsToken bytes.now tok)
        (λ kind. IsStop bytes.now place kind) }
{
    match plain_at(bytes, place) {
        Some(tok) => Ok(tok),
        None => any_token_at(bytes, place),
    }
}

/// The same for any token, by the category of its first byte.
fn any_token_at(bytes: &[u8], place: usize) -> Result<Tok, LexFaultKind>
    requires small { length bytes.now < 2 ^ 32 }
    requires inside { place < length bytes.now }
    ensures { MatchResult result (λ tok. (tok.from ≡ place) × IsToken bytes.now tok)
        (λ kind. IsStop bytes.now place kind) }
{
    match category_of(bytes[place]) {
        Category::Blank | Category::Comment => Ok(gap_at(bytes, place)),
        Category::Escape => command_at(bytes, place),
        Category::BeginGroup => Ok(one(TokKind::Open, place)),
        Category::EndGroup => Ok(one(TokKind::Close, place)),
        Category::Active => Ok(one(TokKind::Tie, place)),
        Category::Letter | Category::Other => Ok(one(TokKind::Char, place)),
        Category::Special => Err(LexFaultKind::SpecialByte),
        Category::Invalid => Err(LexFaultKind::BadByte),
    }
}

/// A token of one byte.
#[inline(always)]
pub(crate) fn one(kind: TokKind, place: usize) -> Tok
    requires { place + 1 < 2 ^ 32 }
    ensures kind { result.kind ≡ kind }
    ensures from { result.from ≡ place }
    ensures to { result.to ≡ place + 1 }
{
    Tok {
        kind,
        from: place as u32,
        to: place as u32 + 1,
    }
}

/// The word or symbol that begins with the backslash at a place.
fn command_at(bytes: &[u8], place: usize) -> Result<Tok, LexFaultKind>
    requires small { length bytes.now < 2 ^ 32 }
    requires inside { place < length bytes.now }
    requires escape { category_at bytes.now place ≡ Escape }
    ensures { MatchResult result (λ tok. (tok.from ≡ place) × IsToken bytes.now tok)
        (λ kind. IsStop bytes.now place kind) }
{
    let second = place + 1;
    if second >= bytes.len() {
        return Err(LexFaultKind::LoneBackslash);
    }
    let byte = bytes[second];
    if category_of(byte) == Category::Letter {
        return Ok(Tok {
            kind: TokKind::Word,
            from: place as u32,
            to: letters_end(bytes, second) as u32,
        });
    }
    if byte < 32 {
        return Err(LexFaultKind::LoneBackslash);
    }
    if byte > 126 {
        return Err(LexFaultKind::LoneBackslash);
    }
    Ok(Tok {
        kind: TokKind::Symbol,
        from: place as u32,
        to: second as u32 + 1,
    })
}

/// The place behind the letters that begin at a place.
fn letters_end(bytes: &[u8], from: usize) -> usize
    requires inside { from < length bytes.now }
    requires letter { category_at bytes.now from ≡ Letter }
    ensures some { from < result }
    ensures within { result ≤ length bytes.now }
    ensures letters { (k : ℕ) → from ≤ k → k < result → category_at bytes.now k ≡ Letter }
    ensures behind { result < length bytes.now → category_at bytes.now result ≢ Letter }
{
    let mut to = from + 1;
    while to < bytes.len() && category_of(bytes[to]) == Category::Letter {
        to += 1;
    }
    to
}

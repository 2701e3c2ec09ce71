//! The groups of a discretionary, which hold codes (TeX: The Program, section 1117).
ghost use Rattle.job_reading.specs.Reading.{Reads, ReadsOrMemory, ChangesOrMemory};
ghost use Rattle.std.specs.Prelude.{◌≡◌, ◌<◌, ◌≤◌, [], length, IfOk};
ghost use Rattle.job_text.specs.Discretionaries.{is_character_symbol, code_at, code_step, group};
ghost use Rattle.job_reading.specs.Lexemes.{is_close};
ghost use Rattle.job_reading.specs.Repeats.{read_until};

use crate::braces::{close_brace, open_brace};
use items::Items;
use job_reading::{Fault, JobFault, JobFaultKind, Lexeme, Rest, Source, Token, Word, natural};
use std::alloc::Global;

/// Whether the byte behind a backslash stands for itself in text.
pub(crate) fn is_character_symbol(code: u8) -> bool
    ensures { result ≡ is_character_symbol code }
{
    matches!(code, b'%' | b'$' | b'&' | b'#' | b'_' | b'{' | b'}')
}

/// A group of codes, behind Spaces.
#[tactic(auto, unfolding(crate::specs::Discretionaries::group))]
pub(crate) fn group<'a>(
    alloc: Global,
    source: &Source,
    rest: Rest<'a>,
) -> Result<(Items<u8>, Rest<'a>), JobFault>
    ensures { ReadsOrMemory (λ x. x) result (group (length source.now)) rest.entry }
{
    let (brace, rest) = open_brace(source, rest)?;
    let mut list = Items::new(alloc);
    let left = codes(source, &mut list, rest)?;
    let behind = close_brace(brace, left)?;
    Ok((list, behind))
}

/// The codes up to the end of a group.
fn codes<'a>(source: &Source, list: &mut Items<u8>, rest: Rest<'a>) -> Result<Rest<'a>, JobFault>
    ensures { ChangesOrMemory list.new result
        (read_until is_close (code_step (length source.now)) list.old) rest.entry }
{
    let mut more = rest;
    while let Some((token, tail)) = more.next() {
        if token.lexeme.is_close() {
            return Ok(more);
        }
        more = code_step(source, list, token, tail)?;
    }
    Ok(more)
}

/// One more code of a group.
#[tactic(auto, unfolding(crate::specs::Discretionaries::code_step))]
fn code_step<'a>(
    source: &Source,
    list: &mut Items<u8>,
    token: Token,
    tail: Rest<'a>,
) -> Result<Rest<'a>, JobFault>
    ensures { ChangesOrMemory list.new result (code_step (length source.now) list.old token)
        tail.entry }
{
    let (code, behind) = code_at(source, token, tail)?;
    list.push(code)?;
    Ok(behind)
}

/// The code that a token in a group begins, and the tokens behind it.
#[tactic(auto, unfolding(crate::specs::Discretionaries::code_at))]
fn code_at<'a>(source: &Source, token: Token, tail: Rest<'a>) -> Result<(u8, Rest<'a>), Fault>
    ensures { Reads (λ x. x) result (code_at (length source.now) token) tail.entry }
{
    match token.lexeme {
        Lexeme::Char(code) => Ok((code, tail)),
        Lexeme::Symbol(code) if is_character_symbol(code) => Ok((code, tail)),
        Lexeme::Word(Word::Char) => {
            let (code, behind) = natural(0, 255, source, tail)?;
            Ok((code as u8, behind))
        }
        _ => Err(token.fault(JobFaultKind::BadDiscretionary)),
    }
}

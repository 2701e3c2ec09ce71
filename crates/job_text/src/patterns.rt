//! Hyphenation patterns and exceptions in their groups (TeX: The Program, parts 42 and 43).
ghost use Rattle.job_reading.specs.Rest.{left};
ghost use Rattle.job_reading.specs.Reading.{ChangesOrMemory};
ghost use Rattle.std.specs.Prelude.{◌≡◌, ◌≤◌, ◌∷◌, length, IfOk};
ghost use Rattle.job_reading.specs.Lexemes.{is_close};
ghost use Rattle.job_reading.specs.Repeats.{read_until};
ghost use Rattle.job_text.specs.Hyphenation.{patterns_of, run, behind_run, pattern_step};
ghost use Rattle.job_text.specs.Hyphenation.{exception_step, patterns, exceptions};

use crate::braces::{close_brace, open_brace};
use crate::spelling::{exception, pattern};
use items::Items;
use job_reading::{JobFault, JobFaultKind, Lexeme, Rest, Source, Token};
use liang_hyph::{Exception, Pattern};
use micro_num::NoMemory;
use std::alloc::Global;

/// `\patterns` and its group.
#[tactic(auto, unfolding(crate::specs::Hyphenation::patterns))]
pub(crate) fn patterns<'a>(
    alloc: Global,
    source: &Source,
    lccode: &[u8; 256],
    list: &mut Items<Pattern>,
    rest: Rest<'a>,
) -> Result<Rest<'a>, JobFault>
    ensures { ChangesOrMemory (patterns_of list.new) result
        (patterns (length source.now) lccode.now (patterns_of list.old)) rest.entry }
{
    let (brace, rest) = open_brace(source, rest)?;
    let left = pattern_list(alloc, lccode, list, rest)?;
    Ok(close_brace(brace, left)?)
}

/// The patterns up to the end of a group.
fn pattern_list<'a>(
    alloc: Global,
    lccode: &[u8; 256],
    list: &mut Items<Pattern>,
    rest: Rest<'a>,
) -> Result<Rest<'a>, JobFault>
    ensures { ChangesOrMemory (patterns_of list.new) result
        (read_until is_close (pattern_step lccode.now) (patterns_of list.old)) rest.entry }
{
    let mut more = rest;
    while let Some((token, tail)) = more.next() {
        if token.lexeme.is_close() {
            return Ok(more);
        }
        more = pattern_step(alloc, lccode, list, token, more, tail)?;
    }
    Ok(more)
}

/// A pattern, or what separates patterns.
#[tactic(auto, unfolding(crate::specs::Hyphenation::pattern_step))]
fn pattern_step<'a>(
    alloc: Global,
    lccode: &[u8; 256],
    list: &mut Items<Pattern>,
    token: Token,
    rest: Rest<'a>,
    tail: Rest<'a>,
) -> Result<Rest<'a>, JobFault>
    requires { left rest ≡ token ∷ left tail }
    ensures { ChangesOrMemory (patterns_of list.new) result
        (pattern_step lccode.now (patterns_of list.old) token) tail.entry }
{
    match token.lexeme {
        Lexeme::Space | Lexeme::EmptyLine => Ok(tail),
        Lexeme::Char(_) => {
            let codes = run(alloc, rest)?;
            match pattern(alloc, lccode, codes.as_slice())? {
                Some(pattern) => {
                    list.push(pattern)?;
                    Ok(behind_run(tail))
                }
                None => Err(JobFault::from(token.fault(JobFaultKind::BadPattern))),
            }
        }
        _ => Err(JobFault::from(token.fault(JobFaultKind::BadPattern))),
    }
}

/// `\hyphenation` and its group.
#[tactic(auto, unfolding(crate::specs::Hyphenation::exceptions))]
pub(crate) fn exceptions<'a>(
    alloc: Global,
    source: &Source,
    lccode: &[u8; 256],
    list: &mut Items<Exception>,
    rest: Rest<'a>,
) -> Result<Rest<'a>, JobFault>
    ensures { ChangesOrMemory list.new result (exceptions (length source.now) lccode.now list.old)
        rest.entry }
{
    let (brace, rest) = open_brace(source, rest)?;
    let left = exception_list(alloc, lccode, list, rest)?;
    Ok(close_brace(brace, left)?)
}

/// The exceptions up to the end of a group.
fn exception_list<'a>(
    alloc: Global,
    lccode: &[u8; 256],
    list: &mut Items<Exception>,
    rest: Rest<'a>,
) -> Result<Rest<'a>, JobFault>
    ensures { ChangesOrMemory list.new result
        (read_until is_close (exception_step lccode.now) list.old) rest.entry }
{
    let mut more = rest;
    while let Some((token, tail)) = more.next() {
        if token.lexeme.is_close() {
            return Ok(more);
        }
        more = exception_step(alloc, lccode, list, token, more, tail)?;
    }
    Ok(more)
}

/// An exception, or what separates exceptions.
#[tactic(auto, unfolding(crate::specs::Hyphenation::exception_step))]
fn exception_step<'a>(
    alloc: Global,
    lccode: &[u8; 256],
    list: &mut Items<Exception>,
    token: Token,
    rest: Rest<'a>,
    tail: Rest<'a>,
) -> Result<Rest<'a>, JobFault>
    requires { left rest ≡ token ∷ left tail }
    ensures { ChangesOrMemory list.new result (exception_step lccode.now list.old token)
        tail.entry }
{
    match token.lexeme {
        Lexeme::Space | Lexeme::EmptyLine => Ok(tail),
        Lexeme::Char(_) => {
            let codes = run(alloc, rest)?;
            match exception(alloc, lccode, codes.as_slice())? {
                Some(exception) => {
                    list.push(exception)?;
                    Ok(behind_run(tail))
                }
                None => Err(JobFault::from(token.fault(JobFaultKind::BadException))),
            }
        }
        _ => Err(JobFault::from(token.fault(JobFaultKind::BadException))),
    }
}

/// The codes of the Char tokens at the front.
fn run(alloc: Global, rest: Rest) -> Result<Vec<u8>, NoMemory>
    ensures { IfOk result (λ codes. codes.items ≡ run (left rest.entry)) }
{
    let mut codes = Vec::new(alloc);
    let mut more = rest;
    while let Some((token, tail)) = more.next() {
        let Some(code) = token.lexeme.char_code() else {
            break;
        };
        codes.push(code)?;
        more = tail;
    }
    Ok(codes)
}

/// The tokens behind the Char tokens at the front.
fn behind_run<'a>(rest: Rest<'a>) -> Rest<'a>
    ensures value { left result ≡ behind_run (left rest.entry) }
    ensures within { length (left result) ≤ length (left rest.entry) }
{
    let mut more = rest;
    while let Some((token, tail)) = more.next() {
        if token.lexeme.char_code().is_none() {
            break;
        }
        more = tail;
    }
    more
}

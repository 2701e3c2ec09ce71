//! How one pattern or exception is spelled (TeX: The Program, sections 935 to 940 and 961 to 963).
ghost use Rattle.std.specs.Prelude.{◌≡◌, ◌+◌, ◌∷◌, [], None, length, vec_len, IfOk, MatchOption};
ghost use Rattle.std.specs.Option.{option_map};
ghost use Rattle.job_text.specs.Hyphenation.{pattern_text, pattern_end, body, pattern_of};
ghost use Rattle.job_text.specs.Hyphenation.{exception_of};

use items::Items;
use liang_hyph::{Exception, Pattern};
use micro_num::NoMemory;
use std::alloc::Global;

/// The most letters of a pattern or an exception.
const MOST_LETTERS: usize = 63;

/// The pattern that these codes spell, if they do.
pub(crate) fn pattern(
    alloc: Global,
    lccode: &[u8; 256],
    codes: &[u8],
) -> Result<Option<Pattern>, NoMemory>
    ensures { IfOk result
        (λ found. option_map pattern_text found ≡ pattern_of lccode.now codes.now) }
{
    match next_code(codes) {
        None => Ok(None),
        Some((b'.', tail)) => body(alloc, lccode, true, tail),
        Some(_) => body(alloc, lccode, false, codes),
    }
}

/// The pattern that these codes spell behind a `.` or none.
fn body(
    alloc: Global,
    lccode: &[u8; 256],
    start: bool,
    codes: &[u8],
) -> Result<Option<Pattern>, NoMemory>
    ensures { IfOk result
        (λ found. option_map pattern_text found ≡ body lccode.now start [] [] None codes.now) }
{
    let mut letters = Vec::new(alloc);
    let mut values = Vec::new(alloc);
    let mut digit = None;
    let mut more = codes;
    while let Some((code, tail)) = next_code(more) {
        more = tail;
        if code.is_ascii_digit() {
            if digit.is_some() {
                return Ok(None);
            }
            digit = Some(code - b'0');
            continue;
        }
        if code == b'.' {
            if !tail.is_empty() {
                return Ok(None);
            }
            return pattern_end(start, true, letters, values, digit);
        }
        let letter = lccode[code as usize];
        if letter == 0 {
            return Ok(None);
        }
        if letters.len() >= MOST_LETTERS {
            return Ok(None);
        }
        letters.push(letter)?;
        values.push(digit.unwrap_or(0))?;
        digit = None;
    }
    pattern_end(start, false, letters, values, digit)
}

/// The pattern of these letters, if there are any, with the last of its values.
fn pattern_end(
    start: bool,
    end: bool,
    letters: Vec<u8>,
    values: Vec<u8>,
    digit: Option<u8>,
) -> Result<Option<Pattern>, NoMemory>
    requires { vec_len values ≡ vec_len letters }
    ensures { IfOk result (λ found. option_map pattern_text found ≡ pattern_end start end
        letters.items values.items digit) }
{
    if letters.is_empty() {
        return Ok(None);
    }
    let mut values = values;
    values.push(digit.unwrap_or(0))?;
    Ok(Some(Pattern {
        letters: Items::from_vec(letters),
        values: Items::from_vec(values),
        start,
        end,
    }))
}

/// The exception that these codes spell, if they do.
pub(crate) fn exception(
    alloc: Global,
    lccode: &[u8; 256],
    codes: &[u8],
) -> Result<Option<Exception>, NoMemory>
    ensures { IfOk result (λ found. found ≡ exception_of lccode.now codes.now) }
{
    let mut letters = Vec::new(alloc);
    let mut places = Vec::new(alloc);
    let mut hyphen = false;
    let mut more = codes;
    while let Some((code, tail)) = next_code(more) {
        more = tail;
        if code == b'-' {
            hyphen = true;
            continue;
        }
        let letter = lccode[code as usize];
        if letter == 0 {
            return Ok(None);
        }
        if letters.len() >= MOST_LETTERS {
            return Ok(None);
        }
        if hyphen && !letters.is_empty() {
            places.push(letters.len() as u8)?;
        }
        letters.push(letter)?;
        hyphen = false;
    }
    if letters.is_empty() {
        return Ok(None);
    }
    Ok(Some(Exception {
        letters: Items::from_vec(letters),
        places: Items::from_vec(places),
    }))
}

/// The first of some codes and those behind it.
fn next_code(codes: &[u8]) -> Option<(u8, &[u8])>
    ensures { MatchOption result (codes.now ≡ [])
        (λ x. (codes.now ≡ x.0 ∷ x.1.now) × (length x.1.now + 1 ≡ length codes.now)) }
{
    match codes {
        [] => None,
        [code, tail @ ..] => Some((*code, tail)),
    }
}

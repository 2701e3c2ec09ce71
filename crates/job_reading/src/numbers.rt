//! Numbers: signs, then decimal digits or the code of a character (TeX: The Program, sections 440
//! to 445).
//!
//! A value that is past every range is kept as 2^31 while its digits are read.
ghost use Rattle.std.specs.Prelude.{◌≡◌, ◌≤◌, ◌<◌, ◌+◌, ◌*◌, ◌^◌};
ghost use Rattle.std.specs.Prelude.{min, length, take, false, IfOk, IfSome};
ghost use Rattle.std.specs.Option.{option_map};
ghost use Rattle.micro_num.specs.Decimals.{decimal_fraction};
ghost use Rattle.job_reading.specs.Reading.{Reads};
ghost use Rattle.job_reading.specs.Rest.{left};
ghost use Rattle.job_reading.specs.Numbers.{signs, digits, behind_digits, decimal, character};
ghost use Rattle.job_reading.specs.Numbers.{constant, with_sign, number, within, natural};

use crate::fault::{Fault, JobFaultKind};
use crate::rest::Rest;
use crate::source::Source;
use crate::token::Lexeme;
use micro_num::round_decimals;

/// The greatest magnitude of a number.
pub(crate) const GREATEST: u32 = 2147483647;

/// A number at the front of the tokens: of a magnitude of at most 2147483647, or a fault
/// NumberExpected behind its signs or NumberPast at its first token.
#[tactic(auto, unfolding(crate::specs::Numbers::number))]
pub fn number<'a>(source: &Source, rest: Rest<'a>) -> Result<(i32, Rest<'a>), Fault>
    ensures { Reads (λ x. x) result (number (length source.now)) rest.entry }
{
    let (negative, unsigned) = signs(rest);
    let Some((value, behind)) = constant(unsigned) else {
        return Err(source.fault(JobFaultKind::NumberExpected, unsigned));
    };
    if value > GREATEST {
        return Err(source.fault(JobFaultKind::NumberPast, rest));
    }
    Ok((with_sign(negative, value), behind.skip_space()))
}

/// A number at the front of the tokens that is within these bounds; another is a fault NumberPast
/// at its first token.
#[tactic(auto, unfolding(crate::specs::Numbers::natural))]
pub fn natural<'a>(
    least: u32,
    most: u32,
    source: &Source,
    rest: Rest<'a>,
) -> Result<(u32, Rest<'a>), Fault>
    ensures value { Reads (λ x. x) result (natural least most (length source.now)) rest.entry }
    ensures range { IfOk result (λ x. (least ≤ x.0) × (x.0 ≤ most)) }
{
    let (value, behind) = number(source, rest)?;
    match within(least, most, value) {
        Some(value) => Ok((value, behind)),
        None => Err(source.fault(JobFaultKind::NumberPast, rest)),
    }
}

/// A number that is within these bounds.
fn within(least: u32, most: u32, value: i32) -> Option<u32>
    ensures value { result ≡ within least most value }
    ensures range { IfSome result (λ x. (least ≤ x) × (x ≤ most)) }
{
    if value < 0 {
        return None;
    }
    let value = value as u32;
    if least <= value && value <= most {
        Some(value)
    } else {
        None
    }
}

/// Whether the signs at the front have an odd count of `-`, and the tokens behind them.
pub(crate) fn signs(rest: Rest) -> (bool, Rest)
    ensures value { (result.0, left result.1) ≡ signs false (left rest.entry) }
    ensures within { length (left result.1) ≤ length (left rest.entry) }
{
    let mut negative = false;
    let mut more = rest;
    while let Some((token, tail)) = more.next() {
        if token.lexeme.is_char(b'-') {
            negative = !negative;
        } else if !token.lexeme.is_char(b'+') && !token.lexeme.is_space() {
            break;
        }
        more = tail;
    }
    (negative, more)
}

/// A magnitude under its sign.
pub(crate) fn with_sign(negative: bool, value: u32) -> i32
    requires { value < 2 ^ 31 }
    ensures { result ≡ with_sign negative value }
{
    if negative {
        -(value as i32)
    } else {
        value as i32
    }
}

/// The constant at the front and the tokens behind it. A value past 2^31 is given as 2^31.
#[tactic(auto, using(crate::proofs::Digits::digit_rules))]
fn constant(rest: Rest) -> Option<(u32, Rest)>
    ensures value { option_map (λ x. x.0) result ≡ option_map (λ c. min c.0 (2 ^ 31))
        (constant (left rest.entry)) }
    ensures behind { option_map (λ x. left x.1) result
        ≡ option_map (λ c. c.1) (constant (left rest.entry)) }
    ensures within { IfSome result (λ x. length (left x.1) ≤ length (left rest.entry)) }
{
    let (token, tail) = rest.next()?;
    if token.lexeme.digit().is_some() {
        Some(whole(rest))
    } else if token.lexeme.is_char(b'`') {
        character(tail)
    } else {
        None
    }
}

/// The code of the character at the front.
fn character(rest: Rest) -> Option<(u32, Rest)>
    ensures value { option_map (λ x. (x.0, left x.1)) result ≡ character (left rest.entry) }
    ensures small { IfSome result (λ x. x.0 < 256) }
    ensures within { IfSome result (λ x. length (left x.1) ≤ length (left rest.entry)) }
{
    let (token, tail) = rest.next()?;
    match token.lexeme {
        Lexeme::Char(code) | Lexeme::Symbol(code) | Lexeme::Letter(code) => {
            Some((code as u32, tail))
        }
        _ => None,
    }
}

/// The value of the digits at the front, or 2^31 where it is more, and the tokens behind them.
#[tactic(auto, using(crate::proofs::Digits::digit_rules))]
pub(crate) fn whole(rest: Rest) -> (u32, Rest)
    ensures value { result.0 ≡ min (decimal (left rest.entry)) (2 ^ 31) }
    ensures behind { left result.1 ≡ behind_digits (left rest.entry) }
    ensures within { length (left result.1) ≤ length (left rest.entry) }
{
    let mut value = 0;
    let mut more = rest;
    while let Some((token, tail)) = more.next() {
        let Some(digit) = token.lexeme.digit() else {
            break;
        };
        value = with_digit(value, digit);
        more = tail;
    }
    (value, more)
}

/// A value with one more digit, up to 2^31.
fn with_digit(value: u32, digit: u8) -> u32
    requires value { value ≤ 2 ^ 31 }
    ensures { result ≡ min (10 * value + digit) (2 ^ 31) }
{
    (10 * value as u64 + digit as u64).min(1 << 31) as u32
}

/// The digits at the front as decimals in units of 2^-16, of which 17 count, and the tokens behind
/// them.
pub(crate) fn fraction(rest: Rest) -> (u32, Rest)
    ensures value { result.0 ≡ decimal_fraction (take 17 (digits (left rest.entry))) }
    ensures small { result.0 ≤ 65536 }
    ensures behind { left result.1 ≡ behind_digits (left rest.entry) }
    ensures within { length (left result.1) ≤ length (left rest.entry) }
{
    let mut decimals = [0; 17];
    let mut count = 0;
    let mut more = rest;
    while let Some((token, tail)) = more.next() {
        let Some(digit) = token.lexeme.digit() else {
            break;
        };
        if count < 17 {
            decimals[count] = digit;
            count += 1;
        }
        more = tail;
    }
    (round_decimals(&decimals[..count]), more)
}

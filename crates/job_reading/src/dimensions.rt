//! Dimensions: signs, decimal digits and a unit (TeX: The Program, sections 448 to 458).
//!
//! What stands before the unit is read first, as a quantity, since a glue may give it an infinite
//! unit.
ghost use Rattle.std.specs.Prelude.{min, ◌≡◌, ◌≤◌, ◌^◌, length, IfOk, IfSome};
ghost use Rattle.std.specs.Option.{option_map};
ghost use Rattle.job_reading.specs.Reading.{Gives, Reads};
ghost use Rattle.job_reading.specs.Rest.{left};
ghost use Rattle.job_reading.specs.Lengths.{begins_with_digit, behind_point, mantissa};
ghost use Rattle.job_reading.specs.Lengths.{unit_of, unit_at, IsQuantity, size_of, in_unit};
ghost use Rattle.job_reading.specs.Lengths.{quantity, dimension};

use crate::fault::{Fault, JobFaultKind};
use crate::numbers::{GREATEST, fraction, signs, whole, with_sign};
use crate::rest::Rest;
use crate::source::Source;
use micro_num::{Sp, Unit, unit_to_sp};

/// The signs and decimal digits of a dimension: whether the count of `-` is odd, the whole part and
/// the fraction in units of 2^-16.
pub(crate) type Quantity = (bool, u32, u32);

/// A dimension at the front of the tokens, of less than 2^30 sp either way; or a fault
/// NumberExpected or UnitExpected where these are missing, NumberPast or DimensionTooLarge at its
/// first token.
#[tactic(auto, unfolding(crate::specs::Lengths::dimension))]
pub fn dimension<'a>(source: &Source, rest: Rest<'a>) -> Result<(Sp, Rest<'a>), Fault>
    ensures { Reads (λ x. x) result (dimension (length source.now)) rest.entry }
{
    let (quantity, behind) = quantity(source, rest)?;
    in_unit(source, source.place(rest), quantity, behind.skip_space())
}

/// The unit at the front, and the size of a quantity in it. The dimension begins at a place.
#[tactic(auto, unfolding(crate::specs::Lengths::in_unit))]
pub(crate) fn in_unit<'a>(
    source: &Source,
    first: u32,
    quantity: Quantity,
    rest: Rest<'a>,
) -> Result<(Sp, Rest<'a>), Fault>
    requires { IsQuantity quantity }
    ensures { Reads (λ x. x) result (in_unit (length source.now) first quantity) rest.entry }
{
    let Some((unit, behind)) = unit(rest) else {
        return Err(source.fault(JobFaultKind::UnitExpected, rest));
    };
    let size = size_of(first, quantity, unit)?;
    Ok((size, behind.skip_space()))
}

/// The size of a quantity of a unit. The dimension begins at a place.
#[tactic(auto, unfolding(crate::specs::Lengths::size_of))]
pub(crate) fn size_of(first: u32, quantity: Quantity, unit: Unit) -> Result<Sp, Fault>
    requires { IsQuantity quantity }
    ensures { Gives (λ x. x) result (size_of first quantity unit) }
{
    let (negative, whole, fraction) = quantity;
    match unit_to_sp(whole, fraction, unit) {
        Some(size) => Ok(with_sign(negative, size as u32)),
        None => Err(Fault {
            offset: first,
            kind: JobFaultKind::DimensionTooLarge,
        }),
    }
}

/// The signs and digits at the front.
#[tactic(auto, unfolding(crate::specs::Lengths::quantity))]
pub(crate) fn quantity<'a>(source: &Source, rest: Rest<'a>) -> Result<(Quantity, Rest<'a>), Fault>
    ensures value { Reads (λ x. x) result (quantity (length source.now)) rest.entry }
    ensures small { IfOk result (λ x. IsQuantity x.0) }
{
    let (negative, unsigned) = signs(rest);
    let Some((whole, fraction, behind)) = mantissa(unsigned) else {
        return Err(source.fault(JobFaultKind::NumberExpected, unsigned));
    };
    if whole > GREATEST {
        return Err(source.fault(JobFaultKind::NumberPast, rest));
    }
    Ok(((negative, whole, fraction), behind))
}

/// The whole part, up to 2^31, and the decimals in units of 2^-16, where there is a digit at all.
#[tactic(auto, using(crate::proofs::Digits::digit_rules))]
fn mantissa(rest: Rest) -> Option<(u32, u32, Rest)>
    ensures whole { option_map (λ x. x.0) result ≡ option_map (λ m. min m.0 (2 ^ 31))
        (mantissa (left rest.entry)) }
    ensures value { option_map (λ x. x.1) result
        ≡ option_map (λ m. m.1) (mantissa (left rest.entry)) }
    ensures behind { option_map (λ x. left x.2) result
        ≡ option_map (λ m. m.2) (mantissa (left rest.entry)) }
    ensures small { IfSome result (λ x. x.1 ≤ 65536) }
    ensures within { IfSome result (λ x. length (left x.2) ≤ length (left rest.entry)) }
{
    let (units, behind) = whole(rest);
    match behind_point(behind) {
        None if begins_with_digit(rest) => Some((units, 0, behind)),
        Some(decimals) if begins_with_digit(rest) || begins_with_digit(decimals) => {
            let (fraction, behind) = fraction(decimals);
            Some((units, fraction, behind))
        }
        _ => None,
    }
}

fn begins_with_digit(rest: Rest) -> bool
    ensures { result ≡ begins_with_digit (left rest.entry) }
{
    match rest.next() {
        None => false,
        Some((token, _)) => token.lexeme.digit().is_some(),
    }
}

/// The tokens behind a decimal point or comma.
fn behind_point(rest: Rest) -> Option<Rest>
    ensures value { option_map left result ≡ behind_point (left rest.entry) }
    ensures within { IfSome result (λ x. length (left x) ≤ length (left rest.entry)) }
{
    let (token, tail) = rest.next()?;
    if token.lexeme.is_char(b'.') || token.lexeme.is_char(b',') {
        Some(tail)
    } else {
        None
    }
}

/// The unit at the front, in letters of either case.
fn unit(rest: Rest) -> Option<(Unit, Rest)>
    ensures value { option_map (λ x. (x.0, left x.1)) result ≡ unit_at (left rest.entry) }
    ensures within { IfSome result (λ x. length (left x.1) ≤ length (left rest.entry)) }
{
    let (first, more) = rest.next()?;
    let (second, behind) = more.next()?;
    let unit = unit_of(
        first.lexeme.keyword_letter()?,
        second.lexeme.keyword_letter()?,
    )?;
    Some((unit, behind))
}

fn unit_of(first: u8, second: u8) -> Option<Unit>
    ensures { result ≡ unit_of first second }
{
    match (first, second) {
        (b'p', b't') => Some(Unit::Pt),
        (b'i', b'n') => Some(Unit::In),
        (b'p', b'c') => Some(Unit::Pc),
        (b'c', b'm') => Some(Unit::Cm),
        (b'm', b'm') => Some(Unit::Mm),
        (b'b', b'p') => Some(Unit::Bp),
        (b'd', b'd') => Some(Unit::Dd),
        (b'c', b'c') => Some(Unit::Cc),
        (b's', b'p') => Some(Unit::Sp),
        _ => None,
    }
}

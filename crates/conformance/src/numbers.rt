//! The cases of numbers: badness, scaling, rounding and units.
use micro_num::{Unit, badness, round_decimals, round_over, scale, unit_to_sp, xn_over_d};
use std::alloc::{AllocError, Global};

/// The greatest magnitudes that the calls take.
const PRODUCT_LIMIT: i64 = 1 << 31;

const QUOTIENT_LIMIT: i128 = 1 << 120;

/// The answer to a call of a number routine, as `badness 1 0`, or None where it is out of form or
/// out of the call's range.
pub fn answer(alloc: Global, left: &str) -> Result<Option<String>, AllocError> {
    let Some((call, operands)) = left.split_once(' ') else {
        return Ok(None);
    };
    let number = match call {
        "badness" => badness_of(operands),
        "scale" => scaled(operands),
        "xn_over_d" => cut(operands),
        "round_over" => rounded(operands),
        "round_decimals" => fraction(alloc, operands)?,
        "unit_to_sp" => return length(alloc, operands),
        _ => None,
    };
    match number {
        Some(number) => Ok(Some(format!(in alloc; "{number}")?)),
        None => Ok(None),
    }
}

fn badness_of(operands: &str) -> Option<i128> {
    let (t, s) = operands.split_once(' ')?;
    let t = t.parse::<i64>().ok()?;
    let s = s.parse::<i64>().ok()?;
    if t < 0 {
        return None;
    }
    Some(badness(t, s) as i128)
}

fn scaled(operands: &str) -> Option<i128> {
    let (w, z) = operands.split_once(' ')?;
    let w = w.parse::<i32>().ok()?;
    let z = z.parse::<i32>().ok()?;
    if w < -(1 << 24) || w >= 1 << 24 || z < 1 || z >= 1 << 27 {
        return None;
    }
    Some(scale(w, z) as i128)
}

fn cut(operands: &str) -> Option<i128> {
    let (x, rest) = operands.split_once(' ')?;
    let (n, d) = rest.split_once(' ')?;
    let x = x.parse::<i64>().ok()?;
    let n = n.parse::<i64>().ok()?;
    let d = d.parse::<i64>().ok()?;
    if x < -PRODUCT_LIMIT
        || x > PRODUCT_LIMIT
        || n < 0
        || n > PRODUCT_LIMIT
        || d < 1
        || d > PRODUCT_LIMIT
    {
        return None;
    }
    Some(xn_over_d(x, n, d) as i128)
}

fn rounded(operands: &str) -> Option<i128> {
    let (n, d) = operands.split_once(' ')?;
    let n = n.parse::<i128>().ok()?;
    let d = d.parse::<i128>().ok()?;
    if n < -QUOTIENT_LIMIT
        || n > QUOTIENT_LIMIT
        || d < -QUOTIENT_LIMIT
        || d > QUOTIENT_LIMIT
        || d == 0
    {
        return None;
    }
    Some(round_over(n, d))
}

/// The digits are written one after another, and `-` stands for none.
fn fraction(alloc: Global, operands: &str) -> Result<Option<i128>, AllocError> {
    let text = if operands == "-" { "" } else { operands };
    let digits: Vec<u8> = text
        .bytes()
        .map(|byte| byte.wrapping_sub(b'0'))
        .collect(alloc)?;
    if digits.len() > 17 || !digits.iter().all(|digit| *digit < 10) {
        return Ok(None);
    }
    Ok(Some(round_decimals(digits.as_slice()) as i128))
}

/// A length, or the word `none` where it is too long.
fn length(alloc: Global, operands: &str) -> Result<Option<String>, AllocError> {
    let Some((whole, fraction, unit)) = length_operands(operands) else {
        return Ok(None);
    };
    if whole >= 1 << 31 || fraction > 65536 {
        return Ok(None);
    }
    match unit_to_sp(whole, fraction, unit) {
        Some(size) => Ok(Some(format!(in alloc; "{size}")?)),
        None => Ok(Some(String::from_str(alloc, "none")?)),
    }
}

fn length_operands(operands: &str) -> Option<(u32, u32, Unit)> {
    let (whole, rest) = operands.split_once(' ')?;
    let (fraction, unit) = rest.split_once(' ')?;
    let unit = match unit {
        "pt" => Unit::Pt,
        "in" => Unit::In,
        "pc" => Unit::Pc,
        "cm" => Unit::Cm,
        "mm" => Unit::Mm,
        "bp" => Unit::Bp,
        "dd" => Unit::Dd,
        "cc" => Unit::Cc,
        "sp" => Unit::Sp,
        _ => return None,
    };
    Some((
        whole.parse::<u32>().ok()?,
        fraction.parse::<u32>().ok()?,
        unit,
    ))
}

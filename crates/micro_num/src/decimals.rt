//! Decimal fractions in units of 2^-16 (TeX: The Program, section 102).
ghost use Rattle.std.specs.Prelude.{◌≡◌, ◌<◌, ◌≤◌, length, All};
ghost use Rattle.micro_num.specs.Decimals.{IsDigit, decimal_fraction, halves_of};

/// The decimal fraction with these digits after the point, in units of 2^-16, rounded. Each of the
/// at most 17 digits is 0 to 9 (TeX: The Program, section 102).
pub fn round_decimals(digits: &[u8]) -> u32
    requires few { length digits.now ≤ 17 }
    requires decimal { All IsDigit digits.now }
    ensures { result ≡ decimal_fraction digits.now }
{
    (halves(digits) + 1) / 2
}

/// The fraction in units of 2^-17, which leave a bit for the rounding.
fn halves(digits: &[u8]) -> u32
    requires { All IsDigit digits.now }
    ensures exact { result ≡ halves_of digits.now }
    ensures below { result < 131072 }
{
    match digits {
        [] => 0,
        [digit, rest @ ..] => (halves(rest) + *digit as u32 * 131072) / 10,
    }
}

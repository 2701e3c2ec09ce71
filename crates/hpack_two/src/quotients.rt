//! Rounded quotients, in 64 bits where they fit (TeX: The Program, section 625).
ghost use Rattle.std.specs.Prelude.{◌≡◌, ◌≢◌, ◌≤◌, ◌<◌, ◌^◌, ◌*ℤ◌, pos, neg_ℤ, unsigned_abs};
ghost use Rattle.micro_num.specs.Rounding.{rounded, nearest as nearest_of};

use micro_num::round_over;

/// `n * part / whole` rounded to the nearest whole number, a half away from zero.
pub fn part_of(n: i64, part: i64, whole: i64) -> i128
    requires n_size { unsigned_abs n ≤ 2 ^ 60 }
    requires part_size { unsigned_abs part ≤ 2 ^ 60 }
    requires whole_size { unsigned_abs whole ≤ 2 ^ 60 }
    requires not_zero { whole ≢ pos 0 }
    ensures exact { result ≡ rounded (n *ℤ part) whole }
    ensures small { unsigned_abs result ≤ 2 ^ 122 }
{
    let product = product(n, part);
    if product.unsigned_abs() <= 1 << 61 {
        rounded_over(product as i64, whole) as i128
    } else {
        round_over(product, whole as i128)
    }
}

/// The product of two lengths.
fn product(n: i64, part: i64) -> i128
    requires n_size { unsigned_abs n ≤ 2 ^ 60 }
    requires part_size { unsigned_abs part ≤ 2 ^ 60 }
    ensures exact { result ≡ n *ℤ part }
    ensures small { unsigned_abs result ≤ 2 ^ 120 }
{
    n as i128 * part as i128
}

/// `n / d` rounded to the nearest whole number, a half away from zero.
pub fn rounded_over(n: i64, d: i64) -> i64
    requires n_size { unsigned_abs n ≤ 2 ^ 61 }
    requires d_size { unsigned_abs d ≤ 2 ^ 60 }
    requires not_zero { d ≢ pos 0 }
    ensures { result ≡ rounded n d }
{
    let magnitude = nearest(n.unsigned_abs(), d.unsigned_abs());
    if (n < 0) == (d < 0) {
        magnitude as i64
    } else {
        -(magnitude as i64)
    }
}

/// `n / d` rounded to the nearest whole number, a half up.
fn nearest(n: u64, d: u64) -> u64
    requires n_size { n ≤ 2 ^ 61 }
    requires d_size { d ≤ 2 ^ 60 }
    requires not_zero { 0 < d }
    ensures exact { result ≡ nearest_of n d }
    ensures small { result < 2 ^ 63 }
{
    (2 * n + d) / (2 * d)
}

/// The opposite of a length.
pub fn negated(n: i64) -> i64
    requires { unsigned_abs n ≤ 2 ^ 60 }
    ensures exact { result ≡ neg_ℤ n }
    ensures size { unsigned_abs result ≡ unsigned_abs n }
{
    -n
}

//! Quotients of whole numbers, rounded and cut. Each is worked out on magnitudes, and gets its sign
//! at the end (TeX: The Program, section 107).
ghost use Rattle.std.specs.Prelude.{◌≡◌, ◌≢◌, ◌≤◌, ◌<◌, ◌^◌, ◌*◌, ◌*ℤ◌, ◌≤ℤ◌, pos, unsigned_abs};
ghost use Rattle.micro_num.specs.Expansion.{thousandths_of};
ghost use Rattle.micro_num.specs.Rounding.{rounded, truncated, nearest as nearest_of};

/// `x * n / d` cut toward zero, with x within ±2^31, n from 0 and d from 1 to 2^31
/// (TeX: The Program, section 107).
pub fn xn_over_d(x: i64, n: i64, d: i64) -> i64
    requires x_size { unsigned_abs x ≤ 2 ^ 31 }
    requires n_sign { pos 0 ≤ℤ n }
    requires n_size { n ≤ℤ pos (2 ^ 31) }
    requires d_sign { pos 1 ≤ℤ d }
    requires d_size { d ≤ℤ pos (2 ^ 31) }
    ensures { result ≡ truncated (x *ℤ n) d }
{
    let quotient = x.unsigned_abs() * n as u64 / d as u64;
    if x < 0 {
        -(quotient as i64)
    } else {
        quotient as i64
    }
}

/// `n / d` rounded to the nearest whole number, a half away from zero. Both are within ±2^120, and
/// d isn't 0.
pub fn round_over(n: i128, d: i128) -> i128
    requires n_size { unsigned_abs n ≤ 2 ^ 120 }
    requires d_size { unsigned_abs d ≤ 2 ^ 120 }
    requires not_zero { d ≢ pos 0 }
    ensures { result ≡ rounded n d }
{
    let magnitude = nearest(n.unsigned_abs(), d.unsigned_abs());
    if (n < 0) == (d < 0) {
        magnitude as i128
    } else {
        -(magnitude as i128)
    }
}

/// `n * k / 1000` rounded, a half away from zero: so many thousandths of a length. The length is
/// within ±2^33, and k within ±2^32.
#[tactic(auto, unfolding(crate::specs::Expansion::thousandths_of))]
pub fn thousandths(n: i64, k: i64) -> i64
    requires n_size { unsigned_abs n ≤ 2 ^ 33 }
    requires k_size { unsigned_abs k ≤ 2 ^ 32 }
    ensures exact { result ≡ thousandths_of n k }
    ensures within { unsigned_abs k ≤ 1000 → unsigned_abs result ≤ unsigned_abs n }
{
    if k == 0 {
        return 0;
    }
    let magnitude = thousandths_up(n.unsigned_abs(), k.unsigned_abs());
    if (n < 0) == (k < 0) {
        magnitude as i64
    } else {
        -(magnitude as i64)
    }
}

/// `n * k / 1000` rounded, a half up.
fn thousandths_up(n: u64, k: u64) -> u64
    requires n_size { n ≤ 2 ^ 33 }
    requires k_size { k ≤ 2 ^ 32 }
    ensures exact { result ≡ nearest_of (n * k) 1000 }
    ensures small { result ≤ 2 ^ 56 }
    ensures within { k ≤ 1000 → result ≤ n }
{
    if k <= 1 << 30 {
        (n * k + 500) / 1000
    } else {
        ((n as u128 * k as u128 + 500) / 1000) as u64
    }
}

/// `n / d` rounded to the nearest whole number, a half up.
fn nearest(n: u128, d: u128) -> u128
    requires n_size { n ≤ 2 ^ 120 }
    requires d_size { d ≤ 2 ^ 120 }
    requires not_zero { 0 < d }
    ensures { result ≡ nearest_of n d }
{
    (2 * n + d) / (2 * d)
}

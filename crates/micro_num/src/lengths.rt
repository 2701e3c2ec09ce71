//! Lengths in units of the job language, in scaled points (TeX: The Program, section 458).
ghost use Rattle.std.specs.Prelude.{◌≡◌, ◌<◌, ◌≤◌, ◌^◌, pos};
ghost use Rattle.std.specs.Option.{SomeIff};
ghost use Rattle.micro_num.specs.Units.{unit_size, size_in_points as points_size};

use crate::{Sp, Unit};

/// A length of `whole + fraction / 65536` units in scaled points, None exactly where it is 2^30 sp
/// or more. The whole part is below 2^31, the fraction at most 65536; of scaled points the fraction
/// is dropped (TeX: The Program, section 458).
pub fn unit_to_sp(whole: u32, fraction: u32, unit: Unit) -> Option<Sp>
    requires whole { whole < 2 ^ 31 }
    requires fraction { fraction ≤ 65536 }
    ensures { let size = unit_size whole fraction unit in
        SomeIff result (size < 2 ^ 30) (pos size) }
{
    let size = size_of(whole, fraction, unit);
    if size < 1 << 30 {
        Some(size as Sp)
    } else {
        None
    }
}

#[tactic(auto, unfolding(crate::specs::Units::unit_size))]
fn size_of(whole: u32, fraction: u32, unit: Unit) -> u64
    requires whole { whole < 2 ^ 31 }
    requires fraction { fraction ≤ 65536 }
    ensures { result ≡ unit_size whole fraction unit }
{
    match unit {
        Unit::Pt => size_in_points(whole, fraction, 1, 1),
        Unit::In => size_in_points(whole, fraction, 7227, 100),
        Unit::Pc => size_in_points(whole, fraction, 12, 1),
        Unit::Cm => size_in_points(whole, fraction, 7227, 254),
        Unit::Mm => size_in_points(whole, fraction, 7227, 2540),
        Unit::Bp => size_in_points(whole, fraction, 7227, 7200),
        Unit::Dd => size_in_points(whole, fraction, 1238, 1157),
        Unit::Cc => size_in_points(whole, fraction, 14856, 1157),
        Unit::Sp => whole as u64,
    }
}

/// A length in units of `num / den` points.
fn size_in_points(whole: u32, fraction: u32, num: u64, den: u64) -> u64
    requires whole { whole < 2 ^ 31 }
    requires fraction { fraction ≤ 65536 }
    requires num { num < 2 ^ 14 }
    requires den_sign { 0 < den }
    requires den { den < 2 ^ 14 }
    ensures { result ≡ points_size (record { num = num; den = den }) whole fraction }
{
    let points = whole as u64 * num;
    65536 * (points / den) + (num * fraction as u64 + 65536 * (points % den)) / den
}

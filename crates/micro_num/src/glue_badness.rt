//! How bad it is to stretch or shrink glue (TeX: The Program, section 108).
ghost use Rattle.std.specs.Prelude.{◌≡◌, ◌<◌, ◌≤◌, ◌≤ℤ◌, pos};
ghost use Rattle.micro_num.specs.Badness.{badness_of, badness_of_ratio, stretch_ratio};

/// The badness of a line: about 100 times the cube of `t / s`, where t sp, which are at least 0,
/// are to be made up for by glue that stretches or shrinks by s sp. 10000 stands for whatever is
/// worse than that, and for a line with nothing to stretch or shrink.
#[tactic(auto, unfolding(crate::specs::Badness::badness_of))]
pub fn badness(t: i64, s: i64) -> u16
    requires { pos 0 ≤ℤ t }
    ensures exact { result ≡ badness_of t s }
    ensures capped { result ≤ 10000 }
{
    if t == 0 {
        0
    } else if s <= 0 {
        10000
    } else {
        cubed(ratio(t as u64, s as u64))
    }
}

/// The ratio of t and s in units of 1/297, without a product past 2^31.
fn ratio(t: u64, s: u64) -> u64
    requires { 0 < s }
    ensures { result ≡ stretch_ratio t s }
{
    if t <= 7230584 {
        297 * t / s
    } else if s >= 1663497 {
        t / (s / 297)
    } else {
        t
    }
}

/// The badness of a ratio.
fn cubed(r: u64) -> u16
    ensures exact { result ≡ badness_of_ratio r }
    ensures capped { result ≤ 10000 }
{
    if r > 1290 {
        10000
    } else {
        ((r * r * r + 131072) / 262144) as u16
    }
}

//! A fix_word at a font's size, as one product (TeX: The Program, sections 568, 571 and 572).
ghost use Rattle.std.specs.Prelude.{◌≡◌, ◌<◌, ◌-◌, ◌/◌, ◌^◌, ◌≤◌};
ghost use Rattle.micro_num.specs.Scaling.{IsFixWord, IsFontSize, halvings, kept_size, scaled};

use crate::Sp;

/// A fix_word at a font's size: the floor of `w * z / 2^20`, where z has lost its low bits past the
/// first 23. The fix_word is in units of 2^-20 of the size, from -2^24 to 2^24 - 1, the size in
/// scaled points from 1 to 2^27 - 1, and so is the answer (TeX: The Program, section 572).
pub fn scale(w: i32, z: Sp) -> Sp
    requires fix_word { IsFixWord w }
    requires size { IsFontSize z }
    ensures { result ≡ scaled w z }
{
    let product = w.unsigned_abs() as u64 * kept(z.unsigned_abs()) as u64;
    if w < 0 {
        // A floor: away from zero on this side.
        -((product.div_ceil(1 << 20)) as i64) as i32
    } else {
        (product >> 20) as i32
    }
}

/// A size with the bits cleared that TeX's halving drops.
fn kept(z: u32) -> u32
    requires { z < 2 ^ 27 }
    ensures exact { result ≡ kept_size z }
    ensures below { result ≤ 2 ^ 27 - 16 }
{
    let k = halved_times(z);
    z >> k << k
}

/// How often a size is halved until it is below 2^23.
fn halved_times(z: u32) -> u32
    requires { z < 2 ^ 27 }
    ensures exact { result ≡ halvings z }
    ensures few { result ≤ 4 }
    ensures enough { z / 2 ^ result < 2 ^ 23 }
{
    if z < 1 << 23 {
        0
    } else if z < 1 << 24 {
        1
    } else if z < 1 << 25 {
        2
    } else if z < 1 << 26 {
        3
    } else {
        4
    }
}

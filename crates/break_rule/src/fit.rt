//! How well a line fits: what its glue has to make up for when its fonts have been stretched or
//! shrunk, how badly the glue does, and the fitness class (TeX: The Program, sections 850 to 853;
//! pdfTeX manual, `\\pdfadjustspacing`).
ghost use Rattle.std.specs.Prelude.{◌≡◌, ◌+◌, ◌<◌, ◌≤◌, ◌^◌, ◌+ℤ◌, ◌-ℤ◌, ◌<ℤ◌, ◌≤ℤ◌, pos, neg_ℤ, unsigned_abs};
ghost use Rattle.break_rule.specs.Fits.{fit_of_sums, fit_at, stretching as fit_stretching};
ghost use Rattle.break_rule.specs.Fits.{shrinking as fit_shrinking, emergency_of};
ghost use Rattle.break_rule.specs.Fits.{after_fonts as shortfall_after, less_fonts, natural_shortfall};
ghost use Rattle.break_rule.specs.Fits.{less_stretch as after_stretch, less_shrink as after_shrink};
ghost use Rattle.break_rule.specs.Fits.{half_a_step as half_of_a_step, has_infinite as is_infinite};
ghost use Rattle.std.specs.Prelude.{◌&&◌, int_lt};
ghost use Rattle.break_rule.specs.Kept.{IsWithin};

use crate::line::LineFit;
use crate::sums::Sums;
use font_stock::Expand;
use micro_num::{DECENT, Params, Sp, TIGHT, VERY_LOOSE, badness, shrunk_class, stretched_class};

/// How a line of these sums fits in a width, the glue at its margins counted, when the characters
/// there hang out so far.
pub fn fit(
    params: &Params,
    emergency: bool,
    expand: Option<Expand>,
    width: Sp,
    sums: &Sums,
    hang: i64,
) -> LineFit
    requires sums { IsWithin (2 ^ 20) sums.now }
    requires hang { unsigned_abs hang ≤ 2 ^ 33 }
    ensures { result ≡ fit_of_sums params.now emergency expand width sums.now hang }
{
    let finite = lengthened(sums.finite, emergency_stretch(params, emergency));
    let natural = shortfall(width, sums.width, hang);
    let short = after_fonts(params, expand, sums, natural);
    judged(sums, finite, short)
}

/// How a line fits whose glue has to make up for a shortfall.
fn judged(sums: &Sums, finite: i64, short: i64) -> LineFit
    requires { unsigned_abs short ≤ 2 ^ 55 }
    ensures { result ≡ fit_at sums.now finite short }
{
    if short > 0 {
        stretching(sums, finite, short)
    } else {
        shrinking(sums, short)
    }
}

/// The stretch that counts besides the glue's in an emergency.
fn emergency_stretch(params: &Params, emergency: bool) -> Sp
    ensures { result ≡ emergency_of params.now emergency }
{
    if emergency {
        params.emergencystretch
    } else {
        0
    }
}

/// A stretch with another.
fn lengthened(stretch: i64, more: Sp) -> i64
    requires { unsigned_abs stretch ≤ 2 ^ 53 }
    ensures { result ≡ stretch +ℤ more }
{
    stretch + more as i64
}

/// What a line's glue and fonts have to make up for.
fn shortfall(width: Sp, natural: i64, hang: i64) -> i64
    requires natural { unsigned_abs natural ≤ 2 ^ 53 }
    requires hang { unsigned_abs hang ≤ 2 ^ 33 }
    ensures exact { result ≡ width -ℤ natural +ℤ hang }
    ensures small { unsigned_abs result ≤ 2 ^ 54 }
{
    width as i64 - natural + hang
}

/// What is left of a shortfall when the fonts are stretched or shrunk, which level 2 asks for.
fn after_fonts(params: &Params, expand: Option<Expand>, sums: &Sums, short: i64) -> i64
    requires sums { IsWithin (2 ^ 20) sums.now }
    requires short { unsigned_abs short ≤ 2 ^ 54 }
    ensures exact { result ≡ shortfall_after params.now expand sums.now short }
    ensures small { unsigned_abs result ≤ 2 ^ 55 }
{
    if params.pdfadjustspacing >= 2 {
        expanded(expand, sums.font_stretch, sums.font_shrink, short)
    } else {
        short
    }
}

/// What is left of a shortfall when the fonts are stretched or shrunk.
fn expanded(expand: Option<Expand>, stretch: i64, shrink: i64, short: i64) -> i64
    requires stretch { unsigned_abs stretch ≤ 2 ^ 53 }
    requires shrink { unsigned_abs shrink ≤ 2 ^ 53 }
    requires short { unsigned_abs short ≤ 2 ^ 54 }
    ensures exact { result ≡ less_fonts expand stretch shrink short }
    ensures small { unsigned_abs result ≤ 2 ^ 55 }
{
    match expand {
        None => short,
        Some(expand) => {
            if short > 0 {
                less_stretch(expand, stretch, short)
            } else if short < 0 {
                less_shrink(expand, shrink, short)
            } else {
                short
            }
        }
    }
}

/// What is left of a shortfall when the fonts are stretched.
fn less_stretch(expand: Expand, given: i64, short: i64) -> i64
    requires given { unsigned_abs given ≤ 2 ^ 53 }
    requires short { unsigned_abs short ≤ 2 ^ 54 }
    requires some { pos 0 <ℤ short }
    ensures exact { result ≡ after_stretch expand given short }
    ensures small { unsigned_abs result ≤ 2 ^ 55 }
{
    if given > short {
        half_a_step(given, expand.stretch, expand.step)
    } else if given > 0 {
        short - given
    } else {
        short
    }
}

/// What is left of a shortfall below 0 when the fonts are shrunk.
fn less_shrink(expand: Expand, given: i64, short: i64) -> i64
    requires given { unsigned_abs given ≤ 2 ^ 53 }
    requires short { unsigned_abs short ≤ 2 ^ 54 }
    requires some { short <ℤ pos 0 }
    ensures exact { result ≡ after_shrink expand given short }
    ensures small { unsigned_abs result ≤ 2 ^ 55 }
{
    let excess = negated(short);
    if given > excess {
        negated(half_a_step(given, expand.shrink, expand.step))
    } else if given > 0 {
        short + given
    } else {
        short
    }
}

/// Half of what one step of the fonts makes up for.
fn half_a_step(given: i64, limit: u16, step: u16) -> i64
    requires given { pos 0 <ℤ given }
    requires small { unsigned_abs given ≤ 2 ^ 53 }
    requires step { 1 ≤ step }
    ensures exact { result ≡ pos (half_of_a_step given limit step) }
    ensures small { unsigned_abs result ≤ 2 ^ 53 }
{
    let steps = (limit / step) as u64;
    if steps == 0 {
        0
    } else {
        (given as u64 / steps / 2) as i64
    }
}

/// A length with its sign changed.
fn negated(length: i64) -> i64
    requires { unsigned_abs length ≤ 2 ^ 62 }
    ensures exact { result ≡ neg_ℤ length }
    ensures small { unsigned_abs result ≤ unsigned_abs length }
{
    -length
}

/// Whether some stretch is infinite.
fn has_infinite(sums: &Sums) -> bool
    ensures { result ≡ is_infinite sums.now }
{
    let fil = sums.fil == 0;
    let fill = sums.fill == 0;
    let filll = sums.filll == 0;
    !(fil & fill & filll)
}

/// How a line fits whose glue has to stretch.
fn stretching(sums: &Sums, finite: i64, short: i64) -> LineFit
    requires { pos 0 <ℤ short }
    ensures { result ≡ fit_stretching sums.now finite short }
{
    if has_infinite(sums) {
        return fitted(short, 0, DECENT);
    }
    if is_hopeless(finite, short) {
        return fitted(short, 10000, VERY_LOOSE);
    }
    let badness = badness(short, finite);
    fitted(short, badness, stretched_class(badness))
}

/// Whether far too much is to be made up for by too little.
fn is_hopeless(finite: i64, short: i64) -> bool
    ensures { result ≡ (int_lt (pos 7230584) short && int_lt finite (pos 1663497)) }
{
    let far = short > 7230584;
    let little = finite < 1663497;
    far & little
}

/// How a line fits whose glue doesn't stretch.
fn shrinking(sums: &Sums, short: i64) -> LineFit
    requires small { unsigned_abs short ≤ 2 ^ 55 }
    requires none { short ≤ℤ pos 0 }
    ensures { result ≡ fit_shrinking sums.now short }
{
    let excess = negated(short);
    if excess > sums.shrink {
        fitted(short, 10001, TIGHT)
    } else {
        let badness = badness(excess, sums.shrink);
        fitted(short, badness, shrunk_class(badness))
    }
}

/// A fit of these values.
fn fitted(shortfall: i64, badness: u16, class: u8) -> LineFit
    ensures { result ≡ record { shortfall = shortfall; badness = badness; class = class } }
{
    LineFit {
        shortfall,
        badness,
        class,
    }
}

//! By how much the fonts of a line are expanded (pdfTeX manual, `\pdfadjustspacing`).
ghost use Rattle.std.specs.Prelude.{◌≡◌, ◌≤◌, ◌^◌, ◌<ℤ◌, pos, unsigned_abs};
ghost use Rattle.break_rule.specs.Kept.{IsWithin};
ghost use Rattle.break_rule.specs.Fits.{has_infinite as has_infinite_of};
ghost use Rattle.hpack_two.specs.Widths.{ratio_of, share_of};

use crate::quotients::{negated, rounded_over};
use break_rule::Sums;

/// The ratio of a line that lacks so much with its fonts as they are, in thousandths of their
/// limits, within ±1000.
#[tactic(auto, unfolding(crate::specs::Widths::ratio_of))]
pub fn ratio(expand: bool, lacking: i64, sums: &Sums) -> i32
    requires lacking { unsigned_abs lacking ≤ 2 ^ 51 }
    requires sums { IsWithin 131076 sums.now }
    ensures exact { result ≡ ratio_of expand lacking sums.now }
    ensures within { unsigned_abs result ≤ 1000 }
{
    if expand && lacking > 0 && sums.font_stretch > 0 && !has_infinite(sums) {
        share(lacking, sums.font_stretch) as i32
    } else if expand && lacking < 0 && sums.font_shrink > 0 {
        negated(share(negated(lacking), sums.font_shrink)) as i32
    } else {
        0
    }
}

/// Whether any glue stretches infinitely.
fn has_infinite(sums: &Sums) -> bool
    ensures { result ≡ has_infinite_of sums.now }
{
    !(sums.fil == 0 && sums.fill == 0 && sums.filll == 0)
}

/// So many thousandths of what the fonts can give are asked for.
fn share(asked: i64, given: i64) -> i64
    requires asked { pos 0 <ℤ asked }
    requires asked_size { unsigned_abs asked ≤ 2 ^ 51 }
    requires given { pos 0 <ℤ given }
    requires given_size { unsigned_abs given ≤ 2 ^ 60 }
    ensures exact { result ≡ share_of asked given }
    ensures within { unsigned_abs result ≤ 1000 }
{
    rounded_over(1000 * asked, given).min(1000)
}

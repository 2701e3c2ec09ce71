//! What a line costs: a sum of four terms, which see how badly it fits, the penalty of the break
//! that ends it, the classes of it and of the line before it, and hyphens at its ends (TeX: The
//! Program, section 859).
ghost use Rattle.std.specs.Prelude.{◌≡◌, ◌<◌, ◌≤◌, ◌^◌, ℤ, pos, ◌+ℤ◌, unsigned_abs};
ghost use Rattle.break_pass.specs.Demerits.{badness_demerits as for_badness, demerits_of};
ghost use Rattle.break_pass.specs.Demerits.{penalty_demerits as for_penalty, squared as square_of};
ghost use Rattle.break_pass.specs.Demerits.{hyphen_demerits as for_hyphens, AreSmall};
ghost use Rattle.line_break.specs.Tables.{adjacent as for_classes, far_apart as are_far_apart};

use crate::place::{BreakKind, LegalPlace};
use break_rule::LineFit;
use micro_num::Params;

/// The penalty that forces a break.
pub(crate) const EJECT: i32 = -10000;

/// What costs the most for its badness, where the square isn't taken.
const MOST: i64 = 100_000_000;

/// The demerits of a line of a fit, from a break of a kind and after a line of a class, to a legal
/// place. They are within 2^34.
#[tactic(auto, unfolding(crate::specs::Demerits::demerits_of))]
pub fn line_demerits(
    params: &Params,
    before: BreakKind,
    earlier: u8,
    fit: LineFit,
    to: LegalPlace,
) -> i64
    requires { unsigned_abs to.penalty ≤ 10000 }
    ensures { result
        ≡ demerits_of params.now before earlier fit.badness fit.class to.penalty to.kind }
{
    let badness = badness_demerits(params.linepenalty, fit.badness);
    let penalty = penalty_demerits(to.penalty);
    let classes = class_demerits(params.adjdemerits, earlier, fit.class);
    let hyphens = hyphen_demerits(params, before, to.kind);
    total(badness, penalty, classes, hyphens)
}

/// The sum of the four terms.
fn total(badness: i64, penalty: i64, classes: i64, hyphens: i64) -> i64
    requires badness { unsigned_abs badness ≤ 2 ^ 32 }
    requires penalty { unsigned_abs penalty ≤ 2 ^ 32 }
    requires classes { unsigned_abs classes ≤ 2 ^ 32 }
    requires hyphens { unsigned_abs hyphens ≤ 2 ^ 32 }
    ensures { result ≡ badness +ℤ penalty +ℤ classes +ℤ hyphens }
{
    badness + penalty + classes + hyphens
}

/// A square.
fn squared(length: i64) -> i64
    requires { unsigned_abs length ≤ 10000 }
    ensures exact { result ≡ square_of length }
    ensures small { unsigned_abs result ≤ 100000000 }
{
    length * length
}

/// What a line costs for its badness.
fn badness_demerits(linepenalty: i32, badness: u16) -> i64
    ensures exact { result ≡ for_badness linepenalty badness }
    ensures small { unsigned_abs result ≤ 2 ^ 32 }
{
    let sum = linepenalty as i64 + badness as i64;
    if sum.unsigned_abs() >= 10000 {
        MOST
    } else {
        squared(sum)
    }
}

/// What it costs for the penalty of the break that ends it.
fn penalty_demerits(penalty: i32) -> i64
    requires { unsigned_abs penalty ≤ 10000 }
    ensures exact { result ≡ for_penalty penalty }
    ensures small { unsigned_abs result ≤ 2 ^ 32 }
{
    if penalty > 0 {
        squared(penalty as i64)
    } else if penalty > EJECT {
        -squared(penalty as i64)
    } else {
        0
    }
}

/// Whether two classes differ by more than 1.
fn are_far_apart(earlier: u8, class: u8) -> bool
    ensures { result ≡ are_far_apart earlier class }
{
    let tighter = u16::from(earlier) + 1 < u16::from(class);
    let looser = u16::from(class) + 1 < u16::from(earlier);
    tighter | looser
}

/// What it costs beside a line of another class.
fn class_demerits(adjdemerits: i32, earlier: u8, class: u8) -> i64
    ensures exact { result ≡ for_classes adjdemerits earlier class }
    ensures small { unsigned_abs result ≤ 2 ^ 32 }
{
    if are_far_apart(earlier, class) {
        adjdemerits as i64
    } else {
        0
    }
}

/// What it costs for hyphens at both of its ends, or at the break before the last line.
fn hyphen_demerits(params: &Params, before: BreakKind, to: BreakKind) -> i64
    ensures exact { result ≡ for_hyphens params.now before to }
    ensures small { unsigned_abs result ≤ 2 ^ 32 }
{
    match (before, to) {
        (BreakKind::Discretionary, BreakKind::Discretionary) => params.doublehyphendemerits as i64,
        (BreakKind::Discretionary, BreakKind::End) => params.finalhyphendemerits as i64,
        _ => 0,
    }
}

/// The parameters that are added as they are fit their type, so that no total is too large.
pub(crate) fn added_parameters_fit(params: &Params)
    ensures { AreSmall params.now }
{
    let _ = params.adjdemerits as i64 + params.doublehyphendemerits as i64;
    let _ = params.finalhyphendemerits as i64;
}

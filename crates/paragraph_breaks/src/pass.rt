//! One pass over a list: whether it is taken, and how it breaks the list.
ghost use Rattle.std.specs.Prelude.{◌≡◌, ◌<◌, ◌≤◌, ◌^◌, ◌∷◌, [], IfOk, length, option_map, pos};
ghost use Rattle.std.specs.Ordering.{int_eq};
ghost use Rattle.line_break.specs.Taken.{first_taken};
ghost use Rattle.break_pass.specs.Passes.{pass_of};
ghost use Rattle.paragraph_breaks.specs.Passes.{at_most_infinite as cut_at_infinite};
ghost use Rattle.paragraph_breaks.specs.Passes.{taken_by, taken_way as way_if_taken};

use crate::broken::Breaks;
use crate::loose::loose_way;
use crate::places::break_places;
use break_pass::best_of_pass;
use break_rule::BreakRule;
use line_break::Way;
use micro_num::NoMemory;
use std::alloc::Global;

/// The greatest badness that a line is judged by.
const INFINITE: i32 = 10000;

/// A threshold, at most the greatest badness.
pub(crate) fn at_most_infinite(threshold: i32) -> i32
    ensures { result ≡ cut_at_infinite threshold }
{
    threshold.min(INFINITE)
}

/// Whether a paragraph is to have as many lines as its best way.
fn has_no_looseness(rule: &BreakRule) -> bool
    ensures { result ≡ int_eq rule.now.params.looseness (pos 0) }
{
    rule.params().looseness == 0
}

/// The way of a pass, where it is taken.
fn taken_way(
    alloc: Global,
    rule: &BreakRule,
    threshold: i32,
    last: bool,
) -> Result<Option<Way>, NoMemory>
    requires few { length rule.now.items ≤ 65536 }
    requires shape { length rule.now.shape < 2 ^ 32 }
    ensures { IfOk result (λ way. way
        ≡ way_if_taken (pass_of rule.now threshold last) rule.now.params.looseness) }
{
    if has_no_looseness(rule) {
        best_of_pass(alloc, rule, threshold, last)
    } else {
        loose_way(alloc, rule, threshold, last)
    }
}

/// How a pass of a number breaks, where it is taken.
pub(crate) fn breaks_of_pass(
    alloc: Global,
    rule: &BreakRule,
    threshold: i32,
    last: bool,
    number: u8,
) -> Result<Option<Breaks>, NoMemory>
    requires few { length rule.now.items ≤ 65536 }
    requires shape { length rule.now.shape < 2 ^ 32 }
    ensures { IfOk result (λ breaks. option_map taken_by breaks
        ≡ first_taken rule.now.params.looseness
        ((number, pass_of rule.now threshold last) ∷ [])) }
{
    match taken_way(alloc, rule, threshold, last)? {
        None => Ok(None),
        Some(way) => Ok(Some(Breaks {
            pass: number,
            places: break_places(alloc, rule.legal(), &way)?,
            total: way.total,
        })),
    }
}

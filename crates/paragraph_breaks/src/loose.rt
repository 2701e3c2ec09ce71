//! The way that a pass gives at a looseness other than 0 (TeX: The Program, section 875): the best
//! of those that have so many lines more than the best of all, as near to looseness as it gets.
ghost use Rattle.std.specs.Prelude.{◌≡◌, ◌≤◌, ◌<◌, ◌^◌, ◌||◌, IfOk, Some, false, length, map};
ghost use Rattle.std.specs.Prelude.{option_map, pos, if◌then◌else◌};
ghost use Rattle.std.specs.Ordering.{int_eq};
ghost use Rattle.std.specs.List.{filter};
ghost use Rattle.line_break.specs.Taken.{nearest, reaches_toward};
ghost use Rattle.break_pass.specs.Passes.{pass_of};
ghost use Rattle.paragraph_breaks.specs.Nearness.{excess as excess_of, distance as distance_of};
ghost use Rattle.paragraph_breaks.specs.Nearness.{closer as closer_of};
ghost use Rattle.paragraph_breaks.specs.Passes.{taken_way};

use break_pass::nodes_of_pass;
use break_rule::BreakRule;
use line_break::Way;
use micro_num::NoMemory;
use std::alloc::Global;

/// How many lines more than the best way the ways of a group have.
fn excess(best: u32, group: u32) -> i64
    ensures { result ≡ excess_of best group }
{
    group as i64 - best as i64
}

/// How far from looseness that is.
fn distance(looseness: i32, best: u32, group: u32) -> u64
    ensures { result ≡ distance_of looseness best group }
{
    (looseness as i64 - excess(best, group)).unsigned_abs()
}

/// Whether a number of lines is from 0 to looseness, whichever sign that has.
fn is_toward(looseness: i32, excess: i64) -> bool
    ensures { result ≡ reaches_toward looseness excess }
{
    let looseness = looseness as i64;
    let above = (0 <= excess) & (excess <= looseness);
    let below = (looseness <= excess) & (excess <= 0);
    above | below
}

/// The closer one of a group and the one found so far, which is after it.
fn closer(looseness: i32, best: u32, group: u32, found: Option<u32>) -> u32
    ensures { result ≡ closer_of looseness best group found }
{
    match found {
        None => group,
        Some(other) => {
            if distance(looseness, best, other) < distance(looseness, best, group) {
                other
            } else {
                group
            }
        }
    }
}

/// What is found with one more group in front of those that were looked at.
fn nearer(looseness: i32, best: u32, group: u32, found: Option<u32>) -> Option<u32>
    ensures { result ≡ (if reaches_toward looseness (excess_of best group)
        then Some (closer_of looseness best group found) else found) }
{
    if is_toward(looseness, excess(best, group)) {
        Some(closer(looseness, best, group, found))
    } else {
        found
    }
}

/// The first group whose ways come nearest to looseness.
fn nearest_group(groups: &[u32], best: u32, looseness: i32) -> Option<u32>
    ensures { option_map (excess_of best) result
        ≡ nearest looseness (filter (reaches_toward looseness)
        (map (excess_of best) groups.now)) }
{
    let mut found: Option<u32> = None;
    for back in 0..groups.len() {
        let group = groups[groups.len() - 1 - back];
        found = nearer(looseness, best, group, found);
    }
    found
}

/// Whether the way of a group is taken: in the last pass, or with just as many lines more as
/// looseness asks for.
fn is_taken(looseness: i32, best: u32, group: u32, last: bool) -> bool
    ensures { result ≡ last || int_eq (excess_of best group) looseness }
{
    let is_reached = excess(best, group) == looseness as i64;
    last | is_reached
}

/// How many lines more than its best way a paragraph is to have.
fn looseness_of(rule: &BreakRule) -> i32
    ensures { result ≡ rule.now.params.looseness }
{
    rule.params().looseness
}

/// The way of a pass, where it is taken.
pub(crate) fn loose_way(
    alloc: Global,
    rule: &BreakRule,
    threshold: i32,
    last: bool,
) -> Result<Option<Way>, NoMemory>
    requires few { length rule.now.items ≤ 65536 }
    requires shape { length rule.now.shape < 2 ^ 32 }
    requires loose { int_eq rule.now.params.looseness (pos 0) ≡ false }
    ensures { IfOk result (λ way. way
        ≡ taken_way (pass_of rule.now threshold last) rule.now.params.looseness) }
{
    let nodes = nodes_of_pass(alloc, rule, threshold, last)?;
    let Some(best) = nodes.best(alloc)? else {
        return Ok(None);
    };
    let best = best.last.group;
    let groups = nodes.groups(alloc)?;
    let looseness = looseness_of(rule);
    let Some(group) = nearest_group(groups.as_slice(), best, looseness) else {
        return Ok(None);
    };
    if is_taken(looseness, best, group, last) {
        nodes.best_of_group(alloc, group)
    } else {
        Ok(None)
    }
}

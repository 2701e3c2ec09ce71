//! Breaking a paragraph: the passes one after another (TeX: The Program, sections 863 and 873 to
//! 875).
ghost use Rattle.std.specs.Prelude.{◌≡◌, ◌<◌, ◌≤◌, ◌^◌, ◌∷◌, [], IfNone, IfOk, IfSome, Some};
ghost use Rattle.std.specs.Prelude.{None, false, int_le, int_lt, length, option_map, pos, true};
ghost use Rattle.std.specs.Prelude.{unsigned_abs};
ghost use Rattle.hlist.specs.Bounds.{IsInBounds, IsListOf, IsSmall};
ghost use Rattle.hlist_hyph.specs.Hyphenated.{places_in};
ghost use Rattle.line_break.specs.Taken.{first_taken};
ghost use Rattle.break_pass.specs.Passes.{pass_of};
ghost use Rattle.break_rule.specs.Over.{Share};
ghost use Rattle.paragraph_breaks.specs.Outcome.{IsBroken, broken_as, without_emergency};
ghost use Rattle.paragraph_breaks.specs.Passes.{at_most_infinite as cut_at_infinite};
ghost use Rattle.paragraph_breaks.specs.Passes.{early_taken, late_taken, rule_over, taken_by};

use crate::broken::{Breaks, Broken, BrokenRule};
use crate::pass::{at_most_infinite, breaks_of_pass};
use break_rule::BreakRule;
use font_stock::Stock;
use hlist::HList;
use hlist_hyph::{copied, hyphenated, is_changed};
use liang_hyph::Patterns;
use micro_num::{NoMemory, Params, ShapeLine, Tables};
use std::alloc::Global;

/// Whether the first pass is left out.
fn has_no_first_pass(params: &Params) -> bool
    ensures { result ≡ int_lt params.now.pretolerance (pos 0) }
{
    params.pretolerance < 0
}

/// The threshold of the first pass.
fn first_threshold(rule: &BreakRule) -> i32
    ensures { result ≡ cut_at_infinite rule.now.params.pretolerance }
{
    at_most_infinite(rule.params().pretolerance)
}

/// The threshold of the second and the third pass.
fn later_threshold(rule: &BreakRule) -> i32
    ensures { result ≡ cut_at_infinite rule.now.params.tolerance }
{
    at_most_infinite(rule.params().tolerance)
}

/// Whether the second pass is the last one.
fn has_no_third_pass(rule: &BreakRule) -> bool
    ensures { result ≡ int_le rule.now.params.emergencystretch (pos 0) }
{
    rule.params().emergencystretch <= 0
}

/// How the first pass breaks a list, where it is taken.
fn first_breaks(alloc: Global, rule: &BreakRule) -> Result<Option<Breaks>, NoMemory>
    requires few { length rule.now.items ≤ 65536 }
    requires shape { length rule.now.shape < 2 ^ 32 }
    requires calm { rule.now.emergency ≡ false }
    requires tried { int_lt rule.now.params.pretolerance (pos 0) ≡ false }
    ensures { let r = rule.now in IfOk result (λ breaks. option_map taken_by breaks
        ≡ early_taken r.items r.params r.shape r.stock) }
{
    let threshold = first_threshold(rule);
    breaks_of_pass(alloc, rule, threshold, false, 1)
}

/// How the third pass breaks, which is always taken.
fn last_breaks(alloc: Global, rule: &BreakRule, tolerance: i32) -> Result<Breaks, NoMemory>
    requires few { length rule.now.items ≤ 65536 }
    requires shape { length rule.now.shape < 2 ^ 32 }
    ensures { IfOk result (λ breaks. Some (taken_by breaks)
        ≡ first_taken rule.now.params.looseness ((3, pass_of rule.now tolerance true) ∷ [])) }
{
    let breaks = breaks_of_pass(alloc, rule, tolerance, true, 3)?;
    Ok(breaks.unwrap())
}

/// How the second pass breaks the list of a rule, or else the third, for which it keeps what the
/// second knows of the list.
fn later_breaks<'a>(alloc: Global, rule: BreakRule<'a>) -> Result<BrokenRule<'a>, NoMemory>
    requires few { length rule.items ≤ 65536 }
    requires shape { length rule.shape < 2 ^ 32 }
    requires calm { rule.emergency ≡ false }
    ensures rule { IfOk result (λ broken. without_emergency broken.rule ≡ rule.entry) }
    ensures breaks { let r = rule.entry in IfOk result (λ broken. Some (taken_by broken.breaks)
        ≡ late_taken r.items r.params r.shape r.stock) }
{
    let tolerance = later_threshold(&rule);
    let last = has_no_third_pass(&rule);
    match breaks_of_pass(alloc, &rule, tolerance, last, 2)? {
        Some(breaks) => Ok(BrokenRule { rule, breaks }),
        None => {
            let rule = rule.in_emergency();
            let breaks = last_breaks(alloc, &rule, tolerance)?;
            Ok(BrokenRule { rule, breaks })
        }
    }
}

/// Breaks a paragraph by the later passes over its hyphenated list, and gives the rule of that,
/// by which its lines are made. It fails only for want of memory.
pub fn broken_hyphenated<'a>(
    alloc: Global,
    list: &'a HList,
    params: &'a Params,
    shape: &'a [ShapeLine],
    stock: &'a Stock,
) -> Result<BrokenRule<'a>, NoMemory>
    requires bounds { IsInBounds list.now }
    requires own { IsListOf stock.now list.now }
    requires share { Share params.now stock.now list.now.items }
    requires hsize { unsigned_abs params.now.hsize < 2 ^ 30 }
    requires hangindent { unsigned_abs params.now.hangindent < 2 ^ 30 }
    requires shape { length shape.now < 2 ^ 32 }
    ensures rule { IfOk result (λ broken. without_emergency broken.rule
        ≡ rule_over list.now.items params.now shape.now stock.now false) }
    ensures breaks { IfOk result (λ broken. Some (taken_by broken.breaks)
        ≡ late_taken list.now.items params.now shape.now stock.now) }
{
    let rule = BreakRule::make(alloc, list, params, shape, stock, false)?;
    later_breaks(alloc, rule)
}

/// Breaks a paragraph by its list as it stands: by the first pass, or where no word is hyphenated
/// by the later ones, and gives the rule of the list, by which its lines are made. Where it gives
/// nothing, the first pass isn't taken, and the hyphenated list is to be broken. It fails only for
/// want of memory.
pub fn broken_unhyphenated<'a>(
    alloc: Global,
    list: &'a HList,
    params: &'a Params,
    shape: &'a [ShapeLine],
    tables: &Tables,
    patterns: &Patterns,
    stock: &'a Stock,
) -> Result<Option<BrokenRule<'a>>, NoMemory>
    requires bounds { IsInBounds list.now }
    requires own { IsListOf stock.now list.now }
    requires share { Share params.now stock.now list.now.items }
    requires hsize { unsigned_abs params.now.hsize < 2 ^ 30 }
    requires hangindent { unsigned_abs params.now.hangindent < 2 ^ 30 }
    requires shape { length shape.now < 2 ^ 32 }
    ensures broken { IfOk result (λ found. IfSome found (λ broken. IsBroken (record {
      items = list.now.items;
      params = params.now;
      shape = shape.now;
      tables = tables.now;
      places = places_in patterns.now params.now;
      stock = stock.now;
    }) (broken_as list.now broken.breaks))) }
    ensures rule { IfOk result (λ found. IfSome found (λ broken. without_emergency broken.rule
        ≡ rule_over list.now.items params.now shape.now stock.now false)) }
    ensures none { IfOk result (λ found. IfNone found
        (None ≡ early_taken list.now.items params.now shape.now stock.now)) }
{
    if has_no_first_pass(params) {
        if is_changed(alloc, list, params, tables, patterns, stock)? {
            return Ok(None);
        }
        return Ok(Some(broken_hyphenated(alloc, list, params, shape, stock)?));
    }
    let rule = BreakRule::make(alloc, list, params, shape, stock, false)?;
    if let Some(breaks) = first_breaks(alloc, &rule)? {
        return Ok(Some(BrokenRule { rule, breaks }));
    }
    if is_changed(alloc, list, params, tables, patterns, stock)? {
        return Ok(None);
    }
    Ok(Some(later_breaks(alloc, rule)?))
}

/// How a list is broken.
fn broken(list: HList, breaks: Breaks) -> Broken
    ensures { result ≡ broken_as list breaks }
{
    Broken {
        list,
        pass: breaks.pass,
        breaks: breaks.places,
        total: breaks.total,
    }
}

/// Breaks a paragraph's list into lines. It fails only for want of memory.
///
/// The first pass, with `pretolerance`, is tried where that is at least 0; the second has the
/// hyphenated list and `tolerance`; the third counts `emergencystretch` besides, where that is
/// above 0. Thresholds above 10000 count as 10000. The first pass is taken that reaches the end, at
/// a looseness other than 0 with just so many lines more as it asks for; the last one always is.
///
/// Lines end at legal places of the list that was broken, strictly ascending, the last of them the
/// end. In the pass that is taken no way to the end has a lower total, or at a looseness other than
/// 0 none with as many lines. That list may be broken and made into lines as the given one.
pub fn breaks(
    alloc: Global,
    list: &HList,
    params: &Params,
    shape: &[ShapeLine],
    tables: &Tables,
    patterns: &Patterns,
    stock: &Stock,
) -> Result<Broken, NoMemory>
    requires small { IsSmall list.now }
    requires own { IsListOf stock.now list.now }
    requires share { Share params.now stock.now list.now.items }
    requires hsize { unsigned_abs params.now.hsize < 2 ^ 30 }
    requires hangindent { unsigned_abs params.now.hangindent < 2 ^ 30 }
    requires shape { length shape.now < 2 ^ 32 }
    ensures broken { IfOk result (IsBroken (record {
      items = list.now.items;
      params = params.now;
      shape = shape.now;
      tables = tables.now;
      places = places_in patterns.now params.now;
      stock = stock.now;
    })) }
    ensures bounds { IfOk result (λ broken. IsInBounds broken.list) }
    ensures own { IfOk result (λ broken. IsListOf stock.now broken.list) }
    ensures share { IfOk result (λ broken. Share params.now stock.now broken.list.items) }
{
    if let Some(found) = broken_unhyphenated(alloc, list, params, shape, tables, patterns, stock)? {
        return Ok(broken(copied(alloc, list)?, found.breaks));
    }
    let made = hyphenated(alloc, list, params, tables, patterns, stock)?;
    let breaks = broken_hyphenated(alloc, &made, params, shape, stock)?.breaks;
    Ok(broken(made, breaks))
}

//! What one pass gives, with and without a rescue.
ghost use Rattle.std.specs.Prelude.{◌≡◌, ◌≤◌, ◌<◌, ◌^◌, length, unsigned_abs};

use crate::fixture::{FIL, params, rule, stock, words};
use break_pass::best_of_pass;
use break_rule::BreakRule;
use font_stock::{FontCodes, Stock};
use items::Items;
use line_break::Way;
use micro_num::{Params, Sp};
use std::alloc::{AllocError, Global};
use std::test::Fail;

/// The item at which a place stands, counted from 1.
fn item_of(rule: &BreakRule, place: u32) -> u32 {
    match rule.legal().get((place as usize).saturating_sub(1)) {
        Some(item) => *item,
        None => u32::MAX,
    }
}

/// The items at which the lines of a way end.
fn items_of(alloc: Global, rule: &BreakRule, way: &Way) -> Result<Items<u32>, AllocError> {
    let mut breaks = Items::new(alloc);
    let earlier = way.earlier.as_slice();
    for back in 1..earlier.len() {
        let node = earlier[earlier.len() - 1 - back];
        breaks.push(item_of(rule, node.place))?;
    }
    breaks.push(item_of(rule, way.last.place))?;
    Ok(breaks)
}

/// The total and the breaks of the best way of a pass over a paragraph, where one reaches the end.
fn passed(
    alloc: Global,
    stock: &Stock,
    params: &Params,
    text: &[u8],
    threshold: i32,
    last: bool,
) -> Result<Option<(i64, Items<u32>)>, Fail>
    requires one { length stock.now ≡ 1 }
    requires short { length text.now ≤ 1000 }
    requires hsize { unsigned_abs params.now.hsize < 2 ^ 30 }
    requires hangindent { unsigned_abs params.now.hangindent < 2 ^ 30 }
{
    let list = words(alloc, stock, text)?;
    let rule = rule(alloc, &list, params, stock)?;
    match best_of_pass(alloc, &rule, threshold, last)? {
        Some(way) => Ok(Some((way.total, items_of(alloc, &rule, &way)?))),
        None => Ok(None),
    }
}

/// A pass over a paragraph in lines so wide, with these adjdemerits.
fn pass(
    alloc: Global,
    hsize: Sp,
    adjdemerits: i32,
    text: &[u8],
    threshold: i32,
    last: bool,
) -> Result<Option<(i64, Items<u32>)>, Fail>
    requires short { length text.now ≤ 1000 }
    requires hsize { unsigned_abs hsize < 2 ^ 30 }
{
    let stock = stock(alloc, FontCodes::plain(), None)?;
    let mut params = params(hsize, 0, 0);
    params.adjdemerits = adjdemerits;
    passed(alloc, &stock, &params, text, threshold, last)
}

/// Whether a pass gave these breaks and this total.
fn gave(found: &Option<(i64, Items<u32>)>, total: i64, breaks: &[u32]) -> bool {
    match found {
        Some((sum, places)) => (*sum == total) & (places.as_slice() == breaks),
        None => false,
    }
}

#[test]
fn a_line_that_fits_costs_the_line_penalty(rt: HostRuntime) -> Result<(), Fail> {
    let found = pass(rt.alloc(), 983040, 10000, b"abc", 100, false)?;
    assert!(rt; gave(&found, 100, &[5]));
    Ok(())
}

#[test]
fn an_overfull_line_is_rescued_in_the_last_pass(rt: HostRuntime) -> Result<(), Fail> {
    let alloc = rt.alloc();
    assert!(rt; pass(alloc, 655360, 10000, b"abc", 100, false)?.is_none());
    let found = pass(alloc, 655360, 10000, b"abc", 200, true)?;
    assert!(rt; gave(&found, 0, &[5]));
    Ok(())
}

#[test]
fn of_equal_ways_the_later_break_wins(rt: HostRuntime) -> Result<(), Fail> {
    let alloc = rt.alloc();
    let stock = stock(alloc, FontCodes::plain(), None)?;
    let mut params = params(1638400, 0, 0);
    params.rightskip = FIL;
    let found = passed(alloc, &stock, &params, b"aa bb cc", 100, false)?;
    assert!(rt; gave(&found, 200, &[5, 10]));
    Ok(())
}

/// The first line is very loose and the last is rescued, whatever the classes beside it cost.
#[test]
fn classes_far_apart_cost_adjdemerits(rt: HostRuntime) -> Result<(), Fail> {
    let alloc = rt.alloc();
    let text = b"aa bb cc dd";
    assert!(rt; pass(alloc, 1572864, 10000, text, 100, false)?.is_none());
    for (adjdemerits, total) in [(10000, 43124), (0, 33124), (-1, 33123)] {
        let found = pass(alloc, 1572864, adjdemerits, text, 200, true)?;
        assert!(rt; gave(&found, total, &[5, 13]));
    }
    Ok(())
}

/// The eleventh line would pass the bound on totals, so the end is rescued.
#[test]
fn no_total_reaches_the_bound(rt: HostRuntime) -> Result<(), Fail> {
    let text = b"aaa aaa aaa aaa aaa aaa aaa aaa aaa aaa aaa aaa";
    let found = pass(rt.alloc(), 1310720, 10000, text, 10000, true)?;
    let breaks = [3, 7, 11, 15, 19, 23, 27, 31, 35, 39, 49];
    assert!(rt; gave(&found, 1_000_010_000, &breaks));
    Ok(())
}

/// A last line behind a hyphen costs finalhyphendemerits, but for a rescued one.
#[test]
fn a_last_line_behind_a_hyphen_costs_more(rt: HostRuntime) -> Result<(), Fail> {
    let alloc = rt.alloc();
    let rescued = pass(alloc, 1802240, 10000, b"aa bb-bb", 200, true)?;
    assert!(rt; gave(&rescued, 2600, &[5, 10]));
    let paid = pass(alloc, 1802240, 10000, b"aa bb-bb", 200, false)?;
    assert!(rt; gave(&paid, 7700, &[5, 10]));
    Ok(())
}

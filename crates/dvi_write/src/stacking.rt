//! A page of set lines, one below the other (TeX: The Program, section 679).
ghost use Rattle.std.specs.Prelude.{◌≡◌, ◌≤◌, ◌<◌, ◌^◌, ◌&&◌, ◌+ℤ◌, ◌-ℤ◌, unsigned_abs, length, map, fold, pos, true};
ghost use Rattle.std.specs.Int.{int_max};
ghost use Rattle.std.specs.Option.{ForSome, option_copied};
ghost use Rattle.instance_core.specs.declared.page.Packed.{Packed};
ghost use Rattle.dvi_write.specs.Stacking.{AnswersPage, AnswersLines, extent_of, gap, is_place};
ghost use Rattle.dvi_write.specs.Stacking.{is_stackable, next_baseline};

use crate::stack_fault::StackFault;
use instance_core::{Packed, Page, PageLine};
use items::Items;
use micro_num::{Params, Sp};
use std::alloc::Global;

/// The page of 1 to 65,537 set lines, one below the other. The first baseline is as far down as its
/// line is high. Between two lines there is so much space that their baselines are `baselineskip`
/// apart, or `lineskip` where less than `lineskiplimit` would be left; natural widths alone count.
///
/// It is refused as [`StackFault::OutOfRange`] where a baseline or a line's lowest point is further
/// than 2^30 - 1 sp from the page's top, with the first such line, counted from 1, and for no other
/// cause. The lines are given up then. Besides, there is [`StackFault::NoMemory`].
pub fn stack(alloc: Global, lines: Vec<Packed>, params: &Params) -> Result<Page, StackFault>
    requires { length lines.items ≤ 65537 }
    ensures { AnswersPage params.now lines.items result }
{
    let width = widest(lines.as_slice());
    let placed = stacked(alloc, lines, params)?;
    Ok(Page {
        extent: extent_of(placed.as_slice().last()),
        lines: Items::from_vec(placed),
        width,
    })
}

/// The lines on their baselines.
fn stacked(alloc: Global, lines: Vec<Packed>, params: &Params) -> Result<Vec<PageLine>, StackFault>
    requires { length lines.items ≤ 65537 }
    ensures { AnswersLines params.now lines.items result }
{
    let mut placed: Vec<PageLine> = Vec::with_capacity(alloc, lines.len())?;
    for line in lines {
        let baseline = next_baseline(params, placed.as_slice().last(), &line);
        if !is_stackable(baseline, line.depth) {
            return Err(StackFault::OutOfRange {
                line: placed.len() as u32 + 1,
            });
        }
        placed.push(PageLine {
            baseline: baseline as Sp,
            line,
        })?;
    }
    Ok(placed)
}

/// Where a line stands below the line above it.
fn next_baseline(params: &Params, above: Option<&PageLine>, line: &Packed) -> i64
    ensures exact { result ≡ next_baseline params.now (option_copied above.entry) line.now }
    ensures near { unsigned_abs result < 2 ^ 35 }
{
    match above {
        Some(above) => {
            let gap = gap(params, above.line.depth, line.height);
            below(lowest(above.baseline, above.line.depth), gap, line.height)
        }
        None => line.height as i64,
    }
}

/// The space between a line of this depth and one of this height.
fn gap(params: &Params, depth: Sp, height: Sp) -> i64
    ensures exact { result ≡ gap params.now depth height }
    ensures near { unsigned_abs result < 2 ^ 33 }
{
    let left = left(params.baselineskip.width, depth, height);
    if left < params.lineskiplimit as i64 {
        params.lineskip.width as i64
    } else {
        left
    }
}

/// What a depth and a height leave of a distance.
fn left(distance: Sp, depth: Sp, height: Sp) -> i64
    ensures exact { result ≡ (distance -ℤ depth) -ℤ height }
    ensures near { unsigned_abs result < 2 ^ 33 }
{
    distance as i64 - depth as i64 - height as i64
}

/// The lowest point of a line.
fn lowest(baseline: Sp, depth: Sp) -> i64
    ensures exact { result ≡ baseline +ℤ depth }
    ensures near { unsigned_abs result < 2 ^ 33 }
{
    baseline as i64 + depth as i64
}

/// A baseline below a point, past a gap and a height.
fn below(point: i64, gap: i64, height: Sp) -> i64
    requires point { unsigned_abs point < 2 ^ 33 }
    requires gap { unsigned_abs gap < 2 ^ 33 }
    ensures exact { result ≡ point +ℤ gap +ℤ height }
    ensures near { unsigned_abs result < 2 ^ 35 }
{
    point + gap + height as i64
}

/// Whether a baseline, and what is so far below it, are places on a page.
fn is_stackable(baseline: i64, depth: Sp) -> bool
    requires { unsigned_abs baseline < 2 ^ 35 }
    ensures { result ≡ is_place baseline && is_place (baseline +ℤ depth) }
{
    is_place(baseline) && is_place(baseline + depth as i64)
}

/// Whether a place is within 2^30 - 1 of the page's top.
fn is_place(place: i64) -> bool
    ensures { result ≡ is_place place }
{
    place >= -(1 << 30) + 1 && place <= (1 << 30) - 1
}

/// The lowest point of the last line, or the page's top where there is none.
fn extent_of(last: Option<&PageLine>) -> Sp
    requires { ForSome (option_copied last) (λ placed. is_stackable placed ≡ true) }
    ensures { result ≡ extent_of (option_copied last.entry) }
{
    match last {
        Some(placed) => placed.baseline + placed.line.depth,
        None => 0,
    }
}

/// The greatest width of the lines, at least 0.
fn widest(lines: &[Packed]) -> Sp
    ensures { result ≡ fold int_max (pos 0) (map (λ (line : Packed). line.width) lines.now) }
{
    let mut greatest = 0;
    for line in lines {
        greatest = greatest.max(line.width);
    }
    greatest
}

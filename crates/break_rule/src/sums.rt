//! What items add to a line: widths, stretch by order, shrink, and the share of their fonts. Sums
//! are kept running, so that those of any line are a difference of two (TeX: The Program, part 38).
ghost use Rattle.std.specs.Prelude.{◌≡◌, ℕ, pos, unsigned_abs, ◌≤◌, ◌^◌, ◌+ℤ◌, ◌-ℤ◌};
ghost use Rattle.break_rule.specs.Adding.{nothing, plus as sum_of, minus as difference_of};
ghost use Rattle.break_rule.specs.Adding.{rigid as rigid_sums, sums_of_glue};
ghost use Rattle.break_rule.specs.Adding.{where_order as where_order_of};
ghost use Rattle.break_rule.specs.Kept.{IsWithin};
ghost use Rattle.break_rule.specs.Lines.{as_measure};

use crate::line::Measure;
use micro_num::{Glue, Sp};

/// What some items add to a line, in scaled points.
#[derive(Clone, Copy)]
pub struct Sums {
    pub width: i64,
    pub finite: i64,
    pub fil: i64,
    pub fill: i64,
    pub filll: i64,
    pub shrink: i64,
    pub font_stretch: i64,
    pub font_shrink: i64,
}

impl Sums {
    /// What nothing adds.
    #[inline(always)]
    pub fn nothing() -> Sums
        ensures exact { result ≡ nothing }
        ensures small { IsWithin 0 result }
    {
        Sums::rigid(0)
    }

    /// What a width adds that neither stretches nor shrinks.
    #[inline(always)]
    pub fn rigid(width: Sp) -> Sums
        ensures exact { result ≡ rigid_sums width }
        ensures small { IsWithin 1 result }
    {
        Sums {
            width: width as i64,
            finite: 0,
            fil: 0,
            fill: 0,
            filll: 0,
            shrink: 0,
            font_stretch: 0,
            font_shrink: 0,
        }
    }

    /// What a glue adds.
    #[tactic(auto, unfolding(crate::specs::Adding::sums_of_glue))]
    #[inline(always)]
    pub fn of_glue(glue: Glue) -> Sums
        ensures exact { result ≡ sums_of_glue glue }
        ensures small { IsWithin 1 result }
    {
        Sums {
            width: glue.width as i64,
            finite: where_order(glue, 0),
            fil: where_order(glue, 1),
            fill: where_order(glue, 2),
            filll: where_order(glue, 3),
            shrink: glue.shrink as i64,
            font_stretch: 0,
            font_shrink: 0,
        }
    }

    /// Both together.
    #[tactic(auto, unfolding(crate::specs::Adding::plus))]
    #[inline(always)]
    pub fn plus(&self, other: &Sums) -> Sums
        requires own { IsWithin (2 ^ 20) self.now }
        requires other { IsWithin (2 ^ 20) other.now }
        ensures { result ≡ sum_of self.now other.now }
    {
        Sums {
            width: added(self.width, other.width),
            finite: added(self.finite, other.finite),
            fil: added(self.fil, other.fil),
            fill: added(self.fill, other.fill),
            filll: added(self.filll, other.filll),
            shrink: added(self.shrink, other.shrink),
            font_stretch: added(self.font_stretch, other.font_stretch),
            font_shrink: added(self.font_shrink, other.font_shrink),
        }
    }

    /// What is left of these when others are taken away.
    #[tactic(auto, unfolding(crate::specs::Adding::minus))]
    #[inline(always)]
    pub fn minus(&self, other: &Sums) -> Sums
        requires own { IsWithin (2 ^ 20) self.now }
        requires other { IsWithin (2 ^ 20) other.now }
        ensures { result ≡ difference_of self.now other.now }
    {
        Sums {
            width: less(self.width, other.width),
            finite: less(self.finite, other.finite),
            fil: less(self.fil, other.fil),
            fill: less(self.fill, other.fill),
            filll: less(self.filll, other.filll),
            shrink: less(self.shrink, other.shrink),
            font_stretch: less(self.font_stretch, other.font_stretch),
            font_shrink: less(self.font_shrink, other.font_shrink),
        }
    }

    /// The same as it is handed out.
    pub fn as_measure(&self) -> Measure
        ensures { result ≡ as_measure self.now }
    {
        Measure {
            width: self.width,
            stretch: [self.finite, self.fil, self.fill, self.filll],
            shrink: self.shrink,
            font_stretch: self.font_stretch,
            font_shrink: self.font_shrink,
        }
    }
}

/// The stretch of a glue where it is of an order.
pub fn where_order(glue: Glue, order: u8) -> i64
    ensures exact { result ≡ where_order_of order glue }
    ensures small { unsigned_abs result ≤ 2 ^ 31 }
{
    if glue.order == order {
        glue.stretch as i64
    } else {
        0
    }
}

/// The sum of two lengths.
fn added(a: i64, b: i64) -> i64
    requires first { unsigned_abs a ≤ 2 ^ 53 }
    requires second { unsigned_abs b ≤ 2 ^ 53 }
    ensures { result ≡ a +ℤ b }
{
    a + b
}

/// The first of two lengths without the second.
fn less(a: i64, b: i64) -> i64
    requires first { unsigned_abs a ≤ 2 ^ 53 }
    requires second { unsigned_abs b ≤ 2 ^ 53 }
    ensures { result ≡ a -ℤ b }
{
    a - b
}

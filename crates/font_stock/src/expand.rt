//! How far a font may be expanded, and by how much it is at a ratio (pdfTeX manual,
//! `\pdffontexpand` and `\efcode`).
ghost use Rattle.font_stock.specs.Ranges.{AreLimits};

use crate::steps::whole_steps;

/// How far a font may be expanded, in thousandths of its widths: from -shrink to stretch, in
/// multiples of step (pdfTeX manual, `\pdffontexpand`). The stretch is at most 1000, the shrink at
/// most 500, the step from 1 to 100; both limits are multiples of the step, and together they are
/// at most 128 steps.
#[derive(Clone, Copy, Debug, PartialEq, Eq)]
pub struct Expand {
    pub stretch: u16,
    pub shrink: u16,
    pub step: u16,
    pub ghost limits: { AreLimits stretch shrink step },
}

impl Expand {
    ghost use Rattle.std.specs.Prelude.{◌≡◌, ◌≤◌, ◌%◌, unsigned_abs, neg_ℤ, pos};
    ghost use Rattle.font_stock.specs.Steps.{limit_of, step_at, IsStepOf};

    /// The step of a character with this share in the expansion, in thousandths, at a ratio of
    /// thousandths within ±1000.
    pub fn step_at(&self, factor: u16, ratio: i32) -> i32
        requires factor { factor ≤ 1000 }
        requires ratio { unsigned_abs ratio ≤ 1000 }
        ensures exact { result ≡ step_at self.now factor ratio }
        ensures instance { IsStepOf self.now result }
    {
        let magnitude = whole_steps(ratio.unsigned_abs(), factor, self.limit(ratio), self.step);
        if ratio < 0 {
            -(magnitude as i32)
        } else {
            magnitude as i32
        }
    }

    /// The least step, which is that of the greatest shrink.
    pub fn least_step(&self) -> i32
        ensures { result ≡ neg_ℤ (pos self.now.shrink) }
    {
        -(self.shrink as i32)
    }

    /// The limit on the side of a ratio.
    fn limit(&self, ratio: i32) -> u16
        ensures exact { result ≡ limit_of self.now ratio }
        ensures fits { result ≤ 1000 }
        ensures whole { result % self.now.step ≡ 0 }
    {
        if ratio < 0 { self.shrink } else { self.stretch }
    }
}

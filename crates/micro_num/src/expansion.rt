//! Widths of a font that is stretched or shrunk by thousandths
//! (Thành, Micro-typographic extensions to the TeX typesetting system).
ghost use Rattle.std.specs.Prelude.{◌≡◌};
ghost use Rattle.micro_num.specs.Expansion.{expanded, width_at};
ghost use Rattle.micro_num.specs.Scaling.{IsFixWord, IsFontSize};

use crate::Sp;
use crate::rounding::thousandths;
use crate::scaling::scale;

/// The width of a character at a size, in a font that is `step` thousandths wider, or narrower
/// where the step is negative. The wider fix_word and the size are in the ranges of [`scale`].
///
/// [`scale`]: crate::scale
#[tactic(auto, unfolding(crate::specs::Expansion::width_at))]
pub fn expanded_width(w: i32, step: i32, z: Sp) -> Sp
    requires fix_word { IsFixWord (expanded w step) }
    requires size { IsFontSize z }
    ensures { result ≡ width_at w step z }
{
    scale(expanded_fix(w, step) as i32, z)
}

/// The width fix_word w of a font that is `step` thousandths wider, which may be too large for one.
#[tactic(auto, unfolding(crate::specs::Expansion::expanded))]
pub fn expanded_fix(w: i32, step: i32) -> i64
    ensures { result ≡ expanded w step }
{
    thousandths(w as i64, 1000 + step as i64)
}

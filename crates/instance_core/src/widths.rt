//! A width at a size and a step (TeX: The Program, section 572; Thành).
ghost use Rattle.std.specs.Prelude.{◌≡◌, ◌<◌, ◌≤◌};
ghost use Rattle.micro_num.specs.Expansion.{expanded, width_at};
ghost use Rattle.micro_num.specs.Scaling.{IsFixWord, IsFontSize};

use micro_num::{Sp, expanded_width};

/// A width at a size, in a font that is `step` thousandths wider, or narrower where the step is
/// negative. The expanded width is a fix_word, and the size one of a font.
pub fn scaled_width(w: i32, step: i32, z: Sp) -> Sp
    requires fix_word { IsFixWord (expanded w step) }
    requires size { IsFontSize z }
    ensures { result ≡ width_at w step z }
{
    expanded_width(w, step, z)
}

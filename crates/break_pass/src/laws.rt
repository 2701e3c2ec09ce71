//! What holds of every pass over a list, so that the laws of ways hold of it.
ghost use Rattle.std.specs.Prelude.{ℤ, Bool, true, IsSome};
ghost use Rattle.line_break.specs.Best.{best};
ghost use Rattle.line_break.specs.Laws.{IsAlmostBlind, IsEnded};
ghost use Rattle.break_rule.specs.Fits.{Rule};
ghost use Rattle.break_pass.specs.Passes.{pass_of};

/// The end forces a break in every pass.
pub fn every_pass_is_ended()
    ensures { (rule : Rule) (threshold : ℤ) (final : Bool)
        → IsEnded (pass_of rule threshold final) }
{}

/// The last pass always reaches the end.
pub fn the_last_pass_reaches_the_end()
    ensures { (rule : Rule) (threshold : ℤ) → IsSome (best (pass_of rule threshold true)) }
{}

/// The class of the line before changes demerits by no more than the absolute value of
/// `adjdemerits`: so where no place is rescued, nothing is lost by leaving out what is worse.
pub fn demerits_see_little_of_the_line_before()
    ensures { (rule : Rule) (threshold : ℤ) (final : Bool)
        → IsAlmostBlind (pass_of rule threshold final) }
{}

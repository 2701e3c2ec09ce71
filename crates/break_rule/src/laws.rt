//! What the fit of a line depends on.
ghost use Rattle.std.specs.Prelude.{◌≡◌, ℕ};
ghost use Rattle.micro_num.specs.Shape.{group_of};
ghost use Rattle.break_rule.specs.declared.line.From.{From};
ghost use Rattle.break_rule.specs.Fits.{Rule, fit_of};

/// The lines of one group of a paragraph's shape fit alike between the same two breaks. So whether
/// a line is overfull, its badness and its class depend on where it begins and ends and on its
/// group alone.
pub fn lines_of_a_group_fit_alike()
    ensures { (rule : Rule) (from : From) (to number other : ℕ)
        → group_of rule.params rule.shape number ≡ group_of rule.params rule.shape other
        → fit_of rule from to number ≡ fit_of rule from to other }
{}

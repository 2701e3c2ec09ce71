//! Passes worked out by hand, as theorems: the definitions give these breaks and totals.
ghost use Rattle.std.specs.Prelude.{◌≡◌, [], ◌∷◌, true, false, pos, negsuc, None};
ghost use Rattle.line_break.specs.declared.table.Table.{Table};
ghost use Rattle.line_break.specs.Laws.{IsAlmostBlind, IsEnded, IsQuiet, IsSingle};
ghost use Rattle.line_break.specs.Tables.{pass_of};
ghost use Rattle.line_break.specs.Ways.{is_rescued};
ghost use Rattle.line_break.specs.Worked.{outcome, taken, two_ways, one_group, three_groups};
ghost use Rattle.line_break.specs.Worked.{two_passes, rescued_end, rescue_passes, class_tie};
ghost use Rattle.line_break.specs.Worked.{late_rescue, poor_class, hanging, twelve_words};

/// Both `aa | bb cc` and `aa bb | cc` have total 200; the one with the later break is taken.
pub fn the_later_break_wins_a_tie()
    ensures { outcome (pos 0) (two_passes one_group (Some 1)) ≡ taken 1 (5 ∷ 10 ∷ []) 200 }
{}

/// The only node left before the end is rescued, so that the last line adds nothing; adjdemerits
/// count at the first line, as 10000, 0 and -1.
pub fn a_rescued_line_adds_nothing()
    ensures plain { outcome (pos 0) (rescue_passes (pos 10000)) ≡ taken 2 (5 ∷ 13 ∷ []) 43124 }
    ensures without { outcome (pos 0) (rescue_passes (pos 0)) ≡ taken 2 (5 ∷ 13 ∷ []) 33124 }
    ensures negative { outcome (pos 0) (rescue_passes (negsuc 0)) ≡ taken 2 (5 ∷ 13 ∷ []) 33123 }
{}

/// Going back from the end, the nodes at place 2 differ in their class before the places before
/// them differ.
pub fn ties_compare_node_by_node()
    ensures { outcome (pos 0) ((1, class_tie) ∷ []) ≡ taken 1 (2 ∷ 3 ∷ []) 1 }
{}

/// Both lines to the end are too bad; the one from the later place is taken, and adds nothing.
pub fn the_last_open_node_is_rescued()
    ensures { outcome (pos 0) ((2, late_rescue) ∷ []) ≡ taken 2 (2 ∷ 3 ∷ []) 4 }
{}

/// The greater class at place 2 doesn't stand, so the rescue is from the other.
pub fn a_class_that_does_not_stand_is_not_rescued()
    ensures { outcome (pos 0) ((2, poor_class) ∷ []) ≡ taken 2 (2 ∷ 3 ∷ []) 1 }
{}

/// The first line has three words, the second, in the open-ended group, two.
pub fn a_hanging_paragraph_has_two_groups()
    ensures { outcome (pos 0) ((1, hanging) ∷ []) ≡ taken 1 (8 ∷ 16 ∷ []) 200 }
{}

/// One line more is had in the first pass, two more in none, one less in none. In a group that
/// isn't open-ended the earlier place is the later in the order.
pub fn looseness_asks_for_more_lines()
    ensures more { outcome (pos 1) (two_passes three_groups None) ≡ taken 1 (2 ∷ 5 ∷ 10 ∷ []) 300 }
    ensures two_more { outcome (pos 2) (two_passes three_groups None)
        ≡ taken 2 (2 ∷ 5 ∷ 10 ∷ []) 300 }
    ensures fewer { outcome (negsuc 0) (two_passes three_groups None) ≡ taken 2 (2 ∷ 10 ∷ []) 200 }
{}

/// What the laws ask of a pass is met. A pass that is written out is almost blind to classes, and
/// ends with a forced place where its table says so. In the final pass of the first paragraph
/// nothing is rescued; in that of the second the end is.
pub fn passes_written_out_meet_the_premises()
    ensures blind { (t : Table) → IsAlmostBlind (pass_of t) }
    ensures ended { IsEnded (pass_of (two_ways 200 one_group (Some 1) true)) }
    ensures single { IsSingle (pass_of (two_ways 200 three_groups None true)) }
    ensures quiet { IsQuiet (pass_of (two_ways 200 one_group (Some 1) true)) }
    ensures rescued { is_rescued (pass_of (rescued_end (pos 10000) 200 true)) 4 ≡ true }
{}

/// Twelve words of three letters, 20 points wide: the eleventh line would pass the bound and isn't
/// recorded, and the end is rescued.
pub fn the_bound_leaves_a_line_out()
    ensures { outcome (pos 0) ((2, twelve_words) ∷ [])
        ≡ taken 2 (3 ∷ 7 ∷ 11 ∷ 15 ∷ 19 ∷ 23 ∷ 27 ∷ 31 ∷ 35 ∷ 39 ∷ 49 ∷ []) 1000010000 }
{}

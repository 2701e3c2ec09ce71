//! What holds of all ways of every pass: the list of active nodes finds the best, and nothing is
//! lost by leaving out what doesn't stand.
ghost use Rattle.std.specs.Prelude.{◌≡◌, ℕ, suc, ◌≤◌, ℤ, ◌<ℤ◌};
ghost use Rattle.std.specs.Prelude.{◌≤ℤ◌, true, false, pos, Option, IsSome};
ghost use Rattle.std.specs.Cmp.{IsTotalOrder};
ghost use Rattle.std.specs.declared.cmp.Ordering.TheVariants.{Equal};
ghost use Rattle.line_break.specs.declared.node.Node.{Node};
ghost use Rattle.line_break.specs.declared.node.Way.{Way};
ghost use Rattle.line_break.specs.Best.{preference, end_of, to_the_end, best, best_of_group};
ghost use Rattle.line_break.specs.Laws.{IsActiveList, IsAlmostBlind, IsBestAmong, IsEnded};
ghost use Rattle.line_break.specs.Laws.{IsMadeOfLines, IsQuiet, IsSingle, of_group};
ghost use Rattle.line_break.specs.Members.{Among, is_empty};
ghost use Rattle.line_break.specs.Pass.{Pass, order};
ghost use Rattle.line_break.specs.Sweep.{active, first_of_least};
ghost use Rattle.line_break.specs.Taken.{actual_by, actual_looseness, line_count, way_of};
ghost use Rattle.line_break.specs.Unpruned.{best_unpruned, unpruned_to_the_end};
ghost use Rattle.line_break.specs.Ways.{awful_bad, open_to, ways};

/// Before each place the list of active nodes has the nodes of the open ways, each once, in order,
/// and each with the first of all ways to it.
pub fn active_nodes_are_the_open_ways()
    ensures { (q : Pass) (place : ℕ) → IsActiveList q place (active q place) }
{}

/// After the last place the first node of least total has the best way, and so has the first node
/// of least total of each group.
pub fn the_first_node_of_least_total_is_best()
    ensures best { (q : Pass) → IsEnded q → first_of_least (active q (end_of q)) ≡ best q }
    ensures of_group { (q : Pass) (group : ℕ) → IsEnded q
        → first_of_least (of_group group (active q (end_of q))) ≡ best_of_group q group }
{}

/// In a final pass some way is open to each place, and one reaches the end; where each line is a
/// group of its own, there is one to take at each looseness.
pub fn a_final_pass_reaches_the_end()
    ensures open_to { (q : Pass) (place : ℕ) → q.final ≡ true
        → is_empty (open_to q (suc place)) ≡ false }
    ensures best { (q : Pass) → IsEnded q → q.final ≡ true → IsSome (best q) }
    ensures way { (q : Pass) (looseness : ℤ) → IsEnded q → IsSingle q → q.final ≡ true
        → IsSome (way_of q looseness) }
{}

/// Where each line is a group of its own, the actual looseness can be read off the last list.
pub fn looseness_is_read_off_the_last_nodes()
    ensures { (q : Pass) (looseness : ℤ) → IsEnded q → IsSingle q
        → actual_by looseness (best q) (active q (end_of q)) ≡ actual_looseness q looseness }
{}

/// No way with as many lines as the one that is taken has a lower total.
pub fn no_way_with_as_many_lines_has_a_lower_total()
    ensures { (q : Pass) (looseness : ℤ) (b w : Way) → IsEnded q → IsSingle q
        → way_of q looseness ≡ Some b → Among (to_the_end q) w → line_count w ≡ line_count b
        → b.total ≤ℤ w.total }
{}

/// The best way is one of those that reach the end, and none of them has a lower total; so it is in
/// each group.
pub fn no_way_has_a_lower_total()
    ensures best { (q : Pass) (b : Way) → best q ≡ Some b → IsBestAmong q (to_the_end q) b }
    ensures of_group { (q : Pass) (group : ℕ) (b : Way) → best_of_group q group ≡ Some b
        → IsBestAmong q (of_group group (to_the_end q)) b }
{}

/// Each line of a way goes forward, belongs to the next group, has its class, and is no worse than
/// the pass admits unless its place is rescued. The total is the sum of what the lines add, where a
/// rescued line adds nothing, and it stays below the bound. The group of a way counts its lines.
pub fn ways_are_made_of_lines()
    ensures lines { (q : Pass) (place : ℕ) (w : Way) → Among (ways q place) w → IsMadeOfLines q w }
    ensures place { (q : Pass) (place : ℕ) (w : Way) → Among (ways q place) w
        → w.last.place ≤ place }
    ensures bound { (q : Pass) (place : ℕ) (w : Way) → Among (ways q place) w
        → w.total <ℤ pos awful_bad }
{}

/// Where no place is rescued, the best way is the best of all ways, those included that are left
/// out because their total is too high for their place and group.
pub fn where_nothing_is_rescued_no_way_at_all_is_better()
    ensures best { (q : Pass) → IsAlmostBlind q → IsQuiet q → best q ≡ best_unpruned q }
    ensures least { (q : Pass) (b : Way) → IsAlmostBlind q → IsQuiet q → best q ≡ Some b
        → IsBestAmong q (unpruned_to_the_end q) b }
{}

/// The order of nodes is total and tells all nodes apart, and the preference all ways to a place.
pub fn nodes_and_ways_are_totally_ordered()
    ensures nodes { (ended : Option ℕ) → IsTotalOrder (order ended) }
    ensures nodes_apart { (ended : Option ℕ) (x y : Node) → order ended x y ≡ Equal → x ≡ y }
    ensures ways { (ended : Option ℕ) → IsTotalOrder (preference ended) }
    ensures ways_apart { (ended : Option ℕ) (v w : Way) → v.last.place ≡ w.last.place
        → preference ended v w ≡ Equal → v ≡ w }
{}

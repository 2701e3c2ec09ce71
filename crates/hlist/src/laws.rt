//! What holds of every list.
ghost use Rattle.hlist.specs.Bounds.{IsSmall, IsInBounds};
ghost use Rattle.hlist.specs.declared.item.HList.{HList};

/// A small list is in bounds.
pub fn small_lists_are_in_bounds()
    ensures { (list : HList) → IsSmall list → IsInBounds list }
{}

//! What holds of the list of every run.
ghost use Rattle.std.specs.Prelude.{◌≡◌, ℕ, ℤ, Bool, List, Ok, Some, slice_get};
ghost use Rattle.font_stock.specs.declared.font.Font.{Font};
ghost use Rattle.hlist.specs.declared.item.Sub.{Sub};
ghost use Rattle.hlist_runs.specs.Lawful.{IsLawfulList};
ghost use Rattle.hlist_runs.specs.Runs.{run_subs};

/// The fonts, codes and kerns of the list that a run gives are the font's, and a run of n codes
/// gives at most n + 2 entries and one for each of the 256 (n + 2) words that may act.
pub fn runs_give_lawful_lists()
    ensures { (stock : List Font) (number : ℕ) (font : Font) (codes : List ℕ) (left right : Bool)
        (subs : List Sub) → slice_get stock number ≡ Some font
        → run_subs number font.tfm font.size codes left right ≡ Ok subs
        → IsLawfulList stock number codes subs }
{}

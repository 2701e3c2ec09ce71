//! What holds of every run, as laws over the rewriting by a font's programs: what its glyphs are,
//! that a run has one list of them, and what a ligature covers (TFM description, "lig_kern").

ghost use Rattle.std.specs.Prelude.{◌≡◌, ◌↔◌, ℕ, Bool, List, [], ◌∷◌};
ghost use Rattle.tfm_read.specs.declared.tfm.Tfm.{Tfm};
ghost use Rattle.lig_kern.specs.Covering.{AnyCovers, Covers, Lawful};
ghost use Rattle.lig_kern.specs.Rewriting.{Reached, dropped, ligature_between};
ghost use Rattle.lig_kern.specs.Running.{IsRun, start_of};
ghost use Rattle.lig_kern.specs.declared.glyph.Glyph.{Glyph};
ghost use Rattle.lig_kern.specs.declared.operation.Operation.{Operation};
ghost use Rattle.lig_kern.specs.declared.symbols.Symbol.{Symbol};

/// The font has each character and each ligature of a run, and each kern among its kerns, all of
/// them fix_words. A run of n codes has at most n + 2 glyphs and one for each of the 256 (n + 2)
/// words that may act. Its glyphs, kerns left out, cut the codes into adjoining pieces, and no two
/// kerns stand side by side.
pub fn runs_are_lawful()
    ensures { (tfm : Tfm) (codes : List ℕ) (left right : Bool) (glyphs : List Glyph)
        → IsRun tfm codes left right glyphs → Lawful tfm codes glyphs }
{}

/// At most one list of glyphs is that of a run.
pub fn one_run()
    ensures { (tfm : Tfm) (codes : List ℕ) (left right : Bool) (a b : List Glyph)
        → IsRun tfm codes left right a → IsRun tfm codes left right b → a ≡ b }
{}

/// Wherever a ligature is put between two symbols of a run, it covers exactly the codes that those
/// symbols cover which it takes the place of.
pub fn ligatures_cover_what_they_replace()
    ensures { (tfm : Tfm) (codes : List ℕ) (left right : Bool) (acted : ℕ) (before : List Symbol)
        (current follower : Symbol) (rest : List Symbol)
        → Reached tfm (start_of tfm codes left right) acted before (current ∷ follower ∷ rest)
        → (op : Operation) (ligature code : ℕ)
        → (Covers code (ligature_between op ligature current follower)
        ↔ AnyCovers code (dropped op.keeps_current current (dropped op.keeps_next follower []))) }
{}

//! Runs one after another in the same lists, and one run by itself (TFM description, "lig_kern";
//! TeX: The Program, sections 1032 to 1040).

ghost use Rattle.std.specs.Prelude.{◌≡◌, ℕ, ◌^◌, ◌<◌, ◌⊎◌, [], length, List, Ok, Err, IfOk, OnErr};
ghost use Rattle.lig_kern.specs.declared.glyph.Glyph.{Glyph};
ghost use Rattle.lig_kern.specs.Covering.{Lawful, characters};
ghost use Rattle.lig_kern.specs.Outcome.{outcome};
ghost use Rattle.lig_kern.specs.Running.{AllExist, IsFirstMissing, IsRun, PassesLimit, Answers, given};

use crate::fault::LigFault;
use crate::glyph::Glyph;
use crate::rewriting::Rewriting;
use crate::running::run_in;
use items::Items;
use std::alloc::Global;
use std::marker::Model;
use tfm_read::Tfm;

/// What runs are made in: lists that each run empties and fills again, so that a run takes fresh
/// memory only where it is longer than those before it. A contract sees the glyphs of the last run.
#[derive(Drop)]
pub struct Workspace {
    state: Rewriting,
}

impl Model for Workspace {
    ghost use Rattle.std.specs.Prelude.{List};
    ghost use Rattle.lig_kern.specs.declared.glyph.Glyph.{Glyph};

    ghost Value = { List Glyph };

    ghost view = { λ a. a.state.done };
}

impl Workspace {
    /// A workspace with no glyphs. It takes no memory.
    pub fn new(alloc: Global) -> Workspace
        ensures { result ≡ [] }
    {
        Workspace {
            state: Rewriting::new(alloc),
        }
    }

    /// Makes the glyphs of a run of fewer than 2^20 codes, between the boundaries that are asked
    /// for and that the font has. Those of the run before are gone.
    ///
    /// Refused is a code for which the font has no character, the first such one and before all
    /// else, and a run on which more than 256 (n + 2) ligature words would act. A workspace that
    /// has refused has no glyphs, and the next run may be made in it.
    pub fn run(&mut self, tfm: &Tfm, codes: &[u8], left: bool, right: bool) -> Result<(), LigFault>
        requires { length codes.now < 2 ^ 20 }

        // Each answer means what it says, and no other answer would do but want of memory.
        ensures answer { Answers tfm.now codes.now left right (given result self.new) }
        ensures missing { (index : ℕ) → IsFirstMissing tfm.now.chars codes.now index
            → given result self.new ≡ Err (LigFault.Missing index) }
        ensures glyphs { (glyphs : List Glyph) → IsRun tfm.now codes.now left right glyphs
            → (given result self.new ≡ Ok glyphs)
            ⊎ (given result self.new ≡ Err LigFault.NoMemory) }
        ensures too_many { PassesLimit tfm.now codes.now left right
            → (given result self.new ≡ Err LigFault.TooManySteps)
            ⊎ (given result self.new ≡ Err LigFault.NoMemory) }
        // The same as a function that computes.
        ensures outcome { (given result self.new ≡ outcome tfm.now codes.now left right)
            ⊎ (given result self.new ≡ Err LigFault.NoMemory) }

        // What holds of the glyphs of each run.
        ensures lawful { IfOk (given result self.new) (Lawful tfm.now codes.now) }
        ensures plain { length tfm.now.ligs ≡ 0 → AllExist tfm.now.chars codes.now
            → (given result self.new ≡ Ok (characters 0 codes.now))
            ⊎ (given result self.new ≡ Err LigFault.NoMemory) }
        ensures refused { OnErr result (self.new ≡ []) }
    {
        match run_in(&mut self.state, tfm, codes, left, right) {
            Ok(()) => Ok(()),
            Err(fault) => {
                self.state.done.clear();
                Err(fault)
            }
        }
    }

    /// The glyphs of the last run.
    pub fn glyphs(&self) -> &[Glyph]
        ensures { result.now ≡ self.now }
    {
        self.state.done.as_slice()
    }

    /// The glyphs of the last run as a list to keep, without taking memory.
    pub fn into_glyphs(self) -> Items<Glyph>
        ensures { result ≡ self }
    {
        let Workspace { state } = self;
        let Rewriting {
            done,
            ahead: _ahead,
        } = state;
        done.into_items()
    }
}

/// The glyphs of a run of fewer than 2^20 codes, between the boundaries that are asked for and that
/// the font has.
///
/// Refused is a code for which the font has no character, the first such one and before all else,
/// and a run on which more than 256 (n + 2) ligature words would act.
pub fn run(
    alloc: Global,
    tfm: &Tfm,
    codes: &[u8],
    left: bool,
    right: bool,
) -> Result<Items<Glyph>, LigFault>
    requires { length codes.now < 2 ^ 20 }

    // Each answer means what it says, and no other answer would do but want of memory.
    ensures answer { Answers tfm.now codes.now left right result }
    ensures missing { (index : ℕ) → IsFirstMissing tfm.now.chars codes.now index
        → result ≡ Err (LigFault.Missing index) }
    ensures glyphs { (glyphs : List Glyph) → IsRun tfm.now codes.now left right glyphs
        → (result ≡ Ok glyphs) ⊎ (result ≡ Err LigFault.NoMemory) }
    ensures too_many { PassesLimit tfm.now codes.now left right
        → (result ≡ Err LigFault.TooManySteps) ⊎ (result ≡ Err LigFault.NoMemory) }
    // The same as a function that computes.
    ensures outcome { (result ≡ outcome tfm.now codes.now left right)
        ⊎ (result ≡ Err LigFault.NoMemory) }

    // What holds of the glyphs of each run.
    ensures lawful { IfOk result (Lawful tfm.now codes.now) }
    ensures plain { length tfm.now.ligs ≡ 0 → AllExist tfm.now.chars codes.now
        → (result ≡ Ok (characters 0 codes.now)) ⊎ (result ≡ Err LigFault.NoMemory) }
{
    let mut workspace = Workspace::new(alloc);
    match workspace.run(tfm, codes, left, right) {
        Ok(()) => Ok(workspace.into_glyphs()),
        Err(fault) => Err(fault),
    }
}

//! The test of a run whether any word acts on it. Where none does, its glyphs are its characters,
//! and no list need be rewritten (TFM description, "lig_kern"; TeX: The Program, section 1039).

ghost use Rattle.std.specs.Prelude.{◌≡◌, ℕ, ◌↔◌, is_some, IsTrue, true, [], if◌then◌else◌, Some, Ok, None};
ghost use Rattle.lig_kern.specs.Covering.{characters};
ghost use Rattle.lig_kern.specs.Outcome.{outcome};
ghost use Rattle.lig_kern.specs.Plain.{acts_at, is_quiet, IsPlain};
ghost use Rattle.lig_kern.specs.Programs.{word_between};
ghost use Rattle.lig_kern.specs.Running.{right_symbols};

use crate::programs::{character_program, walk};
use tfm_read::Tfm;

/// Whether a word of a program, if there is one, acts before a code.
fn program_acts(tfm: &Tfm, program: Option<usize>, code: u8) -> bool
    ensures { result ≡ is_some (word_between tfm.now.ligs program (Some code)) }
{
    match program {
        None => false,
        Some(start) => walk(tfm.ligs.as_slice(), start, code).is_some(),
    }
}

/// Whether a word of the font's programs acts between the characters of two codes.
///
/// It is found by the walk over the program of the first code's character. A code whose character
/// has no program needs none.
pub fn acts_at(tfm: &Tfm, code: u8, next: u8) -> bool
    ensures { result ≡ acts_at tfm.now code next }
{
    program_acts(tfm, character_program(tfm, code), next)
}

/// The program that may act before the first code.
fn left_program(tfm: &Tfm, left: bool) -> Option<usize>
    ensures { result ≡ (if left then tfm.now.left else None) }
{
    if !left {
        return None;
    }
    match tfm.left {
        None => None,
        Some(place) => Some(usize::from(place)),
    }
}

/// Whether no word of a program, if there is one, acts before the right boundary, where it is asked
/// for.
fn is_quiet_at_end(tfm: &Tfm, program: Option<usize>, right: bool) -> bool
    ensures { (end : ℕ)
        → result ≡ is_quiet tfm.now program (right_symbols right tfm.now.right end []) }
{
    if !right {
        return true;
    }
    match tfm.right {
        None => true,
        Some(code) => !program_acts(tfm, program, code),
    }
}

/// Whether the font has a character for each code of a run, and no word acts on the run between the
/// boundaries that are asked for. The glyphs of such a run are its characters.
pub fn is_plain(tfm: &Tfm, codes: &[u8], left: bool, right: bool) -> bool
    ensures meaning { IsTrue result ↔ IsPlain tfm.now codes.now left right }
    ensures glyphs { result ≡ true → outcome tfm.now codes.now left right
        ≡ Ok (characters 0 codes.now) }
{
    let mut program = left_program(tfm, left);
    for code in codes {
        if !tfm.exists(*code) {
            return false;
        }
        if program_acts(tfm, program, *code) {
            return false;
        }
        program = character_program(tfm, *code);
    }
    is_quiet_at_end(tfm, program, right)
}

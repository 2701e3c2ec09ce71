//! The reading of a whole file: its lengths, then its words from the first on, each check in its
//! turn (TFM description; TeX: The Program, part 30).

ghost use Rattle.std.specs.Prelude.{◌≡◌, ℕ, Some, Ok, Err, IfOk, List, length};
ghost use Rattle.tfm_read.specs.Checks.{Answers, Fault, fault_of, words_fault};
ghost use Rattle.tfm_read.specs.Font.{IsTfm, IsRead, UnlessNoMemory};
ghost use Rattle.tfm_read.specs.Layout.{IsLaidOut};
ghost use Rattle.tfm_read.specs.Lengths.{lengths_of};
ghost use Rattle.tfm_read.specs.declared.fault.TfmFault.TheVariants.{At};
ghost use Rattle.tfm_read.specs.declared.fault.TfmFaultKind.{TfmFaultKind};
ghost use Rattle.tfm_read.specs.declared.tfm.Tfm.{Tfm};

use crate::characters::read_characters;
use crate::fault::TfmFault;
use crate::header::{check_parts, read_design, read_lengths};
use crate::lengths::Lengths;
use crate::programs::{left_of, read_programs};
use crate::sizes::{read_kerns, read_params};
use crate::tfm::Tfm;
use crate::words::{unsigned_number, word_at};
use std::alloc::Global;

/// Reads the parts behind the header, one word after the other.
fn read_parts(alloc: Global, bytes: &[u8], lengths: &Lengths) -> Result<Tfm, TfmFault>
    requires { IsLaidOut bytes.now lengths.now }
    ensures { Answers result (words_fault bytes.now lengths.now) (IsRead bytes.now lengths.now) }
{
    let places = lengths.places();
    let kern_count = usize::from(lengths.kerns);
    let checksum = unsigned_number(word_at(bytes, 6));
    let design = read_design(bytes)?;
    let chars = read_characters(alloc, bytes, lengths)?;
    let programs = read_programs(
        alloc,
        bytes,
        places.ligs,
        usize::from(lengths.ligs),
        chars.as_slice(),
        kern_count,
    )?;
    let kerns = read_kerns(alloc, bytes, places.kerns, kern_count)?;
    let params = read_params(bytes, places.params, usize::from(lengths.params))?;
    let left = left_of(programs.ligs.as_slice());
    Ok(Tfm {
        checksum,
        design,
        chars,
        ligs: programs.ligs,
        kerns,
        params,
        right: programs.right,
        left,
    })
}

/// Reads the whole file, or tells its first fault.
#[tactic(auto, unfolding(crate::specs::Checks::fault_of))]
fn read_font(alloc: Global, bytes: &[u8]) -> Result<Tfm, TfmFault>
    ensures { Answers result (fault_of bytes.now) (IsRead bytes.now (lengths_of bytes.now)) }
{
    let lengths = read_lengths(bytes)?;
    check_parts(bytes, &lengths)?;
    read_parts(alloc, bytes, &lengths)
}

/// The font that a TFM file spells, or the first check that the file fails.
///
/// The checks are those of the TFM description. Words of the file past its stated length, recipes
/// of built characters and lists of longer characters are stepped over. The file is read forward
/// once.
///
/// `At` comes exactly where a check fails, with the first that does and its word. `NoMemory` comes
/// only where memory runs out.
pub fn read_tfm(alloc: Global, bytes: &[u8]) -> Result<Tfm, TfmFault>
    // What is read is the font that the bytes are.
    ensures found { IfOk result (IsTfm bytes.now) }
    // A font is read, unless memory runs out, and as no other font.
    ensures only { (tfm : Tfm) → IsTfm bytes.now tfm → UnlessNoMemory result (result ≡ Ok tfm) }
    // What is refused fails that check first.
    ensures refused { (kind : TfmFaultKind) (word : ℕ) → result ≡ Err (At kind word)
        → fault_of bytes.now ≡ Some (record { kind = kind; word = word }) }
    // The first check that fails is the answer, unless memory runs out.
    ensures fault { (fault : Fault) → fault_of bytes.now ≡ Some fault
        → UnlessNoMemory result (result ≡ Err (At fault.kind fault.word)) }
{
    read_font(alloc, bytes)
}

/// At most one font is that of a file.
pub fn one_font()
    ensures { (bytes : List ℕ) (a b : Tfm) → IsTfm bytes a → IsTfm bytes b → a ≡ b }
{}

/// A font has as many ligature words and kerns as its file tells, so a plain font has none.
pub fn counts_are_told()
    ensures { (bytes : List ℕ) (tfm : Tfm) → IsTfm bytes tfm
        → (length tfm.ligs ≡ (lengths_of bytes).ligs)
        × (length tfm.kerns ≡ (lengths_of bytes).kerns) }
{}

//! A run of codes in a font as the list of a discretionary.
ghost use Rattle.std.specs.Prelude.{◌≡◌, ◌<◌, ◌^◌, ◌⊎◌, length, Err};
ghost use Rattle.lig_kern.specs.declared.fault.LigFault.TheVariants.{NoMemory};
ghost use Rattle.hlist_runs.specs.Runs.{run_subs};

use crate::subs::subs_of;
use font_stock::Font;
use hlist::Sub;
use items::Items;
use lig_kern::{LigFault, run};
use std::alloc::Global;

/// The list that a run of fewer than 2^20 codes gives in the font of a number, between the
/// boundaries that are asked for and that the font has.
///
/// It fails where the run does: at a code for which the font has no character, or where more
/// ligature words would act than may; or for want of memory.
pub fn run_subs(
    alloc: Global,
    number: u32,
    font: &Font,
    codes: &[u8],
    left: bool,
    right: bool,
) -> Result<Items<Sub>, LigFault>
    requires { length codes.now < 2 ^ 20 }
    ensures { let font = font.now in
        (result ≡ run_subs number font.tfm font.size codes.now left right)
        ⊎ (result ≡ Err NoMemory) }
{
    match run(alloc, font.tfm(), codes, left, right) {
        Ok(glyphs) => {
            let subs = subs_of(alloc, number, font, codes, glyphs.as_slice())?;
            Ok(subs)
        }
        Err(fault) => Err(fault),
    }
}

//! The glyphs of a run, one by one, as entries of a discretionary's list (TeX: The Program,
//! sections 1032 to 1040).
ghost use Rattle.std.specs.Prelude.{◌≡◌, ◌≤◌, [], ◌∷◌, ◌++◌, length, All, None, IfOk, OnOk, slice_range};
ghost use Rattle.lig_kern.specs.Covering.{IsOfFont};
ghost use Rattle.hlist_runs.specs.Runs.{left_of, sub_of, subs_of};
ghost use Rattle.hlist_runs.specs.Within.{IsWithin};

use font_stock::Font;
use hlist::{KernLeft, Sub};
use items::Items;
use lig_kern::Glyph;
use std::alloc::{AllocError, Global};

/// What a kern expands with behind a glyph of its run.
pub fn left_of(font: u32, before: Option<Glyph>, fix: i32) -> Option<KernLeft>
    ensures { result ≡ left_of font before fix }
{
    match before {
        Some(Glyph::Char { code, .. } | Glyph::Lig { code, .. }) => {
            Some(KernLeft { font, code, fix })
        }
        Some(Glyph::Kern { .. }) | None => None,
    }
}

/// The codes that a ligature stands for.
pub fn covered(alloc: Global, codes: &[u8], from: u32, to: u32) -> Result<Items<u8>, AllocError>
    requires order { from ≤ to }
    requires within { to ≤ length codes.now }
    ensures { IfOk result (λ covers. covers ≡ slice_range codes.now from to) }
{
    Items::from_slice(alloc, &codes[from as usize..to as usize])
}

/// Puts a glyph of a run, behind another or none, into the list of a discretionary.
fn push_sub(
    alloc: Global,
    subs: &mut Items<Sub>,
    number: u32,
    font: &Font,
    codes: &[u8],
    before: Option<Glyph>,
    glyph: Glyph,
) -> Result<(), AllocError>
    requires own { IsOfFont font.now.tfm glyph }
    requires within { IsWithin (length codes.now) glyph }
    ensures { OnOk result
        (subs.new ≡ subs.old ++ sub_of number font.now.size codes.now before glyph ∷ []) }
{
    match glyph {
        Glyph::Char { code, .. } => subs.push(Sub::Char { font: number, code })?,
        Glyph::Lig { code, from, to } => {
            let covers = covered(alloc, codes, from, to)?;
            subs.push(Sub::Lig {
                font: number,
                code,
                covers,
            })?;
        }
        Glyph::Kern { fix } => {
            let left = left_of(number, before, fix);
            let width = font.kern(fix);
            subs.push(Sub::FontKern { width, left })?;
        }
    }
    Ok(())
}

/// The glyphs of a run as the list of a discretionary.
pub fn subs_of(
    alloc: Global,
    number: u32,
    font: &Font,
    codes: &[u8],
    glyphs: &[Glyph],
) -> Result<Items<Sub>, AllocError>
    requires own { All (IsOfFont font.now.tfm) glyphs.now }
    requires within { All (IsWithin (length codes.now)) glyphs.now }
    ensures { IfOk result (λ subs. subs ≡ subs_of number font.now.size codes.now None glyphs.now) }
{
    let mut subs = Items::from_vec(Vec::with_capacity(alloc, glyphs.len())?);
    let mut before = None;
    for glyph in glyphs {
        push_sub(alloc, &mut subs, number, font, codes, before, *glyph)?;
        before = Some(*glyph);
    }
    Ok(subs)
}

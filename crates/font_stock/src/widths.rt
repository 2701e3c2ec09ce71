//! Which character or kern of a font is too wide for a fix_word at the greatest stretch
//! (TeX: The Program, section 571; pdfTeX manual, `\pdffontexpand`).
ghost use Rattle.std.specs.Prelude.{◌≡◌, ◌≤◌, ◌<◌, ◌^◌, length, pos, position};
ghost use Rattle.font_stock.specs.Refusals.{is_past, is_too_wide, too_wide, wide_kern};

use crate::expand::Expand;
use micro_num::expanded_fix;
use tfm_read::{CharInfo, Tfm};

/// The least code of a character that is too wide at the greatest stretch.
#[tactic(auto, unfolding(crate::specs::Refusals::too_wide))]
pub fn too_wide_code(tfm: &Tfm, expand: Option<Expand>) -> Option<u8>
    ensures { result ≡ too_wide expand tfm.now.chars }
{
    match expand {
        Some(expand) => first_too_wide(tfm.chars.as_slice(), expand.stretch),
        None => None,
    }
}

/// The least index of a kern that is too wide at the greatest stretch.
#[tactic(auto, unfolding(crate::specs::Refusals::wide_kern))]
pub fn too_wide_kern(tfm: &Tfm, expand: Option<Expand>) -> Option<u32>
    ensures { result ≡ wide_kern expand tfm.now.kerns }
{
    match expand {
        Some(expand) => first_wide_kern(tfm.kerns.as_slice(), expand.stretch),
        None => None,
    }
}

fn first_too_wide(chars: &[CharInfo], stretch: u16) -> Option<u8>
    requires { length chars.now ≤ 256 }
    ensures { result ≡ position (is_too_wide (pos stretch)) chars.now }
{
    for (code, info) in chars.iter().enumerate() {
        if info.exists && is_wide(info.width, stretch) {
            return Some(code as u8);
        }
    }
    None
}

fn first_wide_kern(kerns: &[i32], stretch: u16) -> Option<u32>
    requires { length kerns.now < 2 ^ 32 }
    ensures { result ≡ position (is_past (pos stretch)) kerns.now }
{
    for (index, fix) in kerns.iter().enumerate() {
        if is_wide(*fix, stretch) {
            return Some(index as u32);
        }
    }
    None
}

/// Whether a width is no fix_word at a stretch.
fn is_wide(w: i32, stretch: u16) -> bool
    ensures { result ≡ is_past (pos stretch) w }
{
    let width = expanded_fix(w, stretch as i32);
    !(width >= -(1 << 24) && width < 1 << 24)
}

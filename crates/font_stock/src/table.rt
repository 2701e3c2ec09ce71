//! The table of a font's characters at a size, which is worked out once: each number of it is a
//! rounded share of the fix_words (TeX: The Program, section 571; Thành, Micro-typographic
//! extensions to the TeX typesetting system).
ghost use Rattle.std.specs.Prelude.{◌≡◌, ◌≤◌, pos, neg_ℤ, ◌≤ℤ◌, ◌-ℤ◌, None, IfOk};
ghost use Rattle.std.specs.Option.{ForSome};
ghost use Rattle.micro_num.specs.Expansion.{expanded, thousandths_of, width_at};
ghost use Rattle.micro_num.specs.Scaling.{IsFixWord, IsFontSize};
ghost use Rattle.font_stock.specs.Fonts.{char_of, stretch_at, shrink_at};
ghost use Rattle.font_stock.specs.Refusals.{too_wide};
ghost use Rattle.font_stock.specs.Scaling.{AreScaled, scaled_char};

use crate::codes::FontCodes;
use crate::expand::Expand;
use crate::scaled::ScaledChar;
use items::Items;
use micro_num::{Sp, expanded_width, scale, thousandths};
use std::alloc::{AllocError, Global};
use tfm_read::{CharInfo, Tfm};

/// The 256 characters of a font at a size.
pub fn scaled_chars(
    alloc: Global,
    tfm: &Tfm,
    codes: &FontCodes,
    expand: Option<Expand>,
    z: Sp,
) -> Result<Items<ScaledChar>, AllocError>
    requires size { IsFontSize z }
    requires widths { too_wide expand tfm.now.chars ≡ None }
    ensures { IfOk result (λ chars. AreScaled tfm.now codes.now expand z 256 chars) }
{
    let mut chars = Vec::with_capacity(alloc, 256)?;
    for (code, factor) in codes.ef.iter().enumerate() {
        chars.push(scaled(tfm.char_info(code as u8), *factor, expand, z))?;
    }
    Ok(Items::from_vec(chars))
}

/// A character at a size, with its share in the expansion.
#[tactic(auto, unfolding(crate::specs::Scaling::scaled_char))]
fn scaled(info: CharInfo, factor: u16, expand: Option<Expand>, z: Sp) -> ScaledChar
    requires width { IsFixWord info.width }
    requires height { IsFixWord info.height }
    requires depth { IsFixWord info.depth }
    requires factor { factor ≤ 1000 }
    requires expanded { ForSome expand (λ e. IsFixWord (expanded info.width (pos e.stretch))) }
    requires size { IsFontSize z }
    ensures { result ≡ scaled_char expand z factor info }
{
    ScaledChar {
        width: scale(info.width, z),
        height: scale(info.height, z),
        depth: scale(info.depth, z),
        stretch: stretch(info.width, factor, expand, z),
        shrink: shrink(info.width, factor, expand, z),
    }
}

/// How much a width grows at the greatest stretch.
#[tactic(auto, unfolding(crate::specs::Fonts::stretch_at))]
pub fn stretch(w: i32, factor: u16, expand: Option<Expand>, z: Sp) -> i64
    requires factor { factor ≤ 1000 }
    requires expanded { ForSome expand (λ e. IsFixWord (expanded w (pos e.stretch))) }
    requires size { IsFontSize z }
    ensures { result ≡ stretch_at expand factor w z }
{
    match expand {
        Some(expand) => {
            let wide = width(w, expand.stretch as i32, expand, z);
            share(wide, width(w, 0, expand, z), factor)
        }
        None => 0,
    }
}

/// How much a width shrinks at the greatest shrink.
#[tactic(auto, unfolding(crate::specs::Fonts::shrink_at))]
pub fn shrink(w: i32, factor: u16, expand: Option<Expand>, z: Sp) -> i64
    requires factor { factor ≤ 1000 }
    requires expanded { ForSome expand (λ e. IsFixWord (expanded w (pos e.stretch))) }
    requires size { IsFontSize z }
    ensures { result ≡ shrink_at expand factor w z }
{
    match expand {
        Some(expand) => {
            let narrow = width(w, expand.least_step(), expand, z);
            share(width(w, 0, expand, z), narrow, factor)
        }
        None => 0,
    }
}

/// A character's share in the difference of two widths.
fn share(wide: Sp, narrow: Sp, factor: u16) -> i64
    requires { factor ≤ 1000 }
    ensures { result ≡ thousandths_of (wide -ℤ narrow) (pos factor) }
{
    thousandths(wide as i64 - narrow as i64, factor as i64)
}

/// A width at a step within the limits.
#[tactic(auto)]
fn width(w: i32, step: i32, expand: Expand, z: Sp) -> Sp
    requires low { neg_ℤ (pos expand.shrink) ≤ℤ step }
    requires high { step ≤ℤ pos expand.stretch }
    requires expanded { IsFixWord (expanded w (pos expand.stretch)) }
    requires size { IsFontSize z }
    ensures { result ≡ width_at w step z }
{
    expanded_width(w, step, z)
}

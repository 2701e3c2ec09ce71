//! The fonts of a stock as instances are made of them.
ghost use Rattle.std.specs.Prelude.{◌≡◌, IfOk, map};
ghost use Rattle.tfm_read.specs.declared.character.CharInfo.{CharInfo};
ghost use Rattle.instance_core.specs.Bases.{IsBase};
ghost use Rattle.hpack_two.specs.Over.{base_of};

use font_stock::{Font, Stock};
use instance_core::{BaseFont, Bases};
use items::Items;
use micro_num::NoMemory;
use std::alloc::Global;
use tfm_read::CharInfo;

/// The fonts of a stock as instances are made of them, for a source of widths. It fails only for
/// want of memory.
pub fn bases_of(alloc: Global, stock: &Stock) -> Result<Bases, NoMemory>
    ensures { IfOk result (λ bases. bases ≡ map base_of stock.now) }
{
    let count = stock.count();
    let mut fonts = Vec::with_capacity(alloc, count as usize)?;
    for number in 0..count {
        fonts.push(base_font(alloc, stock.font(number))?)?;
    }
    Bases::make(alloc, fonts)
}

/// A font as instances are made of it.
#[tactic(auto, unfolding(crate::specs::Over::base_of))]
fn base_font(alloc: Global, font: &Font) -> Result<BaseFont, NoMemory>
    ensures exact { IfOk result (λ base. base ≡ base_of font.now) }
    ensures kept { IfOk result IsBase }
{
    font.widths_are_fix_words();
    let size = font.size();
    let widths = width_words(alloc, font.tfm().chars.as_slice())?;
    match font.expand() {
        None => Ok(BaseFont {
            size,
            widths,
            stretch: 0,
            shrink: 0,
            step: 1,
        }),
        Some(expand) => Ok(BaseFont {
            size,
            widths,
            stretch: expand.stretch,
            shrink: expand.shrink,
            step: expand.step,
        }),
    }
}

/// The widths of characters, as fix_words.
fn width_words(alloc: Global, chars: &[CharInfo]) -> Result<Items<i32>, NoMemory>
    ensures { IfOk result (λ widths. widths ≡ map (λ (char : CharInfo). char.width) chars.now) }
{
    let mut widths = Vec::with_capacity(alloc, chars.len())?;
    for char in chars {
        widths.push(char.width)?;
    }
    Ok(Items::from_vec(widths))
}

//! The items of a run: the glyphs that a font's programs make of codes (TeX: The Program, sections
//! 1032 to 1040).
ghost use Rattle.std.specs.Prelude.{◌≡◌, ◌∷◌, [], ◌++◌, ◌-◌, length, false, All, None, OnOk, slice_get};
ghost use Rattle.std.specs.Option.{option_map_or};
ghost use Rattle.lig_kern.specs.Covering.{IsOfFont, characters};
ghost use Rattle.hlist_runs.specs.Runs.{sub_of};
ghost use Rattle.hlist_runs.specs.Within.{IsWithin};
ghost use Rattle.hlist_build.specs.Runs.{is_hyphen, with_break, empty_disc, run_items};
ghost use Rattle.hlist.specs.declared.item.Sub.TheVariants.{Char as sub_char};

use font_stock::Font;
use hlist::Item;
use hlist_runs::{covered, left_of};
use items::Items;
use lig_kern::Glyph;
use micro_num::Disc;
use std::alloc::{AllocError, Global};

/// Whether a code is the hyphen character.
fn is_hyphen(hyphen: i32, code: u8) -> bool
    ensures { result ≡ is_hyphen hyphen code }
{
    hyphen == i32::from(code)
}

/// Puts an empty discretionary behind a hyphen character.
fn push_break(alloc: Global, list: &mut Items<Item>) -> Result<(), AllocError>
    ensures { OnOk result (list.new ≡ list.old ++ empty_disc ∷ []) }
{
    let none = Items::new(alloc);
    let lists = Disc::new(alloc, none, Items::new(alloc), Items::new(alloc))?;
    list.push(Item::Disc { lists })?;
    Ok(())
}

/// Puts a character, and a place to break behind the hyphen character, into a list.
fn push_char(
    alloc: Global,
    list: &mut Items<Item>,
    number: u32,
    font: &Font,
    code: u8,
) -> Result<(), AllocError>
    ensures { OnOk result
        (list.new ≡ list.old ++ with_break font.now.codes.hyphen (sub_char number code)) }
{
    list.push(Item::Char { font: number, code })?;
    if is_hyphen(font.hyphen(), code) {
        push_break(alloc, list)?;
    }
    Ok(())
}

/// Puts the characters of a run on which no program acts into a list.
pub fn push_plain(
    alloc: Global,
    list: &mut Items<Item>,
    number: u32,
    font: &Font,
    codes: &[u8],
) -> Result<(), AllocError>
    ensures { OnOk result
        (list.new ≡ list.old ++ run_items number font.now.size font.now.codes.hyphen
        codes.now None (characters 0 codes.now)) }
{
    for code in codes {
        push_char(alloc, list, number, font, *code)?;
    }
    Ok(())
}

/// Puts a glyph of a run, behind another or none, into a list.
fn push_glyph(
    alloc: Global,
    list: &mut Items<Item>,
    number: u32,
    font: &Font,
    codes: &[u8],
    before: Option<Glyph>,
    glyph: Glyph,
) -> Result<(), AllocError>
    requires own { IsOfFont font.now.tfm glyph }
    requires within { IsWithin (length codes.now) glyph }
    ensures { OnOk result (list.new ≡ list.old
        ++ with_break font.now.codes.hyphen (sub_of number font.now.size codes.now before glyph)) }
{
    match glyph {
        Glyph::Char { code, .. } => push_char(alloc, list, number, font, code)?,
        Glyph::Lig { code, from, to } => {
            let covers = covered(alloc, codes, from, to)?;
            let ends = ends_in_hyphen(font.hyphen(), covers.as_slice());
            list.push(Item::Lig {
                font: number,
                code,
                covers,
            })?;
            if ends {
                push_break(alloc, list)?;
            }
        }
        Glyph::Kern { fix } => {
            let left = left_of(number, before, fix);
            let width = font.kern(fix);
            list.push(Item::FontKern { width, left })?;
        }
    }
    Ok(())
}

/// Whether the last of some codes is the hyphen character.
fn ends_in_hyphen(hyphen: i32, covers: &[u8]) -> bool
    ensures { result
        ≡ option_map_or (is_hyphen hyphen) (slice_get covers.now (length covers.now - 1)) false }
{
    match covers.last() {
        Some(code) => is_hyphen(hyphen, *code),
        None => false,
    }
}

/// Puts the glyphs of a run into a list.
pub fn push_glyphs(
    alloc: Global,
    list: &mut Items<Item>,
    number: u32,
    font: &Font,
    codes: &[u8],
    glyphs: &[Glyph],
) -> Result<(), AllocError>
    requires own { All (IsOfFont font.now.tfm) glyphs.now }
    requires within { All (IsWithin (length codes.now)) glyphs.now }
    ensures { OnOk result
        (list.new ≡ list.old ++ run_items number font.now.size font.now.codes.hyphen
        codes.now None glyphs.now) }
{
    let mut before = None;
    for glyph in glyphs {
        push_glyph(alloc, list, number, font, codes, before, *glyph)?;
        before = Some(*glyph);
    }
    Ok(())
}

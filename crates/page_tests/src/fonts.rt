//! A file of 65,536 fonts, as many as there can be, worked out by hand from the description of the
//! DVI format: their numbers are defined by one byte or two, and selected by none, one or two.
ghost use Rattle.std.specs.Prelude.{◌≡◌, ◌∷◌, [], ◌<◌, IfOk, All, length};
ghost use Rattle.renumber.specs.Uses.{cells_of_lines};
ghost use Rattle.dvi_write.specs.Worked.{tiny10};
ghost use Rattle.dvi_write.specs.Writable.{IsGlyphWritable, IsWritable};

use crate::files::{in_hexadecimal, tiny10};
use dvi_write::{DviFault, dvi_bytes};
use instance_core::{Cell, Packed, Page, PageLine, Placed};
use items::Items;
use micro_num::NoMemory;
use renumber::Numbering;
use std::alloc::Global;
use std::test::Fail;

/// A letter without a width at the beginning of the line, in the instance of a step.
#[tactic(auto, using(crate::proofs::FontFile::definable))]
fn glyph(step: u32) -> Placed
    requires { step < 65536 }
    ensures { IsGlyphWritable (tiny10 ∷ []) result }
{
    Placed {
        x: 0,
        cell: Cell {
            font: 0,
            step: step as i32,
        },
        code: 97,
        advance: 0,
    }
}

/// Such a letter in the instance of each step below 65,536.
fn glyphs(alloc: Global) -> Result<Vec<Placed>, NoMemory>
    ensures writable { IfOk result (λ glyphs. All (IsGlyphWritable (tiny10 ∷ [])) glyphs.items) }
    ensures count { IfOk result (λ glyphs. length glyphs.items ≡ 65536) }
{
    let mut glyphs = Vec::with_capacity(alloc, 65_536)?;
    for step in 0..65_536 {
        glyphs.push(glyph(step))?;
    }
    Ok(glyphs)
}

/// A page of one line of them.
fn page(alloc: Global) -> Result<Page, NoMemory>
    ensures writable { IfOk result (λ page. IsWritable (tiny10 ∷ []) page) }
    ensures count { IfOk result (λ page. length (cells_of_lines page.lines) ≡ 65536) }
{
    let line = Packed {
        glyphs: Items::from_vec(glyphs(alloc)?),
        height: 0,
        depth: 0,
        width: 0,
    };
    let mut lines = Items::new(alloc);
    lines.push(PageLine { baseline: 0, line })?;
    Ok(Page {
        lines,
        extent: 0,
        width: 0,
    })
}

/// The file of that page.
fn file(alloc: Global) -> Result<Vec<u8>, DviFault> {
    let rows = [tiny10(alloc)?];
    let pages = [page(alloc)?];
    let numbering = Numbering::make(alloc, &pages)?;
    dvi_bytes(alloc, &pages, &rows, &numbering, 0x7fff_ffff)
}

#[test]
fn numbers_of_fonts_take_up_to_two_bytes(rt: HostRuntime) -> Result<(), Fail> {
    let bytes = file(rt.alloc())?;
    assert_eq!(rt; bytes.len(), 4_040_296);
    // The definition, the selection and the letter of fonts 0, 63, 64, 255, 256 and 65,535.
    for (place, want) in [
        (77, "f30000000000000a0000000a0000000674696e793130ab61"),
        (
            1_766,
            "f33f00000000000a0000000a0000000974696e7931302b3633ea61",
        ),
        (
            1_793,
            "f34000000000000a0000000a0000000974696e7931302b3634eb4061",
        ),
        (
            7_296,
            "f3ff00000000000a0000000a0000000a74696e7931302b323535ebff61",
        ),
        (
            7_325,
            "f4010000000000000a0000000a0000000a74696e7931302b323536ec010061",
        ),
        (
            2_151_044,
            "f4ffff00000000000a0000000a0000000c74696e7931302b3635353335ecffff61",
        ),
    ] {
        let found = bytes.as_slice().get(place..place + want.len() / 2);
        let text = in_hexadecimal(rt.alloc(), found.unwrap_or(&[]))?;
        assert_eq!(rt; text.as_str(), want, "the font at {place}");
    }
    Ok(())
}

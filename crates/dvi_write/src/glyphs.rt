//! The glyphs of a line. Most bytes of a file are theirs, so their bytes are gathered and put many
//! at a time, and are counted without being made where a count is all that is wanted.
ghost use Rattle.std.specs.Prelude.{◌≡◌, ◌≤◌, ◌+◌, [], ◌∷◌, true, length, map, take, pos, ◌+ℤ◌, ◌-ℤ◌, false, OnOk, IfOk, All};
ghost use Rattle.instance_core.specs.declared.page.Placed.{Placed};
ghost use Rattle.dvi_write.specs.Commands.{spell, spell_all};
ghost use Rattle.dvi_write.specs.Document.{right, set_code};
ghost use Rattle.dvi_write.specs.Output.{grown};
ghost use Rattle.dvi_write.specs.Writable.{IsPlace, IsGlyphPuttable};
ghost use Rattle.dvi_write.specs.Writing.{glyph_bytes, glyphs_bytes, font_after, fonts_after};

use crate::commands::{code_length, gather_code, gather_right, right_length};
use crate::fonts::{Fonts, put_font, put_font_behind};
use crate::gathering::{gather, make_room};
use crate::opcodes::SET1;
use crate::output::Output;
use crate::row::FontRow;
use instance_core::Placed;
use micro_num::{NoMemory, Sp};
use renumber::Numbering;

/// How far it is from one place on a page to another.
pub(crate) fn distance(from: Sp, to: Sp) -> Sp
    requires from { IsPlace from }
    requires to { IsPlace to }
    ensures { result ≡ to -ℤ from }
{
    to - from
}

/// The right edge of a glyph.
fn right_edge(rows: &[FontRow], numbering: &Numbering, glyph: &Placed) -> Sp
    requires { IsGlyphPuttable rows.now numbering.now glyph.now }
    ensures edge { result ≡ glyph.now.x +ℤ glyph.now.advance }
    ensures place { IsPlace result }
{
    glyph.x + glyph.advance
}

/// Whether a glyph takes no more than its code: it adjoins the glyph before it, its code is a
/// command, and its font is selected. Most glyphs are such.
#[inline(always)]
#[tactic(auto, using(crate::proofs::Plain::plain_bytes, crate::proofs::Plain::plain_after))]
fn is_plain(rows: &[FontRow], numbering: &Numbering, fonts: &Fonts, h: Sp, glyph: &Placed) -> bool
    ensures bytes { result ≡ true
        → glyph_bytes rows.now numbering.now fonts.now h glyph.now ≡ glyph.now.code ∷ [] }
    ensures after { result ≡ true
        → font_after numbering.now fonts.now glyph.now.cell ≡ fonts.now }
{
    if glyph.x != h {
        return false;
    }
    if glyph.code >= SET1 {
        return false;
    }
    fonts.is_selected(glyph.cell)
}

/// Gathers a glyph behind so many bytes, after the place that the glyphs before it on the line lead
/// to, and gives how many bytes are gathered then. What comes before a font's selection is put.
#[inline(always)]
#[tactic(auto, using(crate::proofs::Grown::grown_twice), unfolding(crate::specs::Writing::glyph_bytes))]
fn gather_any_glyph(
    out: &mut Output,
    rows: &[FontRow],
    numbering: &Numbering,
    fonts: &mut Fonts,
    gathered: &mut [u8; 64],
    count: usize,
    h: Sp,
    glyph: &Placed,
) -> Result<usize, NoMemory>
    requires from { IsPlace h }
    requires puttable { IsGlyphPuttable rows.now numbering.now glyph.now }
    requires within { count ≤ 64 }
    ensures bytes { IfOk result (λ after. grown out.new (take after gathered.new)
        ≡ grown (grown out.old (take count gathered.old))
        (glyph_bytes rows.now numbering.now fonts.old h glyph.now)) }
    ensures after { OnOk result (fonts.new ≡ font_after numbering.now fonts.old glyph.now.cell) }
    ensures within { IfOk result (λ after. after ≤ 64) }
{
    let count = make_room(out, gathered, count)?;
    let count = gather_right(gathered, count, distance(h, glyph.x));
    let count = put_font_behind(out, rows, numbering, fonts, gathered, count, glyph.cell)?;
    Ok(gather_code(gathered, count, glyph.code))
}

/// Gathers a glyph, as [`gather_any_glyph`] does. One that takes no more than its code is gathered
/// at once.
#[inline(always)]
#[tactic(auto, using(crate::proofs::Plain::plain_gathered))]
fn gather_glyph(
    out: &mut Output,
    rows: &[FontRow],
    numbering: &Numbering,
    fonts: &mut Fonts,
    gathered: &mut [u8; 64],
    count: usize,
    h: Sp,
    glyph: &Placed,
) -> Result<usize, NoMemory>
    requires from { IsPlace h }
    requires puttable { IsGlyphPuttable rows.now numbering.now glyph.now }
    requires within { count ≤ 64 }
    ensures bytes { IfOk result (λ after. grown out.new (take after gathered.new)
        ≡ grown (grown out.old (take count gathered.old))
        (glyph_bytes rows.now numbering.now fonts.old h glyph.now)) }
    ensures after { OnOk result (fonts.new ≡ font_after numbering.now fonts.old glyph.now.cell) }
    ensures within { IfOk result (λ after. after ≤ 64) }
{
    if count < 64 && is_plain(rows, numbering, fonts, h, glyph) {
        return Ok(gather(gathered, count, &[glyph.code]));
    }
    gather_any_glyph(out, rows, numbering, fonts, gathered, count, h, glyph)
}

/// Puts the glyphs of a line, whose bytes it gathers.
#[tactic(auto, using(crate::proofs::Grown::grown_nothing))]
fn gather_glyphs(
    out: &mut Output,
    rows: &[FontRow],
    numbering: &Numbering,
    fonts: &mut Fonts,
    glyphs: &[Placed],
) -> Result<(), NoMemory>
    requires { All (IsGlyphPuttable rows.now numbering.now) glyphs.now }
    ensures bytes { OnOk result (out.new
        ≡ grown out.old (glyphs_bytes rows.now numbering.now fonts.old (pos 0) glyphs.now)) }
    ensures after { OnOk result (fonts.new
        ≡ fonts_after numbering.now fonts.old (map (λ (g : Placed). g.cell) glyphs.now)) }
{
    let mut gathered = [0; 64];
    let mut count = 0;
    let mut h = 0;
    for glyph in glyphs {
        count = gather_glyph(out, rows, numbering, fonts, &mut gathered, count, h, glyph)?;
        h = right_edge(rows, numbering, glyph);
    }
    out.put(&gathered[..count])
}

/// How many bytes a glyph of the font that is selected has.
fn glyph_length(rows: &[FontRow], numbering: &Numbering, h: Sp, glyph: &Placed) -> u64
    requires from { IsPlace h }
    requires puttable { IsGlyphPuttable rows.now numbering.now glyph.now }
    ensures exact { result ≡ length (spell_all (right (glyph.now.x -ℤ h)))
        + length (spell (set_code glyph.now.code)) }
    ensures few { result ≤ 7 }
{
    right_length(distance(h, glyph.x)) + code_length(glyph.code)
}

/// Counts the glyphs of a line.
fn count_glyphs(
    out: &mut Output,
    rows: &[FontRow],
    numbering: &Numbering,
    fonts: &mut Fonts,
    glyphs: &[Placed],
) -> Result<(), NoMemory>
    requires counting { out.old.kept ≡ false }
    requires puttable { All (IsGlyphPuttable rows.now numbering.now) glyphs.now }
    ensures bytes { OnOk result (out.new
        ≡ grown out.old (glyphs_bytes rows.now numbering.now fonts.old (pos 0) glyphs.now)) }
    ensures after { OnOk result (fonts.new
        ≡ fonts_after numbering.now fonts.old (map (λ (g : Placed). g.cell) glyphs.now)) }
{
    let mut counted = 0;
    let mut h = 0;
    for glyph in glyphs {
        put_font(out, rows, numbering, fonts, glyph.cell)?;
        counted += glyph_length(rows, numbering, h, glyph);
        h = right_edge(rows, numbering, glyph);
    }
    out.count(counted)
}

/// Puts the glyphs of a line.
pub(crate) fn put_glyphs(
    out: &mut Output,
    rows: &[FontRow],
    numbering: &Numbering,
    fonts: &mut Fonts,
    glyphs: &[Placed],
) -> Result<(), NoMemory>
    requires { All (IsGlyphPuttable rows.now numbering.now) glyphs.now }
    ensures bytes { OnOk result (out.new
        ≡ grown out.old (glyphs_bytes rows.now numbering.now fonts.old (pos 0) glyphs.now)) }
    ensures after { OnOk result (fonts.new
        ≡ fonts_after numbering.now fonts.old (map (λ (g : Placed). g.cell) glyphs.now)) }
{
    if out.keeps() {
        gather_glyphs(out, rows, numbering, fonts, glyphs)
    } else {
        count_glyphs(out, rows, numbering, fonts, glyphs)
    }
}

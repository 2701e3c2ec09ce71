//! Packing a line (TeX: The Program, sections 649 to 667; pdfTeX manual, `\pdfadjustspacing`).
ghost use Rattle.std.specs.Prelude.{◌≡◌, ◌≤◌, ◌*◌, ◌^◌, ◌+ℤ◌, ◌-ℤ◌, map, unsigned_abs};
ghost use Rattle.std.specs.Prelude.{pos, neg_ℤ, ◌≤ℤ◌, ◌<ℤ◌};
ghost use Rattle.break_rule.specs.Kept.{IsWithin};
ghost use Rattle.hpack_two.specs.Answers.{AnswersPacked, AnswersSet, asked_by, touched_with};
ghost use Rattle.hpack_two.specs.Choosing.{AreChosen};
ghost use Rattle.hpack_two.specs.Lines.{at_ratio, glyphs_of};
ghost use Rattle.hpack_two.specs.Over.{IsOver, base_of};
ghost use Rattle.hpack_two.specs.Widths.{added as added_of};

use crate::fault::PackFault;
use crate::glue::GlueSet;
use crate::glyphs::{Chosen, choose};
use crate::places::place;
use crate::ratio::ratio;
use crate::steps::Steps;
use crate::sums::{added, glyph_count};
use break_rule::{LineIn, Piece, Sums};
use font_stock::Stock;
use instance_core::{Packed, WidthSource};
use items::Items;
use micro_num::Sp;
use std::alloc::Global;

/// The line set to a width, in sp, with each place moved to the right by `indent`. The line has at
/// most 131,076 pieces, its fonts are in the stock, its moves are within ±2^32, the kern of a font
/// move is one of its font's, and the end of the line is an [`Sp`]. The source's fonts are
/// those of the stock.
///
/// The source is asked for each glyph that is expanded, once and for no other. A line is refused as
/// [`PackFault::OutOfRange`] where the left or the right edge of a glyph, moved by `indent`, isn't
/// within ±(2^30 - 1) sp, with the first such glyph, counted from 0, and for no other cause.
/// Besides, there is [`PackFault::NoMemory`], and then the source was not asked.
pub fn pack<W: WidthSource>(
    alloc: Global,
    line: &LineIn,
    stock: &Stock,
    width: Sp,
    indent: Sp,
    source: &mut W,
) -> Result<Packed, PackFault>
    requires line { IsOver stock.now line.now.pieces }
    requires source { W.bases source.old ≡ map base_of stock.now }
    requires low { neg_ℤ (pos (2 ^ 31)) ≤ℤ (indent +ℤ width) }
    requires high { (indent +ℤ width) <ℤ pos (2 ^ 31) }
    ensures line { AnswersPacked stock.now line.now width indent result }
    ensures touched { let glyphs = glyphs_of stock.now line.now width indent in
        W.touched source.new
        ≡ touched_with (W.bases source.old) (asked_by glyphs result) (W.touched source.old) }
    ensures bases { W.bases source.new ≡ W.bases source.old }
    ensures fixed { W.fixed source.new ≡ W.fixed source.old }
{
    let pieces = line.pieces.as_slice();
    let room = Vec::with_capacity(alloc, glyph_count(pieces))?;
    let sums = added(stock, pieces);
    let ratio = ratio(line.expand, lacking(width, sums.width), &sums);
    let mut steps = Steps::at(stock, ratio);
    let chosen = choose(pieces, &mut steps, source, room);
    set_glyphs(pieces, &sums, &mut steps, chosen, width, indent)
}

/// The line of glyphs that have their steps and widths. What it lacks is taken anew with them.
fn set_glyphs(
    pieces: &[Piece],
    sums: &Sums,
    steps: &mut Steps,
    chosen: Chosen,
    width: Sp,
    indent: Sp,
) -> Result<Packed, PackFault>
    requires over { IsOver steps.old.stock.now pieces.now }
    requires sums { sums.now ≡ added_of steps.old.stock.now pieces.now }
    requires small { IsWithin 131076 sums.now }
    requires chosen { AreChosen steps.old.stock.now steps.old.ratio pieces.now chosen }
    requires low { neg_ℤ (pos (2 ^ 31)) ≤ℤ (indent +ℤ width) }
    requires high { (indent +ℤ width) <ℤ pos (2 ^ 31) }
    ensures { let setting = at_ratio steps.old.stock.now pieces.now width indent steps.old.ratio in
        AnswersSet setting pieces.now (indent +ℤ width) result }
{
    let Chosen {
        glyphs,
        natural,
        height,
        depth,
    } = chosen;
    let set = GlueSet::of(lacking(width, natural), sums);
    match place(pieces, steps, &set, indent, glyphs) {
        Ok(glyphs) => Ok(Packed {
            glyphs: Items::from_vec(glyphs),
            height,
            depth,
            width: end_of_line(indent, width),
        }),
        Err(fault) => Err(fault),
    }
}

/// Where a line ends.
fn end_of_line(indent: Sp, width: Sp) -> Sp
    requires low { neg_ℤ (pos (2 ^ 31)) ≤ℤ (indent +ℤ width) }
    requires high { (indent +ℤ width) <ℤ pos (2 ^ 31) }
    ensures { result ≡ indent +ℤ width }
{
    indent + width
}

/// What a line of a natural width lacks.
fn lacking(width: Sp, natural: i64) -> i64
    requires { unsigned_abs natural ≤ 131076 * 2 ^ 33 }
    ensures exact { result ≡ width -ℤ natural }
    ensures small { unsigned_abs result ≤ 2 ^ 51 }
{
    width as i64 - natural
}

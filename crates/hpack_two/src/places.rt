//! The places of a line's glyphs (TeX: The Program, sections 620 to 625).
ghost use Rattle.std.specs.Prelude.{◌≡◌, ◌≤◌, ◌^◌, ◌+ℤ◌, unsigned_abs, true};
ghost use Rattle.hpack_two.specs.Answers.{AnswersPlaced};
ghost use Rattle.hpack_two.specs.Lines.{all_chosen, is_place, stands, setting_with};
ghost use Rattle.hpack_two.specs.Over.{IsOver};
ghost use Rattle.hpack_two.specs.Pens.{IsSet};

use crate::fault::PackFault;
use crate::glue::GlueSet;
use crate::steps::Steps;
use break_rule::Piece;
use instance_core::Placed;
use micro_num::{Glue, Sp};

/// Gives the glyphs of a line their places, where the line begins at `indent`. They are the glyphs
/// of the pieces. It is refused at the first that doesn't stand in range.
pub fn place(
    pieces: &[Piece],
    steps: &mut Steps,
    set: &GlueSet,
    indent: Sp,
    glyphs: Vec<Placed>,
) -> Result<Vec<Placed>, PackFault>
    requires over { IsOver steps.old.stock.now pieces.now }
    requires set { IsSet set.now }
    requires glyphs { glyphs.items ≡ all_chosen steps.old.stock.now steps.old.ratio pieces.now }
    ensures { let setting = setting_with steps.old.stock.now steps.old.ratio set.now indent in
        AnswersPlaced setting pieces.now result }
{
    let mut pen = Pen {
        at: indent as i64,
        given: 0,
        shift: 0,
    };
    let mut glyphs = glyphs;
    let mut glyph = 0;
    for piece in pieces {
        if let Piece::Glyph { .. } = piece {
            let advance = glyphs[glyph].advance;
            let Some(x) = pen.standing(advance) else {
                return Err(PackFault::OutOfRange {
                    glyph: glyph as u32,
                });
            };
            glyphs[glyph].x = x;
            pen.at += advance as i64;
            glyph += 1;
        } else {
            pen.pass(piece, steps, set);
        }
    }
    Ok(glyphs)
}

/// Where the next glyph of a line goes.
#[derive(Clone, Copy, Debug, PartialEq, Eq)]
pub struct Pen {
    /// The indent and the natural widths of what is before.
    pub at: i64,
    /// What the glue before counts for.
    pub given: i64,
    /// How far it shifts what is behind it.
    pub shift: i128,
}

impl Pen {
    ghost use Rattle.std.specs.Prelude.{◌≡◌, ◌≤◌, ◌^◌, ◌+◌, ◌+ℤ◌, unsigned_abs, true, false};
    ghost use Rattle.std.specs.Option.{SomeIff};
    ghost use Rattle.break_rule.specs.Packable.{IsPackablePiece};
    ghost use Rattle.hpack_two.specs.Glue.{given_by, given_of, shift_at};
    ghost use Rattle.hpack_two.specs.Lines.{stands, is_glyph};
    ghost use Rattle.hpack_two.specs.Pens.{IsSet, shift_behind};
    ghost use Rattle.hpack_two.specs.Widths.{natural_of};

    /// The place of a glyph of this width, where both its edges are in range.
    fn standing(&self, advance: Sp) -> Option<Sp>
        requires at { unsigned_abs self.now.at ≤ 2 ^ 60 }
        requires shift { unsigned_abs self.now.shift ≤ 2 ^ 122 }
        ensures { let x = self.now.at +ℤ self.now.shift in
            SomeIff result (stands x advance ≡ true) x }
    {
        let x = self.place();
        if stands(x, advance) {
            Some(as_place(x))
        } else {
            None
        }
    }

    /// The place behind what is before.
    fn place(&self) -> i128
        requires at { unsigned_abs self.now.at ≤ 2 ^ 60 }
        requires shift { unsigned_abs self.now.shift ≤ 2 ^ 122 }
        ensures exact { result ≡ self.now.at +ℤ self.now.shift }
        ensures small { unsigned_abs result ≤ 2 ^ 123 }
    {
        self.at as i128 + self.shift
    }

    /// Passes a piece that is no glyph.
    fn pass(&mut self, piece: &Piece, steps: &mut Steps, set: &GlueSet)
        requires over { IsPackablePiece steps.old.stock.now piece.now }
        requires set { IsSet set.now }
        requires other { is_glyph piece.now ≡ false }
        requires at { unsigned_abs self.old.at ≤ 2 ^ 60 }
        requires given { unsigned_abs self.old.given ≤ 2 ^ 59 }
        ensures at { self.new.at ≡ self.old.at
            +ℤ natural_of steps.old.stock.now steps.old.ratio piece.now }
        ensures given { self.new.given ≡ self.old.given +ℤ given_of set.now piece.now }
        ensures shift { self.new.shift
            ≡ shift_behind set.now piece.now self.old.given self.old.shift }
        ensures near_at { unsigned_abs self.new.at ≤ unsigned_abs self.old.at + 2 ^ 33 }
        ensures near_given { unsigned_abs self.new.given
            ≤ unsigned_abs self.old.given + 2 ^ 31 }
        ensures near_shift { unsigned_abs self.old.shift ≤ 2 ^ 122
            → unsigned_abs self.new.shift ≤ 2 ^ 122 }
        ensures stock { steps.new.stock.now ≡ steps.old.stock.now }
        ensures ratio { steps.new.ratio ≡ steps.old.ratio }
    {
        match *piece {
            Piece::Glyph { .. } => (),
            Piece::Space { glue } => self.pass_space(set, glue),
            Piece::Move { width } => self.at += width,
            Piece::FontMove {
                font,
                code,
                fix,
                ..
            } => self.at += steps.kern(font, code, fix) as i64,
        }
    }

    /// Passes a glue.
    fn pass_space(&mut self, set: &GlueSet, glue: Glue)
        requires set { IsSet set.now }
        requires at { unsigned_abs self.old.at ≤ 2 ^ 60 }
        requires given { unsigned_abs self.old.given ≤ 2 ^ 59 }
        ensures at { self.new.at ≡ self.old.at +ℤ glue.width }
        ensures given { self.new.given ≡ self.old.given +ℤ given_by set.now glue }
        ensures shift { self.new.shift
            ≡ shift_at set.now (self.old.given +ℤ given_by set.now glue) }
        ensures near_at { unsigned_abs self.new.at ≤ unsigned_abs self.old.at + 2 ^ 33 }
        ensures near_given { unsigned_abs self.new.given
            ≤ unsigned_abs self.old.given + 2 ^ 31 }
        ensures near_shift { unsigned_abs self.new.shift ≤ 2 ^ 122 }
    {
        self.at += glue.width as i64;
        self.given += set.given(glue);
        self.shift = set.shift(self.given);
    }
}

/// Whether both edges of a glyph are in range.
fn stands(x: i128, advance: Sp) -> bool
    requires { unsigned_abs x ≤ 2 ^ 123 }
    ensures { result ≡ stands x advance }
{
    is_place(x) && is_place(right_edge(x, advance))
}

/// The right edge of a glyph.
fn right_edge(x: i128, advance: Sp) -> i128
    requires { unsigned_abs x ≤ 2 ^ 123 }
    ensures { result ≡ x +ℤ advance }
{
    x + advance as i128
}

/// Whether a place is within ±(2^30 - 1) sp.
fn is_place(x: i128) -> bool
    ensures { result ≡ is_place x }
{
    x >= -(1 << 30) + 1 && x <= (1 << 30) - 1
}

/// A place that is in range.
fn as_place(x: i128) -> Sp
    requires { is_place x ≡ true }
    ensures { result ≡ x }
{
    x as Sp
}

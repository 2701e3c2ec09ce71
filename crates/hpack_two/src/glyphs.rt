//! The glyphs of a line with their steps and widths, before they have places. Here the source of
//! widths is asked, once for each glyph that is expanded.
ghost use Rattle.std.specs.Prelude.{◌≡◌, ◌≤◌, ◌<◌, length, map, count_by, vec_len, vec_capacity};
ghost use Rattle.hpack_two.specs.Answers.{touched_with};
ghost use Rattle.hpack_two.specs.Choosing.{AreChosen};
ghost use Rattle.hpack_two.specs.Lines.{all_chosen, is_glyph, stepped, stepped_cell};
ghost use Rattle.hpack_two.specs.Lines.{height_of, depth_of};
ghost use Rattle.hpack_two.specs.Over.{IsOver, base_of};
ghost use Rattle.hpack_two.specs.Steps.{IsChosen};
ghost use Rattle.hpack_two.specs.Widths.{advance_of};

use crate::steps::Steps;
use break_rule::Piece;
use font_stock::Stock;
use instance_core::{Cell, Placed, WidthSource};
use micro_num::Sp;

/// The glyphs of a line with their steps and widths, and what the line measures with them.
#[derive(Drop)]
pub struct Chosen {
    pub glyphs: Vec<Placed>,
    /// The natural width.
    pub natural: i64,
    pub height: Sp,
    pub depth: Sp,
}

/// The glyphs of a line, for which there is room.
pub fn choose<W: WidthSource>(
    pieces: &[Piece],
    steps: &mut Steps,
    source: &mut W,
    room: Vec<Placed>,
) -> Chosen
    requires over { IsOver steps.old.stock.now pieces.now }
    requires source { W.bases source.old ≡ map base_of steps.old.stock.now }
    requires empty { vec_len room ≡ 0 }
    requires room { count_by is_glyph pieces.now ≤ vec_capacity room }
    ensures exact { AreChosen steps.old.stock.now steps.old.ratio pieces.now result }
    ensures stock { steps.new.stock.now ≡ steps.old.stock.now }
    ensures ratio { steps.new.ratio ≡ steps.old.ratio }
    ensures touched { let glyphs = all_chosen steps.old.stock.now steps.old.ratio pieces.now in
        W.touched source.new
        ≡ touched_with (W.bases source.old) (stepped glyphs) (W.touched source.old) }
    ensures bases { W.bases source.new ≡ W.bases source.old }
    ensures fixed { W.fixed source.new ≡ W.fixed source.old }
{
    let mut chosen = Chosen {
        glyphs: room,
        natural: 0,
        height: 0,
        depth: 0,
    };
    for piece in pieces {
        chosen.take(piece, steps, source);
    }
    chosen
}

impl Chosen {
    ghost use Rattle.std.specs.Prelude.{◌≡◌, ◌≤◌, ◌<◌, ◌^◌, ◌+◌, ◌+ℤ◌, ◌++◌, ◌∷◌, [], length, map};
    ghost use Rattle.std.specs.Prelude.{unsigned_abs, vec_len, vec_capacity};
    ghost use Rattle.std.specs.Int.{int_max};
    ghost use Rattle.break_rule.specs.Packable.{IsPackablePiece};
    ghost use Rattle.hpack_two.specs.Answers.{touched_with};
    ghost use Rattle.hpack_two.specs.Choosing.{room_for};
    ghost use Rattle.hpack_two.specs.Lines.{chosen_of, with_step, higher, deeper, stepped};
    ghost use Rattle.instance_core.specs.Cells.{cell_at};
    ghost use Rattle.hpack_two.specs.Lines.{height_of, depth_of, stepped_cell};
    ghost use Rattle.hpack_two.specs.Over.{base_of};
    ghost use Rattle.hpack_two.specs.Widths.{natural_of, chosen_step, advance_of};

    /// Takes one more piece of the line.
    fn take<W: WidthSource>(&mut self, piece: &Piece, steps: &mut Steps, source: &mut W)
        requires over { IsPackablePiece steps.old.stock.now piece.now }
        requires source { W.bases source.old ≡ map base_of steps.old.stock.now }
        requires room { let glyphs = self.old.glyphs in
            room_for piece.now (vec_len glyphs) (vec_capacity glyphs) }
        requires near { unsigned_abs self.old.natural ≤ 2 ^ 60 }
        ensures glyphs { self.new.glyphs.items ≡ self.old.glyphs.items
            ++ chosen_of steps.old.stock.now steps.old.ratio piece.now }
        ensures capacity { vec_capacity self.new.glyphs ≡ vec_capacity self.old.glyphs }
        ensures natural { self.new.natural ≡ self.old.natural
            +ℤ natural_of steps.old.stock.now steps.old.ratio piece.now }
        ensures near { unsigned_abs self.new.natural
            ≤ unsigned_abs self.old.natural + 2 ^ 33 }
        ensures height { self.new.height
            ≡ higher steps.old.stock.now self.old.height piece.now }
        ensures depth { self.new.depth ≡ deeper steps.old.stock.now self.old.depth piece.now }
        ensures stock { steps.new.stock.now ≡ steps.old.stock.now }
        ensures ratio { steps.new.ratio ≡ steps.old.ratio }
        ensures touched { W.touched source.new ≡ touched_with (W.bases source.old)
            (stepped (chosen_of steps.old.stock.now steps.old.ratio piece.now))
            (W.touched source.old) }
        ensures bases { W.bases source.new ≡ W.bases source.old }
        ensures fixed { W.fixed source.new ≡ W.fixed source.old }
    {
        match *piece {
            Piece::Glyph { font, code } => self.take_glyph(font, code, steps, source),
            Piece::Space { glue } => self.natural += glue.width as i64,
            Piece::Move { width } => self.natural += width,
            Piece::FontMove {
                font,
                code,
                fix,
                ..
            } => self.natural += steps.kern(font, code, fix) as i64,
        }
    }

    /// Takes one more glyph.
    fn take_glyph<W: WidthSource>(&mut self, font: u32, code: u8, steps: &mut Steps, source: &mut W)
        requires font { font < length steps.old.stock.now }
        requires source { W.bases source.old ≡ map base_of steps.old.stock.now }
        requires room { vec_len self.old.glyphs < vec_capacity self.old.glyphs }
        requires near { unsigned_abs self.old.natural ≤ 2 ^ 60 }
        ensures glyphs { let known = steps.old in
            let step = chosen_step known.stock.now known.ratio font code in
            self.new.glyphs.items ≡ self.old.glyphs.items
            ++ with_step known.stock.now step font code ∷ [] }
        ensures capacity { vec_capacity self.new.glyphs ≡ vec_capacity self.old.glyphs }
        ensures natural { let known = steps.old in
            let step = chosen_step known.stock.now known.ratio font code in
            self.new.natural ≡ self.old.natural +ℤ advance_of known.stock.now step font code }
        ensures near { unsigned_abs self.new.natural
            ≤ unsigned_abs self.old.natural + 2 ^ 33 }
        ensures height { self.new.height
            ≡ int_max self.old.height (height_of steps.old.stock.now font code) }
        ensures depth { self.new.depth
            ≡ int_max self.old.depth (depth_of steps.old.stock.now font code) }
        ensures stock { steps.new.stock.now ≡ steps.old.stock.now }
        ensures ratio { steps.new.ratio ≡ steps.old.ratio }
        ensures touched { let known = steps.old in
            let step = chosen_step known.stock.now known.ratio font code in
            W.touched source.new ≡ touched_with (W.bases source.old)
            (stepped_cell (cell_at font step)) (W.touched source.old) }
        ensures bases { W.bases source.new ≡ W.bases source.old }
        ensures fixed { W.fixed source.new ≡ W.fixed source.old }
    {
        let step = steps.step(font, code);
        let cell = Cell { font, step };
        let advance = advance(steps.stock, cell, code, source);
        self.natural += advance as i64;
        self.height = self.height.max(height(steps.stock, font, code));
        self.depth = self.depth.max(depth(steps.stock, font, code));
        self.glyphs.push_reserved(Placed {
            x: 0,
            cell,
            code,
            advance,
        });
    }
}

/// The width of a character at a step that its font has. The source is asked where the step isn't
/// 0.
#[tactic(auto, using(crate::proofs::Fonts::base_width), unfolding(crate::specs::Widths::advance_of))]
fn advance<W: WidthSource>(stock: &Stock, cell: Cell, code: u8, source: &mut W) -> Sp
    requires font { cell.font < length stock.now }
    requires step { IsChosen stock.now cell.font cell.step }
    requires source { W.bases source.old ≡ map base_of stock.now }
    ensures exact { result ≡ advance_of stock.now cell.step cell.font code }
    ensures touched { W.touched source.new
        ≡ touched_with (W.bases source.old) (stepped_cell cell) (W.touched source.old) }
    ensures bases { W.bases source.new ≡ W.bases source.old }
    ensures fixed { W.fixed source.new ≡ W.fixed source.old }
{
    if cell.step == 0 {
        stock.font(cell.font).width(code)
    } else {
        source.width(cell, code)
    }
}

/// The height of a character.
#[tactic(auto, unfolding(crate::specs::Lines::height_of))]
fn height(stock: &Stock, font: u32, code: u8) -> Sp
    requires { font < length stock.now }
    ensures { result ≡ height_of stock.now font code }
{
    stock.font(font).height(code)
}

/// The depth of a character.
#[tactic(auto, unfolding(crate::specs::Lines::depth_of))]
fn depth(stock: &Stock, font: u32, code: u8) -> Sp
    requires { font < length stock.now }
    ensures { result ≡ depth_of stock.now font code }
{
    stock.font(font).depth(code)
}

//! The steps of a line's characters, each worked out once for each font, share and ratio where they
//! stand one behind the other (pdfTeX manual, `\pdffontexpand` and `\efcode`).
ghost use Rattle.std.specs.Prelude.{◌≡◌, ◌≤◌, ◌<◌, Contains, IfSome, length, pos, unsigned_abs};
ghost use Rattle.std.proofs.Props.{props};
ghost use Rattle.font_stock.specs.declared.font.Font.{Font};
ghost use Rattle.hlist.specs.Bounds.{OfFont};
ghost use Rattle.hpack_two.specs.Steps.{IsChosen, IsFound};
ghost use Rattle.hpack_two.specs.Widths.{kern_width};

use font_stock::Stock;
use instance_core::scaled_width;
use micro_num::Sp;

/// A step that was found, with the font and the share in its expansion, in thousandths.
#[derive(Clone, Copy, Debug, PartialEq, Eq)]
pub struct Found {
    pub font: u32,
    pub factor: u16,
    pub step: i32,
}

/// The steps of the characters of a line at a ratio. The last one found is kept.
#[derive(Drop)]
pub struct Steps<'a> {
    pub stock: &'a Stock,
    pub ratio: i32,
    last: Option<Found>,
    pub ghost ratio_fits: { unsigned_abs ratio ≤ 1000 },
    pub ghost found: { IfSome last (IsFound stock.now ratio) } by { Prim.hlevel props },
}

impl<'a> Steps<'a> {
    ghost use Rattle.std.specs.Prelude.{◌≡◌, ◌≤◌, ◌<◌, ◌^◌, Contains, length, unsigned_abs};
    ghost use Rattle.font_stock.specs.declared.font.Font.{Font};
    ghost use Rattle.hlist.specs.Bounds.{OfFont};
    ghost use Rattle.hpack_two.specs.Steps.{IsChosen};
    ghost use Rattle.hpack_two.specs.Widths.{chosen_step, kern_width};

    /// The steps at a ratio within ±1000.
    pub fn at(stock: &'a Stock, ratio: i32) -> Steps<'a>
        requires { unsigned_abs ratio ≤ 1000 }
        ensures stock { result.stock.now ≡ stock.now }
        ensures ratio { result.ratio ≡ ratio }
    {
        Steps {
            stock,
            ratio,
            last: None,
        }
    }

    /// The step of a character.
    #[tactic(auto, unfolding(crate::specs::Widths::chosen_step))]
    pub fn step(&mut self, font: u32, code: u8) -> i32
        requires { font < length self.old.stock.now }
        ensures exact { let known = self.old in
            result ≡ chosen_step known.stock.now known.ratio font code }
        ensures chosen { IsChosen self.old.stock.now font result }
        ensures stock { self.new.stock.now ≡ self.old.stock.now }
        ensures ratio { self.new.ratio ≡ self.old.ratio }
    {
        let factor = self.stock.font(font).codes.ef[code as usize];
        if let Some(last) = self.last {
            if last.font == font && last.factor == factor {
                return last.step;
            }
        }
        let step = self.stock.font(font).step_for(code, self.ratio);
        self.last = Some(Found { font, factor, step });
        step
    }

    /// The width of a kern that expands with the character before it.
    pub fn kern(&mut self, font: u32, code: u8, fix: i32) -> Sp
        requires { OfFont self.old.stock.now font
            (λ (f : Font). Contains f.tfm.kerns fix) }
        ensures exact { let known = self.old in
            let step = chosen_step known.stock.now known.ratio font code in
            result ≡ kern_width known.stock.now step font fix }
        ensures stock { self.new.stock.now ≡ self.old.stock.now }
        ensures ratio { self.new.ratio ≡ self.old.ratio }
    {
        let step = self.step(font, code);
        kern_at(self.stock, font, step, fix)
    }
}

/// The width of a kern of a font at a step that the font has.
#[tactic(auto, using(crate::proofs::Fonts::base_width), unfolding(crate::specs::Widths::kern_width))]
fn kern_at(stock: &Stock, font: u32, step: i32, fix: i32) -> Sp
    requires kern { OfFont stock.now font (λ (f : Font). Contains f.tfm.kerns fix) }
    requires step { IsChosen stock.now font step }
    ensures { result ≡ kern_width stock.now step font fix }
{
    let font = stock.font(font);
    font.kerns_are_fix_words();
    if step == 0 {
        font.kern(fix)
    } else {
        scaled_width(fix, step, font.size())
    }
}

/// The width of a kern of a font that is not expanded.
pub fn kern_as_it_is(stock: &Stock, font: u32, fix: i32) -> Sp
    requires { OfFont stock.now font (λ (f : Font). Contains f.tfm.kerns fix) }
    ensures { result ≡ kern_width stock.now (pos 0) font fix }
{
    let font = stock.font(font);
    font.kerns_are_fix_words();
    font.kern(fix)
}

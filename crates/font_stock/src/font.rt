//! A font at a size, and all that is asked of it. Each number is its formula over the fix_words of
//! the font's metrics (TeX: The Program, sections 539 to 576; pdfTeX manual; Thành,
//! Micro-typographic extensions to the TeX typesetting system).
ghost use Rattle.std.specs.Prelude.{◌≡◌, ◌<◌, ◌≤◌, ◌^◌, ℕ, ℤ, pos, unsigned_abs, slice_index};
ghost use Rattle.std.specs.Prelude.{slice_index_or, Some, None, MatchOption, IfSome, Contains};
ghost use Rattle.std.specs.Option.{ForSome};
ghost use Rattle.micro_num.specs.Scaling.{IsFixWord, IsFontSize, scaled};
ghost use Rattle.micro_num.specs.Expansion.{expanded};
ghost use Rattle.tfm_read.specs.Ranges.{exists_at};
ghost use Rattle.font_stock.specs.Fonts.{char_of, param_at, stretch_at, shrink_at, hang_at};
ghost use Rattle.font_stock.specs.Fonts.{hyphen_of};
ghost use Rattle.font_stock.specs.Refusals.{too_wide, wide_kern};
ghost use Rattle.font_stock.specs.Scaling.{AreScaled, scaled_char};
ghost use Rattle.font_stock.specs.Steps.{step_of, IsStepOf};

use crate::codes::FontCodes;
use crate::expand::Expand;
use crate::refused::FontRefused;
use crate::scaled::ScaledChar;
use crate::size::Size;
use crate::table::{scaled_chars, shrink, stretch};
use crate::widths::{too_wide_code, too_wide_kern};
use items::Items;
use micro_num::{Glue, Sp, scale, thousandths};
use std::alloc::Global;
use tfm_read::Tfm;

/// A font at a size.
#[derive(Drop)]
pub struct Font {
    /// The font's metrics.
    pub tfm: Tfm,
    /// The size, from 1 to 2^27 - 1 sp.
    pub size: Sp,
    /// What the job says of its characters.
    pub codes: FontCodes,
    /// How far it may be expanded.
    pub expand: Option<Expand>,
    quad: Sp,
    chars: Items<ScaledChar>,
    pub ghost size_fits: { IsFontSize size },
    pub ghost widths_fit: { too_wide expand tfm.chars ≡ None },
    pub ghost kerns_fit: { wide_kern expand tfm.kerns ≡ None },
    ghost quad_is: { quad ≡ param_at tfm 5 size },
    ghost chars_are: { AreScaled tfm codes expand size 256 chars },
}

impl Font {
    ghost use Rattle.std.specs.Prelude.{◌≡◌, ◌<◌, ℕ, ℤ, None, Contains};
    ghost use Rattle.std.specs.Option.{ForSome};
    ghost use Rattle.micro_num.specs.Expansion.{expanded};
    ghost use Rattle.micro_num.specs.Scaling.{IsFixWord, IsFontSize};
    ghost use Rattle.font_stock.specs.Fonts.{char_of};
    ghost use Rattle.font_stock.specs.Making.{AnswersFont};
    ghost use Rattle.font_stock.specs.Refusals.{too_wide, wide_kern};
    ghost use Rattle.font_stock.specs.Scaling.{AreScaled};
    ghost use Rattle.font_stock.specs.Sizes.{IsSize};
    ghost use Rattle.font_stock.specs.Steps.{IsStepOf};

    /// The font of metrics at a size, which is at least 1 sp, or 1 to 32768 thousandths of the
    /// design size. It is refused, in this order, where the size is 2^27 sp or more; where it may
    /// be expanded and a character is too wide for a fix_word at the greatest stretch; and where a
    /// kern is.
    pub fn at(
        alloc: Global,
        tfm: Tfm,
        size: Size,
        codes: FontCodes,
        expand: Option<Expand>,
    ) -> Result<Font, FontRefused>
        requires { IsSize size }
        ensures { AnswersFont tfm size codes expand result }
    {
        let asked = size.of(tfm.design);
        if asked >= 1 << 27 {
            return Err(FontRefused::SizePast { size: asked });
        }
        if let Some(code) = too_wide_code(&tfm, expand) {
            return Err(FontRefused::WidePast { code });
        }
        if let Some(index) = too_wide_kern(&tfm, expand) {
            return Err(FontRefused::WideKern { index });
        }
        let size = asked as Sp;
        let chars = scaled_chars(alloc, &tfm, &codes, expand, size)?;
        Ok(Font::made(tfm, size, codes, expand, chars))
    }

    /// The font with the table of its characters.
    fn made(
        tfm: Tfm,
        size: Sp,
        codes: FontCodes,
        expand: Option<Expand>,
        chars: Items<ScaledChar>,
    ) -> Font
        requires size { IsFontSize size }
        requires widths { too_wide expand tfm.chars ≡ None }
        requires kerns { wide_kern expand tfm.kerns ≡ None }
        requires chars { AreScaled tfm codes expand size 256 chars }
        ensures metrics { result.tfm ≡ tfm }
        ensures size { result.size ≡ size }
        ensures settings { result.codes ≡ codes }
        ensures expansion { result.expand ≡ expand }
    {
        let quad = scale(tfm.params[5], size);
        Font {
            tfm,
            size,
            codes,
            expand,
            quad,
            chars,
        }
    }

    /// The law of the widths: that of each character is a fix_word, at each step of an instance
    /// too.
    pub fn widths_are_fix_words(&self)
        ensures own { (code : ℕ) → code < 256 → IsFixWord (char_of self.now.tfm code).width }
        ensures expanded { (code : ℕ) (step : ℤ) → code < 256 → ForSome self.now.expand (λ e.
            IsStepOf e step → IsFixWord (expanded (char_of self.now.tfm code).width step)) }
    {
        let _ = &self.size;
    }

    /// The law of the kerns: each is a fix_word, at each step of an instance too.
    pub fn kerns_are_fix_words(&self)
        ensures own { (fix : ℤ) → Contains self.now.tfm.kerns fix → IsFixWord fix }
        ensures expanded { (fix step : ℤ) → Contains self.now.tfm.kerns fix →
            ForSome self.now.expand (λ e. IsStepOf e step → IsFixWord (expanded fix step)) }
    {
        let _ = &self.size;
    }
}

impl Font {
    /// Whether the font has the character of a code.
    pub fn exists(&self, code: u8) -> bool
        ensures { result ≡ exists_at self.now.tfm.chars code }
    {
        self.tfm.exists(code)
    }

    /// The width of a character.
    #[tactic(auto, unfolding(crate::specs::Scaling::scaled_char))]
    pub fn width(&self, code: u8) -> Sp
        ensures { result ≡ scaled (char_of self.now.tfm code).width self.now.size }
    {
        self.scaled(code).width
    }

    /// Its height above the baseline.
    #[tactic(auto, unfolding(crate::specs::Scaling::scaled_char))]
    pub fn height(&self, code: u8) -> Sp
        ensures { result ≡ scaled (char_of self.now.tfm code).height self.now.size }
    {
        self.scaled(code).height
    }

    /// Its depth below the baseline.
    #[tactic(auto, unfolding(crate::specs::Scaling::scaled_char))]
    pub fn depth(&self, code: u8) -> Sp
        ensures { result ≡ scaled (char_of self.now.tfm code).depth self.now.size }
    {
        self.scaled(code).depth
    }

    /// A kern of the font, given as a fix_word.
    pub fn kern(&self, fix: i32) -> Sp
        requires { IsFixWord fix }
        ensures { result ≡ scaled fix self.now.size }
    {
        scale(fix, self.size)
    }

    /// The font's quad, 0 where it has none.
    pub fn quad(&self) -> Sp
        ensures { result ≡ param_at self.now.tfm 5 self.now.size }
    {
        self.quad
    }

    /// The space between words, finite; what the font doesn't say of it is 0.
    pub fn space(&self) -> Glue
        ensures width { result.width ≡ param_at self.now.tfm 1 self.now.size }
        ensures stretch { result.stretch ≡ param_at self.now.tfm 2 self.now.size }
        ensures order { result.order ≡ 0 }
        ensures shrink { result.shrink ≡ param_at self.now.tfm 3 self.now.size }
    {
        Glue {
            width: scale(self.tfm.params[1], self.size),
            stretch: scale(self.tfm.params[2], self.size),
            order: 0,
            shrink: scale(self.tfm.params[3], self.size),
        }
    }

    /// What a space after the end of a sentence is wider, 0 where the font doesn't say.
    pub fn extra(&self) -> Sp
        ensures { result ≡ param_at self.now.tfm 6 self.now.size }
    {
        scale(self.tfm.params[6], self.size)
    }

    /// How much wider a character gets at the greatest stretch, in its share of the expansion. It
    /// is 0 of a font that may not be stretched, and negative of a character with a negative width.
    #[tactic(auto, unfolding(crate::specs::Scaling::scaled_char))]
    pub fn stretch_of(&self, code: u8) -> i64
        ensures exact { let font = self.now in
            result ≡ stretch_at font.expand (slice_index font.codes.ef code)
            (char_of font.tfm code).width font.size }
        ensures unstretched { IfSome self.now.expand (λ e. e.stretch ≡ 0 → result ≡ pos 0) }
        ensures small { unsigned_abs result ≤ 2 ^ 32 }
    {
        self.scaled(code).stretch
    }

    /// How much narrower a character gets at the greatest shrink, as for the stretch.
    #[tactic(auto, unfolding(crate::specs::Scaling::scaled_char))]
    pub fn shrink_of(&self, code: u8) -> i64
        ensures exact { let font = self.now in
            result ≡ shrink_at font.expand (slice_index font.codes.ef code)
            (char_of font.tfm code).width font.size }
        ensures unshrunk { IfSome self.now.expand (λ e. e.shrink ≡ 0 → result ≡ pos 0) }
        ensures small { unsigned_abs result ≤ 2 ^ 32 }
    {
        self.scaled(code).shrink
    }

    /// How much a kern grows at the greatest stretch, in the share of the character before it. The
    /// kern is a fix_word, and one of the font's where that may be expanded.
    pub fn kern_stretch(&self, code: u8, fix: i32) -> i64
        requires { ForSome self.now.expand (λ e. Contains self.now.tfm.kerns fix) }
        ensures exact { let font = self.now in
            result ≡ stretch_at font.expand (slice_index font.codes.ef code) fix font.size }
        ensures unstretched { IfSome self.now.expand (λ e. e.stretch ≡ 0 → result ≡ pos 0) }
        ensures small { unsigned_abs result ≤ 2 ^ 32 }
    {
        stretch(fix, self.codes.ef[code as usize], self.expand, self.size)
    }

    /// How much a kern loses at the greatest shrink, as for the stretch.
    pub fn kern_shrink(&self, code: u8, fix: i32) -> i64
        requires { ForSome self.now.expand (λ e. Contains self.now.tfm.kerns fix) }
        ensures exact { let font = self.now in
            result ≡ shrink_at font.expand (slice_index font.codes.ef code) fix font.size }
        ensures unshrunk { IfSome self.now.expand (λ e. e.shrink ≡ 0 → result ≡ pos 0) }
        ensures small { unsigned_abs result ≤ 2 ^ 32 }
    {
        shrink(fix, self.codes.ef[code as usize], self.expand, self.size)
    }

    /// The step, in thousandths, that a character takes in a line whose ratio of thousandths of the
    /// font's limits is within ±1000. It is 0 or the step of an instance.
    #[tactic(auto, unfolding(crate::specs::Steps::step_of))]
    pub fn step_for(&self, code: u8, ratio: i32) -> i32
        requires { unsigned_abs ratio ≤ 1000 }
        ensures exact { let font = self.now in
            result ≡ step_of font.expand (slice_index font.codes.ef code) ratio }
        ensures instance { MatchOption self.now.expand (result ≡ pos 0) (λ e. IsStepOf e result) }
    {
        match self.expand {
            Some(expand) => expand.step_at(self.codes.ef[code as usize], ratio),
            None => 0,
        }
    }

    /// How far a character hangs into the left margin.
    pub fn left_hang(&self, code: u8) -> i64
        ensures exact { let font = self.now in
            result ≡ hang_at font.tfm font.size (slice_index_or font.codes.left code (pos 0)) }
        ensures small { unsigned_abs result ≤ 2 ^ 31 }
    {
        thousandths(self.quad as i64, self.codes.left[code as usize] as i64)
    }

    /// How far a character hangs into the right margin.
    pub fn right_hang(&self, code: u8) -> i64
        ensures exact { let font = self.now in
            result ≡ hang_at font.tfm font.size (slice_index_or font.codes.right code (pos 0)) }
        ensures small { unsigned_abs result ≤ 2 ^ 31 }
    {
        thousandths(self.quad as i64, self.codes.right[code as usize] as i64)
    }

    /// The font's metrics.
    pub fn tfm(&self) -> &Tfm
        ensures { result.now ≡ self.now.tfm }
    {
        &self.tfm
    }

    /// The size, in sp.
    pub fn size(&self) -> Sp
        ensures exact { result ≡ self.now.size }
        ensures fits { IsFontSize result }
    {
        self.size
    }

    /// How far the font may be expanded.
    pub fn expand(&self) -> Option<Expand>
        ensures { result ≡ self.now.expand }
    {
        self.expand
    }

    /// The code of the hyphen character; a number that is no code means that there is none.
    pub fn hyphen(&self) -> i32
        ensures { result ≡ self.now.codes.hyphen }
    {
        self.codes.hyphen
    }

    /// The hyphen character, where its number is a code from 0 to 255 that the font has.
    pub fn hyphen_code(&self) -> Option<u8>
        ensures { result ≡ hyphen_of self.now.tfm self.now.codes.hyphen }
    {
        let code = u8::try_from(self.codes.hyphen).ok()?;
        if self.exists(code) { Some(code) } else { None }
    }

    /// What the table says of a character.
    fn scaled(&self, code: u8) -> &ScaledChar
        ensures { let font = self.now in
            result.now ≡ scaled_char font.expand font.size (slice_index font.codes.ef code)
            (char_of font.tfm code) }
    {
        &self.chars.as_slice()[code as usize]
    }
}

//! A font as instances are made of it: the steps of its instances, and its widths and kerns at each
//! (Thành, Micro-typographic extensions to the TeX typesetting system).
use crate::widths::scaled_width;
use items::Items;
use micro_num::Sp;
use std::alloc::{AllocError, Global};

/// A font as instances are made of it: its size in scaled points, the width fix_words of its 256
/// codes, and how far it may be expanded, in thousandths: from -shrink to stretch, in multiples of
/// step. A font that may not be expanded has both limits 0, and step 1.
#[derive(Drop)]
pub struct BaseFont {
    pub size: Sp,
    pub widths: Items<i32>,
    pub stretch: u16,
    pub shrink: u16,
    pub step: u16,
}

impl BaseFont {
    ghost use Rattle.std.specs.Prelude.{◌≡◌, ◌≤◌, ◌<◌, ◌+◌, IfOk, length, slice_get, Some, ◌-◌, ◌*◌, ◌%◌, pos, neg_ℤ, ◌≤ℤ◌};
    ghost use Rattle.micro_num.specs.Expansion.{expanded};
    ghost use Rattle.micro_num.specs.Scaling.{IsFixWord};
    ghost use Rattle.instance_core.specs.Bases.{IsBase};
    ghost use Rattle.instance_core.specs.Cells.{steps_of, place_of};
    ghost use Rattle.instance_core.specs.Instances.{width_of, kern_of};

    /// The width of a character at a step within the limits.
    #[tactic(auto, unfolding(crate::specs::Instances::width_of))]
    pub fn width_at(&self, step: i32, code: u8) -> Sp
        requires base { IsBase self.now }
        requires low { neg_ℤ (pos self.now.shrink) ≤ℤ step }
        requires high { step ≤ℤ pos self.now.stretch }
        ensures { result ≡ width_of self.now step code }
    {
        scaled_width(self.widths.as_slice()[code as usize], step, self.size)
    }

    /// A kern of the font at a step, given as a fix_word.
    #[tactic(auto, unfolding(crate::specs::Instances::kern_of))]
    pub fn kern_at(&self, step: i32, fix: i32) -> Sp
        requires base { IsBase self.now }
        requires fix { IsFixWord (expanded fix step) }
        ensures { result ≡ kern_of self.now step fix }
    {
        scaled_width(fix, step, self.size)
    }

    /// How many instances the font has.
    pub fn steps(&self) -> u32
        requires { IsBase self.now }
        ensures exact { result ≡ length (steps_of self.now) }
        ensures few { result ≤ 128 }
    {
        (self.shrink / self.step) as u32 + (self.stretch / self.step) as u32
    }

    /// The step of the instance with this place among the font's, the narrowest first.
    pub fn step_at(&self, place: u32) -> i32
        requires base { IsBase self.now }
        requires within { place < length (steps_of self.now) }
        ensures { slice_get (steps_of self.now) place ≡ Some result }
    {
        let narrower = (self.shrink / self.step) as u32;
        let step = self.step as u32;
        if place < narrower {
            -((self.shrink as u32 - place * step) as i32)
        } else {
            ((place - narrower + 1) * step) as i32
        }
    }

    /// The place of a step's instance among the font's, or `None` where it has none at that step.
    pub fn place_of(&self, step: i32) -> Option<u32>
        requires { IsBase self.now }
        ensures { result ≡ place_of self.now step }
    {
        let size = step.unsigned_abs();
        if step < 0 {
            self.place_below(size)
        } else {
            self.place_above(size)
        }
    }

    /// The place of the step that narrows by `size`, which isn't 0.
    fn place_below(&self, size: u32) -> Option<u32>
        requires base { IsBase self.now }
        requires some { 0 < size }
        ensures { result ≡ place_of self.now (neg_ℤ (pos size)) }
    {
        let step = self.step as u32;
        let shrink = self.shrink as u32;
        if size % step != 0 {
            return None;
        }
        if size > shrink {
            return None;
        }
        Some((shrink - size) / step)
    }

    /// The place of the step that widens by `size`.
    fn place_above(&self, size: u32) -> Option<u32>
        requires { IsBase self.now }
        ensures { result ≡ place_of self.now (pos size) }
    {
        let step = self.step as u32;
        if size == 0 {
            return None;
        }
        if size % step != 0 {
            return None;
        }
        if size > self.stretch as u32 {
            return None;
        }
        Some(self.shrink as u32 / step + size / step - 1)
    }

    /// A copy of the font.
    pub fn copy(&self, alloc: Global) -> Result<BaseFont, AllocError>
        ensures { IfOk result (λ copy. copy ≡ self.now) }
    {
        Ok(BaseFont {
            size: self.size,
            widths: Items::from_slice(alloc, self.widths.as_slice())?,
            stretch: self.stretch,
            shrink: self.shrink,
            step: self.step,
        })
    }
}

//! The fonts of a job, numbered in the order of declaration.
ghost use Rattle.std.specs.Prelude.{◌≡◌, ◌≤◌, ◌<◌, Some, length, vec_len, slice_get};

use crate::font::Font;
use items::Items;
use std::marker::Model;

/// The fonts of a job, at most 32, in the order of declaration. Contracts see the list of them.
#[derive(Drop)]
pub struct Stock {
    fonts: Items<Font>,
}

impl Model for Stock {
    ghost use Rattle.std.specs.Prelude.{List, ◌≤◌, length};
    ghost use Rattle.font_stock.specs.declared.font.Font.{Font};

    ghost Value = { List Font };

    ghost view = { λ s. s.fonts };

    ghost invariant = { λ s. length s.fonts ≤ 32 };
}

impl Stock {
    /// The stock of at most 32 fonts.
    pub fn make(fonts: Vec<Font>) -> Stock
        requires { vec_len fonts ≤ 32 }
        ensures { result ≡ fonts.items }
    {
        Stock {
            fonts: Items::from_vec(fonts),
        }
    }

    /// The font of a number below the count.
    pub fn font(&self, number: u32) -> &Font
        requires { number < length self.now }
        ensures { slice_get self.now number ≡ Some result.now }
    {
        &self.fonts.as_slice()[number as usize]
    }

    /// How many fonts there are, at most 32.
    pub fn count(&self) -> u32
        ensures exact { result ≡ length self.now }
        ensures few { result ≤ 32 }
    {
        self.fonts.len() as u32
    }
}

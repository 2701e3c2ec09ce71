//! Lines: where one begins and ends, what it measures, how well it fits, and what it is made of
//! (TeX: The Program, parts 38 and 39).
use items::Items;
use micro_num::{Glue, Sp};

/// Where a line begins.
#[derive(Clone, Copy, Debug, PartialEq, Eq)]
pub enum From {
    /// At the start of the list.
    Start,
    /// Behind the break at an item, by its number.
    After { at: u32 },
}

/// What a line adds up to, in scaled points. A difference of sums may be negative.
#[derive(Clone, Copy, Debug, PartialEq, Eq)]
pub struct Measure {
    /// The natural width.
    pub width: i64,
    /// The stretch of each order: finite, fil, fill, filll.
    pub stretch: [i64; 4],
    /// The shrink, which is finite.
    pub shrink: i64,
    /// How much wider the fonts get at the greatest stretch.
    pub font_stretch: i64,
    /// How much narrower they get at the greatest shrink.
    pub font_shrink: i64,
}

/// How a line fits.
#[derive(Clone, Copy, Debug, PartialEq, Eq)]
pub struct LineFit {
    /// What is left for the glue to make up for, in scaled points; negative where the line is too
    /// long.
    pub shortfall: i64,
    /// From 0 to 10000, and 10001 where the line is overfull.
    pub badness: u16,
    /// From 0, very loose, to 3, tight.
    pub class: u8,
}

/// A part of a line that is to be packed.
#[derive(Clone, Copy, Debug, PartialEq, Eq)]
pub enum Piece {
    /// A character or ligature of a font.
    Glyph {
        font: u32,
        code: u8,
    },
    /// Stretchable space.
    Space {
        glue: Glue,
    },
    /// A move to the right, in scaled points.
    Move {
        width: i64,
    },
    /// A kern that expands with the glyph before it: the glyph, the kern as a fix_word, and its
    /// width.
    FontMove {
        font: u32,
        code: u8,
        fix: i32,
        width: Sp,
    },
}

/// A line that is to be packed.
#[derive(Drop)]
pub struct LineIn {
    pub pieces: Items<Piece>,
    /// Whether the fonts of the line may be expanded.
    pub expand: bool,
}

//! The items of a horizontal list (TeX: The Program, part 10), and what it takes for a list of them
//! to be small or in bounds.

use items::Items;
use micro_num::{Disc, Glue, Sp};

/// The glyph directly before a font kern in its run, with which the kern expands, and the kern
/// itself.
#[derive(Clone, Copy, Debug, PartialEq, Eq)]
pub struct KernLeft {
    /// The number of the glyph's font.
    pub font: u32,
    /// The glyph's code.
    pub code: u8,
    /// The kern, a fix_word that is one of the font's.
    pub fix: i32,
}

/// What a list of a discretionary holds.
#[derive(Drop)]
pub enum Sub {
    /// A character of a font.
    Char {
        font: u32,
        code: u8,
    },
    /// A ligature of a font, and the codes that it stands for.
    Lig {
        font: u32,
        code: u8,
        covers: Items<u8>,
    },
    /// A kern that a font's programs put in, and what it expands with, where a glyph stands
    /// directly before it in its run.
    FontKern {
        width: Sp,
        left: Option<KernLeft>,
    },
}

/// An item of a horizontal list. Widths are in scaled points.
#[derive(Drop)]
pub enum Item {
    /// A character of a font.
    Char {
        font: u32,
        code: u8,
    },
    /// A ligature of a font, and the codes that it stands for.
    Lig {
        font: u32,
        code: u8,
        covers: Items<u8>,
    },
    /// A kern that a font's programs put in, and what it expands with, where a glyph stands
    /// directly before it in its run.
    FontKern {
        width: Sp,
        left: Option<KernLeft>,
    },
    /// A kern of the author's.
    Kern {
        width: Sp,
    },
    /// Stretchable space.
    Glue {
        glue: Glue,
    },
    /// A penalty for a break.
    Penalty {
        value: i32,
    },
    /// A place at which a line may end, and what stands there before the break, after it, and where
    /// there is none.
    Disc {
        lists: Disc<Sub>,
    },
    /// An empty box of a width: the indent of a paragraph.
    Box {
        width: Sp,
    },
}

/// A horizontal list.
#[derive(Drop)]
pub struct HList {
    pub items: Items<Item>,
}

const _: () = prove!(size_of::<Item>() <= 40);

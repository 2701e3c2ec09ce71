//! What is on a page: glyphs at places, in lines, on baselines.
//!
//! Lengths and places are in scaled points. A place on the line counts from its left edge to the
//! right, a baseline from the page's top downwards.
use crate::cell::Cell;
use items::Items;
use micro_num::Sp;

/// A glyph at its place on the line: `x` is its left edge, and `advance` its width, which may be
/// negative.
#[derive(Clone, Copy, Debug, PartialEq, Eq)]
pub struct Placed {
    pub x: Sp,
    pub cell: Cell,
    pub code: u8,
    pub advance: Sp,
}

/// A set line: its glyphs in reading order, and its size.
#[derive(Drop)]
pub struct Packed {
    pub glyphs: Items<Placed>,
    pub height: Sp,
    pub depth: Sp,
    pub width: Sp,
}

/// A set line on its baseline.
#[derive(Drop)]
pub struct PageLine {
    pub baseline: Sp,
    pub line: Packed,
}

/// A page: its lines from top to bottom. The extent is its height plus its depth, and the width
/// that of its widest line.
#[derive(Drop)]
pub struct Page {
    pub lines: Items<PageLine>,
    pub extent: Sp,
    pub width: Sp,
}

/// Which worker built the instance of a cell.
#[derive(Clone, Copy, Debug, PartialEq, Eq)]
pub struct Owner {
    pub cell: Cell,
    pub worker: u32,
}

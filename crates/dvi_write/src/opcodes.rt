//! The commands of a DVI file by their numbers (The DVI format: TeX: The Program, part 31). A name
//! that ends in a digit is that of a command which carries a number of so many bytes.

/// Sets the character of a code of one byte. A code below 128 is a command of its own.
pub const SET1: u8 = 128;
/// Does nothing.
pub const NOP: u8 = 138;
/// Begins a page.
pub const BOP: u8 = 139;
/// Ends a page.
pub const EOP: u8 = 140;
/// Keeps the place on the page.
pub const PUSH: u8 = 141;
/// Takes back the place that was kept last.
pub const POP: u8 = 142;
/// Moves right.
pub const RIGHT1: u8 = 143;

pub const RIGHT2: u8 = 144;

pub const RIGHT3: u8 = 145;

pub const RIGHT4: u8 = 146;
/// Moves down.
pub const DOWN1: u8 = 157;

pub const DOWN2: u8 = 158;

pub const DOWN3: u8 = 159;

pub const DOWN4: u8 = 160;
/// Selects font 0. The 63 commands after it select the fonts up to 63.
pub const FNT_NUM_0: u8 = 171;
/// Selects a font.
pub const FNT1: u8 = 235;

pub const FNT2: u8 = 236;
/// Defines a font.
pub const FNT_DEF1: u8 = 243;

pub const FNT_DEF2: u8 = 244;
/// Begins the file.
pub const PRE: u8 = 247;
/// Begins what stands behind the pages.
pub const POST: u8 = 248;
/// Ends the file.
pub const POST_POST: u8 = 249;

/// The format of a file.
pub const FORMAT: u8 = 2;
/// What fills a file up behind its end.
pub const FILLING: u8 = 223;

//! A whole DVI file: what stands before the pages and after them.
ghost use Rattle.std.specs.Prelude.{◌≡◌, ◌++◌, ◌≤◌, ◌<◌, ◌^◌, length, OnOk, IfOk, IfErr, All, min};
ghost use Rattle.byteorder.specs.Endian.{big_bytes};
ghost use Rattle.renumber.specs.Uses.{first_uses, cells_of_pages};
ghost use Rattle.dvi_write.specs.Commands.{numbers, spell_all, summary};
ghost use Rattle.dvi_write.specs.Document.{dvi, definitions_from, greatest_extent, greatest_width};
ghost use Rattle.dvi_write.specs.Document.{start, unit};
ghost use Rattle.dvi_write.specs.Output.{grown};
ghost use Rattle.dvi_write.specs.Writable.{IsDefinable, IsPuttable, IsWritable, IsTooLong};
ghost use Rattle.dvi_write.specs.Writing.{file_bytes, post_bytes, end_bytes};

use crate::commands::{put_number, put_place, put_pointer, put_signed};
use crate::fault::DviFault;
use crate::fonts::put_definition;
use crate::opcodes::{FILLING, FORMAT, POST, POST_POST, PRE};
use crate::output::Output;
use crate::page::put_pages;
use crate::row::FontRow;
use byteorder::{BigEndian, ByteOrder};
use instance_core::{Cell, Page};
use micro_num::{NoMemory, Sp};
use renumber::Numbering;
use std::alloc::Global;

/// Puts DVI's unit, the scaled point, and its magnification, none.
#[tactic(auto, using(crate::proofs::Grown::grown_twice))]
fn put_unit(out: &mut Output) -> Result<(), NoMemory>
    ensures { OnOk result (out.new ≡ grown out.old (numbers unit)) }
{
    put_number(out, 25_400_000)?;
    put_number(out, 473_628_672)?;
    put_number(out, 1000)
}

/// Puts the preamble.
#[tactic(auto, using(crate::proofs::Grown::grown_twice), unfolding(crate::specs::Commands::spell, crate::specs::Commands::spell_all))]
fn put_preamble(out: &mut Output) -> Result<(), NoMemory>
    ensures { OnOk result (out.new ≡ grown out.old (spell_all start)) }
{
    out.put(&[PRE, FORMAT])?;
    put_unit(out)?;
    out.put(&[16])?;
    out.put(b" pdfmicro output")
}

/// The greatest extent of the pages, at least 0.
fn greatest_extent(pages: &[Page]) -> Sp
    ensures { result ≡ greatest_extent pages.now }
{
    let mut greatest = 0;
    for page in pages {
        greatest = greatest.max(page.extent);
    }
    greatest
}

/// The greatest width of the pages, at least 0.
fn greatest_width(pages: &[Page]) -> Sp
    ensures { result ≡ greatest_width pages.now }
{
    let mut greatest = 0;
    for page in pages {
        greatest = greatest.max(page.width);
    }
    greatest
}

/// Puts the definitions of the fonts, the highest number first.
#[tactic(auto, using(crate::proofs::Grown::grown_nothing))]
fn put_definitions(out: &mut Output, rows: &[FontRow], cells: &[Cell]) -> Result<(), NoMemory>
    requires few { length cells.now ≤ 65536 }
    requires definable { All (IsDefinable rows.now) cells.now }
    ensures { OnOk result (out.new
        ≡ grown out.old (spell_all (definitions_from rows.now 0 cells.now))) }
{
    for number in (0..cells.len()).rev() {
        put_definition(out, rows, number as u32, cells[number])?;
    }
    Ok(())
}

/// Puts two counts of the file: how deep its stack grows, which a page does once, and its pages.
fn put_counts(out: &mut Output, pages: usize) -> Result<(), NoMemory>
    requires { pages ≤ 65535 }
    ensures { OnOk result (out.new
        ≡ grown out.old (big_bytes 2 (min pages 1) ++ big_bytes 2 pages)) }
{
    let mut bytes = [0; 4];
    BigEndian::write_u16(&mut bytes, pages.min(1) as u16);
    BigEndian::write_u16(&mut bytes[2..], pages as u16);
    out.put(&bytes)
}

/// Puts the postamble up to the definitions: the place of the last page, and the greatest sizes.
#[tactic(auto, using(crate::proofs::Grown::grown_twice, std::proofs::Common::append_assoc), unfolding(crate::specs::Writing::post_bytes, crate::specs::Commands::spell))]
fn put_post(out: &mut Output, last: Option<u64>, pages: &[Page]) -> Result<(), NoMemory>
    requires { length pages.now ≤ 65535 }
    ensures { OnOk result (out.new ≡ grown out.old (post_bytes last pages.now)) }
{
    out.put(&[POST])?;
    put_pointer(out, last)?;
    put_unit(out)?;
    put_signed(out, greatest_extent(pages))?;
    put_signed(out, greatest_width(pages))?;
    put_counts(out, pages.len())
}

/// Puts the end of the file: the place of the postamble, and four to seven bytes that fill it up.
#[tactic(auto, using(crate::proofs::Grown::grown_twice, std::proofs::Common::append_assoc), unfolding(crate::specs::Writing::end_bytes, crate::specs::Commands::spell))]
fn put_end(out: &mut Output, post: u64) -> Result<(), NoMemory>
    ensures { OnOk result (out.new ≡ grown out.old (end_bytes post out.old.length)) }
{
    let count = 7 - (out.length() % 4 + 9) % 4;
    out.put(&[POST_POST])?;
    put_place(out, post)?;
    out.put(&[FORMAT])?;
    let filling = [FILLING; 7];
    out.put(&filling[..count as usize])
}

/// Puts a whole file.
#[tactic(auto, using(crate::proofs::Grown::grown_twice), unfolding(crate::specs::Writing::file_bytes, crate::specs::Writing::unfilled_bytes, crate::specs::Writing::paged_bytes))]
fn put_file(
    out: &mut Output,
    pages: &[Page],
    rows: &[FontRow],
    numbering: &Numbering,
) -> Result<(), NoMemory>
    requires empty { out.old.length ≡ 0 }
    requires few { length pages.now ≤ 65535 }
    requires puttable { All (IsPuttable rows.now numbering.now) pages.now }
    requires definable { All (IsDefinable rows.now) numbering.now }
    ensures { OnOk result (out.new ≡ grown out.old (file_bytes rows.now numbering.now pages.now)) }
{
    put_preamble(out)?;
    let last = put_pages(out, rows, numbering, pages)?;
    let post = out.length();
    put_post(out, last, pages)?;
    put_definitions(out, rows, numbering.cells())?;
    put_end(out, post)
}

/// The bytes of a DVI file, format 2, of the pages in order (The DVI format: TeX: The Program, part
/// 31). A font's number is the place of its cell among the first uses of the pages. The rows are
/// what the file says of each font, by the font's number in the order of declaration.
///
/// The numbering is that of these pages. There are at most 65,535 pages; baselines and both edges
/// of each glyph are within 2^30 - 1 scaled points of the page's corner; the font of each glyph has
/// a row, and the name of its instance at most 255 bytes. The limit is below 2^31, so that each
/// place in a file that is written has four bytes.
///
/// A file of more than `limit` bytes is refused as [`DviFault::TooLong`] with how many it would
/// have, and for no other cause; that takes no memory. Besides, there is [`DviFault::NoMemory`].
pub fn dvi_bytes(
    alloc: Global,
    pages: &[Page],
    fonts: &[FontRow],
    numbering: &Numbering,
    limit: u64,
) -> Result<Vec<u8>, DviFault>
    requires small { limit < 2 ^ 31 }
    requires few { length pages.now ≤ 65535 }
    requires writable { All (IsWritable fonts.now) pages.now }
    requires numbered { numbering.now ≡ first_uses (cells_of_pages pages.now) }
    ensures bytes { IfOk result (λ bytes. bytes.items ≡ dvi fonts.now pages.now) }
    ensures within { OnOk result (length (dvi fonts.now pages.now) ≤ limit) }
    ensures long { IfErr result (IsTooLong (length (dvi fonts.now pages.now)) limit) }
{
    let bytes = file_length(alloc, pages, fonts, numbering)?;
    if bytes > limit {
        return Err(DviFault::TooLong { bytes });
    }
    let bytes = written_file(alloc, pages, fonts, numbering, bytes as usize)?;
    Ok(bytes)
}

/// Puts the file of pages.
fn put_document(
    out: &mut Output,
    pages: &[Page],
    rows: &[FontRow],
    numbering: &Numbering,
) -> Result<(), NoMemory>
    requires empty { out.old.length ≡ 0 }
    requires few { length pages.now ≤ 65535 }
    requires writable { All (IsWritable rows.now) pages.now }
    requires numbered { numbering.now ≡ first_uses (cells_of_pages pages.now) }
    ensures { OnOk result (out.new ≡ grown out.old (dvi rows.now pages.now)) }
{
    put_file(out, pages, rows, numbering)
}

/// How many bytes a file has.
#[tactic(auto, unfolding(crate::specs::Output::grown))]
fn file_length(
    alloc: Global,
    pages: &[Page],
    fonts: &[FontRow],
    numbering: &Numbering,
) -> Result<u64, NoMemory>
    requires few { length pages.now ≤ 65535 }
    requires writable { All (IsWritable fonts.now) pages.now }
    requires numbered { numbering.now ≡ first_uses (cells_of_pages pages.now) }
    ensures { IfOk result (λ count. count ≡ length (dvi fonts.now pages.now)) }
{
    let mut out = Output::counting(alloc);
    put_document(&mut out, pages, fonts, numbering)?;
    Ok(out.length())
}

/// The bytes of a file, with room for so many.
#[tactic(auto, unfolding(crate::specs::Output::grown))]
fn written_file(
    alloc: Global,
    pages: &[Page],
    fonts: &[FontRow],
    numbering: &Numbering,
    room: usize,
) -> Result<Vec<u8>, NoMemory>
    requires few { length pages.now ≤ 65535 }
    requires writable { All (IsWritable fonts.now) pages.now }
    requires numbered { numbering.now ≡ first_uses (cells_of_pages pages.now) }
    ensures { IfOk result (λ bytes. bytes.items ≡ dvi fonts.now pages.now) }
{
    let mut out = Output::keeping(alloc, room)?;
    put_document(&mut out, pages, fonts, numbering)?;
    Ok(out.into_bytes())
}

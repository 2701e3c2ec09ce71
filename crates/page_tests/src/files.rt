//! Files of pages of one line of three letters, worked out by hand from the description of the DVI
//! format.
ghost use Rattle.std.specs.Prelude.{◌≡◌, ◌^◌, ◌<◌, ◌≤◌, IfOk, pos, replicate};
ghost use Rattle.dvi_write.specs.Worked.{letter, three_letters, tiny10};

use dvi_write::{DviFault, FontRow, dvi_bytes};
use instance_core::{Cell, Packed, Page, PageLine, Placed};
use items::{Items, Text};
use micro_num::{NoMemory, Sp};
use renumber::Numbering;
use std::alloc::Global;
use std::test::Fail;

/// The file of one page: the preamble, the page in six lines, the postamble in three.
const ONE_PAGE: &str = "f702018392c01c3b0000000003e81020\
    7064666d6963726f206f7574707574\
    8b00000001\
    000000000000000000000000000000000000000000000000000000000000000000000000ffffffff\
    9f0500008d\
    f30000000000000a0000000a0000000674696e793130\
    ab6162638e8c\
    f80000001f018392c01c3b0000000003e8000500000064000000010001\
    f30000000000000a0000000a0000000674696e793130\
    f90000006d02dfdfdfdfdfdf";

/// The file of no page.
const NO_PAGE: &str = "f702018392c01c3b0000000003e81020\
    7064666d6963726f206f7574707574\
    f8ffffffff018392c01c3b0000000003e8000000000000000000000000\
    f90000001f02dfdfdfdfdfdf";

fn letter(x: u32, code: u8) -> Placed
    requires { x < 2 ^ 31 }
    ensures { result ≡ letter x code }
{
    Placed {
        x: x as Sp,
        cell: Cell { font: 0, step: 0 },
        code,
        advance: 327_680,
    }
}

/// A page of one line of three letters, each half a font size wide.
fn three_letters(alloc: Global) -> Result<Page, NoMemory>
    ensures { IfOk result (λ page. page ≡ three_letters) }
{
    let glyphs = [letter(0, 97), letter(327_680, 98), letter(655_360, 99)];
    let line = Packed {
        glyphs: Items::from_slice(alloc, &glyphs)?,
        height: 327_680,
        depth: 0,
        width: 6_553_600,
    };
    let mut lines = Items::new(alloc);
    lines.push(PageLine {
        baseline: 327_680,
        line,
    })?;
    Ok(Page {
        lines,
        extent: 327_680,
        width: 6_553_600,
    })
}

/// What a file says of the font of the letters.
pub(crate) fn tiny10(alloc: Global) -> Result<FontRow, NoMemory>
    ensures { IfOk result (λ row. row ≡ tiny10) }
{
    Ok(FontRow {
        name: Text::from_str(alloc, "tiny10")?,
        checksum: 0,
        size: 655_360,
        design: 655_360,
    })
}

fn copies(alloc: Global, count: usize) -> Result<Vec<Page>, NoMemory>
    ensures { IfOk result (λ pages. pages.items ≡ replicate count three_letters) }
{
    let mut pages = Vec::new(alloc);
    for _page in 0..count {
        pages.push(three_letters(alloc)?)?;
    }
    Ok(pages)
}

/// The file of so many pages, each of which is that of three letters.
fn file_of(alloc: Global, count: usize, limit: u64) -> Result<Vec<u8>, DviFault>
    requires few { count ≤ 1000 }
    requires limit { limit < 2 ^ 31 }
{
    let rows = [tiny10(alloc)?];
    let pages = copies(alloc, count)?;
    let numbering = Numbering::make(alloc, &pages)?;
    dvi_bytes(alloc, &pages, &rows, &numbering, limit)
}

/// Bytes in hexadecimal digits.
pub(crate) fn in_hexadecimal(alloc: Global, bytes: &[u8]) -> Result<String, NoMemory> {
    let mut text = String::new(alloc);
    for byte in bytes {
        let digits = format!(in alloc; "{byte:02x}")?;
        text.push_str(digits.as_str())?;
    }
    Ok(text)
}

#[test]
fn files_of_no_page_and_of_one(rt: HostRuntime) -> Result<(), Fail> {
    for (count, length, want) in [(0, 72, NO_PAGE), (1, 172, ONE_PAGE)] {
        let bytes = file_of(rt.alloc(), count, 172)?;
        let text = in_hexadecimal(rt.alloc(), bytes.as_slice())?;
        assert_eq!(rt; text.as_str(), want, "{count} pages");
        assert_eq!(rt; bytes.len(), length, "{count} pages");
    }
    Ok(())
}

#[test]
fn a_file_has_at_most_as_many_bytes_as_the_limit(rt: HostRuntime) -> Result<(), Fail> {
    for (count, length) in [(0, 72), (1, 172), (400, 22_516)] {
        let bytes = file_of(rt.alloc(), count, length)?;
        assert_eq!(rt; bytes.len() as u64, length, "{count} pages");
        let refused = file_of(rt.alloc(), count, length - 1);
        let fault = DviFault::TooLong { bytes: length };
        assert_eq!(rt; refused.err(), Some(fault), "{count} pages");
    }
    Ok(())
}

//! The bytes of a job's DVI file.
ghost use Rattle.std.specs.Prelude.{◌≡◌, ◌≤◌, ◌<◌, ◌^◌, All, IfErr, IfOk, OnOk, length};
ghost use Rattle.dvi_write.specs.Document.{dvi};
ghost use Rattle.dvi_write.specs.Writable.{IsTooLong};
ghost use Rattle.job_text.specs.Fits.{IsFileName};
ghost use Rattle.job_text.specs.declared.font_decl.FontDecl.{FontDecl};
ghost use Rattle.para_workers.specs.Fitting.{IsPageOver};
ghost use Rattle.renumber.specs.Uses.{cells_of_pages, first_uses};
ghost use Rattle.job_dvi.specs.Rows.{rows_of};

use crate::rows::rows;
use crate::written::Written;
use dvi_write::{DviFault, dvi_bytes};
use font_stock::Stock;
use instance_core::Page;
use items::Items;
use job_text::FontDecl;
use renumber::Numbering;
use std::alloc::Global;

/// The greatest length of a file, so that each place in it has four bytes that hold its sign.
const MOST_BYTES: u64 = 2_147_483_647;

/// The DVI file of pages that were set with the fonts of a stock, which are those declared, in
/// order, and the numbering of the file's fonts. There are at most 65,535 pages.
///
/// A file of 2^31 bytes or more is refused as [`DviFault::TooLong`] with how many it would have,
/// and for no other cause. Besides, there is [`DviFault::NoMemory`].
pub fn job_bytes(
    alloc: Global,
    fonts: &[FontDecl],
    stock: &Stock,
    pages: &[Page],
) -> Result<Written, DviFault>
    requires same { length fonts.now ≡ length stock.now }
    requires names { All (λ (decl : FontDecl). IsFileName decl.name) fonts.now }
    requires few { length pages.now ≤ 65535 }
    requires over { All (IsPageOver stock.now) pages.now }
    ensures bytes { let rows = rows_of fonts.now stock.now in
        IfOk result (λ written. written.bytes ≡ dvi rows pages.now) }
    ensures numbered { IfOk result (λ written.
        written.numbering ≡ first_uses (cells_of_pages pages.now)) }
    ensures within { let rows = rows_of fonts.now stock.now in
        OnOk result (length (dvi rows pages.now) < 2 ^ 31) }
    ensures long { let rows = rows_of fonts.now stock.now in
        IfErr result (IsTooLong (length (dvi rows pages.now)) 2147483647) }
{
    let rows = rows(alloc, fonts, stock)?;
    let numbering = Numbering::make(alloc, pages)?;
    let bytes = dvi_bytes(alloc, pages, rows.as_slice(), &numbering, MOST_BYTES)?;
    Ok(Written {
        bytes: Items::from_vec(bytes),
        numbering,
    })
}

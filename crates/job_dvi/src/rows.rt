//! What a DVI file says of the fonts of a job.
ghost use Rattle.std.specs.Prelude.{◌≡◌, ◌≤◌, All, IfOk, length};
ghost use Rattle.job_text.specs.Fits.{IsFileName};
ghost use Rattle.job_text.specs.declared.font_decl.FontDecl.{FontDecl};
ghost use Rattle.job_dvi.specs.Rows.{row_with, rows_of};

use dvi_write::FontRow;
use font_stock::{Font, Stock};
use items::{Items, Text};
use job_text::FontDecl;
use micro_num::NoMemory;
use std::alloc::{AllocError, Global};

/// The rows of all fonts, in the order of declaration.
pub(crate) fn rows(
    alloc: Global,
    fonts: &[FontDecl],
    stock: &Stock,
) -> Result<Items<FontRow>, NoMemory>
    requires same { length fonts.now ≡ length stock.now }
    requires names { All (λ (decl : FontDecl). IsFileName decl.name) fonts.now }
    ensures exact { IfOk result (λ rows. rows ≡ rows_of fonts.now stock.now) }
    ensures few { length stock.now ≤ 32 }
{
    let count = stock.count();
    let mut rows = Items::from_vec(Vec::with_capacity(alloc, count as usize)?);
    for number in 0..count {
        rows.push(row(alloc, &fonts[number as usize], stock.font(number))?)?;
    }
    Ok(rows)
}

/// The row of a font.
fn row(alloc: Global, decl: &FontDecl, font: &Font) -> Result<FontRow, AllocError>
    requires { IsFileName decl.now.name }
    ensures { IfOk result (λ row. row ≡ row_with decl.now font.now) }
{
    let name = name_text(alloc, decl.name.as_slice())?;
    let tfm = font.tfm();
    Ok(FontRow {
        name,
        checksum: tfm.checksum,
        size: font.size(),
        design: tfm.design,
    })
}

/// A font's name as a text.
fn name_text(alloc: Global, name: &[u8]) -> Result<Text, AllocError>
    requires { IsFileName name.now }
    ensures { IfOk result (λ text. text ≡ name.now) }
{
    let text = String::from_utf8_lossy(alloc, name)?;
    Ok(Text::from_string(text))
}

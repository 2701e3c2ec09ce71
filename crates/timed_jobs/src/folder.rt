//! The files of the current folder: a job and its fonts.
ghost use Rattle.std.specs.Prelude.{All};
ghost use Rattle.font_stock.specs.Sizes.{IsSize};

use font_stock::{Font, Stock};
use job_text::FontDecl;
use std::alloc::Global;
use std::fs::File;
use std::io;
use std::io::Read;
use std::rt::Files;
use tfm_read::read_tfm;

/// The bytes of a file in the current folder.
pub fn file_bytes<R: Files>(rt: &R, alloc: Global, name: &str) -> io::Result<Vec<u8>> {
    let mut file = File::open(rt, name)?;
    let mut bytes = Vec::new(alloc);
    file.read_to_end(&mut bytes)?;
    Ok(bytes)
}

/// The fonts of a job, where each can be had.
pub fn stock_of<R: Files>(rt: &R, alloc: Global, decls: Vec<FontDecl>) -> io::Result<Option<Stock>>
    requires { All (λ font. IsSize font.size) decls.items }
{
    let mut fonts = Vec::new(alloc);
    for decl in decls {
        match font_of(rt, alloc, decl)? {
            Some(font) => fonts.push(font)?,
            None => return Ok(None),
        }
    }
    if fonts.len() > 32 {
        return Ok(None);
    }
    Ok(Some(Stock::make(fonts)))
}

/// A font that a job declares, where it can be had.
fn font_of<R: Files>(rt: &R, alloc: Global, decl: FontDecl) -> io::Result<Option<Font>>
    requires { IsSize decl.size }
{
    let FontDecl {
        name,
        size,
        codes,
        expand,
    } = decl;
    let Ok(name) = String::from_utf8(name.into_vec()) else {
        return Ok(None);
    };
    let path = format!(in alloc; "{name}.tfm")?;
    let bytes = file_bytes(rt, alloc, path.as_str())?;
    let Ok(tfm) = read_tfm(alloc, &bytes) else {
        return Ok(None);
    };
    let Ok(font) = Font::at(alloc, tfm, size, codes, expand) else {
        return Ok(None);
    };
    Ok(Some(font))
}

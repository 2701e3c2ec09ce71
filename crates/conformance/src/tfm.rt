//! The metrics of a font, or the first check that its file fails.

use std::alloc::{AllocError, Global};
use std::fs::File;
use std::io;
use std::io::Read;
use std::rt::Files;
use tfm_read::{Tfm, TfmFault, read_tfm};

/// The bytes of a font's file in the current folder.
pub fn font_bytes<R: Files>(rt: &R, alloc: Global, name: &str) -> io::Result<Vec<u8>> {
    let path = format!(in alloc; "{name}.tfm")?;
    let mut file = File::open(rt, path.as_str())?;
    let mut bytes = Vec::new(alloc);
    file.read_to_end(&mut bytes)?;
    Ok(bytes)
}

/// The font of a name, or None where its file is absent or fails a check.
pub fn font_of<R: Files>(rt: &R, alloc: Global, name: &str) -> Result<Option<Tfm>, AllocError> {
    let Ok(bytes) = font_bytes(rt, alloc, name) else {
        return Ok(None);
    };
    match read_tfm(alloc, &bytes) {
        Ok(tfm) => Ok(Some(tfm)),
        Err(TfmFault::NoMemory) => Err(AllocError),
        Err(TfmFault::At { .. }) => Ok(None),
    }
}

/// A number, or `none`.
fn optional_text(alloc: Global, number: Option<u16>) -> Result<String, AllocError> {
    match number {
        Some(number) => format!(in alloc; "{number}"),
        None => String::from_str(alloc, "none"),
    }
}

/// The sum of the widths of the characters that exist.
fn width_sum(font: &Tfm) -> i64 {
    let mut sum: i64 = 0;
    for info in font.chars.as_slice() {
        sum = sum.wrapping_add(i64::from(info.width));
    }
    sum
}

/// Checksum, design size, counts of characters, ligature words and kerns, boundaries, sum of widths
/// and parameters.
fn font_text(alloc: Global, font: &Tfm) -> Result<String, AllocError> {
    let characters = font
        .chars
        .as_slice()
        .iter()
        .filter(|info| info.exists)
        .count();
    let checksum = font.checksum;
    let design = font.design;
    let ligs = font.ligs.len();
    let kerns = font.kerns.len();
    let right = optional_text(alloc, font.right.map(u16::from))?;
    let left = optional_text(alloc, font.left)?;
    let sum = width_sum(font);
    let mut text = format!(in alloc;
        "ok {checksum} {design} {characters} {ligs} {kerns} {right} {left} {sum}"
    )?;
    for param in &font.params {
        text.push_str(format!(in alloc; " {param}")?.as_str())?;
    }
    Ok(text)
}

/// The metrics of the font of a name or its fault, or None where it has no file.
pub fn answer<R: Files>(rt: &R, alloc: Global, name: &str) -> Result<Option<String>, AllocError> {
    let Ok(bytes) = font_bytes(rt, alloc, name) else {
        return Ok(None);
    };
    match read_tfm(alloc, &bytes) {
        Ok(font) => Ok(Some(font_text(alloc, &font)?)),
        Err(TfmFault::NoMemory) => Err(AllocError),
        Err(TfmFault::At { kind, word }) => {
            let number = kind.number();
            Ok(Some(format!(in alloc; "fault {number} {word}")?))
        }
    }
}

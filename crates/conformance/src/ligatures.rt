//! The cases of runs by a font's ligature and kern programs.
use crate::bytes::bytes_of;
use crate::tfm::font_of;
use lig_kern::{Glyph, LigFault, run};
use std::alloc::{AllocError, Global};
use std::rt::Files;

/// Whether a boundary is asked for.
fn flag(text: &str) -> Option<bool> {
    match text {
        "0" => Some(false),
        "1" => Some(true),
        _ => None,
    }
}

fn glyph_text(alloc: Global, glyph: Glyph) -> Result<String, AllocError> {
    match glyph {
        Glyph::Char { code, at } => format!(in alloc; "C{code}@{at}"),
        Glyph::Lig { code, from, to } => format!(in alloc; "L{code}@{from}-{to}"),
        Glyph::Kern { fix } => format!(in alloc; "K{fix}"),
    }
}

fn run_text(alloc: Global, glyphs: &[Glyph]) -> Result<String, AllocError> {
    if glyphs.is_empty() {
        return String::from_str(alloc, "nothing");
    }
    let mut text = String::new(alloc);
    for glyph in glyphs {
        if !text.is_empty() {
            text.push(' ')?;
        }
        text.push_str(glyph_text(alloc, *glyph)?.as_str())?;
    }
    Ok(text)
}

/// The glyphs of a run, as `lig10 1 0 666669`, or None where it is out of form or its font is none.
pub fn answer<R: Files>(rt: &R, alloc: Global, line: &str) -> Result<Option<String>, AllocError> {
    let Some((name, rest)) = line.split_once(' ') else {
        return Ok(None);
    };
    let Some((left, rest)) = rest.split_once(' ') else {
        return Ok(None);
    };
    let Some((right, codes_text)) = rest.split_once(' ') else {
        return Ok(None);
    };
    let (Some(left), Some(right)) = (flag(left), flag(right)) else {
        return Ok(None);
    };
    let Some(codes) = bytes_of(alloc, codes_text)? else {
        return Ok(None);
    };
    let Some(tfm) = font_of(rt, alloc, name)? else {
        return Ok(None);
    };
    if codes.len() >= 1 << 20 {
        return Ok(None);
    }
    match run(alloc, &tfm, codes.as_slice(), left, right) {
        Ok(glyphs) => Ok(Some(run_text(alloc, glyphs.as_slice())?)),
        Err(LigFault::Missing { index }) => Ok(Some(format!(in alloc; "missing {index}")?)),
        Err(LigFault::TooManySteps) => Ok(Some(String::from_str(alloc, "too-many-steps")?)),
        Err(LigFault::NoMemory) => Err(AllocError),
    }
}

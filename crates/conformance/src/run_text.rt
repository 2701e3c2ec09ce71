//! What a run answered, printed: its status and its answer, and on `Done` the bytes that it wrote
//! and the cells that were built.
use hlist_build::ParFault;
use instance_core::Owner;
use para_workers::ParAt;
use pdfmicro_run::{Answer, RunEnd};
use std::alloc::{AllocError, Global};

/// The greatest number of bytes that are printed one by one.
const MOST_BYTES: usize = 1500;

/// The modulus of the two sums of Adler-32 (RFC 1950, section 8.2).
const MODULUS: u32 = 65521;

/// The Adler-32 checksum of bytes.
fn adler(bytes: &[u8]) -> u32 {
    let mut low = 1u32;
    let mut high = 0u32;
    for byte in bytes {
        low = low.wrapping_add(*byte as u32) % MODULUS;
        high = high.wrapping_add(low) % MODULUS;
    }
    high.wrapping_mul(65536).wrapping_add(low)
}

/// Bytes in hexadecimal, or their checksum where there are more than 1,500.
fn bytes_text(alloc: Global, bytes: &[u8]) -> Result<String, AllocError> {
    if bytes.len() > MOST_BYTES {
        let sum = adler(bytes);
        return format!(in alloc; "adler:{sum:08x}");
    }
    let mut text = String::from_str(alloc, "hex:")?;
    for byte in bytes {
        write!(text, "{byte:02x}")?;
    }
    Ok(text)
}

/// The instances that a run built.
fn owners_of(end: &RunEnd) -> &[Owner] {
    match &end.closed {
        Some(closed) => closed.owners(),
        None => &[],
    }
}

/// The cells that were built, in cell order.
fn owners_text(alloc: Global, owners: &[Owner]) -> Result<String, AllocError> {
    let mut text = String::from_str(alloc, "owners")?;
    if owners.is_empty() {
        text.push_str(" none")?;
    }
    for owner in owners {
        let font = owner.cell.font;
        let step = owner.cell.step;
        write!(text, " {font}/{step}")?;
    }
    Ok(text)
}

/// A paragraph's fault.
fn par_text(alloc: Global, at: ParAt) -> Result<String, AllocError> {
    let number = at.paragraph;
    match at.fault {
        ParFault::MissingChar { offset } => {
            format!(in alloc; "1 Par paragraph {number} MissingChar offset {offset}")
        }
        ParFault::LigTooLong { offset } => {
            format!(in alloc; "1 Par paragraph {number} LigTooLong offset {offset}")
        }
        ParFault::TooManyItems => format!(in alloc; "1 Par paragraph {number} TooManyItems"),
        ParFault::MixedExpansion { font } => {
            format!(in alloc; "1 Par paragraph {number} MixedExpansion font {font}")
        }
        ParFault::OutOfRange { line } => {
            format!(in alloc; "1 Par paragraph {number} OutOfRange line {line}")
        }
        ParFault::NoMemory => Err(AllocError),
    }
}

/// What a run ended with that wrote these bytes. None where it ended as no case does.
pub fn run_text(alloc: Global, end: &RunEnd, written: &[u8]) -> Result<Option<String>, AllocError> {
    let status = end.status;
    let text = match end.answer {
        Answer::Done => {
            let count = written.len();
            let bytes = bytes_text(alloc, written)?;
            let owners = owners_text(alloc, owners_of(end))?;
            format!(in alloc; "{status} Done {count} {bytes} {owners}")?
        }
        Answer::Job { offset, kind } => {
            let kind = kind.number();
            format!(in alloc; "{status} Job offset {offset} kind {kind}")?
        }
        Answer::Font { font, kind, word } => {
            let kind = kind.number();
            format!(in alloc; "{status} Font font {font} kind {kind} word {word}")?
        }
        Answer::Absent { file } => format!(in alloc; "{status} Absent file {file}")?,
        Answer::Par { at } => par_text(alloc, at)?,
        Answer::NoMemory => return Err(AllocError),
        _ => return Ok(None),
    };
    Ok(Some(text))
}

//! Bytes in hexadecimal, as the cases spell them.
use hex::FromHexError;
use std::alloc::{AllocError, Global};

/// The bytes that a text spells in hexadecimal, `-` for none; None where it spells none.
pub fn bytes_of(alloc: Global, text: &str) -> Result<Option<Vec<u8>>, AllocError> {
    let digits = if text == "-" { "" } else { text };
    match hex::decode(alloc, digits) {
        Ok(bytes) => Ok(Some(bytes)),
        Err(FromHexError::OutOfMemory) => Err(AllocError),
        Err(_) => Ok(None),
    }
}

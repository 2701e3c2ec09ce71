//! Fonts of tests, made from their descriptions by their words (TFM description).
#![tactic(auto)]

use std::alloc::{AllocError, Global};

/// The words of a file as its bytes.
pub fn bytes_of(alloc: Global, words: &[u32]) -> Result<Vec<u8>, AllocError> {
    let mut bytes = Vec::new(alloc);
    for word in words {
        bytes.extend_from_slice(&word.to_be_bytes())?;
    }
    Ok(bytes)
}

/// The bytes with some words in place of those that stand there.
pub fn with_words(
    alloc: Global,
    bytes: &[u8],
    edits: &[(usize, u32)],
) -> Result<Vec<u8>, AllocError> {
    let mut edited = Vec::new(alloc);
    for (i, byte) in bytes.iter().enumerate() {
        let mut new = *byte;
        for (place, word) in edits {
            if i / 4 == *place {
                new = word.to_be_bytes()[i % 4];
            }
        }
        edited.push(new)?;
    }
    Ok(edited)
}

/// Half a design size, as a fix_word.
pub const HALF: u32 = 524288;

/// The seven parameters of the test fonts.
const PARAMS: [u32; 7] = [0, 262144, 131072, 65536, 524288, 1048576, 0];

/// A font of the codes 33 to 126 and a design size of 10pt, each character of this width and half
/// the size high, with these ligature words and kerns, the program of a code being at the first of
/// the words.
fn printed_font(
    alloc: Global,
    width: u32,
    programmed: u32,
    ligatures: &[u32],
    kerns: &[u32],
) -> Result<Vec<u8>, AllocError> {
    let steps = (ligatures.len() % 100) as u32;
    let kept = (kerns.len() % 100) as u32;
    let mut words = vec![in alloc;
        (115 + steps + kept) << 16 | 2,
        33 << 16 | 126,
        2 << 16 | 2,
        1 << 16 | 1,
        steps << 16 | kept,
        7,
        0,
        10485760,
    ]?;
    for code in 33..127 {
        words.push(if code == programmed {
            0x01100100
        } else {
            0x01100000
        })?;
    }
    words.extend_from_slice(&[0, width, 0, HALF, 0, 0])?;
    words.extend_from_slice(ligatures)?;
    words.extend_from_slice(kerns)?;
    words.extend_from_slice(&PARAMS)?;
    bytes_of(alloc, words.as_slice())
}

/// A font with no ligatures or kerns, whose characters are half a design size wide.
pub fn tiny10(alloc: Global) -> Result<Vec<u8>, AllocError> {
    printed_font(alloc, HALF, 0, &[], &[])
}

/// The same with characters of this width, and one kern.
pub fn kerned10(alloc: Global, width: u32, kern: u32) -> Result<Vec<u8>, AllocError> {
    printed_font(alloc, width, 0, &[], &[kern])
}

/// The font `tiny10` with one ligature word that no program reaches, a `!` between two `!`.
pub fn ligature10(alloc: Global) -> Result<Vec<u8>, AllocError> {
    printed_font(alloc, HALF, 0, &[0x80210021], &[])
}

/// The same with a program of x that never ends.
pub fn loop10(alloc: Global) -> Result<Vec<u8>, AllocError> {
    printed_font(alloc, HALF, 120, &[0x80780278], &[])
}

/// The char_info word of a code of `lig10`.
fn lig10_char(code: u32) -> u32 {
    match code {
        13 | 15..=32 => 0,
        102 => 0x01100101,
        11 => 0x01100103,
        111 => 0x01100104,
        114 => 0x01100106,
        _ => 0x01100000,
    }
}

/// The same font with the codes 11, 12 and 14, ligatures of f and i, a kern, and both boundaries.
pub fn lig10(alloc: Global) -> Result<Vec<u8>, AllocError> {
    let mut words = vec![in alloc;
        146 << 16 | 2,
        11 << 16 | 126,
        2 << 16 | 2,
        1 << 16 | 1,
        8 << 16 | 1,
        7,
        0,
        10485760,
    ]?;
    for code in 11..127 {
        words.push(lig10_char(code))?;
    }
    words.extend_from_slice(&[0, 524288, 0, 524288, 0, 0])?;
    words.extend_from_slice(&[0xff000000, 0x0066000b, 0x8069000c, 0x8069000e])?;
    words.extend_from_slice(&[0x80768000, 0x80718000, 0x80008000, 0xff000005])?;
    words.push(0xffff0000)?;
    words.extend_from_slice(&PARAMS)?;
    bytes_of(alloc, &words)
}

/// A font of two codes with every part, sizes below zero and eight parameters.
pub fn other_font(alloc: Global) -> Result<Vec<u8>, AllocError> {
    bytes_of(
        alloc,
        &[
            31 << 16 | 3,
            65 << 16 | 66,
            3 << 16 | 2,
            2 << 16 | 2,
            2,
            1 << 16 | 8,
            0xdeadbeef,
            12582912,
            0x12345678,
            // A: width 1, height 1, depth 1, italic 1, in a list of longer characters; B: width 2
            0x01110642,
            0x02000300,
            0,
            655360,
            0xfff00000,
            0,
            327680,
            0,
            0xfffe0000,
            0,
            65536,
            0xffff0000,
            32768,
            0xfefefefe,
            0x7fffffff,
            0xff000000,
            0x00ffffff,
            1,
            0xffffffff,
            5,
            6,
            7,
        ],
    )
}

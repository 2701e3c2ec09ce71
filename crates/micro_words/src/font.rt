//! The font of a generated document, as the bytes of its TFM file.
ghost use Rattle.std.specs.Prelude.{◌≡◌, IfOk};
ghost use Rattle.micro_words.specs.Fonts.{tiny10};

use micro_num::NoMemory;
use std::alloc::Global;

/// How many characters it has, from code 33 to code 126.
const CHARACTERS: u32 = 94;

/// The lengths of the file and its tables, the codes that it has, its checksum and its design size.
const HEAD: [u8; 32] = [
    0, 115, 0, 2, 0, 33, 0, 126, 0, 2, 0, 2, 0, 1, 0, 1, 0, 0, 0, 0, 0, 0, 0, 7, 0, 0, 0, 0, 0,
    160, 0, 0,
];

/// A character: width 1, height 1, and no depth, italic correction or ligature.
const CHARACTER: [u8; 4] = [1, 16, 0, 0];

/// The widths, heights, depths and italic corrections, and the seven parameters.
const TABLES: [u8; 52] = [
    0, 0, 0, 0, 0, 8, 0, 0, 0, 0, 0, 0, 0, 8, 0, 0, 0, 0, 0, 0, 0, 0, 0, 0, 0, 0, 0, 0, 0, 4, 0, 0,
    0, 2, 0, 0, 0, 1, 0, 0, 0, 8, 0, 0, 0, 16, 0, 0, 0, 0, 0, 0,
];

/// The font of the paragraphs.
pub fn gen_font(alloc: Global) -> Result<Vec<u8>, NoMemory>
    ensures { IfOk result (λ bytes. bytes.items ≡ tiny10) }
{
    let mut bytes = Vec::with_capacity(alloc, 460)?;
    bytes.extend_from_slice(&HEAD)?;
    for _character in 0..CHARACTERS {
        bytes.extend_from_slice(&CHARACTER)?;
    }
    bytes.extend_from_slice(&TABLES)?;
    Ok(bytes)
}

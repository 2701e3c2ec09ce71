//! The numbers of a file by their places, each read by itself: big-endian, and signed ones by two's
//! complement (TFM description).

ghost use Rattle.std.specs.Prelude.{◌≡◌, ◌+◌, ◌*◌, ◌≤◌, ◌==◌, ◌||◌, length, slice_index};
ghost use Rattle.tfm_read.specs.Words.{word_of, unsigned_number, signed_number, halfword_at};

use byteorder::{BigEndian, ByteOrder};

/// The four bytes of a word.
#[tactic(auto, unfolding(crate::specs::Words::byte_of))]
pub fn word_at(bytes: &[u8], place: usize) -> [u8; 4]
    requires { 4 * place + 4 ≤ length bytes.now }
    ensures { result ≡ word_of bytes.now place }
{
    let start = 4 * place;
    [
        bytes[start],
        bytes[start + 1],
        bytes[start + 2],
        bytes[start + 3],
    ]
}

/// A halfword as a number.
#[tactic(auto, unfolding(crate::specs::Words::halfword_at))]
pub fn halfword_at(bytes: &[u8], n: usize) -> u16
    requires { 2 * n + 2 ≤ length bytes.now }
    ensures { result ≡ halfword_at bytes.now n }
{
    BigEndian::read_u16(&[bytes[2 * n], bytes[2 * n + 1]])
}

/// The number that a word is.
#[tactic(auto, unfolding(crate::specs::Words::unsigned_number))]
pub fn unsigned_number(word: [u8; 4]) -> u32
    ensures { result ≡ unsigned_number word }
{
    BigEndian::read_u32(&word)
}

/// The same as a signed number, by two's complement.
#[tactic(auto, unfolding(crate::specs::Words::signed_number))]
pub fn signed_number(word: [u8; 4]) -> i32
    ensures { result ≡ signed_number word }
{
    BigEndian::read_u32(&word).cast_signed()
}

/// Whether a word is a size from -16 to 16 design sizes.
pub fn is_fix_word(word: [u8; 4]) -> bool
    ensures { result ≡ (slice_index word 0 == 0 || slice_index word 0 == 255) }
{
    let first = word[0];
    first == 0 || first == 255
}

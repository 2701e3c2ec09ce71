//! Stretches of plain text: bytes that stand for themselves, and single blanks with such a byte
//! behind them. Each byte is a token.
//!
//! Most of a job is plain text. Its end is sought by looking at many bytes together, which needs no
//! branch for each, and then at one after another.
ghost use Rattle.std.specs.Prelude.{◌≡◌, ◌+◌, ◌<◌, ◌≤◌, length, IsTrue};
ghost use Rattle.job_lex.specs.PlainTokens.{IsText, IsBlank, IsPlainPair, ArePlain};

/// How many bytes are looked at together.
const BLOCK: usize = 16;

/// A stretch of plain text in a file.
#[derive(Clone, Copy, Debug)]
pub struct PlainText<'a> {
    /// The bytes of the file.
    pub bytes: &'a [u8],
    /// The place of its first byte.
    pub from: usize,
    /// How many bytes it has.
    pub count: usize,
}

/// The place behind the plain text that begins at a place.
pub(crate) fn plain_end(bytes: &[u8], from: usize) -> usize
    requires { from ≤ length bytes.now }
    ensures after { from ≤ result }
    ensures within { result ≤ length bytes.now }
    ensures plain { ArePlain bytes.now from result }
{
    let mut to = behind_blocks(bytes, from);
    while bytes.len() - to > 1 && is_plain_pair(bytes[to], bytes[to + 1]) {
        to += 1;
    }
    to
}

/// The place behind whole blocks of plain text that begin at a place.
#[inline(always)]
fn behind_blocks(bytes: &[u8], from: usize) -> usize
    requires { from ≤ length bytes.now }
    ensures after { from ≤ result }
    ensures within { result ≤ length bytes.now }
    ensures plain { ArePlain bytes.now from result }
{
    let mut to = from;
    while bytes.len() - to > BLOCK && is_plain_block(bytes, to) {
        to += BLOCK;
    }
    to
}

/// Whether the bytes of a block are plain text, and the byte behind it shows so.
#[inline(always)]
fn is_plain_block(bytes: &[u8], from: usize) -> bool
    requires { from + 16 < length bytes.now }
    ensures { IsTrue result → ArePlain bytes.now from (from + 16) }
{
    let mut plain = true;
    for place in from..from + BLOCK {
        plain &= is_plain_pair(bytes[place], bytes[place + 1]);
    }
    plain
}

/// Whether a byte and the one behind it show that the first is plain text.
#[inline(always)]
fn is_plain_pair(byte: u8, next: u8) -> bool
    ensures { IsTrue result → IsPlainPair byte next }
{
    is_text(byte) | (is_gap(byte) & is_text(next))
}

/// Whether a byte is one of most of those that stand for themselves.
#[inline(always)]
#[tactic(auto, unfolding(crate::specs::Category::category))]
fn is_text(byte: u8) -> bool
    ensures { IsTrue result → IsText byte }
{
    ((b'\'' <= byte) & (byte <= b'[')) | ((b'`' <= byte) & (byte <= b'z')) | (byte >= 128)
}

/// Whether a byte is a space or a line feed.
#[inline(always)]
#[tactic(auto, unfolding(crate::specs::Category::category))]
fn is_gap(byte: u8) -> bool
    ensures { IsTrue result → IsBlank byte }
{
    (byte == b' ') | (byte == b'\n')
}

//! The tokens of a file one after another. Each is cut when it is asked for (TeX: The Program,
//! section 343), so that no list of them is kept.
//!
//! A cursor stands where a token begins or the file ends, in a file that has tokens.
ghost use Rattle.std.specs.Prelude.{◌≡◌, ◌+◌, ◌<◌, ◌≤◌, ◌^◌, ◌∷◌, ◌++◌, length, IfOk, IfSome};
ghost use Rattle.std.specs.Prelude.{MatchResult};
ghost use Rattle.job_lex.specs.Ahead.{TokensFrom, TokensFrom-prop};

use crate::fault::LexFaultKind;
use crate::lexer::{first_fault, token_at};
use crate::plain_text::{PlainText, plain_end};
use crate::token::Tok;

/// A place in a file, and the tokens from there on.
#[derive(Clone, Copy, Debug)]
pub struct Cursor<'a> {
    bytes: &'a [u8],
    place: usize,
    ghost small: { length bytes.now < 2 ^ 32 },
    ghost ahead: { TokensFrom bytes.now place } by { TokensFrom-prop bytes.now place },
}

impl<'a> Cursor<'a> {
    ghost use Rattle.job_lex.specs.Tokens.{AreTokens, IsToken, IsFirstFault};
    ghost use Rattle.job_lex.specs.Cursors.{bytes_of, toks_of, IsFirst};
    ghost use Rattle.job_lex.specs.PlainTokens.{plain_toks};

    /// At the first token of a file of fewer than 2^32 bytes; or the first place outside comments
    /// where no token begins, and why.
    pub fn new(bytes: &'a [u8]) -> Result<Cursor<'a>, (u32, LexFaultKind)>
        requires { length bytes.now < 2 ^ 32 }
        ensures file { IfOk result (λ cursor. bytes_of cursor ≡ bytes.now) }
        ensures answer { MatchResult result (λ cursor. AreTokens bytes.now (toks_of cursor))
            (λ x. IsFirstFault bytes.now x.0 x.1) }
    {
        match first_fault(bytes) {
            Some(fault) => Err(fault),
            None => Ok(Cursor { bytes, place: 0 }),
        }
    }

    /// The bytes of the file.
    pub fn bytes(self) -> &'a [u8]
        ensures { result.now ≡ bytes_of self.entry }
    {
        self.bytes
    }

    /// The token at the cursor, and the cursor behind it.
    pub fn next(self) -> Option<(Tok, Cursor<'a>)>
        ensures file { IfSome result (λ x. bytes_of x.1 ≡ bytes_of self.entry) }
        ensures first { IsFirst result (toks_of self.entry) }
    {
        if self.place >= self.bytes.len() {
            return None;
        }
        match token_at(self.bytes, self.place) {
            Ok(tok) => Some((tok, self.behind(tok))),
            // It cannot be, since the file has tokens.
            Err(_) => None,
        }
    }

    /// The plain text at the cursor, of which each byte is a token, and the cursor behind it.
    #[inline(always)]
    pub fn plain_text(self) -> (PlainText<'a>, Cursor<'a>)
        ensures bytes { result.0.bytes.now ≡ bytes_of self.entry }
        ensures within { result.0.from + result.0.count ≤ length (bytes_of self.entry) }
        ensures small { length (bytes_of self.entry) < 2 ^ 32 }
        ensures file { bytes_of result.1 ≡ bytes_of self.entry }
        ensures ahead { toks_of self.entry ≡ plain_toks (bytes_of self.entry) result.0.from
            result.0.count ++ toks_of result.1 }
    {
        let from = self.place;
        let to = plain_end(self.bytes, from);
        let text = PlainText {
            bytes: self.bytes,
            from,
            count: to - from,
        };
        let behind = Cursor {
            bytes: self.bytes,
            place: to,
        };
        (text, behind)
    }

    /// The cursor behind the token at this one.
    #[inline(always)]
    fn behind(self, tok: Tok) -> Cursor<'a>
        requires inside { self.place < length (bytes_of self) }
        requires from { tok.from ≡ self.place }
        requires token { IsToken (bytes_of self) tok }
        ensures file { bytes_of result ≡ bytes_of self.entry }
        ensures ahead { toks_of self.entry ≡ tok ∷ toks_of result }
    {
        Cursor {
            bytes: self.bytes,
            place: tok.to as usize,
        }
    }
}

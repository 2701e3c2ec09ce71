//! A file whose places are numbers of 32 bits.
//!
//! Every rule is handed it, for the place of its end, at which a fault stands where no token is
//! left, and for the names of control words.
ghost use Rattle.std.specs.Prelude.{◌≡◌, ◌<◌, ◌^◌, length, slice_index, slice_range};
ghost use Rattle.job_reading.specs.Reading.{place};
ghost use Rattle.job_reading.specs.GrammarTokens.{name_of};
ghost use Rattle.job_reading.specs.Rest.{left};

use crate::fault::{Fault, JobFaultKind};
use crate::rest::Rest;
use crate::token::Token;
use std::marker::Model;

/// The bytes of a file, fewer than 2^32.
#[derive(Drop)]
pub struct Source<'a> {
    bytes: &'a [u8],
}

impl<'a> Model for Source<'a> {
    ghost use Rattle.std.specs.Prelude.{List, ℕ, ◌<◌, ◌^◌, length};

    ghost Value = { List ℕ };

    ghost view = { λ s. s.bytes.now };

    ghost invariant = { λ s. length s.bytes.now < 2 ^ 32 };
}

impl<'a> Source<'a> {
    /// The file of these bytes.
    pub fn new(bytes: &'a [u8]) -> Source<'a>
        requires { length bytes.now < 2 ^ 32 }
        ensures { result ≡ bytes.now }
    {
        Source { bytes }
    }

    /// Its bytes.
    pub fn bytes(&self) -> &'a [u8]
        ensures value { result.now ≡ self.now }
        ensures small { length result.now < 2 ^ 32 }
    {
        self.bytes
    }

    /// The place of its end.
    pub fn end(&self) -> u32
        ensures { result ≡ length self.now }
    {
        self.bytes.len() as u32
    }

    /// The place of the first of the tokens, or the end of the file.
    pub fn place(&self, rest: Rest) -> u32
        ensures { result ≡ place (length self.now) (left rest.entry) }
    {
        match rest.next() {
            Some((token, _)) => token.from,
            None => self.end(),
        }
    }

    /// A fault at the first of the tokens.
    pub fn fault(&self, kind: JobFaultKind, rest: Rest) -> Fault
        ensures { result ≡ record
            { offset = place (length self.now) (left rest.entry); kind = kind } }
    {
        Fault {
            offset: self.place(rest),
            kind,
        }
    }

    /// The name of a control word, without its backslash.
    pub fn name(&self, token: Token) -> &'a [u8]
        ensures { result.now ≡ name_of self.now token }
    {
        slice(self.bytes, token.from as usize + 1, token.to as usize)
    }
}

/// The byte at a place, 0 past the end.
pub(crate) fn byte(bytes: &[u8], place: usize) -> u8
    ensures { result ≡ slice_index bytes.now place }
{
    bytes.get(place).copied().unwrap_or(0)
}

/// The bytes from one place to before another, as far as there are any.
pub(crate) fn slice(bytes: &[u8], from: usize, to: usize) -> &[u8]
    ensures { result.now ≡ slice_range bytes.now from to }
{
    let from = from.min(bytes.len());
    let to = to.min(bytes.len()).max(from);
    &bytes[from..to]
}

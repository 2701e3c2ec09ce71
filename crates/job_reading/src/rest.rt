//! The tokens of the grammar from a place in a file on, as the rules read them.
//!
//! They are those of the file without the gaps that mean nothing: a gap that begins with a comment,
//! and a Space behind a control word or a control space (TeX: The Program, sections 345 to 354).
//! Each is made from the file's own tokens when it is asked for, so no list of either is kept.
ghost use Rattle.std.specs.Prelude.{◌≡◌, ◌+◌, ◌<◌, ◌≤◌, ◌^◌, ◌++◌, length, map, MatchResult};
ghost use Rattle.job_reading.specs.GrammarTokens.{lookup, word_lexeme, lexeme_of, token_of};
ghost use Rattle.job_reading.specs.GrammarTokens.{reserved, grammar_from, swallows_space};
ghost use Rattle.job_reading.specs.PlainTokens.{plain_tokens};
ghost use Rattle.job_lex.specs.Cursors.{bytes_of, toks_of};
ghost use Rattle.job_reading.specs.Faults.{IsTokenFault};
ghost use Rattle.job_reading.specs.Reading.{skip_space, equals};
ghost use Rattle.job_reading.specs.Rest.{left, AreAllLeft, IsNext};

use crate::fault::{Fault, job_kind};
use crate::source::{byte, slice};
use crate::token::{Lexeme, Token};
use crate::word::{RESERVED, Word};
use job_lex::{Cursor, PlainText, Tok, TokKind};

/// The tokens of the grammar that are left.
#[derive(Clone, Copy, Debug)]
pub struct Rest<'a> {
    cursor: Cursor<'a>,
    swallows: bool,
}

impl<'a> Rest<'a> {
    /// All tokens of the grammar of a file of fewer than 2^32 bytes; or a fault at the first place
    /// outside comments where no token begins.
    #[tactic(auto, unfolding(crate::specs::Rest::left))]
    pub fn new(bytes: &'a [u8]) -> Result<Rest<'a>, Fault>
        requires { length bytes.now < 2 ^ 32 }
        ensures { MatchResult result (λ rest. AreAllLeft bytes.now rest)
            (λ fault. IsTokenFault bytes.now fault.offset fault.kind) }
    {
        match Cursor::new(bytes) {
            Ok(cursor) => Ok(Rest {
                cursor,
                swallows: false,
            }),
            Err((offset, kind)) => Err(Fault {
                offset,
                kind: job_kind(kind),
            }),
        }
    }

    /// The first of the tokens and those behind it.
    #[tactic(auto, unfolding(crate::specs::Rest::left))]
    pub fn next(self) -> Option<(Token, Rest<'a>)>
        ensures { IsNext result (left self.entry) }
    {
        let mut swallows = self.swallows;
        let mut cursor = self.cursor;
        while let Some((tok, behind)) = cursor.next() {
            cursor = behind;
            match tok.kind {
                TokKind::Skip => {}
                TokKind::Space if swallows => swallows = false,
                _ => return Some(taken(tok, cursor)),
            }
        }
        None
    }

    /// The plain text at the front, of which each byte is a token, and the tokens behind it.
    #[tactic(auto, unfolding(crate::specs::Rest::left, crate::specs::PlainTokens::plain_tokens))]
    #[inline(always)]
    pub fn plain_text(self) -> (PlainText<'a>, Rest<'a>)
        ensures within { result.0.from + result.0.count ≤ length result.0.bytes.now }
        ensures small { length result.0.bytes.now < 2 ^ 32 }
        ensures value { left self.entry ≡ plain_tokens result.0.bytes.now result.0.from
            result.0.count ++ left result.1 }
    {
        if self.swallows {
            let none = PlainText {
                bytes: &[],
                from: 0,
                count: 0,
            };
            return (none, self);
        }
        let (text, cursor) = self.cursor.plain_text();
        let behind = Rest {
            cursor,
            swallows: false,
        };
        (text, behind)
    }

    /// The tokens behind a Space, if one comes first.
    pub fn skip_space(self) -> Rest<'a>
        ensures value { left result ≡ skip_space (left self.entry) }
        ensures within { length (left result) ≤ length (left self.entry) }
    {
        match self.next() {
            Some((token, tail)) if token.lexeme.is_space() => tail,
            _ => self,
        }
    }

    /// The tokens behind an equals sign and the Spaces round it, if one comes first.
    pub fn skip_equals(self) -> Rest<'a>
        ensures value { left result ≡ equals (left self.entry) }
        ensures within { length (left result) ≤ length (left self.entry) }
    {
        match self.skip_space().next() {
            Some((token, tail)) if token.lexeme.is_char(b'=') => tail.skip_space(),
            _ => self,
        }
    }
}

/// The token of the grammar that a token of the file is, which is left out in no place, and the
/// tokens behind it.
#[tactic(auto, unfolding(crate::specs::Rest::left))]
#[inline(always)]
fn taken<'a>(tok: Tok, cursor: Cursor<'a>) -> (Token, Rest<'a>)
    ensures token { result.0 ≡ token_of (bytes_of cursor.entry) tok }
    ensures behind { left result.1 ≡ grammar_from (bytes_of cursor.entry)
        (swallows_space (lexeme_of (bytes_of cursor.entry) tok)) (toks_of cursor.entry) }
{
    let token = token_of(cursor.bytes(), tok);
    let rest = Rest {
        cursor,
        swallows: token.lexeme.swallows_space(),
    };
    (token, rest)
}

#[inline(always)]
fn token_of(bytes: &[u8], tok: Tok) -> Token
    ensures { result ≡ token_of bytes.now tok }
{
    Token {
        lexeme: lexeme_of(bytes, tok),
        from: tok.from,
        to: tok.to,
    }
}

#[inline(always)]
fn lexeme_of(bytes: &[u8], tok: Tok) -> Lexeme
    ensures { result ≡ lexeme_of bytes.now tok }
{
    match tok.kind {
        TokKind::Par => Lexeme::EmptyLine,
        TokKind::Space | TokKind::Skip => Lexeme::Space,
        TokKind::Word => word_lexeme(slice(bytes, tok.from as usize + 1, tok.to as usize)),
        TokKind::Symbol => Lexeme::Symbol(byte(bytes, tok.from as usize + 1)),
        TokKind::Open => Lexeme::Open,
        TokKind::Close => Lexeme::Close,
        TokKind::Tie => Lexeme::Tie,
        TokKind::Char => Lexeme::Char(byte(bytes, tok.from as usize)),
    }
}

/// What a control word of this name is.
#[tactic(auto, unfolding(crate::specs::GrammarTokens::reserved))]
#[inline(never)]
fn word_lexeme(name: &[u8]) -> Lexeme
    ensures { result ≡ word_lexeme name.now }
{
    if name.len() == 1 {
        return Lexeme::Letter(name[0]);
    }
    match lookup(&RESERVED, name) {
        Some(word) => Lexeme::Word(word),
        None => Lexeme::Name,
    }
}

/// The word of this name in a table.
fn lookup(mut table: &[(&[u8], Word)], name: &[u8]) -> Option<Word>
    ensures { result ≡ lookup (map (λ entry. (entry.0.now, entry.1)) table.entry.now) name.now }
{
    while let [entry, rest @ ..] = table {
        if entry.0 == name {
            return Some(entry.1);
        }
        table = rest;
    }
    None
}

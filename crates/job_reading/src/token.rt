//! A token of the grammar, and what the rules ask of it.
//!
//! It is what TeX: The Program calls a token (section 289), with its place in the file; control
//! words are looked up when the file is cut, as in TeX's hash table (section 256).
ghost use Rattle.std.specs.Prelude.{◌≡◌, ◌<◌, IfSome};
ghost use Rattle.job_reading.specs.Lexemes.{Finds, ends_paragraph, ends_job};
ghost use Rattle.job_reading.specs.Lexemes.{is_byte, is_char, is_space, is_name, is_name_byte};
ghost use Rattle.job_reading.specs.Lexemes.{byte_of};
ghost use Rattle.job_reading.specs.Lexemes.{is_open, is_close, is_keyword_letter, keyword_letter};
ghost use Rattle.job_reading.specs.Lexemes.{is_digit, digit_value};
ghost use Rattle.job_reading.specs.GrammarTokens.{swallows_space};

use crate::fault::{Fault, JobFaultKind};
use crate::word::Word;

/// A token of the grammar: what it is, and where it lies in the file.
#[derive(Clone, Copy, Debug, PartialEq, Eq)]
pub struct Token {
    /// What it is.
    pub lexeme: Lexeme,
    /// The place of its first byte.
    pub from: u32,
    /// The place behind its last byte.
    pub to: u32,
}

impl Token {
    /// A fault at its first byte.
    pub fn fault(self, kind: JobFaultKind) -> Fault
        ensures { result ≡ record { offset = self.from; kind = kind } }
    {
        Fault {
            offset: self.from,
            kind,
        }
    }
}

/// What a token of the grammar is.
#[derive(Clone, Copy, Debug, PartialEq, Eq)]
pub enum Lexeme {
    /// A byte that stands for itself.
    Char(u8),
    /// A backslash and this byte, which is no letter.
    Symbol(u8),
    /// A control word of this one letter.
    Letter(u8),
    /// A control word with a meaning of its own.
    Word(Word),
    /// Any other control word.
    Name,
    /// A gap between words.
    Space,
    /// A gap with an empty line in it.
    EmptyLine,
    /// `{`.
    Open,
    /// `}`.
    Close,
    /// `~`.
    Tie,
}

impl Lexeme {
    /// Whether it is a byte that stands for itself, of this code.
    pub fn is_char(self, code: u8) -> bool
        ensures { result ≡ is_char self code }
    {
        match self {
            Lexeme::Char(own) => own == code,
            _ => false,
        }
    }

    /// Whether it is a gap between words.
    pub fn is_space(self) -> bool
        ensures { result ≡ is_space self }
    {
        match self {
            Lexeme::Space => true,
            _ => false,
        }
    }

    /// Whether it ends a paragraph, and is no part of it.
    pub fn ends_paragraph(self) -> bool
        ensures { result ≡ ends_paragraph self }
    {
        match self {
            Lexeme::EmptyLine | Lexeme::Word(Word::ParEnd | Word::Bye | Word::End) => true,
            _ => false,
        }
    }

    /// Whether it ends the job.
    pub fn ends_job(self) -> bool
        ensures { result ≡ ends_job self }
    {
        match self {
            Lexeme::Word(Word::Bye | Word::End) => true,
            _ => false,
        }
    }

    /// Whether a Space behind it is left out: a control word, or the control space.
    pub fn swallows_space(self) -> bool
        ensures { result ≡ swallows_space self }
    {
        match self {
            Lexeme::Word(_) | Lexeme::Letter(_) | Lexeme::Name => true,
            Lexeme::Symbol(code) => code == b' ',
            _ => false,
        }
    }

    /// The code of a byte that stands for itself.
    pub fn char_code(self) -> Option<u8>
        ensures { Finds result (is_byte self) (byte_of self) }
    {
        match self {
            Lexeme::Char(code) => Some(code),
            _ => None,
        }
    }

    /// The code of a letter, a digit or a `-`, of which the names of files are made.
    pub fn name_byte(self) -> Option<u8>
        ensures { Finds result (is_name_byte self) (byte_of self) }
    {
        match self {
            Lexeme::Char(code) if code.is_ascii_alphanumeric() => Some(code),
            Lexeme::Char(b'-') => Some(b'-'),
            _ => None,
        }
    }

    /// Whether it is a control word without a meaning of its own, which may be a font word.
    pub fn is_name(self) -> bool
        ensures { result ≡ is_name self }
    {
        match self {
            Lexeme::Letter(_) | Lexeme::Name => true,
            _ => false,
        }
    }

    /// Whether it opens a group.
    pub fn is_open(self) -> bool
        ensures { result ≡ is_open self }
    {
        match self {
            Lexeme::Open => true,
            _ => false,
        }
    }

    /// Whether it closes a group.
    pub fn is_close(self) -> bool
        ensures { result ≡ is_close self }
    {
        match self {
            Lexeme::Close => true,
            _ => false,
        }
    }

    /// Whether it is a letter of a keyword, which may stand in either case.
    pub fn is_keyword_letter(self, letter: u8) -> bool
        ensures { result ≡ is_keyword_letter self letter }
    {
        match self {
            Lexeme::Char(code) => code.to_ascii_lowercase() == letter,
            _ => false,
        }
    }

    /// The lower-case code of a byte that stands for itself.
    pub fn keyword_letter(self) -> Option<u8>
        ensures { result ≡ keyword_letter self }
    {
        match self {
            Lexeme::Char(code) => Some(code.to_ascii_lowercase()),
            _ => None,
        }
    }

    /// The value of a digit.
    pub fn digit(self) -> Option<u8>
        ensures value { Finds result (is_digit self) (digit_value self) }
        ensures small { IfSome result (λ digit. digit < 10) }
    {
        match self {
            Lexeme::Char(code) if code.is_ascii_digit() => Some(code - b'0'),
            _ => None,
        }
    }
}

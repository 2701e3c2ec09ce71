//! A token: a kind and two places in the file.
/// The kind of a token.
#[derive(Clone, Copy, Debug, PartialEq, Eq)]
pub enum TokKind {
    /// A gap with an empty line in it: two line feeds with only tabs, carriage returns and spaces
    /// between them. The line feed that ends a comment counts.
    Par,
    /// Any other gap that begins with a blank.
    Space,
    /// Any other gap, which begins with a comment. It is as if it weren't there.
    Skip,
    /// A backslash and all letters behind it, at least one.
    Word,
    /// A backslash and one printing ASCII byte that is no letter.
    Symbol,
    /// `{`.
    Open,
    /// `}`.
    Close,
    /// `~`.
    Tie,
    /// A byte that stands for itself.
    Char,
}

/// A token: its kind, and the places in the file of its first byte and of the byte after its last.
#[derive(Clone, Copy, Debug, PartialEq, Eq)]
pub struct Tok {
    /// What it is.
    pub kind: TokKind,
    /// The place of its first byte.
    pub from: u32,
    /// The place behind its last byte.
    pub to: u32,
}

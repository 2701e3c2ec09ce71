//! The symbols of a run: characters, ligatures, kerns and boundaries, each with the codes that it
//! covers.

ghost use Rattle.std.specs.Prelude.{◌≡◌, Some, None};
ghost use Rattle.lig_kern.specs.Symbols.{code_of, glyph_of};

use crate::glyph::Glyph;

/// What a symbol of a run is.
#[derive(Clone, Copy, Debug, PartialEq, Eq)]
pub enum SymbolKind {
    /// The boundary before the first code.
    LeftBoundary,
    /// The boundary after the last code, with the font's code for it.
    RightBoundary { code: u8 },
    /// A character of the run.
    Character { code: u8 },
    /// A ligature that a program has put in.
    Ligature { code: u8 },
    /// A kern that a program has put in, a fix_word.
    FontKern { fix: i32 },
}

impl SymbolKind {
    /// The code that a program finds the symbol by.
    pub fn code(self) -> Option<u8>
        ensures { result ≡ code_of self }
    {
        match self {
            SymbolKind::RightBoundary { code }
            | SymbolKind::Character { code }
            | SymbolKind::Ligature { code } => Some(code),
            SymbolKind::LeftBoundary | SymbolKind::FontKern { .. } => None,
        }
    }
}

/// A symbol of a run, and the codes that it stands for: those from number `from` to before number
/// `to`. A boundary or a kern stands for none, and lies where `from` and `to` say.
#[derive(Clone, Copy, Debug, PartialEq, Eq)]
pub struct Symbol {
    pub kind: SymbolKind,
    pub from: u32,
    pub to: u32,
}

impl Symbol {
    /// The glyph that the symbol gives. A boundary gives none.
    pub fn glyph(self) -> Option<Glyph>
        ensures { result ≡ glyph_of self }
    {
        let Symbol { kind, from, to } = self;
        match kind {
            SymbolKind::LeftBoundary | SymbolKind::RightBoundary { .. } => None,
            SymbolKind::Character { code } => Some(Glyph::Char { code, at: from }),
            SymbolKind::Ligature { code } => Some(Glyph::Lig { code, from, to }),
            SymbolKind::FontKern { fix } => Some(Glyph::Kern { fix }),
        }
    }
}

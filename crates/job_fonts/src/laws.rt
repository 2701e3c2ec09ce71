//! What a declaration and the bytes of its file determine.
ghost use Rattle.std.specs.Prelude.{◌≡◌, ℕ, List};
ghost use Rattle.font_stock.specs.declared.font.Font.{Font};
ghost use Rattle.job_fonts.specs.Reads.{IsFontRead, IsFontFault};
ghost use Rattle.job_fonts.specs.declared.fault.FontFaultKind.{FontFaultKind};
ghost use Rattle.job_text.specs.declared.font_decl.FontDecl.{FontDecl};

/// A declaration and the bytes of its file have at most one font.
pub fn one_font()
    ensures { (decl : FontDecl) (bytes : List ℕ) (a b : Font)
        → IsFontRead decl bytes a → IsFontRead decl bytes b → a ≡ b }
{}

/// They have at most one first fault: its kind, and its word.
pub fn one_fault()
    ensures { (decl : FontDecl) (bytes : List ℕ) (kind other : FontFaultKind) (word at : ℕ)
        → IsFontFault decl bytes kind word → IsFontFault decl bytes other at
        → (kind ≡ other) × (word ≡ at) }
{}

/// They don't have both a font and a fault.
pub fn font_or_fault()
    ensures { (decl : FontDecl) (bytes : List ℕ) (font : Font) (kind : FontFaultKind) (word : ℕ)
        → IsFontRead decl bytes font → IsFontFault decl bytes kind word → ⊥ }
{}

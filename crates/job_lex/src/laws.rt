//! What is true of the tokens of every file: they are one list, and their texts join to the file.
ghost use Rattle.std.specs.Prelude.{◌≡◌, ℕ, List};
ghost use Rattle.std.specs.List.{flat_map};
ghost use Rattle.job_lex.specs.Tokens.{text_of, AreTokens, IsFirstFault, GapsStandApart};
ghost use Rattle.job_lex.specs.declared.token.Tok.{Tok};
ghost use Rattle.job_lex.specs.declared.fault.LexFaultKind.{LexFaultKind};

/// The texts of the tokens, one after another, are the source.
pub fn texts_are_the_source()
    ensures { (bytes : List ℕ) (toks : List Tok) → AreTokens bytes toks →
        flat_map (text_of bytes) toks ≡ bytes }
{}

/// Of two neighbours among the tokens one is no gap.
pub fn gaps_stand_apart()
    ensures { (bytes : List ℕ) (toks : List Tok) → AreTokens bytes toks → GapsStandApart toks }
{}

/// A file has at most one list of tokens, and none where it has a fault; it has at most one first
/// fault.
pub fn tokens_are_one()
    ensures tokens { (bytes : List ℕ) (toks others : List Tok) → AreTokens bytes toks →
        AreTokens bytes others → toks ≡ others }
    ensures apart { (bytes : List ℕ) (toks : List Tok) (place : ℕ) (kind : LexFaultKind) →
        AreTokens bytes toks → IsFirstFault bytes place kind → ⊥ }
    ensures fault { (bytes : List ℕ) (place other : ℕ) (kind another : LexFaultKind) →
        IsFirstFault bytes place kind → IsFirstFault bytes other another → (place ≡ other) × (kind
        ≡ another) }
{}

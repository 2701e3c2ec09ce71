//! What holds of every document.
ghost use Rattle.std.specs.Prelude.{ℕ, List};
ghost use Rattle.micro_document.specs.Document.{Doc};
ghost use Rattle.micro_document.specs.Outcome.{AtMostOne};

/// Words and the bytes of the files that were read have at most one outcome.
pub fn one_outcome()
    ensures { (words : List (List ℕ)) → AtMostOne (Doc words) }
{}

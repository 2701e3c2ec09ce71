//! Words and draws worked out by hand, as theorems: the definitions give these.
ghost use Rattle.std.specs.Prelude.{◌≡◌, [], ◌∷◌, None, codes, true, false};
ghost use Rattle.std.specs.List.{AllByRecursion};
ghost use Rattle.micro_words.specs.Commands.{cmd_of};
ghost use Rattle.micro_words.specs.Draws.{next_state};
ghost use Rattle.micro_words.specs.Prose.{word, word_count};
ghost use Rattle.micro_words.specs.Worked.{draws, first_draws, after_name, command, no_commands};

use crate::command::CommandKind;

/// The first ten draws of document 1. By them its first paragraph has 58 words, and the first word
/// of it is this.
pub fn document_1_begins_so()
    ensures draws { draws 10 1 ≡ first_draws }
    ensures words { word_count 1 ≡ 58 }
    ensures first { word (next_state 1) ≡ codes "zrhlajoe" }
{}

/// Three command lines. Options may stand before and behind what they don't belong to.
pub fn words_are_these_commands()
    ensures set { cmd_of (after_name (codes "set" ∷ codes "a" ∷ []))
        ≡ command CommandKind.Set (codes "a" ∷ []) 0 1 false }
    ensures breaks { cmd_of (after_name (codes "breaks" ∷ codes "--report" ∷ codes "a" ∷ []))
        ≡ command CommandKind.Breaks (codes "a" ∷ []) 0 1 true }
    ensures generated { cmd_of (after_name
        (codes "--workers" ∷ codes "8" ∷ codes "gen" ∷ codes "200" ∷ []))
        ≡ command CommandKind.Gen [] 200 8 false }
{}

/// Words that are no command, each for another reason.
pub fn words_are_no_command()
    ensures { AllByRecursion (λ words. cmd_of (after_name words) ≡ None) no_commands }
{}

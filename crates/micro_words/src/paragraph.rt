//! The paragraphs of a generated document: random words of random letters.
ghost use Rattle.std.specs.Prelude.{◌≡◌, ◌++◌, IfOk, OnOk};
ghost use Rattle.micro_words.specs.Draws.{state_after};
ghost use Rattle.micro_words.specs.Prose.{letters, word, after_word, mark, words, after_words};
ghost use Rattle.micro_words.specs.Prose.{paragraph, after_paragraph};

use crate::draws::{draw, step};
use std::alloc::AllocFailed;

/// Puts a word's letters, and gives the state behind them.
fn put_letters(text: &mut Vec<u8>, count: u32, before: u32) -> Result<u32, AllocFailed<u8>>
    ensures { IfOk result (λ behind. (text.new.items ≡ text.old.items ++ letters count before)
        × (behind ≡ state_after count before)) }
{
    let mut state = before;
    for _letter in 0..count {
        state = step(state);
        text.push(b'a' + (draw(state) % 26) as u8)?;
    }
    Ok(state)
}

/// Puts a word, and gives the state behind it.
#[tactic(auto, unfolding(crate::specs::Prose::word, crate::specs::Prose::after_word))]
fn put_word(text: &mut Vec<u8>, before: u32) -> Result<u32, AllocFailed<u8>>
    ensures { IfOk result (λ behind. (text.new.items ≡ text.old.items ++ word before)
        × (behind ≡ after_word before)) }
{
    let state = step(before);
    put_letters(text, 1 + draw(state) % 9, state)
}

/// Puts what follows a word of a paragraph: its number from 1, and how many words come after it.
#[tactic(auto, unfolding(crate::specs::Prose::mark))]
fn put_mark(text: &mut Vec<u8>, number: u32, left: u32) -> Result<(), AllocFailed<u8>>
    ensures { OnOk result (text.new.items ≡ text.old.items ++ mark number left) }
{
    if left == 0 {
        text.push(b'.')?;
        text.push(b'\n')?;
        return text.push(b'\n');
    }
    if number % 7 == 0 {
        text.push(b',')?;
    }
    text.push(b' ')
}

/// Puts the words of a paragraph, each with what follows it, and gives the state behind them.
fn put_words(text: &mut Vec<u8>, count: u32, before: u32) -> Result<u32, AllocFailed<u8>>
    ensures { IfOk result (λ behind. (text.new.items ≡ text.old.items ++ words count 1 before)
        × (behind ≡ after_words count before)) }
{
    let mut state = before;
    for number in 0..count {
        state = put_word(text, state)?;
        put_mark(text, number + 1, count - number - 1)?;
    }
    Ok(state)
}

/// Puts a paragraph, and gives the state behind it.
#[tactic(auto, unfolding(crate::specs::Prose::paragraph, crate::specs::Prose::after_paragraph))]
pub(crate) fn put_paragraph(text: &mut Vec<u8>, before: u32) -> Result<u32, AllocFailed<u8>>
    ensures { IfOk result (λ behind. (text.new.items ≡ text.old.items ++ paragraph before)
        × (behind ≡ after_paragraph before)) }
{
    let state = step(before);
    put_words(text, 20 + draw(state) % 60, state)
}

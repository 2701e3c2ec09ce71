//! The ligature words, the boundary characters that they tell, and their checks.

ghost use Rattle.std.specs.Prelude.{◌≡◌, ◌+◌, ◌*◌, ◌≤◌, ◌<◌, length};
ghost use Rattle.tfm_read.specs.Checks.{Answers, lig_check, lig_fault, names_missing, leads_past};
ghost use Rattle.tfm_read.specs.Entries.{first_of, entries};
ghost use Rattle.tfm_read.specs.Ligatures.{IsLigAt, ArePrograms, lig_of, right_in, left_in, left_of, right_of};
ghost use Rattle.tfm_read.specs.Ranges.{is_boundary};

use crate::character::CharInfo;
use crate::fault::{TfmFault, TfmFaultKind, fault};
use crate::ligature::{LigWord, Programs};
use crate::words::word_at;
use items::Items;
use std::alloc::Global;

/// The ligature word at a place.
fn lig_at(bytes: &[u8], place: usize, i: usize) -> LigWord
    requires { 4 * (place + i) + 4 ≤ length bytes.now }
    ensures { result ≡ lig_of bytes.now place i }
{
    let [skip, next, op, rest] = word_at(bytes, place + i);
    LigWord {
        skip,
        next,
        op,
        rest,
    }
}

/// Whether a word that may act names a character that the font doesn't have.
fn names_missing(chars: &[CharInfo], right: Option<u8>, word: LigWord) -> bool
    requires { length chars.now ≡ 256 }
    ensures { result ≡ names_missing chars.now right word }
{
    let is_there = chars[usize::from(word.next)].exists || right == Some(word.next);
    word.skip <= 128 && (!is_there || word.op < 128 && !chars[usize::from(word.rest)].exists)
}

/// Whether word `i` of `count` leads past the last, or names a kern past the last.
fn leads_past(kerns: usize, count: usize, i: usize, word: LigWord) -> bool
    requires { i < 32768 }
    ensures { result ≡ leads_past kerns count i word }
{
    let op = usize::from(word.op);
    let rest = usize::from(word.rest);
    if word.skip > 128 {
        return 256 * op + rest >= count;
    }
    op >= 128 && 256 * (op - 128) + rest >= kerns
        || word.skip < 128 && i + usize::from(word.skip) + 1 >= count
}

/// What is wrong with word `i` of `count`. Of two faults it is the missing character.
#[tactic(auto, unfolding(crate::specs::Checks::lig_fault))]
fn lig_fault(
    chars: &[CharInfo],
    right: Option<u8>,
    kerns: usize,
    count: usize,
    i: usize,
    word: LigWord,
) -> Option<TfmFaultKind>
    requires all { length chars.now ≡ 256 }
    requires small { i < 32768 }
    ensures { result ≡ lig_fault chars.now right kerns count i word }
{
    if names_missing(chars, right, word) {
        return Some(TfmFaultKind::NoSuchChar);
    }
    if leads_past(kerns, count, i, word) {
        return Some(TfmFaultKind::LigPast);
    }
    None
}

/// Reads and checks word `i` of `count` from `place` on.
#[tactic(auto, unfolding(crate::specs::Checks::lig_check), using(crate::proofs::LigWords::fits))]
fn checked_lig(
    bytes: &[u8],
    place: usize,
    count: usize,
    chars: &[CharInfo],
    right: Option<u8>,
    kerns: usize,
    i: usize,
) -> Result<LigWord, TfmFault>
    requires within { 4 * (place + i) + 4 ≤ length bytes.now }
    requires few { place + i < 32768 }
    requires all { length chars.now ≡ 256 }
    ensures { Answers result (lig_check bytes.now chars.now right kerns count place i)
        (IsLigAt bytes.now chars.now right kerns count place i) }
{
    let word = lig_at(bytes, place, i);
    match lig_fault(chars, right, kerns, count, i, word) {
        Some(kind) => Err(fault(kind, place + i)),
        None => Ok(word),
    }
}

/// The code of the right boundary character that a first word tells.
fn right_in(word: LigWord) -> Option<u8>
    ensures { result ≡ right_in word }
{
    if word.skip == 255 {
        Some(word.next)
    } else {
        None
    }
}

/// The code of the right boundary character, which the first of `count` words tells.
fn right_at(bytes: &[u8], place: usize, count: usize) -> Option<u8>
    requires { 4 * (place + count) ≤ length bytes.now }
    ensures { result ≡ right_of (entries (lig_of bytes.now place) count) }
{
    if count == 0 {
        return None;
    }
    right_in(lig_at(bytes, place, 0))
}

/// Reads the ligature words, `count` of them from `place` on.
pub fn read_programs(
    alloc: Global,
    bytes: &[u8],
    place: usize,
    count: usize,
    chars: &[CharInfo],
    kerns: usize,
) -> Result<Programs, TfmFault>
    requires within { 4 * (place + count) ≤ length bytes.now }
    requires few { place + count < 32768 }
    requires all { length chars.now ≡ 256 }
    ensures { let right = right_of (entries (lig_of bytes.now place) count) in
        Answers result (first_of (lig_check bytes.now chars.now right kerns count place) count)
        (ArePrograms bytes.now place count chars.now kerns) }
{
    let right = right_at(bytes, place, count);
    let mut ligs = Items::new(alloc);
    for i in 0..count {
        let word = checked_lig(bytes, place, count, chars, right, kerns, i)?;
        ligs.push(word)?;
    }
    Ok(Programs { ligs, right })
}

/// The place of the left boundary's program that a last word tells.
fn left_in(word: LigWord) -> Option<u16>
    ensures { result ≡ left_in word }
{
    if word.skip == 255 {
        Some(256 * u16::from(word.op) + u16::from(word.rest))
    } else {
        None
    }
}

/// The place of the left boundary's program, which the last word tells.
pub fn left_of(ligs: &[LigWord]) -> Option<u16>
    ensures { result ≡ left_of ligs.now }
{
    match ligs.last() {
        Some(word) => left_in(*word),
        None => None,
    }
}

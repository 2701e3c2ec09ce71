//! The char_info words, and the characters that they and the tables of sizes make.

ghost use Rattle.std.specs.Prelude.{◌≡◌, ◌+◌, ◌*◌, ◌<◌, ◌≤◌, length, All, IfOk, slice_index_or};
ghost use Rattle.tfm_read.specs.Characters.{AreIndicesAt, AreIndices, AreChars, are_within, char_by, no_indices};
ghost use Rattle.tfm_read.specs.Checks.{Answers, char_check, characters_fault};
ghost use Rattle.tfm_read.specs.Entries.{first_of, entries};
ghost use Rattle.tfm_read.specs.Layout.{IsLaidOut};
ghost use Rattle.tfm_read.specs.Lengths.{code_count, places_of};

use crate::character::CharInfo;
use crate::fault::{TfmFault, TfmFaultKind, fault};
use crate::indices::{Indices, Tables, indices_in};
use crate::lengths::Lengths;
use crate::sizes::read_table;
use crate::words::word_at;
use items::Items;
use std::alloc::{AllocError, Global};

/// The indices of a code that has no char_info word.
const NO_INDICES: Indices = Indices {
    width: 0,
    height: 0,
    depth: 0,
    italic: 0,
    program: None,
};

/// Whether each index is in its table, and the program in the ligature words.
fn are_within(lengths: &Lengths, indices: &Indices) -> bool
    ensures { result ≡ are_within lengths.now indices.now }
{
    u16::from(indices.width) < lengths.widths
        && u16::from(indices.height) < lengths.heights
        && u16::from(indices.depth) < lengths.depths
        && u16::from(indices.italic) < lengths.italics
        && match indices.program {
            Some(place) => place < lengths.ligs,
            None => true,
        }
}

/// What char_info word `i` from `place` on says. Each of its indices is in its table.
#[tactic(auto, unfolding(crate::specs::Checks::char_check))]
fn indices_at(bytes: &[u8], lengths: &Lengths, place: usize, i: usize) -> Result<Indices, TfmFault>
    requires within { 4 * (place + i) + 4 ≤ length bytes.now }
    requires few { place + i < 32768 }
    ensures { Answers result (char_check bytes.now lengths.now place i)
        (AreIndicesAt bytes.now lengths.now place i) }
{
    let indices = indices_in(word_at(bytes, place + i));
    if !are_within(lengths, &indices) {
        return Err(fault(TfmFaultKind::IndexPast, place + i));
    }
    Ok(indices)
}

/// The indices of 256 codes that have no char_info word.
fn no_indices() -> [Indices; 256]
    ensures len { length result ≡ 256 }
    ensures all { All (λ indices. indices ≡ no_indices) result }
{
    [NO_INDICES; 256]
}

/// Reads the char_info words, from `place` on.
fn read_indices(bytes: &[u8], lengths: &Lengths, place: usize) -> Result<[Indices; 256], TfmFault>
    requires laid_out { IsLaidOut bytes.now lengths.now }
    requires place { place ≡ (places_of lengths.now).chars }
    ensures { Answers result
        (first_of (char_check bytes.now lengths.now place) (code_count lengths.now))
        (AreIndices bytes.now lengths.now) }
{
    let first_code = usize::from(lengths.first_code);
    let mut indices = no_indices();
    for i in 0..lengths.code_count() {
        let found = indices_at(bytes, lengths, place, i)?;
        indices[first_code + i] = found;
    }
    Ok(indices)
}

/// The character of indices, which doesn't exist where the width index is 0.
fn char_by(tables: &Tables, indices: &Indices) -> CharInfo
    ensures { result ≡ char_by tables.now indices.now }
{
    if indices.width == 0 {
        return CharInfo {
            exists: false,
            width: 0,
            height: 0,
            depth: 0,
            program: None,
        };
    }
    CharInfo {
        exists: true,
        width: tables.widths[usize::from(indices.width)],
        height: tables.heights[usize::from(indices.height)],
        depth: tables.depths[usize::from(indices.depth)],
        program: indices.program,
    }
}

/// A table with room for each index that a byte may hold.
fn no_sizes() -> [i32; 256]
    ensures { length result ≡ 256 }
{
    [0; 256]
}

/// The entries of the 256 codes.
fn characters(
    alloc: Global,
    tables: &Tables,
    indices: &[Indices; 256],
) -> Result<Items<CharInfo>, AllocError>
    ensures { IfOk result (λ chars. chars
        ≡ entries (λ code. char_by tables.now (slice_index_or indices.now code no_indices)) 256) }
{
    let mut chars = Vec::with_capacity(alloc, 256)?;
    for code in 0..256 {
        chars.push(char_by(tables, &indices[code]))?;
    }
    Ok(Items::from_vec(chars))
}

/// Reads the char_info words and the tables of sizes that they point into.
pub fn read_characters(
    alloc: Global,
    bytes: &[u8],
    lengths: &Lengths,
) -> Result<Items<CharInfo>, TfmFault>
    requires { IsLaidOut bytes.now lengths.now }
    ensures { Answers result (characters_fault bytes.now lengths.now)
        (AreChars bytes.now lengths.now) }
{
    let places = lengths.places();
    let indices = read_indices(bytes, lengths, places.chars)?;
    let mut widths = no_sizes();
    let mut heights = no_sizes();
    let mut depths = no_sizes();
    read_table(
        bytes,
        places.widths,
        usize::from(lengths.widths),
        &mut widths,
    )?;
    read_table(
        bytes,
        places.heights,
        usize::from(lengths.heights),
        &mut heights,
    )?;
    read_table(
        bytes,
        places.depths,
        usize::from(lengths.depths),
        &mut depths,
    )?;
    read_table(bytes, places.italics, usize::from(lengths.italics), &mut [])?;
    let tables = Tables {
        widths,
        heights,
        depths,
    };
    Ok(characters(alloc, &tables, &indices)?)
}

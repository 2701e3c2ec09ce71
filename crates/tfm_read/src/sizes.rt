//! The tables of sizes: widths, heights, depths and italic corrections, kerns and parameters.

ghost use Rattle.std.specs.Prelude.{◌≡◌, ◌+◌, ◌*◌, ◌≤◌, ◌<◌, length};
ghost use Rattle.tfm_read.specs.Checks.{Answers, table_check, fix_check, param_check};
ghost use Rattle.tfm_read.specs.Entries.{first_of};
ghost use Rattle.tfm_read.specs.Sizes.{IsSize, IsParam, IsTable, AreKerns, AreParamsOf};

use crate::fault::{TfmFault, TfmFaultKind, fault};
use crate::words::{is_fix_word, signed_number, unsigned_number, word_at};
use items::Items;
use std::alloc::Global;

/// Reads a table of `count` words from `place` on, as far as `table` has room. Its first word is 0.
pub fn read_table(
    bytes: &[u8],
    place: usize,
    count: usize,
    table: &mut [i32],
) -> Result<(), TfmFault>
    requires within { 4 * (place + count) ≤ length bytes.now }
    requires few { place + count < 32768 }
    ensures { Answers result (first_of (table_check bytes.now place) count)
        (λ _. IsTable bytes.now place count table.new) }
{
    for i in 0..count {
        let size = table_word(bytes, place, i)?;
        if i < table.len() {
            table[i] = size;
        }
    }
    Ok(())
}

/// Reads the kerns, `count` of them from `place` on.
pub fn read_kerns(
    alloc: Global,
    bytes: &[u8],
    place: usize,
    count: usize,
) -> Result<Items<i32>, TfmFault>
    requires within { 4 * (place + count) ≤ length bytes.now }
    requires few { place + count < 32768 }
    ensures { Answers result (first_of (fix_check bytes.now place) count)
        (AreKerns bytes.now place count) }
{
    let mut kerns = Items::new(alloc);
    for i in 0..count {
        let size = size_at(bytes, place, i)?;
        kerns.push(size)?;
    }
    Ok(kerns)
}

/// Reads the parameters, `count` of them from `place` on. Those past the seventh are dropped.
pub fn read_params(bytes: &[u8], place: usize, count: usize) -> Result<[i32; 7], TfmFault>
    requires within { 4 * (place + count) ≤ length bytes.now }
    requires few { place + count < 32768 }
    ensures { Answers result (first_of (param_check bytes.now place) count)
        (AreParamsOf bytes.now place count) }
{
    let mut params = [0; 7];
    for i in 0..count {
        let size = param_at(bytes, place, i)?;
        if i < 7 {
            params[i] = size;
        }
    }
    Ok(params)
}

/// The size at word `i` from `place` on: its first byte is 0 or 255, so it is from -16 to 16.
#[tactic(auto, unfolding(crate::specs::Checks::fix_check))]
fn size_at(bytes: &[u8], place: usize, i: usize) -> Result<i32, TfmFault>
    requires within { 4 * (place + i) + 4 ≤ length bytes.now }
    requires few { place + i < 32768 }
    ensures { Answers result (fix_check bytes.now place i) (IsSize bytes.now place i) }
{
    let word = word_at(bytes, place + i);
    if !is_fix_word(word) {
        return Err(fault(TfmFaultKind::BadFix, place + i));
    }
    Ok(signed_number(word))
}

/// Word `i` of a table of sizes.
#[tactic(auto, unfolding(crate::specs::Checks::table_check))]
fn table_word(bytes: &[u8], place: usize, i: usize) -> Result<i32, TfmFault>
    requires within { 4 * (place + i) + 4 ≤ length bytes.now }
    requires few { place + i < 32768 }
    ensures { Answers result (table_check bytes.now place i) (IsSize bytes.now place i) }
{
    if i > 0 {
        return size_at(bytes, place, i);
    }
    if unsigned_number(word_at(bytes, place)) != 0 {
        return Err(fault(TfmFaultKind::NotZeroFirst, place));
    }
    Ok(0)
}

/// Parameter `i`. The slant, which is the first, may be any number.
#[tactic(auto, unfolding(crate::specs::Checks::param_check))]
fn param_at(bytes: &[u8], place: usize, i: usize) -> Result<i32, TfmFault>
    requires within { 4 * (place + i) + 4 ≤ length bytes.now }
    requires few { place + i < 32768 }
    ensures { Answers result (param_check bytes.now place i) (IsParam bytes.now place i) }
{
    if i > 0 {
        return size_at(bytes, place, i);
    }
    Ok(signed_number(word_at(bytes, place)))
}

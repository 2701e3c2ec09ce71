//! The lengths at the head of a file, and the checks of the file as a whole.

ghost use Rattle.std.specs.Prelude.{◌≡◌, ◌+◌, ◌*◌, ◌≤◌, ◌<◌, length};
ghost use Rattle.tfm_read.specs.Checks.{Answers, lengths_fault, parts_fault, sum_check, tables_fault, whole_check, design_fault, halfword_check};
ghost use Rattle.tfm_read.specs.Entries.{first_of};
ghost use Rattle.tfm_read.specs.Layout.{AreHalfwords, AreLengths, HasTables, IsLaidOut, IsDesignOf};
ghost use Rattle.tfm_read.specs.Lengths.{lengths_of, places_of};
ghost use Rattle.tfm_read.specs.Words.{halfword_at, unsigned_at};

use crate::fault::{TfmFault, TfmFaultKind, fault};
use crate::lengths::Lengths;
use crate::words::{halfword_at, unsigned_number, word_at};

/// The first twelve halfwords, each below 2^15.
fn read_halfwords(bytes: &[u8]) -> Result<[u16; 12], TfmFault>
    requires { 24 ≤ length bytes.now }
    ensures { Answers result (first_of (halfword_check bytes.now) 12) (AreHalfwords bytes.now) }
{
    let mut halfwords = [0; 12];
    for n in 0..12 {
        let halfword = halfword_at(bytes, n);
        if halfword >= 0x8000 {
            return Err(fault(TfmFaultKind::BadRange, n / 2));
        }
        halfwords[n] = halfword;
    }
    Ok(halfwords)
}

/// The lengths of the parts, and the range of the codes.
#[tactic(auto, unfolding(crate::specs::Checks::lengths_fault, crate::specs::Entries::entries))]
pub fn read_lengths(bytes: &[u8]) -> Result<Lengths, TfmFault>
    ensures { Answers result (lengths_fault bytes.now) (AreLengths bytes.now) }
{
    if bytes.len() < 24 {
        return Err(fault(TfmFaultKind::Short, bytes.len() / 4));
    }
    let [
        file,
        header,
        first_code,
        last_code,
        widths,
        heights,
        depths,
        italics,
        ligs,
        kerns,
        recipes,
        params,
    ] = read_halfwords(bytes)?;
    if header < 2 {
        return Err(fault(TfmFaultKind::BadRange, 0));
    }
    if first_code > last_code + 1 || last_code > 255 {
        return Err(fault(TfmFaultKind::BadRange, 1));
    }
    Ok(Lengths {
        file,
        header,
        first_code,
        last_code,
        widths,
        heights,
        depths,
        italics,
        ligs,
        kerns,
        recipes,
        params,
    })
}

/// Checks that the parts make up the file.
fn check_sum(lengths: &Lengths) -> Result<(), TfmFault>
    requires codes { lengths.now.first_code ≤ lengths.now.last_code + 1 }
    requires last { lengths.now.last_code ≤ 255 }
    ensures { Answers result (sum_check lengths.now)
        (λ _. lengths.now.file ≡ (places_of lengths.now).end) }
{
    if usize::from(lengths.file) != lengths.places().end {
        return Err(fault(TfmFaultKind::LengthsDisagree, 0));
    }
    Ok(())
}

/// Checks that no table of sizes is empty.
#[tactic(auto, unfolding(crate::specs::Checks::tables_fault))]
fn check_tables(lengths: &Lengths) -> Result<(), TfmFault>
    ensures { Answers result (tables_fault lengths.now) (λ _. HasTables lengths.now) }
{
    if lengths.widths == 0 {
        return Err(fault(TfmFaultKind::EmptyTable, 2));
    }
    if lengths.heights == 0 {
        return Err(fault(TfmFaultKind::EmptyTable, 2));
    }
    if lengths.depths == 0 {
        return Err(fault(TfmFaultKind::EmptyTable, 3));
    }
    if lengths.italics == 0 {
        return Err(fault(TfmFaultKind::EmptyTable, 3));
    }
    Ok(())
}

/// Checks that the words of the file are there.
fn check_whole(bytes: &[u8], lengths: &Lengths) -> Result<(), TfmFault>
    ensures { Answers result (whole_check bytes.now lengths.now)
        (λ _. 4 * lengths.now.file ≤ length bytes.now) }
{
    if bytes.len() < 4 * usize::from(lengths.file) {
        return Err(fault(TfmFaultKind::Short, bytes.len() / 4));
    }
    Ok(())
}

/// Checks the file as a whole: that the parts make it up, that no table of sizes is empty, and that
/// its words are there, in this order.
#[tactic(auto, unfolding(crate::specs::Checks::parts_fault))]
pub fn check_parts(bytes: &[u8], lengths: &Lengths) -> Result<(), TfmFault>
    requires { AreLengths bytes.now lengths.now }
    ensures { Answers result (parts_fault bytes.now lengths.now)
        (λ _. IsLaidOut bytes.now lengths.now) }
{
    check_sum(lengths)?;
    check_tables(lengths)?;
    check_whole(bytes, lengths)?;
    Ok(())
}

/// The design size in sp. It is at least 1pt, in units of 2^-20 pt as a signed number.
#[tactic(auto, unfolding(crate::specs::Checks::design_fault))]
pub fn read_design(bytes: &[u8]) -> Result<i32, TfmFault>
    requires { 32 ≤ length bytes.now }
    ensures { Answers result (design_fault bytes.now) (IsDesignOf bytes.now) }
{
    let design = unsigned_number(word_at(bytes, 7));
    if design < 1 << 20 || design >= 1 << 31 {
        return Err(fault(TfmFaultKind::DesignTooSmall, 7));
    }
    Ok((design / 16) as i32)
}

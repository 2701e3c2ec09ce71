//! The commands of a DVI file, each with the number that it carries.
ghost use Rattle.std.specs.Prelude.{◌≡◌, ◌<◌, ◌≤◌, ◌+◌, ◌++◌, length, take, OnOk, unsigned_abs};
ghost use Rattle.byteorder.specs.Endian.{big_bytes};
ghost use Rattle.dvi_write.specs.Output.{grown};
ghost use Rattle.dvi_write.specs.Commands.{spell, spell_all, pointer, signed_bytes};
ghost use Rattle.dvi_write.specs.Document.{right, down, select, set_code};

use crate::gathering::gather;
use crate::opcodes::{
    DOWN1, DOWN2, DOWN3, DOWN4, FNT_NUM_0, FNT1, FNT2, RIGHT1, RIGHT2, RIGHT3, RIGHT4, SET1,
};
use crate::output::Output;
use byteorder::{BigEndian, ByteOrder};
use micro_num::{NoMemory, Sp};

/// Gathers a move right: nothing for 0, else the command for as few bytes as the distance needs.
#[inline(always)]
#[tactic(auto, unfolding(crate::specs::Commands::spell_all, crate::specs::Document::right))]
pub(crate) fn gather_right(gathered: &mut [u8; 64], count: usize, distance: Sp) -> usize
    requires { count ≤ 59 }
    ensures bytes { take result gathered.new
        ≡ take count gathered.old ++ spell_all (right distance) }
    ensures few { result ≤ count + 5 }
{
    if distance.unsigned_abs() == 0 {
        count
    } else {
        gather_move_right(gathered, count, distance)
    }
}

/// Gathers a move right that isn't 0.
#[tactic(auto, unfolding(crate::specs::Commands::spell, crate::specs::Commands::spell_all, crate::specs::Document::right))]
fn gather_move_right(gathered: &mut [u8; 64], count: usize, distance: Sp) -> usize
    requires room { count ≤ 59 }
    requires far { 0 < unsigned_abs distance }
    ensures bytes { take result gathered.new
        ≡ take count gathered.old ++ spell_all (right distance) }
    ensures few { result ≤ count + 5 }
{
    let size = distance.unsigned_abs();
    let mut number = [0; 4];
    BigEndian::write_i32(&mut number, distance);
    let [high, upper, lower, low] = number;
    if size < 0x80 {
        gather(gathered, count, &[RIGHT1, low])
    } else if size < 0x8000 {
        gather(gathered, count, &[RIGHT2, lower, low])
    } else if size < 0x80_0000 {
        gather(gathered, count, &[RIGHT3, upper, lower, low])
    } else {
        gather(gathered, count, &[RIGHT4, high, upper, lower, low])
    }
}

/// How many bytes a move right has.
#[tactic(auto, unfolding(crate::specs::Commands::spell, crate::specs::Commands::spell_all, crate::specs::Document::right))]
pub(crate) fn right_length(distance: Sp) -> u64
    ensures exact { result ≡ length (spell_all (right distance)) }
    ensures few { result ≤ 5 }
{
    let size = distance.unsigned_abs();
    let command = (size > 0) as u64 + (size > 0) as u64;
    command + (size >= 0x80) as u64 + (size >= 0x8000) as u64 + (size >= 0x80_0000) as u64
}

/// Puts a move down, as one to the right is gathered.
#[tactic(auto, using(crate::proofs::Grown::grown_nothing), unfolding(crate::specs::Commands::spell, crate::specs::Commands::spell_all, crate::specs::Document::down))]
pub(crate) fn put_down(out: &mut Output, distance: Sp) -> Result<(), NoMemory>
    ensures { OnOk result (out.new ≡ grown out.old (spell_all (down distance))) }
{
    let size = distance.unsigned_abs();
    if size == 0 {
        return Ok(());
    }
    let mut number = [0; 4];
    BigEndian::write_i32(&mut number, distance);
    let [high, upper, lower, low] = number;
    if size < 0x80 {
        out.put(&[DOWN1, low])
    } else if size < 0x8000 {
        out.put(&[DOWN2, lower, low])
    } else if size < 0x80_0000 {
        out.put(&[DOWN3, upper, lower, low])
    } else {
        out.put(&[DOWN4, high, upper, lower, low])
    }
}

/// Puts the selection of the font of this number.
#[tactic(auto, unfolding(crate::specs::Commands::spell, crate::specs::Document::select))]
pub(crate) fn put_selection(out: &mut Output, number: u32) -> Result<(), NoMemory>
    ensures { OnOk result (out.new ≡ grown out.old (spell (select number))) }
{
    let mut bytes = [0; 4];
    BigEndian::write_u32(&mut bytes, number);
    let [_, _, high, low] = bytes;
    if number < 64 {
        out.put(&[FNT_NUM_0 + number as u8])
    } else if number < 256 {
        out.put(&[FNT1, low])
    } else {
        out.put(&[FNT2, high, low])
    }
}

/// Gathers a glyph by its code.
#[inline(always)]
#[tactic(auto, unfolding(crate::specs::Commands::spell, crate::specs::Document::set_code))]
pub(crate) fn gather_code(gathered: &mut [u8; 64], count: usize, code: u8) -> usize
    requires { count ≤ 62 }
    ensures bytes { take result gathered.new ≡ take count gathered.old ++ spell (set_code code) }
    ensures few { result ≤ count + 2 }
{
    if code < SET1 {
        gather(gathered, count, &[code])
    } else {
        gather(gathered, count, &[SET1, code])
    }
}

/// How many bytes a glyph's code has.
#[tactic(auto, unfolding(crate::specs::Commands::spell, crate::specs::Document::set_code))]
pub(crate) fn code_length(code: u8) -> u64
    ensures exact { result ≡ length (spell (set_code code)) }
    ensures few { result ≤ 2 }
{
    1 + (code >= SET1) as u64
}

/// Puts a number in four bytes.
pub(crate) fn put_number(out: &mut Output, number: u32) -> Result<(), NoMemory>
    ensures { OnOk result (out.new ≡ grown out.old (big_bytes 4 number)) }
{
    let mut bytes = [0; 4];
    BigEndian::write_u32(&mut bytes, number);
    out.put(&bytes)
}

/// Puts a signed number in four bytes.
pub(crate) fn put_signed(out: &mut Output, number: i32) -> Result<(), NoMemory>
    ensures { OnOk result (out.new ≡ grown out.old (signed_bytes 4 number)) }
{
    let mut bytes = [0; 4];
    BigEndian::write_i32(&mut bytes, number);
    out.put(&bytes)
}

/// Puts a place by its low four bytes.
pub(crate) fn put_place(out: &mut Output, place: u64) -> Result<(), NoMemory>
    ensures { OnOk result (out.new ≡ grown out.old (big_bytes 4 place)) }
{
    let mut bytes = [0; 8];
    BigEndian::write_u64(&mut bytes, place);
    let [_, _, _, _, high, upper, lower, low] = bytes;
    out.put(&[high, upper, lower, low])
}

/// Puts the place of a page, or -1 where there is none.
pub(crate) fn put_pointer(out: &mut Output, place: Option<u64>) -> Result<(), NoMemory>
    ensures { OnOk result (out.new ≡ grown out.old (pointer place)) }
{
    match place {
        Some(place) => put_place(out, place),
        None => put_signed(out, -1),
    }
}

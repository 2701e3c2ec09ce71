//! The places of a table's words, and what the words stand for.
ghost use Rattle.std.specs.Prelude.{◌≡◌, ◌+◌, ◌*◌, ◌<◌, pos, ◌+ℤ◌, nat_lt, Some, None, if◌then◌else◌};
ghost use Rattle.instance_core.specs.Instances.{instance_width};
ghost use Rattle.instance_table.specs.Places.{cell_count, cell_of_number};
ghost use Rattle.instance_table.specs.Seats.{seen_by};

use crate::answers::Seen;
use instance_core::{Bases, cell_of};
use micro_num::Sp;

/// The place of a cell's state.
pub fn state_place(cell: u32) -> usize
    ensures { result ≡ 1 + 257 * cell }
{
    1 + 257 * cell as usize
}

/// The place of a width of a cell.
pub fn width_place(cell: u32, code: u8) -> usize
    ensures { result ≡ 2 + 257 * cell + code }
{
    2 + 257 * cell as usize + code as usize
}

/// What the word of a state says.
pub fn seen_by(word: u64) -> Seen
    ensures { result ≡ seen_by word }
{
    if word == 0 {
        return Seen::Empty;
    }
    if word == 1 {
        return Seen::Built;
    }
    Seen::Building
}

/// The width of a character in the instance of a cell.
pub fn cell_width(bases: &Bases, cell: u32, code: u8) -> Sp
    requires { cell < cell_count bases.now }
    ensures { result ≡ instance_width bases.now (cell_of_number bases.now cell) code }
{
    bases.width(cell_of(bases, cell), code)
}

/// A width as a word, 2^31 more than it.
pub fn stored_word(width: Sp) -> u64
    ensures fits { result < 4294967296 }
    ensures exact { pos result ≡ width +ℤ pos 2147483648 }
{
    (width as i64 + 2147483648) as u64
}

/// The width that a word stands for.
pub fn loaded_width(word: u64) -> Sp
    requires { word < 4294967296 }
    ensures { pos word ≡ result +ℤ pos 2147483648 }
{
    (word as i64 - 2147483648) as i32
}

/// A number of the count, where it is below the draws.
pub fn draw_below(draw: u64, draws: u32) -> Option<u32>
    ensures { result ≡ (if nat_lt draw draws then Some draw else None) }
{
    if draw >= draws as u64 {
        return None;
    }
    Some(draw as u32)
}

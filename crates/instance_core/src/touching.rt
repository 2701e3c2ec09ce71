//! A list that stays in cell order while cells are put into it, by a mark for each cell.
ghost use Rattle.std.specs.Prelude.{◌≡◌, ◌≤◌, ◌<◌, true, length, take, count_by, insert, slice_set, vec_len, vec_capacity};

use crate::cell::Cell;

/// Marks an element and puts it into the list of those marked, behind those marked before it. The
/// list has room.
pub fn put_in_order(asked: &mut Vec<bool>, cells: &mut Vec<Cell>, number: usize, cell: Cell)
    requires within { number < length asked.old.items }
    requires room { length cells.old.items < vec_capacity cells.old }
    requires few { count_by (λ m. m) (take number asked.old.items) ≤ length cells.old.items }
    ensures marks { asked.new.items ≡ slice_set asked.old.items number true }
    ensures cells { let place = count_by (λ m. m) (take number asked.old.items) in
        cells.new.items ≡ insert cells.old.items place cell }
    ensures capacity { vec_capacity cells.new ≡ vec_capacity cells.old }
{
    let place = asked[..number].iter().filter(|asked| **asked).count();
    asked[number] = true;
    match cells.insert(place, cell) {
        Ok(()) => (),
        Err(_refused) => unreachable!(),
    }
}

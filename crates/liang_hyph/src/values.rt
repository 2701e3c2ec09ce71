//! The values at the places of a word, raised by one occurrence of a pattern after the other.
ghost use Rattle.std.specs.Prelude.{◌≡◌, ◌==◌, ◌&&◌, ℕ, ◌<◌, ◌≤◌, ◌+◌, nat_le, ◌%◌, max, length, slice_index, IfOk};
ghost use Rattle.std.specs.List.{All, list_any};
ghost use Rattle.std.specs.List.Sorted.{IsStrictlyIncreasing};
ghost use Rattle.liang_hyph.specs.Places.{value_at, margin, places_within};

use micro_num::NoMemory;
use std::alloc::Global;

/// How many places the longest word has, those before its first letter and after its last counted.
pub(crate) const PLACES: usize = 64;

/// Raises the values to those of a row that begins at the place `at`.
pub(crate) fn raise(values: &mut [u8], at: usize, row: &[u8])
    ensures { (h : ℕ) → h < length values.old → slice_index values.new h
        ≡ max (slice_index values.old h) (value_at row.now at h) }
{
    for h in at..values.len() {
        match row.get(h - at) {
            Some(value) => values[h] = values[h].max(*value),
            None => break,
        }
    }
}

/// Values that are odd at the listed places alone.
pub(crate) fn odd_at(places: &[u8]) -> [u8; PLACES]
    ensures { (h : ℕ) → h < 64 → (slice_index result h % 2 == 1)
        ≡ list_any (λ place. place == h) places.now }
{
    let mut values = [0; PLACES];
    for place in places {
        let place = usize::from(*place);
        if place < PLACES {
            values[place] = 1;
        }
    }
    values
}

/// A margin, brought into 1 to 63.
fn clamp_margin(letters: i32) -> usize
    ensures value { result ≡ margin letters }
    ensures low { 0 < result }
    ensures high { result ≤ 63 }
{
    letters.clamp(1, 63) as usize
}

/// Whether the word may be broken at a place with this value, `before` and `after` being its
/// margins.
fn allows_break(before: usize, after: usize, len: usize, h: usize, value: u8) -> bool
    requires margin { after ≤ 63 }
    requires place { h ≤ len }
    requires length { len < 64 }
    ensures { result ≡ (nat_le before h && nat_le (h + after) len && (value % 2 == 1)) }
{
    before <= h && h + after <= len && value % 2 == 1
}

/// The places between the margins where the value is odd, ascending.
pub(crate) fn odd_places(
    alloc: Global,
    values: &[u8; PLACES],
    len: usize,
    left: i32,
    right: i32,
) -> Result<Vec<u8>, NoMemory>
    requires { len < 64 }
    ensures read { IfOk result (λ places. places.items
        ≡ places_within len left right (λ h. slice_index values.now h % 2 == 1)) }
    ensures ascends { IfOk result (λ places. IsStrictlyIncreasing places.items) }
    ensures inside { IfOk result (λ places. All (λ h. (0 < h) × (h < len)) places.items) }
{
    let before = clamp_margin(left);
    let after = clamp_margin(right);
    let mut places = Vec::new(alloc);
    for h in 0..len + 1 {
        if allows_break(before, after, len, h, values[h]) {
            places.push(h as u8)?;
        }
    }
    Ok(places)
}

//! Two patterns with the same letters as one: the greater value at each place (Liang, Word
//! hy-phen-a-tion by com-put-er).
ghost use Rattle.std.specs.Prelude.{◌≡◌, ◌≤◌, ◌&&◌, ℕ, max, length, IfOk};
ghost use Rattle.std.specs.List.{All};
ghost use Rattle.liang_hyph.specs.Table.{IsMerged, IsListed, same_bool};
ghost use Rattle.liang_hyph.specs.Places.{value_at};

use crate::rows::Rows;
use crate::source::{Exception, Pattern};
use items::Items;
use micro_num::NoMemory;
use std::alloc::Global;

/// At each place the greater of two rows' values.
fn greater(alloc: Global, first: &[u8], second: &[u8]) -> Result<Items<u8>, NoMemory>
    ensures { IfOk result (λ both. (at h : ℕ)
        → value_at both at h ≡ max (value_at first.now at h) (value_at second.now at h)) }
{
    let len = first.len().max(second.len());
    let mut both = Vec::with_capacity(alloc, len)?;
    for k in 0..len {
        let one = first.get(k).copied().unwrap_or(0);
        let other = second.get(k).copied().unwrap_or(0);
        both.push(one.max(other))?;
    }
    Ok(Items::from_vec(both))
}

/// Whether a pattern has these marks.
fn has_marks(pattern: &Pattern, start: bool, end: bool) -> bool
    ensures { result ≡ (same_bool pattern.now.start start && same_bool pattern.now.end end) }
{
    pattern.start == start && pattern.end == end
}

/// The patterns of one kind, those with equal letters merged by the greater value at each place.
pub(crate) fn merge(
    alloc: Global,
    patterns: &[Pattern],
    start: bool,
    end: bool,
) -> Result<Rows, NoMemory>
    ensures { IfOk result (IsMerged patterns.now start end) }
{
    let mut rows = Rows::new(alloc);
    for pattern in patterns {
        if has_marks(pattern, start, end) {
            let letters = pattern.letters.as_slice();
            let values = greater(alloc, rows.row(letters), pattern.values.as_slice())?;
            rows.put(alloc, letters, values)?;
        }
    }
    Ok(rows)
}

/// The places of the exceptions. Of two exceptions with the same letters the later holds.
pub(crate) fn list_exceptions(alloc: Global, exceptions: &[Exception]) -> Result<Rows, NoMemory>
    ensures { IfOk result (IsListed exceptions.now) }
{
    let mut rows = Rows::new(alloc);
    for exception in exceptions {
        let places = Items::from_slice(alloc, exception.places.as_slice())?;
        rows.put(alloc, exception.letters.as_slice(), places)?;
    }
    Ok(rows)
}

/// How many letters the longest pattern has, 0 where there is no pattern.
pub(crate) fn longest(patterns: &[Pattern]) -> usize
    ensures { All (λ p. length p.letters ≤ result) patterns.now }
{
    let mut longest = 0;
    for pattern in patterns {
        longest = pattern.letters.len().max(longest);
    }
    longest
}

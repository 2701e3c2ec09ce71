//! Patterns and exceptions ready to be looked up, and the hyphen places of a word by them (TeX: The
//! Program, part 40; Liang, Word hy-phen-a-tion by com-put-er).
ghost use Rattle.std.specs.Prelude.{◌≡◌, ◌==◌, ◌+◌, ◌-◌, ◌%◌, ◌<◌, ◌≤◌, ℕ, max, length, slice_index, IfOk};
ghost use Rattle.std.specs.Prelude.{true};
ghost use Rattle.std.specs.List.{All};
ghost use Rattle.std.specs.List.Sorted.{IsStrictlyIncreasing};
ghost use Rattle.std.specs.Map.{lookup};
ghost use Rattle.std.specs.Str.{bytes_eq};
ghost use Rattle.liang_hyph.specs.Greatest.{greatest_below};
ghost use Rattle.liang_hyph.specs.Places.{is_break};
ghost use Rattle.liang_hyph.specs.Table.{IsMadeOf, IsSilent, places_read, value_read, value_of_part};

use crate::merge::{list_exceptions, longest, merge};
use crate::rows::Rows;
use crate::source::{Exception, Pattern};
use crate::values::{PLACES, odd_at, odd_places, raise};
use micro_num::NoMemory;
use std::alloc::Global;
use std::marker::Model;

/// The patterns and exceptions of a language, merged into tables keyed by letters.
#[derive(Drop)]
pub struct Patterns {
    anywhere: Rows,
    at_start: Rows,
    at_end: Rows,
    as_word: Rows,
    exceptions: Rows,
    longest: usize,
}

impl Model for Patterns {
    ghost use Rattle.liang_hyph.specs.Table.{PatternTable, IsSilentPast};

    ghost Value = { PatternTable };

    ghost view = { λ p. record {
      anywhere = p.anywhere;
      at_start = p.at_start;
      at_end = p.at_end;
      as_word = p.as_word;
      exceptions = p.exceptions;
    } };

    ghost invariant = { λ p. IsSilentPast p.longest (record {
      anywhere = p.anywhere;
      at_start = p.at_start;
      at_end = p.at_end;
      as_word = p.as_word;
      exceptions = p.exceptions;
    }) };
}

impl Patterns {
    /// Merges patterns and exceptions into a table. Patterns with the same letters and marks become
    /// one, with the greater value at each place; of two exceptions with the same letters the later
    /// holds. It fails only for want of memory.
    pub fn make(
        alloc: Global,
        patterns: &[Pattern],
        exceptions: &[Exception],
    ) -> Result<Patterns, NoMemory>
        ensures { IfOk result (λ table. IsMadeOf table patterns.now exceptions.now) }
    {
        Ok(Patterns {
            anywhere: merge(alloc, patterns, false, false)?,
            at_start: merge(alloc, patterns, true, false)?,
            at_end: merge(alloc, patterns, false, true)?,
            as_word: merge(alloc, patterns, true, true)?,
            exceptions: list_exceptions(alloc, exceptions)?,
            longest: longest(patterns),
        })
    }

    /// Whether there are no patterns and no exceptions. Then no word may be hyphenated.
    pub fn is_empty(&self) -> bool
        ensures { result ≡ true → IsSilent self.now }
    {
        let anywhere = self.anywhere.is_empty();
        let at_start = self.at_start.is_empty();
        let at_end = self.at_end.is_empty();
        let as_word = self.as_word.is_empty();
        let exceptions = self.exceptions.is_empty();
        anywhere & at_start & at_end & as_word & exceptions
    }

    /// The places of a word of 1 to 63 letters where it may be hyphenated, ascending. A place is
    /// the number of letters before it; at least `left` letters stand before each place and at
    /// least `right` after it, where a margin below 1 counts as 1 and one above 63 as 63. A word
    /// that is an exception has the exception's places, any other those where the greatest value of
    /// all patterns that occur in it is odd. It fails only for want of memory.
    pub fn places(
        &self,
        alloc: Global,
        word: &[u8],
        left: i32,
        right: i32,
    ) -> Result<Vec<u8>, NoMemory>
        requires not_empty { 0 < length word.now }
        requires short { length word.now ≤ 63 }
        ensures read { IfOk result (λ places.
            places.items ≡ places_read self.now word.now left right) }
        ensures ascends { IfOk result (λ places. IsStrictlyIncreasing places.items) }
        ensures inside { IfOk result (λ places.
            All (λ h. (0 < h) × (h < length word.now)) places.items) }
    {
        let values = self.values(word);
        odd_places(alloc, &values, word.len(), left, right)
    }

    /// Values that are odd at the places where the word may be broken.
    fn values(&self, word: &[u8]) -> [u8; PLACES]
        requires { length word.now ≤ 63 }
        ensures { (h : ℕ) → h < 64 → (slice_index result h % 2 == 1)
            ≡ is_break (lookup (bytes_eq word.now) self.now.exceptions)
            (value_read self.now word.now h) h }
    {
        match self.exceptions.find(word) {
            Some(places) => odd_at(places),
            None => self.values_of_parts(word),
        }
    }

    /// At each place of the word the greatest value that a part of the word has there.
    fn values_of_parts(&self, word: &[u8]) -> [u8; PLACES]
        requires { length word.now ≤ 63 }
        ensures { (h : ℕ) → h < 64 → slice_index result h ≡ value_read self.now word.now h }
    {
        let mut values = [0; PLACES];
        for at in 0..word.len() + 1 {
            self.raise_parts(&mut values, word, at);
        }
        values
    }

    /// Raises the values to those of the parts of the word that begin after `at` letters. None is
    /// looked up that has more letters than the longest pattern.
    fn raise_parts(&self, values: &mut [u8; PLACES], word: &[u8], at: usize)
        requires short { length word.now ≤ 63 }
        requires inside { at ≤ length word.now }
        ensures { (h : ℕ) → h < 64 → slice_index values.new h
            ≡ max (slice_index values.old h)
            (greatest_below (λ count. value_of_part self.now word.now at count h)
            (length word.now - at + 1)) }
    {
        let most = self.longest.min(word.len() - at);
        for count in 0..most + 1 {
            self.raise_part(values, word, at, count);
        }
    }

    /// Raises the values to those of the rows under `count` letters of the word after its first
    /// `at`.
    fn raise_part(&self, values: &mut [u8; PLACES], word: &[u8], at: usize, count: usize)
        requires short { length word.now ≤ 63 }
        requires inside { at + count ≤ length word.now }
        ensures { (h : ℕ) → h < 64 → slice_index values.new h
            ≡ max (slice_index values.old h) (value_of_part self.now word.now at count h) }
    {
        let letters = &word[at..at + count];
        let starts = at == 0;
        let ends = at + count == word.len();
        raise(values, at, self.anywhere.row(letters));
        raise(values, at, self.at_start.row_if(starts, letters));
        raise(values, at, self.at_end.row_if(ends, letters));
        raise(values, at, self.as_word.row_if(starts && ends, letters));
    }
}

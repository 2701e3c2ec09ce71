//! Tests of what no clause says: that tables are made and places are found, with memory enough.
ghost use Rattle.std.specs.Prelude.{◌≡◌, ◌<◌, ◌≤◌, length, IfOk};
ghost use Rattle.liang_hyph.specs.Places.{places_of};

use crate::{Exception, Pattern, Patterns};
use items::Items;
use micro_num::NoMemory;
use std::alloc::{AllocError, Global};
use std::process::Abort;

/// The places that lists of patterns and exceptions give a word: the two calls together.
fn places_by_lists(
    alloc: Global,
    patterns: &[Pattern],
    exceptions: &[Exception],
    word: &[u8],
    left: i32,
    right: i32,
) -> Result<Vec<u8>, NoMemory>
    requires not_empty { 0 < length word.now }
    requires short { length word.now ≤ 63 }
    ensures { IfOk result (λ places.
        places.items ≡ places_of patterns.now exceptions.now word.now left right) }
{
    let table = Patterns::make(alloc, patterns, exceptions)?;
    table.places(alloc, word, left, right)
}

/// A pattern as it is written, as `.hy3ph`.
fn pattern<R: Abort>(rt: &R, alloc: Global, text: &str) -> Result<Pattern, AllocError> {
    let mut letters = Vec::new(alloc);
    let mut values = vec![in alloc; 0]?;
    let mut start = false;
    let mut end = false;
    for byte in text.as_bytes() {
        match *byte {
            b'.' if letters.is_empty() => start = true,
            b'.' => end = true,
            b'0'..=b'9' => {
                values.pop();
                values.push(*byte - b'0')?;
            }
            letter => {
                letters.push(letter)?;
                values.push(0)?;
            }
        }
    }
    let letters = Items::from_vec(letters);
    let values = Items::from_vec(values);
    assert!(rt; letters.len() < 64);
    assert!(rt; values.len() == letters.len() + 1);
    Ok(Pattern {
        letters,
        values,
        start,
        end,
    })
}

/// An exception as it is written, as `of-f-ice`.
fn exception<R: Abort>(rt: &R, alloc: Global, text: &str) -> Result<Exception, AllocError> {
    let mut letters = Vec::new(alloc);
    let mut places = Vec::new(alloc);
    for byte in text.as_bytes() {
        if *byte == b'-' {
            assert!(rt; letters.len() < 64);
            places.push(letters.len() as u8)?;
        } else {
            letters.push(*byte)?;
        }
    }
    Ok(Exception {
        letters: Items::from_vec(letters),
        places: Items::from_vec(places),
    })
}

/// The word with a hyphen at each of its places.
fn hyphenated<R: Abort>(
    rt: &R,
    alloc: Global,
    patterns: &str,
    exceptions: &str,
    word: &str,
    margins: (i32, i32),
) -> Result<String, AllocError> {
    let mut pattern_list = Vec::new(alloc);
    for text in patterns.split_whitespace() {
        pattern_list.push(pattern(rt, alloc, text)?)?;
    }
    let mut exception_list = Vec::new(alloc);
    for text in exceptions.split_whitespace() {
        exception_list.push(exception(rt, alloc, text)?)?;
    }
    let word = word.as_bytes();
    assert!(rt; !word.is_empty());
    assert!(rt; word.len() < 64);
    let places = places_by_lists(
        alloc,
        pattern_list.as_slice(),
        exception_list.as_slice(),
        word,
        margins.0,
        margins.1,
    );
    let places = places.expect(rt, "memory");
    let mut text = String::new(alloc);
    for (h, letter) in word.iter().enumerate() {
        if h < 64 && places.contains(&(h as u8)) {
            text.push('-')?;
        }
        text.push(char::from(*letter))?;
    }
    Ok(text)
}

const THESIS: &str = "hy3ph he2n hena4 hen5at 1na n2at 1tio 2io";

#[test]
fn words_by_patterns_and_exceptions(rt: HostRuntime) {
    let cases = [
        (THESIS, "", "hyphenation", (2, 3), "hy-phen-ation"),
        // Margins: those below 1 count as 1, a place may stand right at one, and too large ones
        // leave none.
        ("1a", "", "aaaa", (0, -5), "a-a-a-a"),
        ("1a", "", "aaaa", (2, 2), "aa-aa"),
        ("1a", "", "aaaa", (3, 2), "aaaa"),
        ("1a", "", "aaaa", (1, 70), "aaaa"),
        // Of equal patterns the greater value counts, whichever comes last.
        ("a1b a2b", "", "ab", (1, 1), "ab"),
        ("a2b a1b", "", "ab", (1, 1), "ab"),
        ("a2b a3b", "", "ab", (1, 1), "a-b"),
        ("a3b a2b", "", "ab", (1, 1), "a-b"),
        // A mark of the beginning or the end.
        (".a1", "", "aaa", (1, 1), "a-aa"),
        ("1a.", "", "aaa", (1, 1), "aa-a"),
        (".a1a1a.", "", "aaa", (1, 1), "a-a-a"),
        (".a1a1a.", "", "aaaa", (1, 1), "aaaa"),
        // The same letters with other marks are another pattern.
        ("1a .a1 2a.", "", "aaa", (1, 1), "a-aa"),
        // Of two exceptions with the same letters the later holds, against all patterns.
        ("1a", "aa-a", "aaa", (1, 1), "aa-a"),
        ("1a", "a-aa aa-a", "aaa", (1, 1), "aa-a"),
        ("1a", "aa-a aaa", "aaa", (1, 1), "aaa"),
        // Places that an exception lists at the ends or within a margin are none.
        ("", "-a-a-a-", "aaa", (2, 1), "aa-a"),
    ];
    for (patterns, exceptions, word, margins, want) in cases {
        let text = hyphenated(&rt, rt.alloc(), patterns, exceptions, word, margins).expect(
            &rt, "memory",
        );
        assert_eq!(rt; text.as_str(), want, "{patterns} {exceptions}");
    }
}

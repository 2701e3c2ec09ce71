//! The cases of hyphen places.
use items::Items;
use liang_hyph::{Exception, Pattern, Patterns};
use std::alloc::{AllocError, Global};

/// The hyphen places of each word, `-` where there is none, for a line as
/// `patterns hy3ph he2n; exceptions of-fice; word office 2 3`, with one word or several.
pub fn answer(alloc: Global, left: &str) -> Result<Option<String>, AllocError> {
    let Some((patterns, rest)) = left.split_once(';') else {
        return Ok(None);
    };
    let Some((exceptions, words)) = rest.split_once(';') else {
        return Ok(None);
    };
    match read_table(alloc, patterns, exceptions)? {
        Some(table) => places_of_words(alloc, &table, words),
        None => Ok(None),
    }
}

fn read_table(
    alloc: Global,
    patterns: &str,
    exceptions: &str,
) -> Result<Option<Patterns>, AllocError> {
    let Some(patterns) = read_patterns(alloc, patterns)? else {
        return Ok(None);
    };
    let Some(exceptions) = read_exceptions(alloc, exceptions)? else {
        return Ok(None);
    };
    match Patterns::make(alloc, patterns.as_slice(), exceptions.as_slice()) {
        Ok(table) => Ok(Some(table)),
        Err(_) => Err(AllocError),
    }
}

fn places_of_words(
    alloc: Global,
    table: &Patterns,
    words: &str,
) -> Result<Option<String>, AllocError> {
    let mut text = String::new(alloc);
    for word in words.split(';') {
        let Some(places) = places_of_word(alloc, table, word)? else {
            return Ok(None);
        };
        if !text.is_empty() {
            text.push_str("; ")?;
        }
        text.push_str(places.as_str())?;
    }
    Ok(Some(text))
}

/// A word and its margins.
#[derive(Drop)]
struct Asked<'a> {
    word: &'a str,
    left: i32,
    right: i32,
}

fn read_asked(text: &str) -> Option<Asked<'_>> {
    let (word, margins) = text.strip_prefix(" word ")?.split_once(' ')?;
    let (left, right) = margins.split_once(' ')?;
    let left = left.parse::<i32>().ok()?;
    let right = right.parse::<i32>().ok()?;
    Some(Asked { word, left, right })
}

fn places_of_word(
    alloc: Global,
    table: &Patterns,
    text: &str,
) -> Result<Option<String>, AllocError> {
    let Some(asked) = read_asked(text) else {
        return Ok(None);
    };
    let word = asked.word.as_bytes();
    if word.is_empty() || word.len() > 63 {
        return Ok(None);
    }
    let Ok(places) = table.places(alloc, word, asked.left, asked.right) else {
        return Err(AllocError);
    };
    Ok(Some(written(alloc, places.as_slice())?))
}

fn written(alloc: Global, places: &[u8]) -> Result<String, AllocError> {
    if places.is_empty() {
        return String::from_str(alloc, "-");
    }
    let mut text = String::new(alloc);
    for place in places {
        if !text.is_empty() {
            text.push(' ')?;
        }
        let one = format!(in alloc; "{place}")?;
        text.push_str(one.as_str())?;
    }
    Ok(text)
}

fn read_patterns(alloc: Global, text: &str) -> Result<Option<Vec<Pattern>>, AllocError> {
    let Some(text) = text.strip_prefix("patterns ") else {
        return Ok(None);
    };
    let mut patterns = Vec::new(alloc);
    for word in text.split_whitespace() {
        let Some(pattern) = read_pattern(alloc, word)? else {
            return Ok(None);
        };
        patterns.push(pattern)?;
    }
    Ok(Some(patterns))
}

/// A pattern as it is written, as `.hy3ph`.
fn read_pattern(alloc: Global, text: &str) -> Result<Option<Pattern>, AllocError> {
    let mut letters = Vec::new(alloc);
    let mut values = vec![in alloc; 0]?;
    let mut start = false;
    let mut end = false;
    for byte in text.as_bytes() {
        match *byte {
            b'.' if letters.is_empty() => start = true,
            b'.' => end = true,
            b'0'..=b'9' => {
                values.pop();
                values.push(*byte - b'0')?;
            }
            letter => {
                letters.push(letter)?;
                values.push(0)?;
            }
        }
    }
    if letters.len() > 63 || values.len() != letters.len() + 1 {
        return Ok(None);
    }
    Ok(Some(Pattern {
        letters: Items::from_vec(letters),
        values: Items::from_vec(values),
        start,
        end,
    }))
}

fn read_exceptions(alloc: Global, text: &str) -> Result<Option<Vec<Exception>>, AllocError> {
    let Some(text) = text.strip_prefix(" exceptions ") else {
        return Ok(None);
    };
    let mut exceptions = Vec::new(alloc);
    for word in text.split_whitespace() {
        let Some(exception) = read_exception(alloc, word)? else {
            return Ok(None);
        };
        exceptions.push(exception)?;
    }
    Ok(Some(exceptions))
}

/// An exception as it is written, as `of-f-ice`.
fn read_exception(alloc: Global, text: &str) -> Result<Option<Exception>, AllocError> {
    let mut letters = Vec::new(alloc);
    let mut places = Vec::new(alloc);
    for byte in text.as_bytes() {
        if letters.len() > 63 {
            return Ok(None);
        }
        if *byte == b'-' {
            places.push(letters.len() as u8)?;
        } else {
            letters.push(*byte)?;
        }
    }
    Ok(Some(Exception {
        letters: Items::from_vec(letters),
        places: Items::from_vec(places),
    }))
}

//! Answers the test vectors: one line for each line `KIND LEFT` of standard input.
//!
//! The vectors were computed by another program, so a stored run of this one shows that the crates
//! agree with it. A line of an unknown kind or out of form is answered `unknown`.
#![tactic(auto)]

mod breaks_text;
mod bytes;
mod documents;
mod fits;
mod fonts;
mod hyphenation;
mod items_text;
mod jobs;
mod ligatures;
mod lists;
mod numbers;
mod run_text;
mod set_lines;
mod tfm;
mod tokens;

use crate::lists::{Asked, Form};
use std::alloc::{AllocError, Global};
use std::io;
use std::io::{BufRead, BufReader};
use std::rt::Files;
use std::thread::Threads;

/// The answer to a line, or None where the line is of an unknown kind or out of form. Fonts are
/// read from the current folder.
fn answer<R: Files + Threads + Sync>(
    rt: &R,
    alloc: Global,
    line: &str,
) -> Result<Option<String>, AllocError> {
    let Some((kind, left)) = line.split_once(' ') else {
        return Ok(None);
    };
    match kind {
        "documents" => documents::answer(rt, alloc, left),
        "breaks" => lists::answer(rt, alloc, Form::Built, Asked::Breaks, left),
        "fits" => lists::fits_answer(rt, alloc, left),
        "fonts" => fonts::answer(rt, alloc, left),
        "hyphenation" => hyphenation::answer(alloc, left),
        "jobs" => jobs::answer(alloc, left),
        "ligatures" => ligatures::answer(rt, alloc, left),
        "lines" => lists::answer(rt, alloc, Form::Built, Asked::Lines, left),
        "hyphenated" => lists::answer(rt, alloc, Form::Hyphenated, Asked::Items, left),
        "lists" => lists::answer(rt, alloc, Form::Built, Asked::Items, left),
        "numbers" => numbers::answer(alloc, left),
        "tfm" => tfm::answer(rt, alloc, left),
        "tokens" => tokens::answer(alloc, left),
        _ => Ok(None),
    }
}

fn main(rt: HostRuntime) -> io::Result<()> {
    let lines = BufReader::new(rt.alloc(), rt.reader())?.lines(rt.alloc());
    for line in lines {
        match answer(&rt, rt.alloc(), line?.as_str())? {
            Some(text) => println!(rt; "{text}")?,
            None => println!(rt; "unknown")?,
        }
    }
    Ok(())
}

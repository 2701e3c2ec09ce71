//! Times how pages are numbered and written as a DVI file.
//!
//! `page_bench PAGES` says how many glyphs, fonts and bytes so many pages have, and
//! `page_bench PAGES ROUNDS` besides, for each round, how many microseconds numbering the pages,
//! writing them and copying the bytes took. The pages are lines of words, and the instance of the
//! font changes from line to line.
#![tactic(auto)]

mod draws;
mod setting;
mod timing;

use anyhow::Context;
use std::alloc::Global;
use std::{env, io};

/// The numbers on the command line.
fn numbers(rt: &HostRuntime) -> anyhow::Result<Vec<u16>> {
    let mut numbers = Vec::new(rt.alloc());
    for word in env::args(rt)?.skip(1) {
        numbers.push(word.as_str().parse::<u16>().context("reading a number")?)?;
    }
    Ok(numbers)
}

fn main(rt: HostRuntime) -> anyhow::Result<()> {
    let numbers = numbers(&rt)?;
    let count = numbers.first().copied().unwrap_or(0);
    let rounds = numbers.get(1).copied().unwrap_or(0);
    timing::run(&rt, rt.alloc(), count, rounds)
}

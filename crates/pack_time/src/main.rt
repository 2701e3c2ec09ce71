//! Times how lines are packed, with their fonts expanded and without.
//!
//! `pack_time LINES` says how many glyphs so many lines have and how many cells are asked for them,
//! and `pack_time LINES ROUNDS` besides, for each round, how many microseconds packing the lines
//! took where their fonts are expanded, the same over a table whose cells are built, where they are
//! not expanded, and copying their pieces. The lines are of sixteen words, each a little longer or
//! shorter than its width.
#![tactic(auto)]

mod draws;
mod metrics;
mod setting;
mod timing;

use anyhow::Context;
use std::alloc::Global;
use std::{env, io};

/// The numbers on the command line.
fn numbers(rt: &HostRuntime) -> anyhow::Result<Vec<u32>> {
    let mut numbers = Vec::new(rt.alloc());
    for word in env::args(rt)?.skip(1) {
        numbers.push(word.as_str().parse::<u32>().context("reading a number")?)?;
    }
    Ok(numbers)
}

fn main(rt: HostRuntime) -> anyhow::Result<()> {
    let numbers = numbers(&rt)?;
    let count = numbers.first().copied().unwrap_or(0);
    let rounds = numbers.get(1).copied().unwrap_or(0);
    timing::run(&rt, rt.alloc(), count, rounds)
}

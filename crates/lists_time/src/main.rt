//! Times how the horizontal lists of a job are built and hyphenated, beside a plain pass that
//! pushes the same items.
//!
//! It reads the file `job` and its fonts in the current folder, and prints the count of paragraphs,
//! the count of items, the count of discretionaries in the hyphenated lists, and the nanoseconds
//! that `build`, `hyphenated` and the plain pass over the built lists took for all of them, the
//! lists let go included. Without a job it prints nothing.
#![tactic(auto)]

mod plain_pass;

ghost use Rattle.std.specs.Prelude.{All, length};
ghost use Rattle.font_stock.specs.Sizes.{IsSize};
ghost use Rattle.hlist.specs.Bounds.{IsSmall, IsListOf};
ghost use Rattle.hlist_build.specs.Parts.{NamesFont};

use crate::plain_pass::copied;
use font_stock::Stock;
use hlist::{HList, Item};
use hlist_build::build;
use hlist_hyph::hyphenated;
use job_text::{Job, read_job};
use liang_hyph::Patterns;
use micro_num::{Par, Params, Tables};
use std::alloc::Global;
use std::io;
use std::rt::Files;
use std::time::{Clock, Instant};
use test_jobs::name_fonts;
use timed_jobs::{file_bytes, lost, no_memory, since, stock_of};

/// What all paragraphs came to.
#[derive(Drop)]
struct Totals {
    items: u64,
    discs: u64,
    build: u64,
    hyphenated: u64,
    plain: u64,
}

/// How many discretionaries there are.
fn count_discs(items: &[Item]) -> u64 {
    let mut count: u64 = 0;
    for item in items {
        if let Item::Disc { .. } = item {
            count = count.saturating_add(1);
        }
    }
    count
}

/// The hyphenated form of a list of the stock.
fn hyphenated_list(
    alloc: Global,
    list: &HList,
    params: &Params,
    tables: &Tables,
    patterns: &Patterns,
    stock: &Stock,
) -> io::Result<HList>
    requires small { IsSmall list.now }
    requires own { IsListOf stock.now list.now }
{
    hyphenated(alloc, list, params, tables, patterns, stock).map_err(no_memory)
}

/// Hyphenates a list and lets it go, and again to count its discretionaries.
fn time_hyphenated<C: Clock>(
    clock: &C,
    alloc: Global,
    list: &HList,
    params: &Params,
    tables: &Tables,
    patterns: &Patterns,
    stock: &Stock,
    totals: &mut Totals,
) -> io::Result<()>
    requires small { IsSmall list.now }
    requires own { IsListOf stock.now list.now }
{
    let start = Instant::now(clock)?;
    let first = hyphenated_list(alloc, list, params, tables, patterns, stock)?;
    drop(first);
    totals.hyphenated = totals.hyphenated.saturating_add(since(clock, &start)?);
    let made = hyphenated_list(alloc, list, params, tables, patterns, stock)?;
    totals.discs = totals
        .discs
        .saturating_add(count_discs(made.items.as_slice()));
    Ok(())
}

/// Builds a paragraph's list and lets it go, builds it again, hyphenates it, and pushes its items
/// plainly.
fn time_one<C: Clock>(
    clock: &C,
    alloc: Global,
    par: &Par,
    tables: &Tables,
    patterns: &Patterns,
    stock: &Stock,
    totals: &mut Totals,
) -> io::Result<()>
    requires { All (λ one. NamesFont (length stock.now) one.part) par.now.parts }
{
    let start = Instant::now(clock)?;
    let first = build(alloc, par, tables, stock).map_err(lost)?;
    drop(first);
    totals.build = totals.build.saturating_add(since(clock, &start)?);
    let list = build(alloc, par, tables, stock).map_err(lost)?;
    totals.items = totals.items.saturating_add(list.items.len() as u64);
    time_hyphenated(
        clock,
        alloc,
        &list,
        &par.params,
        tables,
        patterns,
        stock,
        totals,
    )?;
    let start = Instant::now(clock)?;
    let copy = copied(alloc, list.items.as_slice())?;
    drop(copy);
    totals.plain = totals.plain.saturating_add(since(clock, &start)?);
    Ok(())
}

/// Times all paragraphs of a job.
fn time_all<C: Clock>(
    clock: &C,
    alloc: Global,
    pars: &[Par],
    tables: &Tables,
    patterns: &Patterns,
    stock: &Stock,
) -> io::Result<Totals> {
    let mut totals = Totals {
        items: 0,
        discs: 0,
        build: 0,
        hyphenated: 0,
        plain: 0,
    };
    for par in pars {
        if !name_fonts(stock, par.parts.as_slice()) {
            return Err(io::Error::from(io::ErrorKind::InvalidData));
        }
        time_one(clock, alloc, par, tables, patterns, stock, &mut totals)?;
    }
    Ok(totals)
}

/// The count of a job's paragraphs, and what they came to, where its fonts can be had.
fn time_job<R: Files + Clock>(
    rt: &R,
    alloc: Global,
    job: Job,
) -> io::Result<Option<(usize, Totals)>>
    requires { All (λ font. IsSize font.size) job.fonts }
{
    let Job {
        fonts,
        tables,
        patterns,
        exceptions,
        pars,
    } = job;
    let Some(stock) = stock_of(rt, alloc, fonts.into_vec())? else {
        return Ok(None);
    };
    let table = Patterns::make(alloc, patterns.as_slice(), exceptions.as_slice());
    let table = table.map_err(no_memory)?;
    let totals = time_all(rt, alloc, pars.as_slice(), &tables, &table, &stock)?;
    Ok(Some((pars.len(), totals)))
}

fn main(rt: HostRuntime) -> io::Result<()> {
    let Ok(bytes) = file_bytes(&rt, rt.alloc(), "job") else {
        return Ok(());
    };
    if bytes.len() >= 1 << 32 {
        return Ok(());
    }
    let Ok(job) = read_job(rt.alloc(), &bytes) else {
        return Ok(());
    };
    let Some((count, totals)) = time_job(&rt, rt.alloc(), job)? else {
        return Ok(());
    };
    let Totals {
        items,
        discs,
        build,
        hyphenated,
        plain,
    } = totals;
    print!(rt; "paragraphs {count} items {items} discs {discs} build {build} ")?;
    println!(rt; "hyphenated {hyphenated} plain {plain}")
}

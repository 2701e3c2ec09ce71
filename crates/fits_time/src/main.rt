//! Times how the lines of a job's paragraphs fit, and how its paragraphs are broken.
//!
//! It reads the file `job` and its fonts in the current folder and builds the list of each
//! paragraph, and breaks it by the passes that it needs. Besides, it asks how each line fits from a
//! place from which none before was overfull, to each place after it; and it breaks the list in one
//! pass, with `tolerance`, that has to reach the end. It prints the count of paragraphs, of items,
//! of legal places, of fits, the sum of their badnesses, and the counts of lines of that pass and
//! of the paragraphs as they are broken; and the nanoseconds that building took, breaking, making
//! what is kept of all lists for one pass, the fits, and the passes. Without a job it prints
//! nothing.
#![tactic(auto)]

mod asking;

ghost use Rattle.std.specs.Prelude.{◌≤◌, All, length};
ghost use Rattle.font_stock.specs.Sizes.{IsSize};
ghost use Rattle.hlist.specs.Bounds.{IsInBounds, IsListOf, IsSmall};
ghost use Rattle.hlist_build.specs.Parts.{NamesFont};
ghost use Rattle.break_rule.specs.Over.{Share};

use crate::asking::{Asked, ask_all};
use break_pass::best_of_pass;
use break_rule::BreakRule;
use font_stock::Stock;
use hlist::{HList, small_lists_are_in_bounds};
use hlist_build::build;
use job_text::{Job, read_job};
use liang_hyph::Patterns;
use list_fonts::{fonts_of_a_paragraph_expand_alike, lists_of_a_stock_are_over_it};
use micro_num::{Par, Tables};
use paragraph_breaks::breaks;
use std::alloc::Global;
use std::io;
use std::rt::Files;
use std::time::{Clock, Instant};
use test_jobs::{is_past, name_fonts};
use timed_jobs::{file_bytes, lost, no_memory, since, stock_of};

/// What all paragraphs came to.
#[derive(Drop)]
struct Totals {
    items: u64,
    places: u64,
    asked: Asked,
    lines: u64,
    broken: u64,
    build: u64,
    breaks: u64,
    make: u64,
    fits: u64,
    pass: u64,
}

/// Times what is kept of a list, and the fits of its lines.
fn time_list<C: Clock>(
    clock: &C,
    alloc: Global,
    list: &HList,
    par: &Par,
    stock: &Stock,
    totals: &mut Totals,
) -> io::Result<()>
    requires bounds { IsInBounds list.now }
    requires own { IsListOf stock.now list.now }
    requires share { Share par.now.params stock.now list.now.items }
{
    let params = &par.params;
    if is_past(params.hsize) {
        return Err(io::Error::from(io::ErrorKind::InvalidData));
    }
    if is_past(params.hangindent) {
        return Err(io::Error::from(io::ErrorKind::InvalidData));
    }
    lists_of_a_stock_are_over_it();
    let start = Instant::now(clock)?;
    let shape = par.shape.as_slice();
    let rule = BreakRule::make(alloc, list, params, shape, stock, false).map_err(no_memory)?;
    totals.make = totals.make.saturating_add(since(clock, &start)?);
    let start = Instant::now(clock)?;
    totals.asked = totals.asked.plus(ask_all(&rule));
    totals.fits = totals.fits.saturating_add(since(clock, &start)?);
    totals.items = totals.items.saturating_add(list.items.len() as u64);
    totals.places = totals.places.saturating_add(rule.legal().len() as u64);
    time_pass(clock, alloc, &rule, totals)
}

/// Times the best way of a pass that has to reach the end.
fn time_pass<C: Clock>(
    clock: &C,
    alloc: Global,
    rule: &BreakRule,
    totals: &mut Totals,
) -> io::Result<()>
    requires { length rule.now.items ≤ 65536 }
{
    if rule.shape().len() >= 1 << 32 {
        return Err(io::Error::from(io::ErrorKind::InvalidData));
    }
    let tolerance = rule.params().tolerance;
    let start = Instant::now(clock)?;
    let way = best_of_pass(alloc, rule, tolerance, true).map_err(no_memory)?;
    totals.pass = totals.pass.saturating_add(since(clock, &start)?);
    let lines = way.map_or(0, |way| way.earlier.len());
    totals.lines = totals.lines.saturating_add(lines as u64);
    Ok(())
}

/// Times how a paragraph's list is broken.
fn time_breaks<C: Clock>(
    clock: &C,
    alloc: Global,
    list: &HList,
    par: &Par,
    tables: &Tables,
    patterns: &Patterns,
    stock: &Stock,
    totals: &mut Totals,
) -> io::Result<()>
    requires small { IsSmall list.now }
    requires own { IsListOf stock.now list.now }
    requires share { Share par.now.params stock.now list.now.items }
{
    let shape = par.shape.as_slice();
    if is_past(par.params.hsize) {
        return Err(io::Error::from(io::ErrorKind::InvalidData));
    }
    if is_past(par.params.hangindent) {
        return Err(io::Error::from(io::ErrorKind::InvalidData));
    }
    if shape.len() >= 1 << 32 {
        return Err(io::Error::from(io::ErrorKind::InvalidData));
    }
    let start = Instant::now(clock)?;
    let broken = breaks(alloc, list, &par.params, shape, tables, patterns, stock);
    let broken = broken.map_err(no_memory)?;
    totals.breaks = totals.breaks.saturating_add(since(clock, &start)?);
    totals.broken = totals.broken.saturating_add(broken.breaks.len() as u64);
    Ok(())
}

/// Times how a paragraph's list is built and broken, and then its fits.
fn time_one<C: Clock>(
    clock: &C,
    alloc: Global,
    par: &Par,
    tables: &Tables,
    patterns: &Patterns,
    stock: &Stock,
    totals: &mut Totals,
) -> io::Result<()>
    requires { All (λ one. NamesFont (length stock.now) one.part) par.now.parts }
{
    small_lists_are_in_bounds();
    fonts_of_a_paragraph_expand_alike();
    let start = Instant::now(clock)?;
    match build(alloc, par, tables, stock) {
        Ok(list) => {
            totals.build = totals.build.saturating_add(since(clock, &start)?);
            time_breaks(clock, alloc, &list, par, tables, patterns, stock, totals)?;
            time_list(clock, alloc, &list, par, stock, totals)
        }
        Err(fault) => Err(lost(fault)),
    }
}

/// Times all paragraphs of a job.
fn time_all<C: Clock>(
    clock: &C,
    alloc: Global,
    pars: &[Par],
    tables: &Tables,
    patterns: &Patterns,
    stock: &Stock,
) -> io::Result<Totals> {
    let mut totals = Totals {
        items: 0,
        places: 0,
        asked: Asked {
            count: 0,
            badness: 0,
        },
        lines: 0,
        broken: 0,
        build: 0,
        breaks: 0,
        make: 0,
        fits: 0,
        pass: 0,
    };
    for par in pars {
        if !name_fonts(stock, par.parts.as_slice()) {
            return Err(io::Error::from(io::ErrorKind::InvalidData));
        }
        time_one(clock, alloc, par, tables, patterns, stock, &mut totals)?;
    }
    Ok(totals)
}

/// The count of a job's paragraphs, and what they came to, where its fonts can be had.
fn time_job<R: Files + Clock>(
    rt: &R,
    alloc: Global,
    job: Job,
) -> io::Result<Option<(usize, Totals)>>
    requires { All (λ font. IsSize font.size) job.fonts }
{
    let Job {
        fonts,
        tables,
        patterns,
        exceptions,
        pars,
    } = job;
    let patterns = Patterns::make(alloc, patterns.as_slice(), exceptions.as_slice());
    let patterns = patterns.map_err(no_memory)?;
    let Some(stock) = stock_of(rt, alloc, fonts.into_vec())? else {
        return Ok(None);
    };
    let totals = time_all(rt, alloc, pars.as_slice(), &tables, &patterns, &stock)?;
    Ok(Some((pars.len(), totals)))
}

fn main(rt: HostRuntime) -> io::Result<()> {
    let Ok(bytes) = file_bytes(&rt, rt.alloc(), "job") else {
        return Ok(());
    };
    if bytes.len() >= 1 << 32 {
        return Ok(());
    }
    let Ok(job) = read_job(rt.alloc(), &bytes) else {
        return Ok(());
    };
    let Some((paragraphs, totals)) = time_job(&rt, rt.alloc(), job)? else {
        return Ok(());
    };
    let Totals {
        items,
        places,
        asked,
        lines,
        broken,
        build,
        breaks,
        make,
        fits,
        pass,
    } = totals;
    let Asked { count, badness } = asked;
    print!(rt; "paragraphs {paragraphs} items {items} places {places} ")?;
    print!(rt; "asked {count} badness {badness} lines {lines} broken {broken} ")?;
    println!(rt; "build {build} breaks {breaks} make {make} fits {fits} pass {pass}")
}

//! Jobs in a font whose characters are all half a size wide, and how their last paragraphs are
//! broken.
ghost use Rattle.std.specs.Prelude.{All, IfOk, false};
ghost use Rattle.hlist.specs.Bounds.{IsInBounds, IsListOf, IsSmall};
ghost use Rattle.break_rule.specs.Made.{IsPlace};
ghost use Rattle.break_rule.specs.Over.{Share};

use font_stock::Stock;
use hlist::HList;
use hlist_build::build;
use job_text::Job;
use liang_hyph::Patterns;
use micro_num::{Par, Tables};
use paragraph_breaks::{Broken, breaks};
use std::alloc::{AllocError, Global};
use std::test::Fail;
use test_fonts::tiny10;
use test_jobs::{Document, are_within, name_fonts, read_document};

/// How the list of a paragraph is broken.
pub(crate) fn broken_list(
    alloc: Global,
    par: &Par,
    list: &HList,
    tables: &Tables,
    patterns: &Patterns,
    stock: &Stock,
) -> Result<Broken, Fail>
    requires small { IsSmall list.now }
    requires own { IsListOf stock.now list.now }
    requires share { Share par.now.params stock.now list.now.items }
    ensures bounds { IfOk result (λ broken. IsInBounds broken.list) }
    ensures own { IfOk result (λ broken. IsListOf stock.now broken.list) }
    ensures share { IfOk result (λ broken. Share par.now.params stock.now broken.list.items) }
    ensures legal { IfOk result (λ broken. All (IsPlace (record {
      items = broken.list.items;
      params = par.now.params;
      shape = par.now.shape;
      stock = stock.now;
      emergency = false;
    })) broken.breaks) }
{
    let shape = par.shape.as_slice();
    if !are_within(&par.params, shape) {
        return Err(Fail::new(format_args!("out of range")));
    }
    let broken = breaks(alloc, list, &par.params, shape, tables, patterns, stock)?;
    Ok(broken)
}

/// How a paragraph is broken.
fn broken_par(
    alloc: Global,
    par: &Par,
    tables: &Tables,
    patterns: &Patterns,
    stock: &Stock,
) -> Result<Broken, Fail> {
    if !name_fonts(stock, par.parts.as_slice()) {
        return Err(Fail::new(format_args!("no such font")));
    }
    let list = build(alloc, par, tables, stock)?;
    broken_list(alloc, par, &list, tables, patterns, stock)
}

/// A job of three lines: its font; the settings; and a paragraph of the text without an indent.
fn job(alloc: Global, settings: &[u8], text: &[u8]) -> Result<Vec<u8>, AllocError> {
    let mut bytes = Vec::new(alloc);
    bytes.extend_from_slice(b"\\font\\f=tiny10 \\f\n")?;
    bytes.extend_from_slice(settings)?;
    bytes.extend_from_slice(b"\n\\noindent ")?;
    bytes.extend_from_slice(text)?;
    bytes.extend_from_slice(b"\n")?;
    Ok(bytes)
}

/// A paragraph with what it is broken and set by.
#[derive(Drop)]
pub(crate) struct Sample {
    pub(crate) par: Par,
    pub(crate) tables: Tables,
    pub(crate) patterns: Patterns,
    pub(crate) stock: Stock,
}

/// The paragraph of such a job.
pub(crate) fn read_sample(alloc: Global, settings: &[u8], text: &[u8]) -> Result<Sample, Fail> {
    let bytes = job(alloc, settings, text)?;
    let Document {
        job,
        patterns,
        stock,
    } = read_document(alloc, &bytes, &tiny10(alloc)?)?;
    let Job {
        fonts: _,
        tables,
        patterns: _,
        exceptions: _,
        pars,
    } = job;
    let mut pars = pars.into_vec();
    match pars.pop() {
        Some(par) => Ok(Sample {
            par,
            tables,
            patterns,
            stock,
        }),
        None => Err(Fail::new(format_args!("no paragraph"))),
    }
}

/// How the paragraph of such a job is broken.
pub(crate) fn broken(alloc: Global, settings: &[u8], text: &[u8]) -> Result<Broken, Fail> {
    let Sample {
        par,
        tables,
        patterns,
        stock,
    } = read_sample(alloc, settings, text)?;
    broken_par(alloc, &par, &tables, &patterns, &stock)
}

/// Whether a paragraph was broken in this pass, with this total and these breaks.
pub(crate) fn gave(broken: &Broken, pass: u8, total: i64, breaks: &[u32]) -> bool {
    (broken.pass == pass) & (broken.total == total) & (broken.breaks.as_slice() == breaks)
}

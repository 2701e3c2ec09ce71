//! A paragraph as a page.
ghost use Rattle.std.specs.Prelude.{◌≡◌, ◌⊎◌, ◌<◌, ◌≤◌, ◌^◌, All, Err, IfOk, None, length, map};
ghost use Rattle.hlist.specs.Bounds.{IsListOf, IsSmall};
ghost use Rattle.hlist_build.specs.Parts.{NamesFont};
ghost use Rattle.hlist_hyph.specs.Hyphenated.{places_in};
ghost use Rattle.hlist_build.specs.declared.fault.ParFault.TheVariants.{NoMemory};
ghost use Rattle.break_rule.specs.Made.{IsPlace};
ghost use Rattle.break_rule.specs.Over.{Share};
ghost use Rattle.break_rule.specs.declared.line.From.TheVariants.{Start};
ghost use Rattle.hpack_two.specs.Over.{base_of};
ghost use Rattle.paragraph_breaks.specs.Passes.{early_taken};
ghost use Rattle.para_workers.specs.Fitting.{IsPageOver};
ghost use Rattle.para_workers.specs.Lengths.{HasLengths};
ghost use Rattle.para_workers.specs.SetPar.{lines_of_par, lines_of, page_by, paragraph_of};
ghost use Rattle.para_workers.specs.SetPar.{set_lines, set_par as page_of_par};
ghost use Rattle.para_workers.specs.Touched.{TouchedByPage};

use crate::lines::packed_lines;
use crate::page::page;
use font_stock::Stock;
use hlist::HList;
use hlist_build::{ParFault, build};
use hlist_hyph::hyphenated;
use instance_core::{Page, WidthSource};
use liang_hyph::Patterns;
use micro_num::{Par, Tables};
use paragraph_breaks::{BrokenRule, broken_hyphenated, broken_unhyphenated};
use std::alloc::Global;

/// The page of the lines of a list that is broken.
fn set_broken<W: WidthSource>(
    alloc: Global,
    broken: &BrokenRule,
    stock: &Stock,
    source: &mut W,
) -> Result<Page, ParFault>
    requires stock { broken.now.rule.stock ≡ stock.now }
    requires few { length broken.now.breaks.places ≤ 65537 }
    requires places { All (IsPlace broken.now.rule) broken.now.breaks.places }
    requires lengths { HasLengths broken.now.rule.params broken.now.rule.shape }
    requires source { W.bases source.old ≡ map base_of stock.now }
    ensures page { let b = broken.now in
        let lines = set_lines b.rule 1 Start b.breaks.places in
        (result ≡ page_by b.rule.params lines) ⊎ (result ≡ Err NoMemory) }
    ensures touched { let b = broken.now in
        TouchedByPage (set_lines b.rule 1 Start b.breaks.places) (W.bases source.old)
        (W.touched source.old) (W.touched source.new) result }
    ensures over { IfOk result (IsPageOver stock.now) }
    ensures bases { W.bases source.new ≡ W.bases source.old }
    ensures fixed { W.fixed source.new ≡ W.fixed source.old }
{
    let rule = &broken.rule;
    let breaks = broken.breaks.places.as_slice();
    let lines = packed_lines(alloc, rule, stock, breaks, source)?;
    let params = rule.params();
    page(alloc, lines, params)
}

/// The page of a paragraph's list where its hyphenated list is to be broken.
fn set_hyphenated<W: WidthSource>(
    alloc: Global,
    par: &Par,
    list: &HList,
    tables: &Tables,
    patterns: &Patterns,
    stock: &Stock,
    source: &mut W,
) -> Result<Page, ParFault>
    requires small { IsSmall list.now }
    requires own { IsListOf stock.now list.now }
    requires share { Share par.now.params stock.now list.now.items }
    requires lengths { HasLengths par.now.params par.now.shape }
    requires shape { length par.now.shape < 2 ^ 32 }
    requires source { W.bases source.old ≡ map base_of stock.now }
    requires none { None
        ≡ early_taken list.now.items par.now.params par.now.shape stock.now }
    ensures page { let places = places_in patterns.now par.now.params in
        let p = paragraph_of par.now tables.now places stock.now list.now.items in
        (result ≡ page_by par.now.params (lines_of p)) ⊎ (result ≡ Err NoMemory) }
    ensures touched { let places = places_in patterns.now par.now.params in
        let p = paragraph_of par.now tables.now places stock.now list.now.items in
        TouchedByPage (lines_of p) (W.bases source.old)
        (W.touched source.old) (W.touched source.new) result }
    ensures over { IfOk result (IsPageOver stock.now) }
    ensures bases { W.bases source.new ≡ W.bases source.old }
    ensures fixed { W.fixed source.new ≡ W.fixed source.old }
{
    let Ok(made) = hyphenated(alloc, list, &par.params, tables, patterns, stock) else {
        return Err(ParFault::NoMemory);
    };
    let shape = par.shape.as_slice();
    let Ok(broken) = broken_hyphenated(alloc, &made, &par.params, shape, stock) else {
        return Err(ParFault::NoMemory);
    };
    set_broken(alloc, &broken, stock, source)
}

/// The page of a paragraph's list.
fn set_list<W: WidthSource>(
    alloc: Global,
    par: &Par,
    list: &HList,
    tables: &Tables,
    patterns: &Patterns,
    stock: &Stock,
    source: &mut W,
) -> Result<Page, ParFault>
    requires small { IsSmall list.now }
    requires own { IsListOf stock.now list.now }
    requires share { Share par.now.params stock.now list.now.items }
    requires lengths { HasLengths par.now.params par.now.shape }
    requires shape { length par.now.shape < 2 ^ 32 }
    requires source { W.bases source.old ≡ map base_of stock.now }
    ensures page { let places = places_in patterns.now par.now.params in
        let p = paragraph_of par.now tables.now places stock.now list.now.items in
        (result ≡ page_by par.now.params (lines_of p)) ⊎ (result ≡ Err NoMemory) }
    ensures touched { let places = places_in patterns.now par.now.params in
        let p = paragraph_of par.now tables.now places stock.now list.now.items in
        TouchedByPage (lines_of p) (W.bases source.old)
        (W.touched source.old) (W.touched source.new) result }
    ensures over { IfOk result (IsPageOver stock.now) }
    ensures bases { W.bases source.new ≡ W.bases source.old }
    ensures fixed { W.fixed source.new ≡ W.fixed source.old }
{
    let params = &par.params;
    let shape = par.shape.as_slice();
    let Ok(found) = broken_unhyphenated(alloc, list, params, shape, tables, patterns, stock) else {
        return Err(ParFault::NoMemory);
    };
    match found {
        Some(broken) => set_broken(alloc, &broken, stock, source),
        None => set_hyphenated(alloc, par, list, tables, patterns, stock, source),
    }
}

/// The page of a paragraph: its list broken into lines, each of these set in the width and with the
/// indent that it has by its number, and the set lines one below the other. The lengths of
/// the parameters and of the shape are within ±(2^30 - 1) sp, and the source's fonts are those of
/// the stock.
///
/// A paragraph without a list is refused as [`build`] refuses it. Else it is refused as
/// [`ParFault::OutOfRange`] with the number of the first line, counted from 1, in which a glyph is
/// out of range; where there is none, with that of the first line that is past the bounds of the
/// page. Besides, there is [`ParFault::NoMemory`].
///
/// The source is asked for each glyph that is expanded, and for no other. A page that is given fits
/// the stock: its baselines and the edges of its glyphs are places, and each glyph's font is one
/// of the stock, as it is or as an instance.
pub fn set_par<W: WidthSource>(
    alloc: Global,
    par: &Par,
    tables: &Tables,
    patterns: &Patterns,
    stock: &Stock,
    source: &mut W,
) -> Result<Page, ParFault>
    requires names { All (λ one. NamesFont (length stock.now) one.part) par.now.parts }
    requires lengths { HasLengths par.now.params par.now.shape }
    requires shape { length par.now.shape < 2 ^ 32 }
    requires source { W.bases source.old ≡ map base_of stock.now }
    ensures page { let places = places_in patterns.now par.now.params in
        (result ≡ page_of_par par.now tables.now places stock.now) ⊎ (result ≡ Err NoMemory) }
    ensures touched { let places = places_in patterns.now par.now.params in
        TouchedByPage (lines_of_par par.now tables.now places stock.now)
        (W.bases source.old) (W.touched source.old) (W.touched source.new) result }
    ensures over { IfOk result (IsPageOver stock.now) }
    ensures bases { W.bases source.new ≡ W.bases source.old }
    ensures fixed { W.fixed source.new ≡ W.fixed source.old }
{
    let list = build(alloc, par, tables, stock)?;
    set_list(alloc, par, &list, tables, patterns, stock, source)
}

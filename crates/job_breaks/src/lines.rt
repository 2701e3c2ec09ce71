//! The paragraphs of a job as lines that tell how they are broken, one after another.
ghost use Rattle.std.specs.Prelude.{◌≡◌, ◌≤◌, ◌<◌, ◌^◌, All, IfOk, length};
ghost use Rattle.hlist.specs.Bounds.{IsListOf, IsSmall};
ghost use Rattle.hlist_hyph.specs.Hyphenated.{places_in};
ghost use Rattle.break_rule.specs.Over.{Share};
ghost use Rattle.para_workers.specs.Lengths.{HasLengths};
ghost use Rattle.para_workers.specs.Pages.{IsSettable};
ghost use Rattle.para_workers.specs.SetPar.{paragraph_of};
ghost use Rattle.job_breaks.specs.Lines.{TellsLine, TellsLines, line_of_list, line_of_par};
ghost use Rattle.job_breaks.specs.Lines.{lines_from, set_fault};

use font_stock::Stock;
use hlist::HList;
use hlist_build::{ParFault, build};
use items::{Items, Text};
use liang_hyph::Patterns;
use micro_num::{NoMemory, Par, Tables};
use micro_texts::breaks_line;
use para_workers::{ParAt, SetFault};
use paragraph_breaks::breaks;
use std::alloc::Global;

/// The line of the paragraph of a number, of which this is the list.
fn line_of_list(
    alloc: Global,
    number: u32,
    par: &Par,
    list: &HList,
    tables: &Tables,
    patterns: &Patterns,
    stock: &Stock,
) -> Result<Text, NoMemory>
    requires small { IsSmall list.now }
    requires own { IsListOf stock.now list.now }
    requires share { Share par.now.params stock.now list.now.items }
    requires lengths { HasLengths par.now.params par.now.shape }
    requires shape { length par.now.shape < 2 ^ 32 }
    ensures { let places = places_in patterns.now par.now.params in
        IfOk result (λ line. line ≡ line_of_list number
        (paragraph_of par.now tables.now places stock.now list.now.items)) }
{
    let shape = par.shape.as_slice();
    let broken = breaks(alloc, list, &par.params, shape, tables, patterns, stock)?;
    breaks_line(alloc, number, &broken)
}

/// The fault of the paragraph of a number.
fn set_fault(number: u32, fault: ParFault) -> SetFault
    ensures { result ≡ set_fault number fault }
{
    match fault {
        ParFault::NoMemory => SetFault::NoMemory,
        ParFault::MissingChar { .. }
        | ParFault::LigTooLong { .. }
        | ParFault::TooManyItems
        | ParFault::MixedExpansion { .. }
        | ParFault::OutOfRange { .. } => {
            let at = ParAt {
                paragraph: number,
                fault,
            };
            SetFault::Par { at }
        }
    }
}

/// The line of the paragraph of a number.
fn line_of_par(
    alloc: Global,
    number: u32,
    par: &Par,
    tables: &Tables,
    patterns: &Patterns,
    stock: &Stock,
) -> Result<Text, SetFault>
    requires { IsSettable (length stock.now) par.now }
    ensures { let places = places_in patterns.now in
        TellsLine number (line_of_par tables.now places stock.now number par.now) result }
{
    let list = match build(alloc, par, tables, stock) {
        Ok(list) => list,
        Err(fault) => return Err(set_fault(number, fault)),
    };
    match line_of_list(alloc, number, par, &list, tables, patterns, stock) {
        Ok(line) => Ok(line),
        Err(NoMemory) => Err(SetFault::NoMemory),
    }
}

/// The lines that tell how a job's paragraphs are broken, each with its number, counted from 1, the
/// pass that is taken, the total of its demerits and the items at which lines end. There are at
/// most 65,535 paragraphs; their fonts are in the stock, and their lengths within ±(2^30 - 1) sp.
///
/// Where a paragraph has no list, the first such paragraph is told, counted from 1, as
/// [`SetFault::Par`], with what [`build`] says of it, and no line is given. Besides, there is
/// [`SetFault::NoMemory`]. A line that is out of range when it is set is no fault here.
///
/// Where the patterns are made of a job's, the lines are those of the job (`broken_lines`).
pub fn break_pars(
    alloc: Global,
    pars: &[Par],
    tables: &Tables,
    patterns: &Patterns,
    stock: &Stock,
) -> Result<Items<Text>, SetFault>
    requires few { length pars.now ≤ 65535 }
    requires pars { All (IsSettable (length stock.now)) pars.now }
    ensures lines { let places = places_in patterns.now in
        TellsLines (lines_from tables.now places stock.now 1 pars.now) result }
    ensures count { IfOk result (λ lines. length lines ≡ length pars.now) }
{
    let mut lines = Items::from_vec(Vec::with_capacity(alloc, pars.len())?);
    for par in pars {
        let number = lines.len() as u32 + 1;
        lines.push(line_of_par(alloc, number, par, tables, patterns, stock)?)?;
    }
    Ok(lines)
}

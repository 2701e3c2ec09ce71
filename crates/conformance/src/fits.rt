//! The legal places of a list, and what the lines between them measure and how they fit, printed.
ghost use Rattle.std.specs.Prelude.{◌≤◌, All};
ghost use Rattle.hlist.specs.Bounds.{IsInBounds, IsListOf};
ghost use Rattle.break_rule.specs.Made.{IsPlace, IsFrom};
ghost use Rattle.break_rule.specs.Over.{Share};

use break_rule::{BreakRule, From, LineFit, Measure};
use font_stock::Stock;
use hlist::HList;
use list_fonts::lists_of_a_stock_are_over_it;
use micro_num::{NoMemory, Par};
use std::alloc::{AllocError, Global};
use test_jobs::is_past;

/// How many lines are shown at most.
const SHOWN: u64 = 30;

/// Which lines a case asks about.
#[derive(Clone, Copy, Debug, PartialEq, Eq)]
pub struct Lines {
    /// Whether the emergency stretch counts.
    pub emergency: bool,
    /// The number that each line has in its paragraph, from 1.
    pub number: u32,
}

/// The places of a list with their penalties, and lines between two of them. None where no line has
/// the number, or a length that lines are as wide as is out of bounds.
pub fn fits_text(
    alloc: Global,
    lines: Lines,
    list: &HList,
    par: &Par,
    stock: &Stock,
) -> Result<Option<String>, AllocError>
    requires bounds { IsInBounds list.now }
    requires own { IsListOf stock.now list.now }
    requires share { Share par.now.params stock.now list.now.items }
{
    let params = &par.params;
    if lines.number == 0 {
        return Ok(None);
    }
    if is_past(params.hsize) {
        return Ok(None);
    }
    if is_past(params.hangindent) {
        return Ok(None);
    }
    lists_of_a_stock_are_over_it();
    let shape = par.shape.as_slice();
    match BreakRule::make(alloc, list, params, shape, stock, lines.emergency) {
        Ok(rule) => Ok(Some(rule_text(alloc, &rule, lines.number)?)),
        Err(NoMemory) => Err(AllocError),
    }
}

fn rule_text(alloc: Global, rule: &BreakRule, number: u32) -> Result<String, AllocError>
    requires { 1 ≤ number }
{
    let places = rule.legal();
    let mut text = String::from_str(alloc, "places")?;
    push_places(alloc, &mut text, rule, places)?;
    text.push_str(" pairs")?;
    push_pairs(alloc, &mut text, rule, places, number)?;
    Ok(text)
}

/// Each place with its penalty.
fn push_places(
    alloc: Global,
    text: &mut String,
    rule: &BreakRule,
    places: &[u32],
) -> Result<(), AllocError>
    requires { All (IsPlace rule.now) places.now }
{
    for place in places {
        let penalty = rule.penalty_at(*place);
        text.push_str(format!(in alloc; " {place}:{penalty}")?.as_str())?;
    }
    Ok(())
}

/// Which lines are shown: one, and then one behind each so many.
#[derive(Drop)]
struct Turn {
    pass: u64,
    left: u64,
}

impl Turn {
    /// At most so many of the lines from the start or a place to a later one.
    fn of(places: usize) -> Turn {
        let places = places as u64;
        let lines = places.saturating_mul(places.saturating_add(1)) / 2;
        let every = lines.saturating_add(SHOWN - 1) / SHOWN;
        Turn {
            pass: every.saturating_sub(1),
            left: 0,
        }
    }

    /// Whether the next line is shown.
    fn comes(&mut self) -> bool {
        if self.left == 0 {
            self.left = self.pass;
            true
        } else {
            self.left -= 1;
            false
        }
    }
}

/// The lines from the start, and then those from each place.
fn push_pairs(
    alloc: Global,
    text: &mut String,
    rule: &BreakRule,
    places: &[u32],
    number: u32,
) -> Result<(), AllocError>
    requires places { All (IsPlace rule.now) places.now }
    requires number { 1 ≤ number }
{
    let mut turn = Turn::of(places.len());
    push_lines(alloc, text, rule, From::Start, places, number, &mut turn)?;
    for index in 0..places.len() {
        let from = From::After { at: places[index] };
        push_lines(
            alloc,
            text,
            rule,
            from,
            &places[index + 1..],
            number,
            &mut turn,
        )?;
    }
    Ok(())
}

/// The lines from a break to some places, of those that are shown.
fn push_lines(
    alloc: Global,
    text: &mut String,
    rule: &BreakRule,
    from: From,
    places: &[u32],
    number: u32,
    turn: &mut Turn,
) -> Result<(), AllocError>
    requires from { IsFrom rule.now from }
    requires places { All (IsPlace rule.now) places.now }
    requires number { 1 ≤ number }
{
    for place in places {
        if turn.comes() {
            text.push_str(line_text(alloc, rule, from, *place, number)?.as_str())?;
        }
    }
    Ok(())
}

/// A line: its ends, where it begins, what it measures, and how it fits.
fn line_text(
    alloc: Global,
    rule: &BreakRule,
    from: From,
    to: u32,
    number: u32,
) -> Result<String, AllocError>
    requires from { IsFrom rule.now from }
    requires to { IsPlace rule.now to }
    requires number { 1 ≤ number }
{
    let begin = rule.begin(from);
    let measure = measure_text(alloc, rule.measure(from, to))?;
    let fit = fit_text(alloc, rule.line(from, to, number))?;
    match from {
        From::Start => format!(in alloc; " S-{to}:{begin}/{measure}/{fit}"),
        From::After { at } => format!(in alloc; " {at}-{to}:{begin}/{measure}/{fit}"),
    }
}

fn measure_text(alloc: Global, measure: Measure) -> Result<String, AllocError> {
    let Measure {
        width,
        stretch,
        shrink,
        font_stretch,
        font_shrink,
    } = measure;
    let [finite, fil, fill, filll] = stretch;
    let glue = format!(in alloc; "{finite},{fil},{fill},{filll},{shrink}")?;
    format!(in alloc; "{width},{glue},{font_stretch},{font_shrink}")
}

fn fit_text(alloc: Global, fit: LineFit) -> Result<String, AllocError> {
    let shortfall = fit.shortfall;
    let badness = fit.badness;
    let class = fit.class;
    format!(in alloc; "{shortfall},{badness},{class}")
}

//! Random paragraphs beside a plain dynamic program over all ways to break a list, of which none is
//! pruned: it keeps the least total for each place, number of lines and class of the last line.
ghost use Rattle.std.specs.Prelude.{◌<◌, ◌≤◌, All, unsigned_abs};
ghost use Rattle.hlist.specs.Bounds.{IsSmall, IsListOf};
ghost use Rattle.break_rule.specs.Made.{IsFrom, IsPlace};
ghost use Rattle.break_rule.specs.Over.{Share};

use crate::fixture::{Sample, broken_list, read_sample};
use break_pass::{BreakKind, LegalPlace, line_demerits};
use break_rule::{BreakRule, From, LineFit};
use font_stock::Stock;
use hlist::{HList, Item, small_lists_are_in_bounds};
use hlist_build::build;
use liang_hyph::Patterns;
use list_fonts::lists_of_a_stock_are_over_it;
use micro_num::{Par, Tables};
use std::alloc::{AllocError, Global};
use std::test::Fail;
use test_jobs::{are_within, name_fonts};

/// The badness of a line that is too long.
const OVERFULL: u16 = 10001;

/// The least total of the ways to a place, for each class of their last line.
#[derive(Clone, Copy)]
struct Reach {
    very_loose: Option<i64>,
    loose: Option<i64>,
    decent: Option<i64>,
    tight: Option<i64>,
}

impl Reach {
    /// No way.
    fn none() -> Reach {
        Reach {
            very_loose: None,
            loose: None,
            decent: None,
            tight: None,
        }
    }

    /// The way to the start, which counts as decent.
    fn start() -> Reach {
        let mut reach = Reach::none();
        reach.decent = Some(0);
        reach
    }

    /// The least total at a class.
    fn at(&self, class: u8) -> Option<i64> {
        match class {
            0 => self.very_loose,
            1 => self.loose,
            2 => self.decent,
            _ => self.tight,
        }
    }

    /// One way more.
    fn put(&mut self, class: u8, total: i64) {
        let least = Some(match self.at(class) {
            Some(own) => own.min(total),
            None => total,
        });
        match class {
            0 => self.very_loose = least,
            1 => self.loose = least,
            2 => self.decent = least,
            _ => self.tight = least,
        }
    }

    /// The least total.
    fn least(&self) -> Option<i64> {
        lesser(
            lesser(self.very_loose, self.loose),
            lesser(self.decent, self.tight),
        )
    }
}

fn lesser(one: Option<i64>, other: Option<i64>) -> Option<i64> {
    match (one, other) {
        (Some(one), Some(other)) => Some(one.min(other)),
        (Some(one), None) => Some(one),
        (None, other) => other,
    }
}

/// The legal place at an item.
fn place_at(rule: &BreakRule, at: u32) -> LegalPlace
    requires { IsPlace rule.now at }
    ensures { unsigned_abs result.penalty ≤ 10000 }
{
    let kind = match rule.items().get(at as usize) {
        Some(Item::Disc { .. }) => BreakKind::Discretionary,
        Some(_) => BreakKind::Other,
        None => BreakKind::End,
    };
    LegalPlace {
        at,
        penalty: rule.penalty_at(at).max(-10000).min(10000),
        kind,
    }
}

/// The lines of a number that begin at one break: its kind, the first place at which they may end,
/// and how bad they may be.
#[derive(Clone, Copy)]
struct Lines {
    from: From,
    kind: BreakKind,
    first: usize,
    number: u32,
    threshold: i32,
}

/// The least total of the ways that reach the end in a pass by lines as good as a threshold asks,
/// where one does.
pub(crate) fn least_total(
    alloc: Global,
    rule: &BreakRule,
    threshold: i32,
) -> Result<Option<i64>, AllocError> {
    let places = rule.legal();
    let mut ways = vec![in alloc; Reach::none(); places.len()]?;
    extend_from_start(rule, places, threshold, &mut ways);
    let mut least = at_the_end(ways.as_slice());
    for number in 2..=places.len() {
        let mut longer = vec![in alloc; Reach::none(); places.len()]?;
        let number = line_number(number);
        extend_all(
            rule,
            places,
            threshold,
            number,
            ways.as_slice(),
            &mut longer,
        );
        least = lesser(least, at_the_end(longer.as_slice()));
        ways = longer;
    }
    Ok(least)
}

/// The number of a line, which is at least 1.
fn line_number(number: usize) -> u32
    ensures { 1 ≤ result }
{
    u32::try_from(number).unwrap_or(u32::MAX).max(1)
}

/// The least total at the last place.
fn at_the_end(ways: &[Reach]) -> Option<i64> {
    match ways.last() {
        Some(reach) => reach.least(),
        None => None,
    }
}

/// The lines from the start.
fn extend_from_start(rule: &BreakRule, places: &[u32], threshold: i32, ways: &mut Vec<Reach>)
    requires { All (IsPlace rule.now) places.now }
{
    let lines = Lines {
        from: From::Start,
        kind: BreakKind::Other,
        first: 0,
        number: 1,
        threshold,
    };
    extend(rule, places, lines, Reach::start(), ways);
}

/// The lines of a number from each place.
fn extend_all(
    rule: &BreakRule,
    places: &[u32],
    threshold: i32,
    number: u32,
    ways: &[Reach],
    longer: &mut Vec<Reach>,
)
    requires places { All (IsPlace rule.now) places.now }
    requires number { 1 ≤ number }
{
    for index in 0..places.len() {
        let at = places[index];
        let lines = Lines {
            from: From::After { at },
            kind: place_at(rule, at).kind,
            first: index + 1,
            number,
            threshold,
        };
        if let Some(reach) = ways.get(index) {
            extend(rule, places, lines, *reach, longer);
        }
    }
}

/// The lines from one break: each to a later place, until one is too long or its place forces a
/// break.
fn extend(rule: &BreakRule, places: &[u32], lines: Lines, reach: Reach, ways: &mut Vec<Reach>)
    requires places { All (IsPlace rule.now) places.now }
    requires from { IsFrom rule.now lines.from }
    requires number { 1 ≤ lines.number }
{
    for index in lines.first..places.len() {
        let at = places[index];
        let fit = rule.line(lines.from, at, lines.number);
        let place = place_at(rule, at);
        if fit.badness as i32 <= lines.threshold {
            if let Some(end) = ways.as_mut_slice().get_mut(index) {
                put_line(rule, lines.kind, reach, fit, place, end);
            }
        }
        if (fit.badness == OVERFULL) | (place.penalty <= -10000) {
            return;
        }
    }
}

/// The ways that one line more makes of those to its beginning.
fn put_line(
    rule: &BreakRule,
    before: BreakKind,
    reach: Reach,
    fit: LineFit,
    place: LegalPlace,
    end: &mut Reach,
)
    requires { unsigned_abs place.penalty ≤ 10000 }
{
    for class in 0..4u8 {
        if let Some(total) = reach.at(class) {
            let more = line_demerits(rule.params(), before, class, fit, place);
            end.put(fit.class, total.saturating_add(more));
        }
    }
}

/// How the answer of breaking stands to that of the program over all ways.
#[derive(Clone, Copy, Debug, PartialEq, Eq)]
enum Agreement {
    /// The same pass and the same total.
    Same,
    /// A place was rescued in the last pass, so that a line costs nothing.
    Rescued,
    /// Anything else.
    Other,
}

/// The demerits of lines that end at some places, where none of them is rescued.
fn own_total(rule: &BreakRule, breaks: &[u32]) -> i64
    requires { All (IsPlace rule.now) breaks.now }
{
    let mut total: i64 = 0;
    let mut class = 2;
    for index in 0..breaks.len() {
        let at = breaks[index];
        let (from, before) = if index == 0 {
            (From::Start, BreakKind::Other)
        } else {
            let at = breaks[index - 1];
            (From::After { at }, place_at(rule, at).kind)
        };
        let fit = rule.line(from, at, line_number(index.saturating_add(1)));
        let more = line_demerits(rule.params(), before, class, fit, place_at(rule, at));
        total = total.saturating_add(more);
        class = fit.class;
    }
    total
}

/// How the total and the breaks of the last pass stand to the least total.
fn in_last_pass(
    alloc: Global,
    rule: &BreakRule,
    total: i64,
    breaks: &[u32],
) -> Result<Agreement, Fail>
    requires { All (IsPlace rule.now) breaks.now }
{
    if own_total(rule, breaks) != total {
        return Ok(Agreement::Rescued);
    }
    if least_total(alloc, rule, rule.params().tolerance)? == Some(total) {
        Ok(Agreement::Same)
    } else {
        Ok(Agreement::Other)
    }
}

/// The same of a pass that isn't the last, and gives this least total.
fn in_early_pass(own: bool, total: i64, least: i64) -> Agreement {
    if own & (total == least) {
        Agreement::Same
    } else {
        Agreement::Other
    }
}

/// Whether a list is broken as the program over all ways has it: by the first pass that has a way,
/// with its least total; and by the last one else.
fn compared(
    alloc: Global,
    par: &Par,
    list: &HList,
    tables: &Tables,
    patterns: &Patterns,
    stock: &Stock,
) -> Result<Agreement, Fail>
    requires small { IsSmall list.now }
    requires own { IsListOf stock.now list.now }
    requires share { Share par.now.params stock.now list.now.items }
{
    let params = &par.params;
    let shape = par.shape.as_slice();
    let broken = broken_list(alloc, par, list, tables, patterns, stock)?;
    if !are_within(params, shape) {
        return Err(Fail::new(format_args!("out of range")));
    }
    small_lists_are_in_bounds();
    lists_of_a_stock_are_over_it();
    let built = BreakRule::make(alloc, list, params, shape, stock, false)?;
    let taken = BreakRule::make(alloc, &broken.list, params, shape, stock, false)?;
    if params.pretolerance >= 0 {
        if let Some(least) = least_total(alloc, &built, params.pretolerance)? {
            return Ok(in_early_pass(broken.pass == 1, broken.total, least));
        }
    }
    let breaks = broken.breaks.as_slice();
    if params.emergencystretch <= 0 {
        return in_last_pass(alloc, &taken, broken.total, breaks);
    }
    match least_total(alloc, &taken, params.tolerance)? {
        Some(least) => Ok(in_early_pass(broken.pass == 2, broken.total, least)),
        None => in_last_pass(alloc, &taken.in_emergency(), broken.total, breaks),
    }
}

/// The same of a paragraph.
fn compared_par(
    alloc: Global,
    par: &Par,
    tables: &Tables,
    patterns: &Patterns,
    stock: &Stock,
) -> Result<Agreement, Fail> {
    if !name_fonts(stock, par.parts.as_slice()) {
        return Err(Fail::new(format_args!("no such font")));
    }
    let list = build(alloc, par, tables, stock)?;
    compared(alloc, par, &list, tables, patterns, stock)
}

/// Random numbers by a linear congruence.
#[derive(Drop)]
struct Draws {
    state: u32,
}

impl Draws {
    /// The next number below a bound.
    fn below(&mut self, bound: u32) -> u32
        requires { 0 < bound }
        ensures { result < bound }
    {
        let next = self.state.wrapping_mul(1103515245).wrapping_add(12345);
        self.state = next % 2147483648;
        self.state / 65536 % bound
    }
}

/// Words of one to seven letters, some with places for a hyphen, some with a penalty behind them.
fn words(alloc: Global, draws: &mut Draws) -> Result<Vec<u8>, AllocError> {
    let mut text = Vec::new(alloc);
    for _ in 0..5 + draws.below(30) {
        for _ in 0..1 + draws.below(7) {
            text.push(b"abcde"[draws.below(5) as usize])?;
            if draws.below(9) == 0 {
                text.extend_from_slice(b"\\-")?;
            }
        }
        if draws.below(12) == 0 {
            text.extend_from_slice(b"\\penalty -60\\relax ")?;
        }
        text.push(b' ')?;
    }
    Ok(text)
}

/// Settings that all terms of demerits depend on.
fn settings(alloc: Global, draws: &mut Draws) -> Result<String, AllocError> {
    let hsize = 25 + draws.below(70);
    let pretolerance = draws.below(3) * 100;
    let tolerance = 100 + draws.below(2000);
    let adjdemerits = draws.below(3) * 5000;
    let double = draws.below(3) * 4000;
    let last = draws.below(3) * 3000;
    let emergency = draws.below(2) * 9;
    let hanging = draws.below(3) * 7;
    let after = draws.below(4);
    let lengths = format!(in alloc;
        "\\hsize={hsize}pt \\hangindent={hanging}pt \\hangafter={after}"
    )?;
    let passes = format!(in alloc; "\\pretolerance={pretolerance} \\tolerance={tolerance}")?;
    let demerits = format!(in alloc;
        "\\adjdemerits={adjdemerits} \\doublehyphendemerits={double}"
    )?;
    let ending = format!(in alloc;
        "\\finalhyphendemerits={last} \\emergencystretch={emergency}pt"
    )?;
    format!(in alloc; "{lengths} {passes} {demerits} {ending}")
}

/// How a paragraph of such settings and words is broken.
fn how_broken(alloc: Global, seed: u32) -> Result<Agreement, Fail> {
    let mut draws = Draws { state: seed };
    let own = settings(alloc, &mut draws)?;
    let text = words(alloc, &mut draws)?;
    let Sample {
        par,
        tables,
        patterns,
        stock,
    } = read_sample(alloc, own.as_bytes(), text.as_slice())?;
    compared_par(alloc, &par, &tables, &patterns, &stock)
}

/// In many of these paragraphs the last pass rescues a place, so that a total says nothing.
#[test]
fn no_way_has_a_lower_total(rt: HostRuntime) -> Result<(), Fail> {
    let mut same: u32 = 0;
    for seed in 0..400 {
        let found = how_broken(rt.alloc(), seed)?;
        assert!(rt; found != Agreement::Other, "{seed}");
        if found == Agreement::Same {
            same = same.saturating_add(1);
        }
    }
    assert!(rt; same > 50, "{same}");
    Ok(())
}

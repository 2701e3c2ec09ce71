//! What breaking asks of a list, in constant time a question: the legal places, their penalties,
//! what the line from a break to a place measures and how it fits, and the line itself.
//!
//! The list is scanned once from either end. Running sums give what any line adds up to, as a
//! difference, and the item after discarding and the nearest item that stops the search for a
//! character at a margin are kept for each legal place (TeX: The Program, parts 38 and 39).
ghost use Rattle.std.specs.Prelude.{◌≡◌, ◌<◌, ◌≤◌, ◌^◌, All, IfOk, IfSome, length, pos, int_le};
ghost use Rattle.std.specs.Prelude.{int_lt, slice_range, true, unsigned_abs, unwrap_or};
ghost use Rattle.micro_num.specs.Shape.{line_at};
ghost use Rattle.hlist.specs.Bounds.{IsInBounds, BreaksShort};
ghost use Rattle.break_rule.specs.Between.{left_between as hang_left_between};
ghost use Rattle.break_rule.specs.Between.{right_between as hang_right_between};
ghost use Rattle.break_rule.specs.Fits.{fit_of, hangs_in};
ghost use Rattle.break_rule.specs.Kept.{IsWithin, IsSmallOpening, IsSmallClosing, IsHang};
ghost use Rattle.break_rule.specs.Kept.{opening_of, closing_of};
ghost use Rattle.break_rule.specs.Lines.{measure_of, measure_sums, line_pieces, left_hang};
ghost use Rattle.break_rule.specs.Lines.{right_hang, pre_of, post_of};
ghost use Rattle.break_rule.specs.Made.{IsPlace, IsFrom, IsWithinList};
ghost use Rattle.break_rule.specs.Over.{IsOver, IsSubOver, Share};
ghost use Rattle.break_rule.specs.Packable.{IsPackable};
ghost use Rattle.break_rule.specs.Places.{legal_of, penalty_of, begin_of};

use crate::ends::{Closing, Opening};
use crate::expansion::shared_expansion;
use crate::fit::fit;
use crate::line::{From, LineFit, LineIn, Measure};
use crate::opening::{closings, openings, post, pre, start};
use crate::pieces::{Hangs, line_between};
use crate::places::{Places, places_of};
use crate::scan::scan_list;
use crate::sums::Sums;
use font_stock::{Expand, Stock};
use hlist::{HList, Item, Sub};
use micro_num::{NoMemory, Params, ShapeLine, Sp, shape_line};
use std::alloc::Global;
use std::marker::Model;

/// A list with what it is set by, and what is kept of it.
#[derive(Drop)]
pub struct BreakRule<'a> {
    list: &'a HList,
    params: &'a Params,
    shape: &'a [ShapeLine],
    stock: &'a Stock,
    emergency: bool,
    expand: Option<Expand>,
    margins: Sums,
    legal: Vec<u32>,
    ranks: Vec<u32>,
    start: Opening,
    openings: Vec<Opening>,
    closings: Vec<Closing>,
}

impl<'a> Model for BreakRule<'a> {
    ghost use Rattle.break_rule.specs.Fits.{Rule};
    ghost use Rattle.break_rule.specs.Made.{IsMade};

    ghost Value = { Rule };

    ghost view = { λ r. record {
      items = r.list.now.items;
      params = r.params.now;
      shape = r.shape.now;
      stock = r.stock.now;
      emergency = r.emergency;
    } };

    ghost invariant = { λ r. IsMade (record {
      items = r.list.now.items;
      params = r.params.now;
      shape = r.shape.now;
      stock = r.stock.now;
      emergency = r.emergency;
    }) (record {
      expand = r.expand;
      margins = r.margins;
      legal = r.legal.items;
      ranks = r.ranks.items;
      start = r.start;
      openings = r.openings.items;
      closings = r.closings.items;
    }) };
}

impl<'a> BreakRule<'a> {
    /// The rule of a list, which it borrows, for lines of the widths of a shape or of hanging
    /// indentation. `emergency` says whether `emergencystretch` counts. It takes a time that grows
    /// with the list.
    pub fn make(
        alloc: Global,
        list: &'a HList,
        params: &'a Params,
        shape: &'a [ShapeLine],
        stock: &'a Stock,
        emergency: bool,
    ) -> Result<BreakRule<'a>, NoMemory>
        requires list { IsInBounds list.now }
        requires over { IsOver stock.now list.now.items }
        requires share { Share params.now stock.now list.now.items }
        requires hsize { unsigned_abs params.now.hsize < 2 ^ 30 }
        requires hangindent { unsigned_abs params.now.hangindent < 2 ^ 30 }
        ensures { IfOk result (λ rule. rule ≡ record {
          items = list.now.items;
          params = params.now;
          shape = shape.now;
          stock = stock.now;
          emergency = emergency;
        }) }
    {
        let items = list.items.as_slice();
        let places = places_of(alloc, params, items)?;
        let scan = scan_list(alloc, stock, items)?;
        let openings = openings(alloc, stock, items, &scan, places.legal.as_slice())?;
        let closings = closings(alloc, params, stock, items, &scan, places.legal.as_slice())?;
        let start = start(stock, items, &scan);
        let margins = Sums::of_glue(params.leftskip).plus(&Sums::of_glue(params.rightskip));
        let Places { legal, ranks } = places;
        Ok(BreakRule {
            list,
            params,
            shape,
            stock,
            emergency,
            expand: shared_expansion(stock, items),
            margins,
            legal,
            ranks,
            start,
            openings,
            closings,
        })
    }

    /// The items of the list.
    pub fn items(&self) -> &[Item]
        ensures { result.now ≡ self.now.items }
    {
        self.list.items.as_slice()
    }

    /// The parameters that the list is set by.
    pub fn params(&self) -> &Params
        ensures { result.now ≡ self.now.params }
    {
        self.params
    }

    /// The shape of the paragraph.
    pub fn shape(&self) -> &[ShapeLine]
        ensures { result.now ≡ self.now.shape }
    {
        self.shape
    }

    /// The same rule where the emergency stretch counts: what is kept of the list stays.
    pub fn in_emergency(self) -> BreakRule<'a>
        ensures { result ≡ record self.entry { emergency = true } }
    {
        let mut rule = self;
        rule.emergency = true;
        rule
    }

    /// The places at which a line may end, as numbers of items, ascending; the end is their count.
    #[tactic(auto, using(crate::proofs::Lookups::all_places))]
    pub fn legal(&self) -> &[u32]
        ensures exact { result.now ≡ legal_of self.now.params self.now.items }
        ensures places { All (IsPlace self.now) result.now }
    {
        self.legal.as_slice()
    }

    /// The penalty of ending a line at a legal place, at least -10000, which forces the break.
    pub fn penalty_at(&self, to: u32) -> i32
        requires { IsPlace self.now to }
        ensures { result ≡ penalty_of self.now.params self.now.items to }
    {
        self.closing(to).penalty
    }

    /// The item with which a line begins: behind a break, and behind what vanishes there. It may be
    /// past the place at which the line ends.
    pub fn begin(&self, from: From) -> u32
        requires { IsFrom self.now from }
        ensures { result ≡ begin_of self.now.items from }
    {
        self.opening(from).begin
    }

    /// What the line from a break to a legal place adds up to. Where the line begins past its end,
    /// the difference of the sums has the sign that it has.
    pub fn measure(&self, from: From, to: u32) -> Measure
        requires from { IsFrom self.now from }
        requires to { IsPlace self.now to }
        ensures { result ≡ measure_of self.now.stock self.now.items from to }
    {
        self.sums(from, to).as_measure()
    }

    /// How the line from a break to a legal place fits as the line of a number, counted from 1.
    #[tactic(auto, unfolding(crate::specs::Fits::fit_of))]
    pub fn line(&self, from: From, to: u32, number: u32) -> LineFit
        requires from { IsFrom self.now from }
        requires to { IsPlace self.now to }
        requires number { 1 ≤ number }
        ensures { result ≡ fit_of self.now from to number }
    {
        let width = self.width(number);
        let sums = self.sums(from, to).plus(&self.margins);
        let hang = self.counted_hang(from, to);
        fit(self.params, self.emergency, self.expand, width, &sums, hang)
    }

    /// What the line from a break to a legal place hands to packing: the glue and the hangs at its
    /// margins, and what stands between them. The fonts may be expanded where `pdfadjustspacing` is
    /// above 0. Packing takes each such line (`IsPackable`).
    #[tactic(auto, unfolding(crate::specs::Lines::line_pieces))]
    pub fn line_in(&self, alloc: Global, from: From, to: u32) -> Result<LineIn, NoMemory>
        requires from { IsFrom self.now from }
        requires to { IsPlace self.now to }
        ensures pieces { IfOk result (λ line. line.pieces
            ≡ line_pieces self.now.params self.now.stock self.now.items from to) }
        ensures expand { IfOk result (λ line.
            line.expand ≡ int_lt (pos 0) self.now.params.pdfadjustspacing) }
        ensures packable { IfOk result (λ line. IsPackable self.now.stock line.pieces) }
    {
        let items = self.list.items.as_slice();
        let hangs = self.hangs(from, to);
        let behind = post_behind(self.stock, items, from);
        let middle = middle(items, self.opening(from).begin, to);
        let before = pre(self.stock, items, to);
        let pieces = line_between(alloc, self.params, hangs, behind, middle, before)?;
        let expand = self.params.pdfadjustspacing > 0;
        Ok(LineIn { pieces, expand })
    }

    /// The width of the line of a number.
    fn width(&self, number: u32) -> Sp
        requires { 1 ≤ number }
        ensures { result ≡ (line_at self.now.params self.now.shape number).width }
    {
        shape_line(self.params, self.shape, number).width
    }

    /// What is kept of the break that a line begins with.
    #[inline(always)]
    fn opening(&self, from: From) -> &Opening
        requires { IsFrom self.now from }
        ensures exact { result.now ≡ opening_of self.now.stock self.now.items from }
        ensures small { IsSmallOpening result.now }
    {
        match from {
            From::Start => &self.start,
            From::After { at } => &self.openings[self.ranks[at as usize] as usize],
        }
    }

    /// What is kept of the place at which a line ends.
    #[inline(always)]
    fn closing(&self, to: u32) -> &Closing
        requires { IsPlace self.now to }
        ensures exact { result.now ≡ closing_of self.now.params self.now.stock self.now.items to }
        ensures small { IsSmallClosing result.now }
    {
        &self.closings[self.ranks[to as usize] as usize]
    }

    /// What a line adds up to.
    #[inline(always)]
    fn sums(&self, from: From, to: u32) -> Sums
        requires from { IsFrom self.now from }
        requires to { IsPlace self.now to }
        ensures exact { result ≡ measure_sums self.now.stock self.now.items from to }
        ensures small { IsWithin 196608 result }
    {
        self.closing(to).sums.minus(&self.opening(from).less)
    }

    /// How far the characters at the margins of a line hang out.
    #[inline(always)]
    fn hangs(&self, from: From, to: u32) -> Hangs
        requires from { IsFrom self.now from }
        requires to { IsPlace self.now to }
        ensures left { result.left ≡ left_hang self.now.stock self.now.items from to }
        ensures right { result.right ≡ right_hang self.now.stock self.now.items from to }
        ensures left_small { IsHang result.left }
        ensures right_small { IsHang result.right }
    {
        let opening = self.opening(from);
        let closing = self.closing(to);
        Hangs {
            left: left_between(opening, closing, to),
            right: right_between(opening, closing),
        }
    }

    /// The hangs that count in the fit of a line, which level 2 asks for.
    #[inline(always)]
    fn counted_hang(&self, from: From, to: u32) -> i64
        requires from { IsFrom self.now from }
        requires to { IsPlace self.now to }
        ensures exact { let rule = self.now in
            result ≡ hangs_in rule.params rule.stock rule.items from to }
        ensures small { unsigned_abs result ≤ 2 ^ 33 }
    {
        if do_hangs_count(self.params) {
            let hangs = self.hangs(from, to);
            hangs.left + hangs.right
        } else {
            0
        }
    }
}

/// Whether hangs count in the fit of a line.
fn do_hangs_count(params: &Params) -> bool
    ensures { result ≡ int_le (pos 2) params.now.pdfprotrudechars }
{
    params.pdfprotrudechars >= 2
}

/// The items from one place to another, none where it isn't before it.
fn middle<'a>(items: &'a [Item], begin: u32, to: u32) -> &'a [Item]
    requires { to ≤ length items.now }
    ensures { result.now ≡ slice_range items.now begin to }
{
    if begin < to {
        &items[begin as usize..to as usize]
    } else {
        &[]
    }
}

/// What the break that a line begins with puts behind it.
#[tactic(auto, unfolding(crate::specs::Lines::post_of))]
fn post_behind<'a>(stock: &Stock, items: &'a [Item], from: From) -> &'a [Sub]
    requires over { IsOver stock.now items.now }
    requires breaks { All BreaksShort items.now }
    requires within { IsWithinList items.now from }
    ensures exact { result.now ≡ post_of items.now from }
    ensures over { All (IsSubOver stock.now) result.now }
    ensures short { length result.now ≤ 32768 }
{
    match from {
        From::Start => &[],
        From::After { at } => post(stock, items, at),
    }
}

/// The hang at the left of a line.
#[tactic(auto, unfolding(crate::specs::Between::left_between))]
fn left_between(opening: &Opening, closing: &Closing, to: u32) -> i64
    requires opening { IsSmallOpening opening.now }
    requires closing { IsSmallClosing closing.now }
    ensures exact { result ≡ hang_left_between opening.now closing.now to }
    ensures small { IsHang result }
{
    match opening.left {
        Some(hang) => hang,
        None => {
            if opening.ahead.at < to {
                opening.ahead.hang
            } else {
                or_none(closing.left)
            }
        }
    }
}

/// The hang at the right of a line.
#[tactic(auto, unfolding(crate::specs::Between::right_between))]
fn right_between(opening: &Opening, closing: &Closing) -> i64
    requires opening { IsSmallOpening opening.now }
    requires closing { IsSmallClosing closing.now }
    ensures exact { result ≡ hang_right_between opening.now closing.now }
    ensures small { IsHang result }
{
    match closing.right {
        Some(hang) => hang,
        None => {
            if opening.begin < closing.behind.at {
                closing.behind.hang
            } else {
                or_none(opening.right)
            }
        }
    }
}

/// A hang where there is one.
fn or_none(hang: Option<i64>) -> i64
    requires { IfSome hang IsHang }
    ensures exact { result ≡ unwrap_or hang (pos 0) }
    ensures small { IsHang result }
{
    match hang {
        Some(hang) => hang,
        None => 0,
    }
}

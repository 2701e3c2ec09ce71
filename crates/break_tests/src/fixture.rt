//! A font whose characters are all half a size wide, at 10 points, with a space of a quarter of the
//! size between words; and lists in it.
ghost use Rattle.std.specs.Prelude.{◌≡◌, ◌≤◌, ◌<◌, ◌^◌, IfOk, length, unsigned_abs};
ghost use Rattle.hlist.specs.Bounds.{IsInBounds};
ghost use Rattle.break_rule.specs.Made.{IsPlace};
ghost use Rattle.break_rule.specs.Over.{IsOver};
ghost use Rattle.break_tests.specs.Simple.{IsSimple, AreSimple};

use break_rule::BreakRule;
use font_stock::{Expand, Font, FontCodes, Size, Stock};
use hlist::{HList, Item, Sub};
use items::Items;
use micro_num::{Disc, Glue, NoMemory, Params, Sp};
use std::alloc::{AllocError, Global};
use std::test::Fail;
use test_fonts::{HALF, kerned10};
use tfm_read::{Tfm, TfmFault, read_tfm};

/// The metrics of a font of the codes 33 to 126, each half a design size wide and high, with a kern
/// of -1/16 of the design size.
pub(crate) fn metrics(alloc: Global) -> Result<Tfm, TfmFault> {
    read_tfm(alloc, &kerned10(alloc, HALF, 0xffff0000)?)
}

/// That font at 10 points, alone.
pub(crate) fn stock(alloc: Global, codes: FontCodes, expand: Option<Expand>) -> Result<Stock, Fail>
    ensures { IfOk result (λ stock. length stock ≡ 1) }
{
    let mut fonts = Vec::new(alloc);
    fonts.push(Font::at(alloc, metrics(alloc)?, Size::Design, codes, expand)?)?;
    Ok(Stock::make(fonts))
}

/// 20 thousandths wider or narrower at most, in steps of 1.
pub(crate) fn twenty() -> Option<Expand> {
    Some(Expand {
        stretch: 20,
        shrink: 20,
        step: 1,
    })
}

/// The parameters of plain TeX, but that lines are so wide, and characters hang out and fonts are
/// expanded at these levels.
pub(crate) fn params(hsize: Sp, protrude: i32, adjust: i32) -> Params
    requires { unsigned_abs hsize < 2 ^ 30 }
    ensures hsize { unsigned_abs result.hsize < 2 ^ 30 }
    ensures hangindent { unsigned_abs result.hangindent < 2 ^ 30 }
{
    let mut params = Params::plain();
    params.hsize = hsize;
    params.pdfprotrudechars = protrude;
    params.pdfadjustspacing = adjust;
    params
}

pub(crate) const SPACE: Glue = Glue {
    width: 163840,
    stretch: 81920,
    order: 0,
    shrink: 40960,
};

pub(crate) const FIL: Glue = Glue {
    width: 0,
    stretch: 65536,
    order: 1,
    shrink: 0,
};

/// A character, a space, or for `|` a forced break.
pub(crate) fn item(stock: &Stock, code: u8) -> Item
    requires { length stock.now ≡ 1 }
    ensures { IsSimple stock.now result }
{
    match code {
        b' ' => Item::Glue { glue: SPACE },
        b'|' => Item::Penalty { value: -10000 },
        _ => Item::Char { font: 0, code },
    }
}

/// A hyphen place: a discretionary that puts a hyphen before a break.
fn hyphen(alloc: Global, stock: &Stock) -> Result<Item, AllocError>
    requires { length stock.now ≡ 1 }
    ensures { IfOk result (IsSimple stock.now) }
{
    let mut pre = Items::new(alloc);
    pre.push(Sub::Char {
        font: 0,
        code: b'-',
    })?;
    let lists = Disc::new(alloc, pre, Items::new(alloc), Items::new(alloc))?;
    Ok(Item::Disc { lists })
}

/// What a byte of a text stands for: a hyphen place, or an item without lists.
fn part(alloc: Global, stock: &Stock, code: u8) -> Result<Item, AllocError>
    requires { length stock.now ≡ 1 }
    ensures { IfOk result (IsSimple stock.now) }
{
    match code {
        b'-' => hyphen(alloc, stock),
        _ => Ok(item(stock, code)),
    }
}

/// A list of items that count once each.
#[tactic(auto, using(crate::proofs::SimpleLaws::simple_over))]
pub(crate) fn list(stock: &Stock, items: Items<Item>) -> HList
    requires { AreSimple stock.now items }
    ensures bounds { IsInBounds result }
    ensures over { IsOver stock.now result.items }
{
    HList { items }
}

/// The rule of a list over one font.
pub(crate) fn rule<'a>(
    alloc: Global,
    list: &'a HList,
    params: &'a Params,
    stock: &'a Stock,
) -> Result<BreakRule<'a>, NoMemory>
    requires bounds { IsInBounds list.now }
    requires over { IsOver stock.now list.now.items }
    requires one { length stock.now ≡ 1 }
    requires hsize { unsigned_abs params.now.hsize < 2 ^ 30 }
    requires hangindent { unsigned_abs params.now.hangindent < 2 ^ 30 }
    ensures { IfOk result (λ rule. length rule.shape ≡ 0) }
{
    BreakRule::make(alloc, list, params, &[], stock, false)
}

/// A paragraph of characters and spaces, with what a paragraph ends with.
pub(crate) fn words(alloc: Global, stock: &Stock, text: &[u8]) -> Result<HList, AllocError>
    requires one { length stock.now ≡ 1 }
    requires short { length text.now ≤ 1000 }
    ensures bounds { IfOk result IsInBounds }
    ensures over { IfOk result (λ list. IsOver stock.now list.items) }
{
    let mut items = Items::new(alloc);
    for code in text {
        items.push(part(alloc, stock, *code)?)?;
    }
    items.push(Item::Penalty { value: 10000 })?;
    items.push(Item::Glue { glue: FIL })?;
    Ok(list(stock, items))
}

/// A place among the legal ones, counted from 0.
pub(crate) fn place(rule: &BreakRule, number: usize) -> Result<u32, Fail>
    ensures { IfOk result (IsPlace rule.now) }
{
    match rule.legal().get(number) {
        Some(place) => Ok(*place),
        None => Err(Fail::new(format_args!("no place {number}"))),
    }
}

//! How lines fit, and what they are made of.
ghost use Rattle.std.specs.Prelude.{◌≡◌, ◌≤◌, ◌<◌, ◌^◌, IfOk, IfSome, length, unsigned_abs};
ghost use Rattle.hlist.specs.Bounds.{IsInBounds};
ghost use Rattle.break_rule.specs.Over.{IsOver};
ghost use Rattle.break_tests.specs.Simple.{IsSimple};

use crate::fixture::{FIL, item, list, params, place, rule, stock, twenty, words};
use break_rule::{From, LineFit, Measure, Piece};
use font_stock::{FontCodes, Stock};
use hlist::{HList, Item, KernLeft};
use items::Items;
use micro_num::Params;
use std::alloc::Global;
use std::test::Fail;

/// That place, and how the first line fits that ends there.
fn first_line(
    alloc: Global,
    stock: &Stock,
    params: &Params,
    text: &[u8],
    number: usize,
) -> Result<(u32, LineFit), Fail>
    requires one { length stock.now ≡ 1 }
    requires short { length text.now ≤ 1000 }
    requires hsize { unsigned_abs params.now.hsize < 2 ^ 30 }
    requires hangindent { unsigned_abs params.now.hangindent < 2 ^ 30 }
{
    let list = words(alloc, stock, text)?;
    let rule = rule(alloc, &list, params, stock)?;
    let to = place(&rule, number)?;
    Ok((to, rule.line(From::Start, to, 1)))
}

/// A fit of these values.
fn fit(shortfall: i64, badness: u16, class: u8) -> LineFit {
    LineFit {
        shortfall,
        badness,
        class,
    }
}

#[test]
fn glue_is_stretched(rt: HostRuntime) -> Result<(), Fail> {
    let alloc = rt.alloc();
    let stock = stock(alloc, FontCodes::plain(), None)?;
    let exact = first_line(alloc, &stock, &params(983040, 0, 0), b"abc", 0)?;
    assert_eq!(rt; exact, (5, fit(0, 0, 2)));
    let short = first_line(alloc, &stock, &params(1572864, 0, 0), b"aa bb cc dd", 1)?;
    assert_eq!(rt; short, (5, fit(98304, 172, 0)));
    Ok(())
}

#[test]
fn fonts_make_up_for_a_part_at_level_two(rt: HostRuntime) -> Result<(), Fail> {
    let alloc = rt.alloc();
    let text = b"aa bb cc dd";
    let even = stock(alloc, FontCodes::plain(), twenty())?;
    let stretched = first_line(alloc, &even, &params(1572864, 0, 2), text, 1)?;
    assert_eq!(rt; stretched, (5, fit(72092, 68, 1)));
    let shrunk = first_line(alloc, &even, &params(1441792, 0, 2), text, 1)?;
    assert_eq!(rt; shrunk, (5, fit(-6552, 0, 2)));
    let level_one = first_line(alloc, &even, &params(1572864, 0, 1), text, 1)?;
    assert_eq!(rt; level_one, (5, fit(98304, 172, 0)));
    let mut codes = FontCodes::plain();
    codes.set_ef(b'a', 0);
    let rigid = stock(alloc, codes, twenty())?;
    let half = first_line(alloc, &rigid, &params(1572864, 0, 2), text, 1)?;
    assert_eq!(rt; half, (5, fit(85198, 111, 0)));
    Ok(())
}

#[test]
fn hangs_count_at_level_two(rt: HostRuntime) -> Result<(), Fail> {
    let alloc = rt.alloc();
    let text = b"aa bb, cc";
    let mut codes = FontCodes::plain();
    codes.set_right(b',', 500);
    let stock = stock(alloc, codes, None)?;
    let hung = first_line(alloc, &stock, &params(1474560, 2, 0), text, 1)?;
    assert_eq!(rt; hung, (6, fit(0, 0, 2)));
    let level_one = first_line(alloc, &stock, &params(1474560, 1, 0), text, 1)?;
    assert_eq!(rt; level_one, (6, fit(-327680, 10001, 3)));
    Ok(())
}

#[test]
fn a_line_may_begin_past_its_end(rt: HostRuntime) -> Result<(), Fail> {
    let alloc = rt.alloc();
    let stock = stock(alloc, FontCodes::plain(), None)?;
    let list = words(alloc, &stock, b"a | b")?;
    let params = params(6553600, 0, 0);
    let rule = rule(alloc, &list, &params, &stock)?;
    assert_eq!(rt; rule.legal(), [1, 2, 7].as_slice());
    let space = place(&rule, 0)?;
    let forced = place(&rule, 1)?;
    assert_eq!(rt;
        (rule.penalty_at(space), rule.penalty_at(forced)),
        (0, -10000)
    );
    let measure = rule.measure(From::After { at: space }, forced);
    assert_eq!(rt;
        measure,
        Measure {
            width: -163840,
            stretch: [-81920, 0, 0, 0],
            shrink: -40960,
            font_stretch: 0,
            font_shrink: 0,
        }
    );
    let line = rule.line_in(alloc, From::After { at: space }, forced)?;
    let margin = Piece::Space {
        glue: params.leftskip,
    };
    let none = [
        margin,
        Piece::Move { width: 0 },
        Piece::Move { width: 0 },
        margin,
    ];
    assert_eq!(rt; line.pieces.as_slice(), none.as_slice());
    Ok(())
}

/// The font's kern behind the letter o, as its programs would put it there.
fn kern_behind_o(stock: &Stock) -> Option<Item>
    requires { length stock.now ≡ 1 }
    ensures { IfSome result (IsSimple stock.now) }
{
    let kerns = stock.font(0).tfm().kerns.as_slice();
    let fix = *kerns.first()?;
    let left = Some(KernLeft {
        font: 0,
        code: b'o',
        fix,
    });
    Some(Item::FontKern {
        width: -40960,
        left,
    })
}

/// The letters o and v with that kern between them, and what a paragraph ends with.
fn kerned(alloc: Global, stock: &Stock) -> Result<HList, Fail>
    requires { length stock.now ≡ 1 }
    ensures bounds { IfOk result IsInBounds }
    ensures over { IfOk result (λ list. IsOver stock.now list.items) }
{
    let Some(kern) = kern_behind_o(stock) else {
        return Err(Fail::new(format_args!("no kern")));
    };
    let mut items = Items::new(alloc);
    items.push(item(stock, b'o'))?;
    items.push(kern)?;
    items.push(item(stock, b'v'))?;
    items.push(Item::Penalty { value: 10000 })?;
    items.push(Item::Glue { glue: FIL })?;
    Ok(list(stock, items))
}

#[test]
fn a_kern_expands_with_the_glyph_before_it(rt: HostRuntime) -> Result<(), Fail> {
    let alloc = rt.alloc();
    let stock = stock(alloc, FontCodes::plain(), twenty())?;
    let list = kerned(alloc, &stock)?;
    let params = params(6553600, 0, 2);
    let rule = rule(alloc, &list, &params, &stock)?;
    assert_eq!(rt; rule.legal(), [5].as_slice());
    let end = place(&rule, 0)?;
    assert_eq!(rt;
        rule.measure(From::Start, end),
        Measure {
            width: 614400,
            stretch: [0, 65536, 0, 0],
            shrink: 0,
            font_stretch: 12286,
            font_shrink: 12289,
        }
    );
    Ok(())
}

#[test]
fn a_kern_moves_with_the_glyph_before_it(rt: HostRuntime) -> Result<(), Fail> {
    let alloc = rt.alloc();
    let stock = stock(alloc, FontCodes::plain(), twenty())?;
    let list = kerned(alloc, &stock)?;
    let params = params(6553600, 0, 2);
    let rule = rule(alloc, &list, &params, &stock)?;
    let end = place(&rule, 0)?;
    let line = rule.line_in(alloc, From::Start, end)?;
    assert!(rt; line.expand);
    let kern = Piece::FontMove {
        font: 0,
        code: b'o',
        fix: -65536,
        width: -40960,
    };
    let pieces = [
        Piece::Space {
            glue: params.leftskip,
        },
        Piece::Move { width: 0 },
        Piece::Glyph {
            font: 0,
            code: b'o',
        },
        kern,
        Piece::Glyph {
            font: 0,
            code: b'v',
        },
        Piece::Space { glue: FIL },
        Piece::Move { width: 0 },
        Piece::Space {
            glue: params.rightskip,
        },
    ];
    assert_eq!(rt; line.pieces.as_slice(), pieces.as_slice());
    Ok(())
}

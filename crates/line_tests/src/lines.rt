//! The places of glyphs, and what is asked for them.
ghost use Rattle.std.specs.Prelude.{◌≡◌, ◌≤◌, ◌<◌, ◌^◌, IfOk, length, unsigned_abs};
ghost use Rattle.hpack_two.specs.Over.{IsOver};

use crate::fixture::{FIL, NONE, kern_behind_o, line, piece, shift, stock, words};
use break_rule::LineIn;
use font_stock::Stock;
use hpack_two::{PackFault, bases_of, pack};
use instance_core::{Cell, Packed, PlainWidths};
use items::Items;
use micro_num::Sp;
use std::alloc::Global;
use std::test::Fail;

/// A packed line, or why there is none.
fn packed(
    alloc: Global,
    stock: &Stock,
    line: &LineIn,
    width: Sp,
    indent: Sp,
) -> Result<Result<Packed, PackFault>, Fail>
    requires over { IsOver stock.now line.now.pieces }
    requires width { unsigned_abs width < 2 ^ 30 }
    requires indent { unsigned_abs indent < 2 ^ 30 }
{
    let bases = bases_of(alloc, stock)?;
    let mut source = PlainWidths::make(alloc, &bases)?;
    Ok(pack(alloc, line, stock, width, indent, &mut source))
}

/// The step and the place of each glyph of a packed line.
fn places(
    alloc: Global,
    stock: &Stock,
    line: &LineIn,
    width: Sp,
    indent: Sp,
) -> Result<Vec<(i32, Sp)>, Fail>
    requires over { IsOver stock.now line.now.pieces }
    requires width { unsigned_abs width < 2 ^ 30 }
    requires indent { unsigned_abs indent < 2 ^ 30 }
{
    let packed = packed(alloc, stock, line, width, indent)??;
    let mut found = Vec::new(alloc);
    for glyph in packed.glyphs.as_slice() {
        found.push((glyph.cell.step, glyph.x))?;
    }
    Ok(found)
}

#[test]
fn fonts_and_glue_make_up_for_what_a_line_lacks(rt: HostRuntime) -> Result<(), Fail> {
    let alloc = rt.alloc();
    let stock = stock(alloc, 1000)?;
    let line = words(alloc, &stock, b"aa bb", 0, NONE)?;
    let wide = [(20, 0), (20, 334233), (20, 904398), (20, 1238631)];
    assert_eq!(rt;
        places(alloc, &stock, &line, 1572864, 0)?.as_slice(),
        wide.as_slice()
    );
    let narrow = [(-20, 0), (-20, 321126), (-20, 799540), (-20, 1120666)];
    assert_eq!(rt;
        places(alloc, &stock, &line, 1441792, 0)?.as_slice(),
        narrow.as_slice()
    );
    let tight = [(-20, 0), (-20, 321126), (-20, 765132), (-20, 1086258)];
    assert_eq!(rt;
        places(alloc, &stock, &line, 1400000, 0)?.as_slice(),
        tight.as_slice()
    );
    Ok(())
}

#[test]
fn a_letter_without_a_share_stays_as_it_is(rt: HostRuntime) -> Result<(), Fail> {
    let alloc = rt.alloc();
    let stock = stock(alloc, 0)?;
    let line = words(alloc, &stock, b"aa bb", 0, NONE)?;
    let shared = [(0, 0), (0, 327680), (20, 904398), (20, 1238631)];
    assert_eq!(rt;
        places(alloc, &stock, &line, 1572864, 0)?.as_slice(),
        shared.as_slice()
    );
    Ok(())
}

#[test]
fn infinite_glue_leaves_fonts_and_words_as_they_are(rt: HostRuntime) -> Result<(), Fail> {
    let alloc = rt.alloc();
    let stock = stock(alloc, 1000)?;
    let line = words(alloc, &stock, b"cc dd", 0, FIL)?;
    let last = [(0, 0), (0, 327680), (0, 819200), (0, 1146880)];
    assert_eq!(rt;
        places(alloc, &stock, &line, 1572864, 0)?.as_slice(),
        last.as_slice()
    );
    let moved = [(0, 819200), (0, 1146880), (0, 1638400), (0, 1966080)];
    assert_eq!(rt;
        places(alloc, &stock, &line, 1572864, 819200)?.as_slice(),
        moved.as_slice()
    );
    Ok(())
}

#[test]
fn a_comma_hangs_out(rt: HostRuntime) -> Result<(), Fail> {
    let alloc = rt.alloc();
    let stock = stock(alloc, 1000)?;
    let line = words(alloc, &stock, b"aa bb,", -327680, NONE)?;
    let found = places(alloc, &stock, &line, 1474560, 0)?;
    assert_eq!(rt; found.as_slice().last(), Some(&(0, 1474560)));
    Ok(())
}

#[test]
fn a_shift_is_rounded_once(rt: HostRuntime) -> Result<(), Fail> {
    let alloc = rt.alloc();
    let stock = stock(alloc, 1000)?;
    let mut line = words(alloc, &stock, b"a b c", 0, NONE)?;
    line.expand = false;
    let found = [(0, 0), (0, 491521), (0, 983041)];
    assert_eq!(rt;
        places(alloc, &stock, &line, 1310721, 0)?.as_slice(),
        found.as_slice()
    );
    Ok(())
}

/// The letters o and v with the font's kern between them.
fn kerned(alloc: Global, stock: &Stock) -> Result<LineIn, Fail>
    requires { length stock.now ≡ 1 }
    ensures { IfOk result (λ line. IsOver stock.now line.pieces) }
{
    let Some(kern) = kern_behind_o(stock) else {
        return Err(Fail::new(format_args!("no kern")));
    };
    let mut pieces = Items::new(alloc);
    pieces.push(piece(stock, b'o'))?;
    pieces.push(kern)?;
    pieces.push(piece(stock, b'v'))?;
    Ok(line(stock, pieces))
}

#[test]
fn a_kern_is_expanded_with_the_glyph_before_it(rt: HostRuntime) -> Result<(), Fail> {
    let alloc = rt.alloc();
    let stock = stock(alloc, 1000)?;
    let line = kerned(alloc, &stock)?;
    let wide = [(20, 0), (20, 292453)];
    assert_eq!(rt;
        places(alloc, &stock, &line, 626686, 0)?.as_slice(),
        wide.as_slice()
    );
    let plain = [(0, 0), (0, 286720)];
    assert_eq!(rt;
        places(alloc, &stock, &line, 614400, 0)?.as_slice(),
        plain.as_slice()
    );
    Ok(())
}

#[test]
fn a_line_is_as_high_as_its_glyphs_and_ends_behind_its_indent(rt: HostRuntime) -> Result<(), Fail> {
    let alloc = rt.alloc();
    let stock = stock(alloc, 1000)?;
    let line = words(alloc, &stock, b"aa bb", 0, NONE)?;
    let set = packed(alloc, &stock, &line, 1572864, 819200)??;
    assert_eq!(rt; (set.height, set.depth, set.width), (327680, 0, 2392064));
    let empty = words(alloc, &stock, b"", 0, NONE)?;
    let set = packed(alloc, &stock, &empty, 1572864, 0)??;
    assert_eq!(rt; (set.height, set.depth, set.width), (0, 0, 1572864));
    Ok(())
}

#[test]
fn expanded_glyphs_alone_are_asked_for(rt: HostRuntime) -> Result<(), Fail> {
    let alloc = rt.alloc();
    let stock = stock(alloc, 0)?;
    let bases = bases_of(alloc, &stock)?;
    let mut source = PlainWidths::make(alloc, &bases)?;
    let line = words(alloc, &stock, b"aa bb", 0, NONE)?;
    pack(alloc, &line, &stock, 1572864, 0, &mut source)?;
    let wide = Cell { font: 0, step: 20 };
    assert_eq!(rt; source.cells(), [wide].as_slice());
    pack(alloc, &line, &stock, 1441792, 0, &mut source)?;
    let narrow = Cell { font: 0, step: -20 };
    assert_eq!(rt; source.cells(), [narrow, wide].as_slice());
    Ok(())
}

#[test]
fn a_glyph_past_the_range_is_told(rt: HostRuntime) -> Result<(), Fail> {
    let alloc = rt.alloc();
    let stock = stock(alloc, 1000)?;
    let mut pieces = Items::new(alloc);
    pieces.push(shift(&stock, 1073741823))?;
    pieces.push(piece(&stock, b'a'))?;
    let line = line(&stock, pieces);
    let refused = packed(alloc, &stock, &line, 0, 0)?.err();
    assert_eq!(rt; refused, Some(PackFault::OutOfRange { glyph: 0 }));
    Ok(())
}

//! The numbers of the fonts of two pages.
ghost use Rattle.std.specs.Prelude.{◌≡◌, IfOk, length};
ghost use Rattle.renumber.specs.Uses.{cells_of_lines};

use instance_core::{Cell, Packed, Page, PageLine, Placed};
use items::Items;
use micro_num::NoMemory;
use renumber::Numbering;
use std::alloc::Global;
use std::test::Fail;

fn glyph(step: i32) -> Placed {
    Placed {
        x: 0,
        cell: Cell { font: 0, step },
        code: 97,
        advance: 0,
    }
}

/// A line of three glyphs, of one font at these steps.
fn line(alloc: Global, steps: [i32; 3]) -> Result<Packed, NoMemory>
    ensures { IfOk result (λ line. length line.glyphs ≡ 3) }
{
    let [first, second, third] = steps;
    let glyphs = [glyph(first), glyph(second), glyph(third)];
    Ok(Packed {
        glyphs: Items::from_slice(alloc, &glyphs)?,
        height: 0,
        depth: 0,
        width: 0,
    })
}

/// A page of one such line.
fn page(alloc: Global, steps: [i32; 3]) -> Result<Page, NoMemory>
    ensures { IfOk result (λ page. length (cells_of_lines page.lines) ≡ 3) }
{
    let mut lines = Items::new(alloc);
    lines.push(PageLine {
        baseline: 0,
        line: line(alloc, steps)?,
    })?;
    Ok(Page {
        lines,
        extent: 0,
        width: 0,
    })
}

#[test]
fn a_font_has_the_place_of_its_first_use(rt: HostRuntime) -> Result<(), Fail> {
    let pages = [
        page(rt.alloc(), [20, 0, 20])?,
        page(rt.alloc(), [0, -15, 20])?,
    ];
    let numbering = Numbering::make(rt.alloc(), &pages)?;
    let cells = [
        Cell { font: 0, step: 20 },
        Cell { font: 0, step: 0 },
        Cell { font: 0, step: -15 },
    ];
    assert_eq!(rt; numbering.cells(), cells.as_slice());
    for (font, step, want) in [
        (0, 20, Some(0)),
        (0, 0, Some(1)),
        (0, -15, Some(2)),
        (0, 15, None),
        (1, 20, None),
    ] {
        let found = numbering.number_of(Cell { font, step });
        assert_eq!(rt; found, want, "font {font}, step {step}");
    }
    Ok(())
}

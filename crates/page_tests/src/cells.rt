//! Cells, and what a source of widths keeps, by values worked out by hand.
ghost use Rattle.std.specs.Prelude.{◌≡◌, IfOk, [], ◌∷◌};
ghost use Rattle.instance_core.specs.Worked.{half_wide};

use instance_core::{BaseFont, Bases, Cell, PlainWidths, WidthSource, cell_number, cell_of};
use items::Items;
use micro_num::{NoMemory, Sp};
use std::alloc::Global;
use std::test::Fail;

/// A font of 10 points in which every character is half a design size wide, expanded by up to 20
/// thousandths each way in steps of 1.
fn half_wide(alloc: Global) -> Result<BaseFont, NoMemory>
    ensures { IfOk result (λ font. font ≡ half_wide 1) }
{
    Ok(BaseFont {
        size: 655_360,
        widths: Items::from_vec(vec![in alloc; 524_288; 256]?),
        stretch: 20,
        shrink: 20,
        step: 1,
    })
}

/// That font alone.
fn one_font(alloc: Global) -> Result<Bases, NoMemory>
    ensures { IfOk result (λ bases. bases ≡ half_wide 1 ∷ []) }
{
    let mut fonts = Vec::new(alloc);
    fonts.push(half_wide(alloc)?)?;
    Bases::make(alloc, fonts)
}

/// The width of a letter at a step, or `None` where the font has no such instance.
fn width_at(source: &mut PlainWidths, bases: &Bases, step: i32) -> Option<Sp>
    requires { source.old.bases.now ≡ bases.now }
    ensures { source.new.bases.now ≡ bases.now }
{
    let cell = Cell { font: 0, step };
    cell_number(bases, cell)?;
    Some(source.width(cell, 97))
}

#[test]
fn cells_are_numbered_by_their_steps(rt: HostRuntime) -> Result<(), Fail> {
    let bases = one_font(rt.alloc())?;
    assert_eq!(rt; bases.cell_count(), 40);
    for (step, number) in [(-20, 0), (-1, 19), (1, 20), (20, 39)] {
        let cell = Cell { font: 0, step };
        assert_eq!(rt; cell_number(&bases, cell), Some(number), "step {step}");
        assert!(rt; number < bases.cell_count());
        assert_eq!(rt; cell_of(&bases, number), cell, "number {number}");
    }
    for (font, step) in [(0, 0), (0, 21), (0, -21), (1, 20)] {
        let cell = Cell { font, step };
        assert_eq!(rt; cell_number(&bases, cell), None, "font {font}, step {step}");
    }
    Ok(())
}

#[test]
fn a_source_keeps_its_cells_in_order(rt: HostRuntime) -> Result<(), Fail> {
    let bases = one_font(rt.alloc())?;
    let mut source = PlainWidths::make(rt.alloc(), &bases)?;
    for (step, want) in [
        (20, Some(334_233)),
        (-20, Some(321_126)),
        (0, None),
        (20, Some(334_233)),
    ] {
        let width = width_at(&mut source, &bases, step);
        assert_eq!(rt; width, want, "step {step}");
    }
    let asked = [Cell { font: 0, step: -20 }, Cell { font: 0, step: 20 }];
    assert_eq!(rt; source.cells(), asked.as_slice());
    Ok(())
}

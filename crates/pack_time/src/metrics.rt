//! A font of the codes 33 to 126, each half a size wide and high, at 10 points.
ghost use Rattle.std.specs.Prelude.{◌≡◌, IfOk, length};

use font_stock::{Expand, Font, FontCodes, Size, Stock};
use std::alloc::Global;
use test_fonts::tiny10;
use tfm_read::{Tfm, TfmFault, read_tfm};

/// The font's metrics.
fn metrics(alloc: Global) -> Result<Tfm, TfmFault> {
    read_tfm(alloc, &tiny10(alloc)?)
}

/// That font at 10 points, 20 thousandths wider or narrower at most, in steps of 1.
pub fn stock(alloc: Global) -> anyhow::Result<Stock>
    ensures { IfOk result (λ stock. length stock ≡ 1) }
{
    let expand = Some(Expand {
        stretch: 20,
        shrink: 20,
        step: 1,
    });
    let mut fonts = Vec::new(alloc);
    fonts.push(Font::at(
        alloc,
        metrics(alloc)?,
        Size::Design,
        FontCodes::plain(),
        expand,
    )?)?;
    Ok(Stock::make(fonts))
}

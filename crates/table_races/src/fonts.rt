//! The fonts of the races, at 10 points, with each width half of that.
ghost use Rattle.std.specs.Prelude.{◌≡◌, ◌≤◌, IfOk, All, vec_len};
ghost use Rattle.instance_core.specs.Bases.{IsBase};
ghost use Rattle.instance_table.specs.Places.{cell_count};
ghost use Rattle.table_races.specs.Crews.{IsLimit};

use instance_core::{BaseFont, Bases};
use instance_table::InstanceTable;
use items::Items;
use micro_num::NoMemory;
use std::alloc::Global;

/// A font with an instance for each thousandth on either side of it, up to the limit.
fn font(alloc: Global, limit: u16) -> Result<BaseFont, NoMemory>
    requires { IsLimit limit }
    ensures { IfOk result (λ font. IsBase font) }
{
    Ok(BaseFont {
        size: 655360,
        widths: Items::from_vec(vec![in alloc; 524288; 256]?),
        stretch: limit,
        shrink: limit,
        step: 1,
    })
}

/// One font of 40 instances.
pub fn small_font(alloc: Global) -> Result<Bases, NoMemory> {
    let mut fonts = Vec::new(alloc);
    fonts.push(font(alloc, 20)?)?;
    Bases::make(alloc, fonts)
}

/// Three fonts, of 100 instances each.
pub fn wide_fonts(alloc: Global) -> Result<Bases, NoMemory> {
    let mut fonts = Vec::new(alloc);
    fonts.push(font(alloc, 50)?)?;
    fonts.push(font(alloc, 50)?)?;
    fonts.push(font(alloc, 50)?)?;
    Bases::make(alloc, fonts)
}

/// How many cells a table of these fonts has.
#[tactic(auto, unfolding(instance_table::specs::Places::cell_count))]
pub fn cells_of_table(table: &InstanceTable, bases: &Bases) -> u32
    requires { table.now.bases ≡ bases.now }
    ensures { result ≡ cell_count table.now.bases }
{
    bases.cell_count()
}

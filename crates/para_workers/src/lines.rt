//! The lines of a broken list, set one by one.
ghost use Rattle.std.specs.Prelude.{◌≡◌, ◌⊎◌, ◌<◌, ◌≤◌, ◌^◌, All, Err, IfOk, length, map};
ghost use Rattle.hlist_build.specs.declared.fault.ParFault.TheVariants.{NoMemory};
ghost use Rattle.break_rule.specs.Made.{IsFrom, IsPlace};
ghost use Rattle.break_rule.specs.declared.line.From.TheVariants.{Start};
ghost use Rattle.hpack_two.specs.Over.{base_of};
ghost use Rattle.para_workers.specs.Fitting.{IsSetOver};
ghost use Rattle.para_workers.specs.Lengths.{HasLengths};
ghost use Rattle.para_workers.specs.SetPar.{line_in_range, lines_in_range, set_lines};
ghost use Rattle.para_workers.specs.Touched.{TouchedByLine, TouchedByLines};

use break_rule::{BreakRule, From};
use font_stock::Stock;
use hlist_build::ParFault;
use hpack_two::{PackFault, pack};
use instance_core::{Packed, WidthSource};
use items::Items;
use micro_num::shape_line;
use std::alloc::Global;

/// The line from a break to a place, set as the line of a number, counted from 1.
fn packed_line<W: WidthSource>(
    alloc: Global,
    rule: &BreakRule,
    stock: &Stock,
    from: From,
    to: u32,
    number: u32,
    source: &mut W,
) -> Result<Packed, ParFault>
    requires stock { rule.now.stock ≡ stock.now }
    requires from { IsFrom rule.now from }
    requires to { IsPlace rule.now to }
    requires number { 1 ≤ number }
    requires lengths { HasLengths rule.now.params rule.now.shape }
    requires source { W.bases source.old ≡ map base_of stock.now }
    ensures line { (result ≡ line_in_range rule.now number from to) ⊎ (result ≡ Err NoMemory) }
    ensures touched { TouchedByLine rule.now number from to (W.bases source.old)
        (W.touched source.old) (W.touched source.new) result }
    ensures over { IfOk result (IsSetOver stock.now) }
    ensures bases { W.bases source.new ≡ W.bases source.old }
    ensures fixed { W.fixed source.new ≡ W.fixed source.old }
{
    let Ok(line) = rule.line_in(alloc, from, to) else {
        return Err(ParFault::NoMemory);
    };
    let at = shape_line(rule.params(), rule.shape(), number);
    match pack(alloc, &line, stock, at.width, at.indent, source) {
        Ok(packed) => Ok(packed),
        Err(PackFault::OutOfRange { .. }) => Err(ParFault::OutOfRange { line: number }),
        Err(PackFault::NoMemory) => Err(ParFault::NoMemory),
    }
}

/// The lines that end at some places, the first of which begins at the start of the list. The first
/// of them that isn't in range is told, before any later one is set.
pub(crate) fn packed_lines<W: WidthSource>(
    alloc: Global,
    rule: &BreakRule,
    stock: &Stock,
    breaks: &[u32],
    source: &mut W,
) -> Result<Items<Packed>, ParFault>
    requires stock { rule.now.stock ≡ stock.now }
    requires few { length breaks.now ≤ 65537 }
    requires places { All (IsPlace rule.now) breaks.now }
    requires lengths { HasLengths rule.now.params rule.now.shape }
    requires source { W.bases source.old ≡ map base_of stock.now }
    ensures lines { (result ≡ lines_in_range (set_lines rule.now 1 Start breaks.now))
        ⊎ (result ≡ Err NoMemory) }
    ensures touched { TouchedByLines (set_lines rule.now 1 Start breaks.now)
        (W.bases source.old) (W.touched source.old) (W.touched source.new) result }
    ensures over { IfOk result (All (IsSetOver stock.now)) }
    ensures bases { W.bases source.new ≡ W.bases source.old }
    ensures fixed { W.fixed source.new ≡ W.fixed source.old }
{
    let mut lines = Items::from_vec(Vec::with_capacity(alloc, breaks.len())?);
    let mut from = From::Start;
    for index in 0..breaks.len() {
        let to = breaks[index];
        let number = index as u32 + 1;
        lines.push(packed_line(alloc, rule, stock, from, to, number, source)?)?;
        from = From::After { at: to };
    }
    Ok(lines)
}

//! What one part gives by itself (TeX: The Program, sections 1041 to 1044, 1057, 1061, 1103 and
//! 1117).
ghost use Rattle.std.specs.Prelude.{◌≡◌, ◌<◌, ◌^◌, ◌⊎◌, ◌≤◌, length, Ok, Err, IfErr, OnOk};
ghost use Rattle.std.specs.Option.{ForSome};
ghost use Rattle.hlist_build.specs.Counts.{part_weight};
ghost use Rattle.hlist_build.specs.Given.{behind, single, space_in, normal_in, tie_in};
ghost use Rattle.hlist_build.specs.declared.fault.ParFault.TheVariants.{NoMemory};

use crate::current::Current;
use crate::fault::ParFault;
use crate::runs::{push_disc, push_hyphen};
use crate::space::space_at;
use font_stock::Stock;
use hlist::Item;
use items::Items;
use lig_kern::Workspace;
use micro_num::{Params, Part, PartAt};
use std::alloc::Global;

/// Puts what a part gives by itself, in a current font and at a space factor, into a list. A
/// character gives nothing so.
#[tactic(auto, unfolding(crate::specs::Given::single))]
pub fn push_single(
    alloc: Global,
    work: &mut Workspace,
    list: &mut Items<Item>,
    params: &Params,
    stock: &Stock,
    current: Option<Current>,
    factor: u16,
    one: &PartAt,
) -> Result<(), ParFault>
    requires few { part_weight one.now.part < 2 ^ 20 }
    requires font { ForSome current (λ now. now.font < length stock.now) }
    requires factor { 0 < factor }
    ensures ok { let part = one.now in OnOk result (behind list.old
        (single params.now stock.now current factor part.offset part.part) ≡ Ok list.new) }
    ensures err { let part = one.now in IfErr result (λ fault.
        (single params.now stock.now current factor part.offset part.part ≡ Err fault)
        ⊎ (fault ≡ NoMemory)) }
{
    match &one.part {
        Part::Char { .. } | Part::Font { .. } => Ok(()),
        Part::Space => push_space(list, params, current, factor),
        Part::Normal => push_normal(list, current),
        Part::Tie => push_tie(list, current),
        Part::Kern { width } => {
            list.push(Item::Kern { width: *width })?;
            Ok(())
        }
        Part::Skip { glue } => {
            list.push(Item::Glue { glue: *glue })?;
            Ok(())
        }
        Part::Penalty { value } => {
            list.push(Item::Penalty { value: *value })?;
            Ok(())
        }
        Part::Hyphen => push_hyphen(alloc, list, stock, current),
        Part::Disc { lists } => push_disc(alloc, work, list, stock, current, one.offset, lists),
    }
}

/// Puts a space into a list, where there is a font for it.
fn push_space(
    list: &mut Items<Item>,
    params: &Params,
    current: Option<Current>,
    factor: u16,
) -> Result<(), ParFault>
    requires { 0 < factor }
    ensures ok { OnOk result
        (behind list.old (space_in params.now current factor) ≡ Ok list.new) }
    ensures err { IfErr result (λ fault. fault ≡ NoMemory) }
{
    if let Some(now) = current {
        let glue = space_at(params, now, factor);
        list.push(Item::Glue { glue })?;
    }
    Ok(())
}

/// Puts a normal space into a list, where there is a font for it.
fn push_normal(list: &mut Items<Item>, current: Option<Current>) -> Result<(), ParFault>
    ensures ok { OnOk result (behind list.old (normal_in current) ≡ Ok list.new) }
    ensures err { IfErr result (λ fault. fault ≡ NoMemory) }
{
    if let Some(now) = current {
        list.push(Item::Glue { glue: now.normal })?;
    }
    Ok(())
}

/// Puts a space at which no line ends into a list, where there is a font for it.
fn push_tie(list: &mut Items<Item>, current: Option<Current>) -> Result<(), ParFault>
    ensures ok { OnOk result (behind list.old (tie_in current) ≡ Ok list.new) }
    ensures err { IfErr result (λ fault. fault ≡ NoMemory) }
{
    if let Some(now) = current {
        list.push(Item::Penalty { value: 10000 })?;
        list.push(Item::Glue { glue: now.normal })?;
    }
    Ok(())
}

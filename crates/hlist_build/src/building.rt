//! The items of all parts, one after another (TeX: The Program, parts 46 and 47).
ghost use Rattle.std.specs.Prelude.{◌≡◌, ◌≤◌, ◌⊎◌, [], length, All, Ok, Err, IfErr, OnOk};
ghost use Rattle.hlist_build.specs.Counts.{part_count};
ghost use Rattle.hlist_build.specs.Given.{behind, given_behind};
ghost use Rattle.hlist_build.specs.Parts.{run_codes, NamesFont};
ghost use Rattle.hlist_build.specs.declared.fault.ParFault.TheVariants.{NoMemory};

use crate::current::Current;
use crate::fault::ParFault;
use crate::runs::push_run;
use crate::single::push_single;
use crate::space::{current_in, factor_from};
use font_stock::Stock;
use hlist::Item;
use items::Items;
use lig_kern::Workspace;
use micro_num::{Params, Part, PartAt, Tables};
use std::alloc::{AllocError, Global};

/// The codes of the run that some parts begin with.
fn run_codes(codes: &mut Vec<u8>, parts: &[PartAt]) -> Result<(), AllocError>
    ensures { OnOk result (codes.new.items ≡ run_codes parts.now) }
{
    codes.clear();
    for one in parts {
        match one.part {
            Part::Char { code } => codes.push(code)?,
            _ => return Ok(()),
        }
    }
    Ok(())
}

/// Puts what all parts give into a list, or tells their first fault.
pub fn push_parts(
    alloc: Global,
    list: &mut Items<Item>,
    params: &Params,
    tables: &Tables,
    stock: &Stock,
    parts: &[PartAt],
) -> Result<(), ParFault>
    requires few { part_count parts.now ≤ 16384 }
    requires fonts { All (λ one. NamesFont (length stock.now) one.part) parts.now }
    ensures ok { OnOk result (behind list.old
        (given_behind params.now tables.now stock.now [] parts.now) ≡ Ok list.new) }
    ensures err { IfErr result (λ fault.
        (given_behind params.now tables.now stock.now [] parts.now ≡ Err fault)
        ⊎ (fault ≡ NoMemory)) }
{
    let mut codes = Vec::new(alloc);
    let mut work = Workspace::new(alloc);
    let mut current = None;
    let mut factor = 1000;
    let mut at = 0;
    while at < parts.len() {
        let rest = &parts[at..];
        match parts[at].part {
            Part::Char { .. } => {
                run_codes(&mut codes, rest)?;
                push_run(alloc, &mut work, list, stock, current, &codes, rest)?;
                factor = factor_from(tables, factor, &codes);
                at += codes.len();
            }
            Part::Font { font } => {
                current = Some(current_in(params, stock, font));
                at += 1;
            }
            _ => {
                push_single(
                    alloc, &mut work, list, params, stock, current, factor, &parts[at],
                )?;
                at += 1;
            }
        }
    }
    Ok(())
}

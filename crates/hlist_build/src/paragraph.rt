//! The list of a paragraph, or its first fault (TeX: The Program, parts 46 and 47, and section
//! 816).
ghost use Rattle.std.specs.Prelude.{◌≡◌, ◌≤◌, ◌⊎◌, ◌++◌, length, All, Err, IfOk, OnOk};
ghost use Rattle.hlist.specs.Bounds.{IsSmall, IsListOf};
ghost use Rattle.hlist_build.specs.Counts.{part_count};
ghost use Rattle.hlist_build.specs.Paragraph.{indent_items, set_items, counted, list_of};
ghost use Rattle.hlist_build.specs.Parts.{NamesFont};
ghost use Rattle.hlist_build.specs.declared.fault.ParFault.TheVariants.{NoMemory};

use crate::building::push_parts;
use crate::counting::{has_many_items, has_many_parts};
use crate::ending::end_list;
use crate::fault::ParFault;
use crate::mixing::mixed;
use font_stock::Stock;
use hlist::{HList, Item};
use items::Items;
use micro_num::{Par, Tables};
use std::alloc::{AllocError, Global};

/// Puts the indent of a paragraph, where it has one, into a list.
fn push_indent(list: &mut Items<Item>, par: &Par) -> Result<(), AllocError>
    ensures { OnOk result
        (list.new ≡ list.old ++ indent_items par.now.indent par.now.params.parindent) }
{
    if par.indent {
        list.push(Item::Box {
            width: par.params.parindent,
        })?;
    }
    Ok(())
}

/// The indent and what the parts give behind it, or their first fault.
#[tactic(auto, unfolding(crate::specs::Paragraph::set_items))]
fn set_items(
    alloc: Global,
    par: &Par,
    tables: &Tables,
    stock: &Stock,
) -> Result<Items<Item>, ParFault>
    requires few { part_count par.now.parts ≤ 16384 }
    requires fonts { All (λ one. NamesFont (length stock.now) one.part) par.now.parts }
    ensures { (result ≡ set_items par.now tables.now stock.now) ⊎ (result ≡ Err NoMemory) }
{
    let room = par.parts.len() + 3;
    let mut list = Items::from_vec(Vec::with_capacity(alloc, room)?);
    push_indent(&mut list, par)?;
    let parts = par.parts.as_slice();
    push_parts(alloc, &mut list, &par.params, tables, stock, parts)?;
    Ok(list)
}

/// A list with few enough items.
#[tactic(auto, unfolding(crate::specs::Paragraph::counted))]
fn counted(items: Items<Item>) -> Result<HList, ParFault>
    ensures { result ≡ counted items }
{
    if has_many_items(items.as_slice()) {
        Err(ParFault::TooManyItems)
    } else {
        Ok(HList { items })
    }
}

/// The list of a paragraph, or its first fault.
#[tactic(auto, unfolding(crate::specs::Paragraph::list_of))]
fn list_of(alloc: Global, par: &Par, tables: &Tables, stock: &Stock) -> Result<HList, ParFault>
    requires { All (λ one. NamesFont (length stock.now) one.part) par.now.parts }
    ensures { (result ≡ list_of par.now tables.now stock.now) ⊎ (result ≡ Err NoMemory) }
{
    if has_many_parts(par.parts.as_slice()) {
        return Err(ParFault::TooManyItems);
    }
    if let Some(font) = mixed(&par.params, stock, par.parts.as_slice()) {
        return Err(ParFault::MixedExpansion { font });
    }
    let items = set_items(alloc, par, tables, stock)?;
    let items = end_list(items, par.params.parfillskip)?;
    counted(items)
}

/// The horizontal list of a paragraph, whose widths are in scaled points.
///
/// It is refused, in this order, where there are more than 16,384 parts; where pdfadjustspacing is
/// above 0 and fonts are mixed that expand in different ways; at the first run or list of a
/// discretionary for which the font lacks a character, or whose ligature programs have no end; and
/// where there are more than 16,384 items. What stands in no font, before the first part that names
/// one, gives nothing.
pub fn build(alloc: Global, par: &Par, tables: &Tables, stock: &Stock) -> Result<HList, ParFault>
    requires { All (λ one. NamesFont (length stock.now) one.part) par.now.parts }
    ensures exact { (result ≡ list_of par.now tables.now stock.now) ⊎ (result ≡ Err NoMemory) }
    ensures small { IfOk result IsSmall }
    ensures of_stock { IfOk result (IsListOf stock.now) }
{
    list_of(alloc, par, tables, stock)
}

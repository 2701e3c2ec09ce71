//! How the lists of paragraphs are broken, printed.
ghost use Rattle.hlist.specs.Bounds.{IsSmall, IsListOf};
ghost use Rattle.break_rule.specs.Over.{Share};

use font_stock::Stock;
use hlist::HList;
use liang_hyph::Patterns;
use micro_num::{NoMemory, Par, Tables};
use paragraph_breaks::{Broken, breaks};
use std::alloc::{AllocError, Global};
use test_jobs::are_within;

/// How a paragraph's list is broken. None where a length is out of range.
pub fn breaks_text(
    alloc: Global,
    par: &Par,
    list: &HList,
    tables: &Tables,
    patterns: &Patterns,
    stock: &Stock,
) -> Result<Option<String>, AllocError>
    requires small { IsSmall list.now }
    requires own { IsListOf stock.now list.now }
    requires share { Share par.now.params stock.now list.now.items }
{
    let shape = par.shape.as_slice();
    if !are_within(&par.params, shape) {
        return Ok(None);
    }
    match breaks(alloc, list, &par.params, shape, tables, patterns, stock) {
        Ok(broken) => Ok(Some(broken_text(alloc, &broken)?)),
        Err(NoMemory) => Err(AllocError),
    }
}

/// The pass, the total, the count of items of the list that was broken, and the breaks.
fn broken_text(alloc: Global, broken: &Broken) -> Result<String, AllocError> {
    let pass = broken.pass;
    let total = broken.total;
    let count = broken.list.items.len();
    let mut text = format!(in alloc; "pass {pass} total {total} items {count} breaks")?;
    for at in broken.breaks.as_slice() {
        text.push_str(format!(in alloc; " {at}")?.as_str())?;
    }
    Ok(text)
}

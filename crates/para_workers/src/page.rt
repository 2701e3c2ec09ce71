//! Set lines as a page.
ghost use Rattle.std.specs.Prelude.{◌≡◌, ◌⊎◌, ◌≤◌, Err, length};
ghost use Rattle.hlist_build.specs.declared.fault.ParFault.TheVariants.{NoMemory};
ghost use Rattle.para_workers.specs.SetPar.{stacked_in_range};

use dvi_write::{StackFault, stack};
use hlist_build::ParFault;
use instance_core::{Packed, Page};
use items::Items;
use micro_num::Params;
use std::alloc::Global;

/// The page of set lines, one below the other, or the first that is past its bounds.
pub(crate) fn page(alloc: Global, lines: Items<Packed>, params: &Params) -> Result<Page, ParFault>
    requires { length lines ≤ 65537 }
    ensures { (result ≡ stacked_in_range params.now lines) ⊎ (result ≡ Err NoMemory) }
{
    match stack(alloc, lines.into_vec(), params) {
        Ok(page) => Ok(page),
        Err(StackFault::OutOfRange { line }) => Err(ParFault::OutOfRange { line }),
        Err(StackFault::NoMemory) => Err(ParFault::NoMemory),
    }
}

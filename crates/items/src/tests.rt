//! Copies of lists whose elements own memory.
ghost use Rattle.std.specs.Prelude.{◌≡◌, IfOk};

use crate::Items;
use std::alloc::{AllocError, Global};
use std::test::Fail;

/// A copy of some lists of bytes.
fn twins(alloc: Global, lists: &[Items<u8>]) -> Result<Items<Items<u8>>, AllocError>
    ensures { IfOk result (λ copy. copy ≡ lists.now) }
{
    Items::from_copies(
        alloc,
        lists,
        |bytes| Items::from_slice(alloc, bytes.as_slice()),
    )
}

#[test]
fn a_list_of_lists_is_copied(rt: HostRuntime) -> Result<(), Fail> {
    let mut lists = Items::new(rt.alloc());
    lists.push(Items::from_slice(rt.alloc(), &[1, 2])?)?;
    lists.push(Items::from_slice(rt.alloc(), &[])?)?;
    lists.push(Items::from_slice(rt.alloc(), &[3])?)?;
    let copy = twins(rt.alloc(), lists.as_slice())?;
    assert_eq!(rt; copy.len(), 3);
    assert_eq!(rt; copy.as_slice()[0].as_slice(), [1, 2].as_slice());
    assert_eq!(rt; copy.as_slice()[1].len(), 0);
    assert_eq!(rt; copy.as_slice()[2].as_slice(), [3].as_slice());
    Ok(())
}

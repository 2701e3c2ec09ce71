//! A table of one font, worked out by hand: a claim shuts others out until its cell is published.
ghost use Rattle.std.specs.Prelude.{◌≡◌};

use crate::{
    ShutOut, built_width, cells_of_table, join_and_close, shut_out, small_font, table_of_two,
    two_draws,
};
use instance_core::{Bases, Cell, Owner};
use instance_table::{Closed, Seen};
use micro_num::{NoMemory, Sp};
use std::alloc::Global;
use std::test::*;

/// What was found at the last cell, its width of code 97, and two draws.
#[derive(Clone, Copy, Debug, PartialEq, Eq)]
struct Row {
    cells: u32,
    shut_out: Option<ShutOut>,
    width: Option<Sp>,
    draws: (Option<u32>, Option<u32>),
}

/// The steps of the row, and the receipt of its table.
fn steps_of_row(alloc: Global, bases: &Bases) -> Result<(Row, Closed), NoMemory> {
    let (table, mut first, mut second) = table_of_two(alloc, bases, 1)?;
    let cells = cells_of_table(&table, bases);
    let mut row = Row {
        cells,
        shut_out: None,
        width: None,
        draws: (None, None),
    };
    if cells > 39 {
        row.shut_out = Some(shut_out(&table, &mut first, &mut second, 39));
        row.width = built_width(&table, &mut first, 39, 97);
    }
    row.draws = two_draws(&table, &mut first);
    let closed = join_and_close(alloc, table, first, second)?;
    Ok((row, closed))
}

#[test]
fn a_claim_shuts_others_out_until_it_is_published(rt: HostRuntime) -> Result<(), Fail> {
    let bases = small_font(rt.alloc())?;
    let (row, closed) = steps_of_row(rt.alloc(), &bases)?;
    let found = Row {
        cells: 40,
        shut_out: Some(ShutOut {
            won: true,
            found: Seen::Building,
            lost_to: Some(3),
        }),
        width: Some(334233),
        draws: (Some(0), None),
    };
    assert_eq!(rt; row, found);
    let owner = Owner {
        cell: Cell { font: 0, step: 20 },
        worker: 1,
    };
    assert_eq!(rt; closed.owners(), [owner].as_slice());
    assert_eq!(rt; closed.seats(), 2);
    Ok(())
}

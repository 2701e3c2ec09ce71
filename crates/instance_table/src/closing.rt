//! The end of a table: its receipt, which says who built each instance.
ghost use Rattle.std.specs.Prelude.{◌≡◌, ◌≤◌, ◌<◌, vec_len, vec_capacity};
ghost use Rattle.std.specs.Prelude.{length, replicate, None, All, IfOk};
ghost use Rattle.instance_table.specs.Places.{cell_count};
ghost use Rattle.instance_table.specs.Closing.{IsNoted, owners_of, named_below};

use crate::seat::Seat;
use crate::table::InstanceTable;
use crate::view::Claimed;
use instance_core::{Bases, Owner, cell_of};
use items::Items;
use micro_num::NoMemory;
use std::alloc::Global;

/// The receipt of a table: the owner of each instance that was built, the table's fonts, and how
/// many seats it had. None but `InstanceTable::close` makes one, and it can't be copied.
#[derive(Drop)]
pub struct Closed {
    owners: Items<Owner>,
    bases: Bases,
    seats: u32,
}

impl Closed {
    /// The owners, in cell order: each cell that was built, once, with the number of the seat that
    /// built it.
    pub fn owners(&self) -> &[Owner]
        ensures { result.now ≡ self.now.owners }
    {
        self.owners.as_slice()
    }

    /// The fonts that the table was made for.
    pub fn bases(&self) -> &Bases
        ensures { result.now ≡ self.now.bases }
    {
        &self.bases
    }

    /// How many seats were made, the one that came with the table included.
    pub fn seats(&self) -> u32
        ensures { result ≡ self.now.seats }
    {
        self.seats
    }
}

/// There was no memory for a receipt. The table and its seat come back as they were.
#[derive(Drop)]
pub struct CloseRefused {
    pub table: InstanceTable,
    pub seat: Seat,
}

/// The memory of a receipt: a place for the builder of each cell, and room for its owner.
struct Room {
    builders: Vec<Option<u32>>,
    owners: Vec<Owner>,
}

impl Room {
    ghost use Rattle.std.specs.Prelude.{[]};

    /// Room for so many cells.
    fn make(alloc: Global, cells: usize) -> Result<Room, NoMemory>
        ensures builders { IfOk result (λ room. room.builders.items ≡ replicate cells None) }
        ensures count { IfOk result (λ room. vec_len room.builders ≡ cells) }
        ensures owners { IfOk result (λ room. room.owners.items ≡ []) }
        ensures room { IfOk result (λ room. cells ≤ vec_capacity room.owners) }
    {
        Ok(Room {
            builders: vec![in alloc; None; cells]?,
            owners: Vec::with_capacity(alloc, cells)?,
        })
    }
}

/// Notes beside each cell the number of the seat that claimed it.
fn note(builders: &mut Vec<Option<u32>>, claims: &[Claimed])
    requires within { All (λ e. e.cell < vec_len builders.old) claims.now }
    requires blank { builders.old.items ≡ replicate (vec_len builders.old) None }
    ensures noted { IsNoted builders.new.items claims.now }
    ensures length { vec_len builders.new ≡ vec_len builders.old }
{
    for claimed in claims {
        builders[claimed.cell as usize] = Some(claimed.number);
    }
}

/// Lists the owners of the cells that have a builder, in cell order.
fn list_owners(bases: &Bases, builders: &[Option<u32>], owners: &mut Vec<Owner>)
    requires cells { length builders.now ≡ cell_count bases.now }
    requires none { vec_len owners.old ≡ 0 }
    requires room { length builders.now ≤ vec_capacity owners.old }
    ensures { owners.new.items ≡ owners_of bases.now
        (named_below builders.now (length builders.now)) }
{
    for cell in 0..bases.cell_count() {
        if let Some(worker) = builders[cell as usize] {
            let cell = cell_of(bases, cell);
            owners.push_reserved(Owner { cell, worker });
        }
    }
}

impl InstanceTable {
    ghost use Rattle.std.specs.Prelude.{IfErr};
    ghost use Rattle.instance_table.specs.Seats.{IsSeatOf};
    ghost use Rattle.instance_table.specs.Closing.{IsAlone, Closes};

    /// Ends a table whose seats were all joined to seat 0, and gives its receipt. It fails only for
    /// want of memory, and then gives the table and the seat back.
    pub fn close(self, alloc: Global, seat: Seat) -> Result<Closed, CloseRefused>
        requires own { IsSeatOf self seat }
        requires first { seat.view.number ≡ 0 }
        requires free { seat.view.building ≡ None }
        requires alone { IsAlone seat.view }
        ensures closes { IfOk result (λ closed. Closes self seat.view closed) }
        ensures table { IfErr result (λ refused. refused.table ≡ self) }
        ensures seat { IfErr result (λ refused. refused.seat ≡ seat) }
    {
        let cells = self.key.bases.cell_count() as usize;
        let Ok(room) = Room::make(alloc, cells) else {
            return Err(CloseRefused { table: self, seat });
        };
        let Room {
            mut builders,
            mut owners,
        } = room;
        let InstanceTable { table, key } = self;
        let Seat {
            place,
            number: _,
            made,
            building: _,
            claims,
        } = seat;
        table.close_with(place).free();
        key.bases.is_in_range();
        note(&mut builders, claims.as_slice());
        list_owners(&key.bases, builders.as_slice(), &mut owners);
        Ok(Closed {
            owners: Items::from_vec(owners),
            bases: key.bases,
            seats: made,
        })
    }
}

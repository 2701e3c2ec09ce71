//! Steps on a table by seats that build nothing before and after.
ghost use Rattle.std.specs.Prelude.{◌≡◌, ◌<◌, Contains};
ghost use Rattle.instance_table.specs.declared.answers.Seen.TheVariants.{Built};
ghost use Rattle.instance_table.specs.Places.{cell_count};
ghost use Rattle.instance_table.specs.Seats.{IsSeatOf, HasStored};
ghost use Rattle.table_races.specs.Crews.{IsIdle, Stays, Holds};

use instance_table::{Claim, InstanceTable, Seat, Seen};

/// Looks at a cell.
pub fn look_at(table: &InstanceTable, seat: &mut Seat, cell: u32) -> Seen
    requires idle { IsIdle table.now seat.old }
    requires within { cell < cell_count table.now.bases }
    ensures idle { IsIdle table.now seat.new }
    ensures stays { Stays seat.old.view seat.new.view }
    ensures draws { seat.new.view.ended ≡ seat.old.view.ended }
    ensures built { result ≡ Built → Contains seat.new.view.ready cell }
{
    table.look(seat, cell)
}

/// Claims a cell.
pub fn claim_at(table: &InstanceTable, seat: &mut Seat, cell: u32) -> Claim
    requires idle { IsIdle table.now seat.old }
    requires within { cell < cell_count table.now.bases }
    ensures own { IsSeatOf table.now seat.new }
    ensures holds { Holds result seat.new.view }
    ensures stays { Stays seat.old.view seat.new.view }
    ensures draws { seat.new.view.ended ≡ seat.old.view.ended }
{
    table.claim(seat, cell)
}

/// Builds the cell that was won: stores its widths and publishes it.
pub fn build(table: &InstanceTable, seat: &mut Seat)
    requires own { IsSeatOf table.now seat.old }
    requires won { HasStored seat.old.view.building 0 }
    ensures idle { IsIdle table.now seat.new }
    ensures stays { Stays seat.old.view seat.new.view }
    ensures draws { seat.new.view.ended ≡ seat.old.view.ended }
{
    for code in 0..256u32 {
        table.store_width(seat, code as u8);
    }
    table.publish(seat);
}

//! A worker at the table, and how it comes to a width.
//!
//! The seat builds nothing before and after each width. In between it looks at the cell, claims it
//! where it is empty, and builds it where the claim won. A look and a claim by a seat that builds
//! nothing never find a claim of its own, so where one finds a cell that is being built, it is
//! another's to build.
ghost use Rattle.std.specs.Prelude.{◌≡◌, Contains};
ghost use Rattle.instance_core.specs.Cells.{IsCellOf};
ghost use Rattle.instance_core.specs.Instances.{instance_width};
ghost use Rattle.instance_table.specs.Places.{cell_of_number};
ghost use Rattle.instance_table.specs.Seats.{IsSeatOf};
ghost use Rattle.table_widths.specs.Widths.{IsIdle, IsNumbered, HasClaimed, HasPublished, Keeps, Answers};

use instance_core::{Cell, cell_number};
use instance_table::{Claim, InstanceTable, Seat, Seen};
use micro_num::Sp;
use outside_io::{Gate, Point};

/// A worker at the table: the table, the gate that it passes, and its number there.
#[derive(Drop)]
pub struct Worker<'a, G> {
    pub table: &'a InstanceTable,
    pub gate: &'a G,
    pub number: u32,
}

impl<'a, G: Gate> Worker<'a, G> {
    /// The width of a character in the instance of a cell.
    pub fn width(&self, seat: &mut Seat, cell: Cell, number: u32, code: u8) -> Sp
        requires idle { IsIdle self.now.table.now seat.old }
        requires numbered { IsNumbered self.now.table.now.bases cell number }
        ensures idle { IsIdle self.now.table.now seat.new }
        ensures answers { Answers self.now.table.now.bases seat.old.view number code result
            seat.new.view }
    {
        match self.table.look(seat, number) {
            Seen::Empty => self.claimed_width(seat, cell, number, code),
            Seen::Building => self.base_width(cell, number, code),
            Seen::Built => self.table.width(seat, number, code),
        }
    }

    /// The number of a cell that the table has.
    pub fn number_of(&self, cell: Cell) -> u32
        requires { IsCellOf self.now.table.now.bases cell }
        ensures { IsNumbered self.now.table.now.bases cell result }
    {
        let bases = self.table.bases();
        bases.is_in_range();
        let Some(number) = cell_number(bases, cell) else {
            unreachable!()
        };
        number
    }

    /// The width in the instance of a cell that was found empty: the seat claims it, and builds it
    /// where it won.
    fn claimed_width(&self, seat: &mut Seat, cell: Cell, number: u32, code: u8) -> Sp
        requires idle { IsIdle self.now.table.now seat.old }
        requires numbered { IsNumbered self.now.table.now.bases cell number }
        ensures idle { IsIdle self.now.table.now seat.new }
        ensures answers { Answers self.now.table.now.bases seat.old.view number code result
            seat.new.view }
    {
        match self.table.claim(seat, number) {
            Claim::Won => {
                self.build(seat, number);
                self.table.width(seat, number, code)
            }
            Claim::Lost { word: 1 } => self.table.width(seat, number, code),
            Claim::Lost { word: _ } => self.base_width(cell, number, code),
        }
    }

    /// The width of a character in the instance of a cell, computed from the base font.
    fn base_width(&self, cell: Cell, number: u32, code: u8) -> Sp
        requires { IsNumbered self.now.table.now.bases cell number }
        ensures { let bases = self.now.table.now.bases in
            result ≡ instance_width bases (cell_of_number bases number) code }
    {
        self.table.bases().width(cell, code)
    }

    /// Builds a cell that the seat has claimed: stores its widths and publishes it. The worker
    /// passes the gate before and after.
    fn build(&self, seat: &mut Seat, number: u32)
        requires own { IsSeatOf self.now.table.now seat.old }
        requires claimed { HasClaimed seat.old.view number }
        ensures idle { IsIdle self.now.table.now seat.new }
        ensures ready { Contains seat.new.view.ready number }
        ensures keeps { Keeps seat.old.view seat.new.view }
    {
        self.pass_claimed(seat, number);
        for code in 0..256u32 {
            self.table.store_width(seat, code as u8);
        }
        self.table.publish(seat);
        self.pass_published(seat, number);
    }

    /// Passes the gate with a cell that the seat has claimed.
    fn pass_claimed(&self, _seat: &Seat, number: u32)
        requires { HasClaimed _seat.now.view number }
    {
        self.gate.pass(self.number, Point::Claimed, number);
    }

    /// Passes the gate with a cell that the seat has published.
    fn pass_published(&self, _seat: &Seat, number: u32)
        requires { HasPublished _seat.now.view number }
    {
        self.gate.pass(self.number, Point::Published, number);
    }
}

//! The source of widths over a table.
ghost use Rattle.std.specs.Prelude.{◌≡◌, ◌<◌, ◌∷◌, ℕ, Some, None, IfSome};
ghost use Rattle.std.proofs.Props.{props};
ghost use Rattle.instance_core.specs.Cells.{IsCellOf, number_of, in_cell_order};
ghost use Rattle.instance_core.specs.Instances.{instance_width};
ghost use Rattle.instance_table.specs.Seats.{IsSeatOf};
ghost use Rattle.table_widths.specs.Widths.{IsIdle, IsNumbered, IsAnswered, HasNumber};
ghost use Rattle.table_widths.specs.Widths.{touched_of, lasting_of};

use crate::numbered::Numbered;
use crate::worker::Worker;
use instance_core::{Cell, WidthSource};
use instance_table::{InstanceTable, Seat};
use micro_num::Sp;
use outside_io::Gate;
use std::marker::Model;

/// What no width changes, as contracts see it: the table, and of the seat its number and what it
/// drew. No value of it is made.
#[derive(Drop)]
pub struct Fixed {
    table: InstanceTable,
    seat: Seat,
}

impl Model for Fixed {
    ghost use Rattle.table_widths.specs.Widths.{Lasting, lasting_of};

    ghost Value = { Lasting };

    ghost view = { λ f. lasting_of f.table f.seat.view };
}

/// The widths of instances over a table, for one worker. It owns the worker's seat, which builds
/// nothing between two calls.
///
/// The cells asked are those that the seat has seen: found not empty, or claimed. The number of the
/// cell asked last is kept, since most glyphs of a line are in the cell of the one before.
#[derive(Drop)]
pub struct TableWidths<'a, G> {
    worker: Worker<'a, G>,
    seat: Seat,
    last: Option<Numbered>,
    pub ghost idle: { IsIdle worker.table.now seat },
    pub ghost numbered: { IfSome last (HasNumber worker.table.now.bases) } by { Prim.hlevel props },
}

impl<'a, G: Gate> TableWidths<'a, G> {
    /// The widths over a table by a seat of it, for the worker of a number, which passes the gate
    /// with each cell that it has claimed and with each that it has published.
    pub fn make(
        table: &'a InstanceTable,
        seat: Seat,
        gate: &'a G,
        worker: u32,
    ) -> TableWidths<'a, G>
        requires own { IsSeatOf table.now seat }
        requires free { seat.view.building ≡ None }
        ensures table { result.worker.table.now ≡ table.now }
        ensures seat { result.seat ≡ seat }
    {
        let worker = Worker {
            table,
            gate,
            number: worker,
        };
        TableWidths {
            worker,
            seat,
            last: None,
        }
    }

    /// The seat, as the last width left it.
    pub fn finish(self) -> Seat
        ensures seat { result ≡ self.entry.seat }
        ensures own { IsSeatOf self.entry.worker.table.now result }
        ensures free { result.view.building ≡ None }
    {
        self.seat
    }

    /// The number of a cell that the table has.
    fn number_of(&mut self, cell: Cell) -> u32
        requires { IsCellOf self.old.worker.table.now.bases cell }
        ensures number { IsNumbered self.old.worker.table.now.bases cell result }
        ensures worker { self.new.worker ≡ self.old.worker }
        ensures seat { self.new.seat ≡ self.old.seat }
    {
        if let Some(last) = self.last {
            if last.cell == cell {
                return last.number;
            }
        }
        let number = self.worker.number_of(cell);
        self.last = Some(Numbered { cell, number });
        number
    }
}

impl<'a, G: Gate> WidthSource for TableWidths<'a, G> {
    ghost use Rattle.std.specs.Prelude.{map};
    ghost use Rattle.std.proofs.Common.{sym};
    ghost use Rattle.instance_core.proofs.Marks.{in_cell_order-again};
    ghost use Rattle.instance_table.specs.Places.{cell_of_number};

    type Fixed = Fixed;

    ghost bases = { λ source. source.worker.table.now.bases };

    ghost touched = { λ source. touched_of source.worker.table.now.bases source.seat.view.seen };

    ghost fixed = { λ source. lasting_of source.worker.table.now source.seat.view };

    /// The width of a character in the instance of a cell, whatever other seats do meanwhile.
    ///
    /// The seat makes a step at least that answers it. By the last one it read this width, or it
    /// found that another seat is building the cell.
    fn width(&mut self, cell: Cell, code: u8) -> Sp
        requires { IsCellOf self.old.worker.table.now.bases cell }
        ensures width { result ≡ instance_width self.old.worker.table.now.bases cell code }
        ensures touched { let bases = self.old.worker.table.now.bases in
            touched_of bases self.new.seat.view.seen
            ≡ in_cell_order bases (cell ∷ touched_of bases self.old.seat.view.seen) }
        ensures bases { self.new.worker.table.now.bases ≡ self.old.worker.table.now.bases }
        ensures fixed { lasting_of self.new.worker.table.now self.new.seat.view
            ≡ lasting_of self.old.worker.table.now self.old.seat.view }
        ensures taken { self.old.seat.view.taken < self.new.seat.view.taken }
        ensures last { (number : ℕ) → number_of self.old.worker.table.now.bases cell ≡ Some number
            → IsAnswered self.old.seat.view.number number code self.new.seat.view.last }
    {
        let number = self.number_of(cell);
        self.worker.width(&mut self.seat, cell, number, code)
    }

    ghost in_order = { λ source. let bases = source.worker.table.now.bases in
        sym (in_cell_order-again bases (map (cell_of_number bases) source.seat.view.seen)) };
}

//! The table, and the steps on it.
use crate::answers::{Claim, Seen};
use crate::rule::{
    CellRule, Claiming, Drawing, Key, Looking, Publishing, Reading, Splitting, Storing,
};
use crate::seat::Seat;
use crate::view::{Building, Claimed, View};
use crate::words::{
    cell_width, draw_below, loaded_width, seen_by, state_place, stored_word, width_place,
};
use atomic_table::Table;
use instance_core::Bases;
use micro_num::{NoMemory, Sp};
use std::alloc::Global;
use std::marker::Model;

/// A table of the instances of fonts, shared by workers. Contracts see which table it is, its fonts
/// and how many draws it has.
///
/// Its words are made once, of 8 bytes each: one, and 257 for each cell.
#[derive(Drop)]
pub struct InstanceTable {
    pub(crate) table: Table<u8, View, Key, CellRule, Global>,
    pub(crate) key: Key,
}

impl Model for InstanceTable {
    ghost use Rattle.std.specs.Prelude.{◌≡◌};
    ghost use Rattle.instance_table.specs.Places.{word_count};
    ghost use Rattle.instance_table.specs.Seats.{Standing};

    ghost Value = { Standing };

    ghost view = { λ t. record {
      id = t.table.shared.table_id;
      bases = t.key.bases;
      draws = t.key.draws;
    } };

    ghost invariant = { λ t. (t.table.shared.key ≡ t.key)
        × (t.table.shared.table_id.words ≡ word_count t.key.bases)
        × (t.table.shared.table_id.slots ≡ 0) };
}

impl InstanceTable {
    ghost use Rattle.std.specs.Prelude.{◌≡◌, ◌<◌, false, IfOk, IfErr, OnOk, None, Contains};
    ghost use Rattle.instance_core.specs.Instances.{instance_width};
    ghost use Rattle.instance_table.specs.Places.{cell_count, cell_of_number};
    ghost use Rattle.instance_table.specs.Seats.{IsSeatOf, Finds, Wins, HasStored, StoresOne};
    ghost use Rattle.instance_table.specs.Seats.{PublishesIt, ReadsWidth, DrawsOne};
    ghost use Rattle.instance_table.specs.Steps.{first_view, after_split, split_off};

    /// A table of the instances of fonts, of which no cell is claimed, for so many draws; and its
    /// seat 0. It fails only for want of memory.
    pub fn make(alloc: Global, bases: &Bases, draws: u32) -> Result<(InstanceTable, Seat), NoMemory>
        ensures table { IfOk result (λ made. (made.0.bases ≡ bases.now) × (made.0.draws ≡ draws)) }
        ensures seat { IfOk result (λ made. IsSeatOf made.0 made.1) }
        ensures view { IfOk result (λ made. made.1.view ≡ first_view bases.now draws) }
    {
        let cells = bases.cell_count() as usize;
        let claims = Vec::with_capacity(alloc, cells)?;
        let words = vec![in alloc; 0u64; 1 + 257 * cells]?;
        let bases = bases.copy(alloc)?;
        let key = Key { bases, draws };
        let (table, place) = Table::of_words(alloc, words.as_slice(), &key)?;
        let seat = Seat {
            place,
            number: 0,
            made: 1,
            building: None,
            claims,
        };
        Ok((InstanceTable { table, key }, seat))
    }

    /// The fonts that the table was made for.
    pub fn bases(&self) -> &Bases
        ensures { result.now ≡ self.now.bases }
    {
        &self.key.bases
    }

    /// A new seat, split off seat 0, with the next number and room for a claim of each cell. It
    /// fails only for want of memory, and then changes nothing.
    pub fn split(&self, alloc: Global, seat: &mut Seat) -> Result<Seat, NoMemory>
        requires own { IsSeatOf self.now seat.old }
        requires first { seat.old.view.number ≡ 0 }
        requires few { seat.old.view.made < 4294967295 }
        ensures new { IfOk result
            (λ new. IsSeatOf self.now new × (new.view ≡ split_off seat.old.view)) }
        ensures view { OnOk result (seat.new.view ≡ after_split seat.old.view) }
        ensures own { IsSeatOf self.now seat.new }
        ensures kept { IfErr result (λ _. seat.new ≡ seat.old) }
    {
        let cells = self.key.bases.cell_count() as usize;
        let claims = Vec::with_capacity(alloc, cells)?;
        let place = self.table.shared.split_seat::<Splitting>(&mut seat.place);
        let number = seat.made;
        seat.made += 1;
        Ok(Seat {
            place,
            number,
            made: 0,
            building: None,
            claims,
        })
    }

    /// What a cell is found to be, by one load of its state.
    pub fn look(&self, seat: &mut Seat, cell: u32) -> Seen
        requires own { IsSeatOf self.now seat.old }
        requires free { seat.old.view.building ≡ None }
        requires within { cell < cell_count self.now.bases }
        ensures own { IsSeatOf self.now seat.new }
        ensures finds { Finds seat.old.view cell result seat.new.view }
    {
        let word = self
            .table
            .shared
            .load::<Looking>(&mut seat.place, state_place(cell));
        seen_by(word)
    }

    /// Claims a cell, by one exchange of its state: the seat that found it empty is to build it.
    pub fn claim(&self, seat: &mut Seat, cell: u32) -> Claim
        requires own { IsSeatOf self.now seat.old }
        requires free { seat.old.view.building ≡ None }
        requires within { cell < cell_count self.now.bases }
        ensures own { IsSeatOf self.now seat.new }
        ensures wins { Wins seat.old.view cell result seat.new.view }
    {
        let number = seat.number;
        let word = self
            .table
            .shared
            .compare_exchange::<Claiming>(&mut seat.place, state_place(cell), 0, number as u64 + 2);
        if word != 0 {
            return Claim::Lost { word };
        }
        seat.building = Some(Building { cell, stored: 0 });
        seat.claims.push_reserved(Claimed { cell, number });
        Claim::Won
    }

    /// Stores the next width of the cell that the seat builds, that of this code.
    pub fn store_width(&self, seat: &mut Seat, code: u8)
        requires own { IsSeatOf self.now seat.old }
        requires next { HasStored seat.old.view.building code }
        ensures own { IsSeatOf self.now seat.new }
        ensures stores { StoresOne seat.old.view seat.new.view }
    {
        let Some(building) = seat.building else {
            unreachable!()
        };
        let cell = building.cell;
        let word = stored_word(cell_width(&self.key.bases, cell, code));
        let place = width_place(cell, code);
        self.table
            .shared
            .store::<Storing>(&mut seat.place, place, word);
        seat.building = Some(Building {
            cell,
            stored: code as u32 + 1,
        });
    }

    /// Makes the cell that the seat built a built one.
    pub fn publish(&self, seat: &mut Seat)
        requires own { IsSeatOf self.now seat.old }
        requires whole { HasStored seat.old.view.building 256 }
        ensures own { IsSeatOf self.now seat.new }
        ensures publishes { PublishesIt seat.old.view seat.new.view }
    {
        let Some(building) = seat.building else {
            unreachable!()
        };
        let place = state_place(building.cell);
        self.table
            .shared
            .store::<Publishing>(&mut seat.place, place, 1);
        seat.building = None;
    }

    /// The width of a character in a cell that the seat knows to be built, by one load.
    pub fn width(&self, seat: &mut Seat, cell: u32, code: u8) -> Sp
        requires own { IsSeatOf self.now seat.old }
        requires built { Contains seat.old.view.ready cell }
        ensures own { IsSeatOf self.now seat.new }
        ensures width { result
            ≡ instance_width self.now.bases (cell_of_number self.now.bases cell) code }
        ensures reads { ReadsWidth seat.old.view cell code result seat.new.view }
    {
        let place = width_place(cell, code);
        let word = self.table.shared.load::<Reading>(&mut seat.place, place);
        loaded_width(word)
    }

    /// The next draw, by one step of the count; `None` exactly where it is past the last.
    pub fn draw(&self, seat: &mut Seat) -> Option<u32>
        requires own { IsSeatOf self.now seat.old }
        requires going { seat.old.view.ended ≡ false }
        ensures own { IsSeatOf self.now seat.new }
        ensures draws { DrawsOne seat.old.view result seat.new.view }
    {
        let draw = self
            .table
            .shared
            .fetch_add::<Drawing>(&mut seat.place, 0, 1);
        draw_below(draw, self.key.draws)
    }
}

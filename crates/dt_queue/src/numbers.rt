ghost use Rattle.std.specs.Prelude.{◌<◌, ◌≤◌, ◌+◌, ◌-◌, ◌^◌, ◌≡◌, false, Some, length, map, OnOk};
ghost use Rattle.dt_lists.specs.Lists.{AllIn};
ghost use Rattle.dt_queue.specs.NumbersInner.{IsFirstFrom, IsGap, IsNumberAt, Renumbers, ShowsSame, renumbered};

use crate::kept::Kept;
use crate::row::{Way, renumber};
use dt_access::Mode;
use dt_text::NoMemory;

impl Kept {
    ghost use Rattle.dt_queue.specs.KeptInner.{AreQueuesKept, ChangesLaneOf, lane, place_at, waiting_of};
    ghost use Rattle.dt_queue.specs.RowsInner.{links};

    /// Sees to it that a number is left. Where none is, all entries are numbered anew, in the order of their pushes; so a push
    /// is never refused for lack of a number. The entries stay as they are, also after `NoMemory`.
    pub fn make_number(&mut self) -> Result<(), NoMemory>
        requires { AreQueuesKept self.old }
        ensures same { ShowsSame self.old self.new }
        ensures left { OnOk result (self.new.next_number < 2 ^ 64 - 1) }
    {
        if self.next_number == u64::MAX {
            // With room for two more, of which `capacity` says that it is counted in 64 bits, some numbers stay free.
            self.cells.reserve(2)?;
            let _room = self.cells.capacity();
            self.number_anew();
        }
        Ok(())
    }

    /// Numbers all entries anew from 1 on, in the order of their pushes: the next in order gets the next number, until all have
    /// got one. It looks at all entries for each, which is little beside 2^64 pushes. From then on it is not known any more between
    /// which pushes a row was listed. Takes no memory.
    fn number_anew(&mut self)
        requires kept { AreQueuesKept self.old }
        requires few { length (waiting_of self.old) < 2 ^ 64 - 2 }
        ensures same { ShowsSame self.old self.new }
        ensures left { self.new.next_number < 2 ^ 64 - 1 }
    {
        self.listed.forget_numbers();
        let mut number = 1;
        while let Some(slot) = self.first_from(number) {
            self.renumber(slot, number);
            number += 1;
        }
        self.next_number = number;
    }

    /// The slot of the entry with the least number from a number on.
    fn first_from(&self, number: u64) -> Option<usize>
        requires { AreQueuesKept self.now }
        ensures { IsFirstFrom self.now.cells number result }
    {
        let mut first = None;
        let mut limit = u64::MAX;
        for slot in 0..self.cells.capacity() {
            if let Some(found) = self.number_at(slot, number, limit) {
                first = Some(slot);
                limit = found;
            }
        }
        first
    }

    /// The number of the entry at a slot, if there is one and its number lies from one number on and below another.
    fn number_at(&self, slot: usize, low: u64, high: u64) -> Option<u64>
        ensures { IsNumberAt self.now.cells slot low high result }
    {
        let number = self.cells.get(slot)?.number;
        if low <= number && number < high {
            Some(number)
        } else {
            None
        }
    }

    /// Gives the entry at a slot a number, where it has the least from this number on. Takes no memory.
    fn renumber(&mut self, slot: usize, number: u64)
        requires kept { AreQueuesKept self.old }
        requires free { self.old.listed.exact ≡ false }
        requires positive { 0 < number }
        requires first { IsFirstFrom self.old.cells number (Some slot) }
        ensures same { ShowsSame self.old self.new }
        ensures renumbers { Renumbers self.old.cells self.new.cells slot number }
        ensures listed { self.new.listed ≡ self.old.listed }
    {
        let cell = self.cells[slot];
        self.renumber_mark(cell.row, cell.mode, cell.number, number);
        self.cells[slot].number = number;
    }

    /// Gives a mark a lesser number in the lane of its mode and row; no other of its marks lies between. Takes no memory.
    fn renumber_mark(&mut self, row: usize, mode: Mode, number: u64, new: u64)
        requires row_in { row < length self.old.rows.table.items }
        requires positive { 0 < new }
        requires lesser { new ≤ number }
        requires gap { AllIn (IsGap number new) (lane self.old mode (place_at (links self.old.rows) mode row)) }
        ensures { ChangesLaneOf self.old mode (place_at (links self.old.rows) mode row) (map (renumbered number new) (lane self.old mode (place_at (links self.old.rows) mode row))) self.new }
    {
        match mode {
            Mode::Read => renumber(&mut self.rows.table, row, Way::Read, number, new),
            Mode::Write => renumber(&mut self.rows.table, row, Way::Write, number, new),
            Mode::Whole => self.wholes.renumber(self.rows.granule_of(row), number, new),
        }
    }
}

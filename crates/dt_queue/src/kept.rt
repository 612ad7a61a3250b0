ghost use Rattle.std.specs.Prelude.{◌≡◌, ◌<◌, ◌==◌, ◌-◌, ◌^◌, false, [], ◌∷◌, ◌++◌, length, not, option_to_list, IsTrue, None, IfOk, OnOk, OnErr};
ghost use Rattle.std.specs.List.{filter};
ghost use Rattle.slab.specs.Slab.{ContainsKey, Updates};
ghost use Rattle.dt_lists.specs.Lists.{AllIn, IsFront};
ghost use Rattle.dt_queue.specs.LanesInner.{AreMarks};
ghost use Rattle.dt_queue.specs.NextInner.{AreEachOnce, marks_left};

use crate::cell::Cell;
use crate::listed::ListedRows;
use crate::mark::{Mark, Marks};
use crate::nearest::{near_row, near_rows, near_write, number_or, only};
use crate::next::NextMarks;
use crate::row::{Way, has_no_read, last_write, push, remove};
use crate::rows::Rows;
use crate::wholes::Wholes;
use dt_access::Mode;
use dt_text::{Key, NoMemory};
use slab::Slab;
use std::alloc::Global;

/// All entries that wait, as they are kept: a cell for each at its slot, its row, and a mark in the lane of its mode at the
/// place of its row, or, for the mode `Whole`, of its granule.
#[derive(Drop)]
pub struct Kept {
    pub cells: Slab<Cell>,
    pub rows: Rows,
    pub listed: ListedRows,
    pub wholes: Wholes,
    pub next_number: u64,
}

impl Kept {
    ghost use Rattle.dt_access.specs.Clash.{is_whole};
    ghost use Rattle.dt_queue.specs.KeptInner.{AddsCell, AreQueuesKept, ChangesLaneOf, HasOneNear, IsEntered, IsKeptCell, IsNearInMode, IsNearMark, IsNextMark, IsTakenWhole, KeepsLanes, lane, place_at};
    ghost use Rattle.dt_queue.specs.RowsInner.{granule_at, links};

    /// No entry waits. Takes no memory.
    pub fn new(alloc: Global) -> Self
        ensures kept { AreQueuesKept result }
        ensures empty { result.cells.slots ≡ [] }
    {
        Kept {
            cells: Slab::new(alloc),
            rows: Rows::new(alloc),
            listed: ListedRows::new(alloc),
            wholes: Wholes::new(alloc),
            next_number: 1,
        }
    }

    /// Adds an entry behind all others, where a number is left, and gives its slot; after `NoMemory` none was added.
    pub fn push(
        &mut self,
        alloc: Global,
        home: u8,
        key: &Key,
        mode: Mode,
        vertex: u32,
    ) -> Result<usize, NoMemory>
        requires kept { AreQueuesKept self.old }
        requires left { self.old.next_number < 2 ^ 64 - 1 }
        ensures kept { AreQueuesKept self.new }
        ensures rows { IsFront self.old.rows.names.keys self.new.rows.names.keys }
        ensures added { IfOk result (λ slot. AddsCell self.old self.new slot (home, key.now) mode vertex) }
        ensures same { OnErr result (self.new.cells.slots ≡ self.old.cells.slots) }
    {
        let number = self.next_number;
        let row = self.rows.row(alloc, home, key)?;
        self.enter(alloc, row, mode)?;
        self.cells.reserve(1)?;
        let slot = self.cells.vacant_key();
        self.add_mark(
            alloc,
            row,
            mode,
            Mark {
                number,
                slot,
                vertex,
            },
        )?;
        self.next_number = number + 1;
        Ok(
            self.cells.insert_reserved(Cell {
                row,
                mode,
                vertex,
                number,
            }),
        )
    }

    /// Takes out the entry at a slot. Takes no memory.
    pub fn remove(&mut self, slot: usize)
        requires kept { AreQueuesKept self.old }
        requires there { ContainsKey self.old.cells slot }
        ensures kept { AreQueuesKept self.new }
        ensures updates { Updates self.old.cells self.new.cells slot None }
        ensures rows { links self.new.rows ≡ links self.old.rows }
    {
        let cell = self.cells.remove(slot);
        self.remove_mark(cell.row, cell.mode, cell.number);
    }

    /// The marks of the neighbours of an entry, in the order of their pushes.
    pub fn near(&self, alloc: Global, cell: &Cell) -> Result<Marks, NoMemory>
        requires kept { AreQueuesKept self.now }
        requires row_in { cell.now.row < length self.now.rows.names.keys }
        ensures { IfOk result (λ marks. AreMarks (IsNearMark self.now cell.now) marks.items) }
    {
        let granule = self.rows.granule_of(cell.row);
        let whole = self.wholes.last_between(granule, 0, cell.number);
        let marks = self.near_in_rows(alloc, cell, number_or(whole, 0))?;
        if marks.is_empty() {
            return only(alloc, whole);
        }
        Ok(marks)
    }

    /// Whether it is seen at once that an entry has one neighbour at most: it reads a row, or it writes one that nothing else waits
    /// to read.
    pub fn has_one_near(&self, cell: &Cell) -> bool
        ensures { IsTrue result → HasOneNear self.now cell.now }
    {
        match cell.mode {
            Mode::Read => true,
            Mode::Write => has_no_read(self.rows.table.as_slice(), cell.row),
            Mode::Whole => false,
        }
    }

    /// The mark of the neighbour of such an entry, if it has one. Takes no memory.
    pub fn near_one(&self, cell: &Cell) -> Option<Mark>
        requires kept { AreQueuesKept self.now }
        requires row_in { cell.now.row < length self.now.rows.names.keys }
        requires one { HasOneNear self.now cell.now }
        ensures { AreMarks (IsNearMark self.now cell.now) (option_to_list result) }
    {
        let granule = self.rows.granule_of(cell.row);
        let whole = self.wholes.last_between(granule, 0, cell.number);
        let low = number_or(whole, 0);
        let write = last_write(self.rows.table.as_slice(), cell.row, low, cell.number);
        write.or(whole)
    }

    /// The marks of the followers of an entry, one after the other.
    pub fn next(&self, cell: &Cell) -> NextMarks<'_>
        requires kept { AreQueuesKept self.now }
        requires there { IsKeptCell self.now cell.now }
        ensures marks { AreEachOnce (IsNextMark self.now cell.now) (marks_left result) }
        ensures table { result.table.now ≡ self.now.rows.table.items }
    {
        let table = self.rows.table.as_slice();
        let granule = self.rows.granule_of(cell.row);
        let whole = self.wholes.first_between(granule, cell.number, u64::MAX);
        let high = number_or(whole, u64::MAX);
        match cell.mode {
            Mode::Read => NextMarks::of_read(table, cell.row, cell.number, high, whole),
            Mode::Write => NextMarks::of_write(table, cell.row, cell.number, high, whole),
            Mode::Whole => {
                let rows = self.listed.between(granule, cell.number, high);
                NextMarks::of_rows(table, rows, cell.number, high, whole)
            }
        }
    }

    /// Before something waits for a row in this mode: lists the row, or, where its granule is to be taken whole, tidies the log of the
    /// granule, if that pays.
    fn enter(&mut self, alloc: Global, row: usize, mode: Mode) -> Result<(), NoMemory>
        requires kept { AreQueuesKept self.old }
        requires row_in { row < length self.old.rows.names.keys }
        ensures kept { AreQueuesKept self.new }
        ensures entered { OnOk result (is_whole mode ≡ false → IsEntered self.new row) }
        ensures same { self.new ≡ record self.old { listed = self.new.listed } }
    {
        let granule = self.rows.granule_of(row);
        match mode {
            Mode::Read | Mode::Write => {
                let whole = self.wholes.last_between(granule, 0, u64::MAX);
                self.listed
                    .add(alloc, granule, row, self.next_number, number_or(whole, 0))
            }
            Mode::Whole => {
                self.tidy(granule);
                Ok(())
            }
        }
    }

    /// Tidies the log of a granule before an entry is pushed that takes it whole, where nothing waits to do so, or where the log has
    /// doubled. In the first case the entry looks at all that is listed of the granule, and each listing that stays gives it a
    /// neighbour. In the second case half of the listings came since the log was tidied last, or more. So tidying costs, in all, a
    /// few steps for each neighbour that is given and for each listing that a push made. Takes no memory.
    fn tidy(&mut self, granule: usize)
        requires { AreQueuesKept self.old }
        ensures kept { AreQueuesKept self.new }
        ensures same { self.new ≡ record self.old { listed = self.new.listed } }
    {
        let first = self.wholes.first_between(granule, 0, u64::MAX);
        if first.is_none() || self.listed.has_doubled(granule) {
            let table = self.rows.table.as_slice();
            self.listed.tidy(granule, number_or(first, u64::MAX), table);
        }
    }

    /// Adds a mark at the back of the lane of its mode and row; after `NoMemory` all lanes are as before.
    fn add_mark(
        &mut self,
        alloc: Global,
        row: usize,
        mode: Mode,
        mark: Mark,
    ) -> Result<(), NoMemory>
        requires row_in { row < length self.old.rows.table.items }
        requires positive { 0 < mark.number }
        requires last { AllIn (λ m. m.number < mark.number) (lane self.old mode (place_at (links self.old.rows) mode row)) }
        ensures added { OnOk result (ChangesLaneOf self.old mode (place_at (links self.old.rows) mode row) (lane self.old mode (place_at (links self.old.rows) mode row) ++ mark ∷ []) self.new) }
        ensures same { OnErr result (KeepsLanes self.old self.new) }
    {
        match mode {
            Mode::Read => push(alloc, &mut self.rows.table, row, Way::Read, mark),
            Mode::Write => push(alloc, &mut self.rows.table, row, Way::Write, mark),
            Mode::Whole => self.wholes.push(alloc, self.rows.granule_of(row), mark),
        }
    }

    /// Takes a mark out of the lane of its mode and row. Takes no memory.
    fn remove_mark(&mut self, row: usize, mode: Mode, number: u64)
        requires { row < length self.old.rows.table.items }
        ensures { ChangesLaneOf self.old mode (place_at (links self.old.rows) mode row) (filter (λ m. not (m.number == number)) (lane self.old mode (place_at (links self.old.rows) mode row))) self.new }
    {
        match mode {
            Mode::Read => remove(&mut self.rows.table, row, Way::Read, number),
            Mode::Write => remove(&mut self.rows.table, row, Way::Write, number),
            Mode::Whole => self.wholes.remove(self.rows.granule_of(row), number),
        }
    }

    /// Of the marks of reads and writes above a number those of neighbours of an entry. The number is that of an entry that waits to
    /// take the granule whole, or 0.
    fn near_in_rows(&self, alloc: Global, cell: &Cell, low: u64) -> Result<Marks, NoMemory>
        requires kept { AreQueuesKept self.now }
        requires row_in { cell.now.row < length self.now.rows.names.keys }
        requires taken { IsTakenWhole self.now (granule_at (links self.now.rows) cell.now.row) low }
        ensures { IfOk result (λ marks. AreMarks (IsNearInMode self.now cell.now low) marks.items) }
    {
        let table = self.rows.table.as_slice();
        match cell.mode {
            Mode::Read => near_write(alloc, table, cell.row, low, cell.number),
            Mode::Write => near_row(alloc, table, cell.row, low, cell.number),
            Mode::Whole => {
                let granule = self.rows.granule_of(cell.row);
                let rows = self.listed.between(granule, low, cell.number);
                near_rows(alloc, table, rows, low, cell.number)
            }
        }
    }
}

ghost use Rattle.std.specs.Prelude.{◌≡◌, ◌≢◌, ◌<◌, ◌≤◌, ◌==◌, [], ◌∷◌, ◌++◌, get_or, length, map, not, OnOk, OnErr};
ghost use Rattle.std.specs.Borrow.{sem};
ghost use Rattle.std.specs.List.{filter};
ghost use Rattle.dt_lists.specs.Lists.{AllIn};
ghost use Rattle.dt_queue.specs.LanesInner.{ChangesLane, IsFirstBetween, IsLastBetween, SameLanes, is_between};
ghost use Rattle.dt_queue.specs.TableInner.{LendsLane, heads_of, lane_of, lanes_of, lanes_read, lanes_written};
ghost use Rattle.dt_queue.specs.ListedInner.{is_used};
ghost use Rattle.dt_queue.specs.NumbersInner.{IsGap, renumbered};

use crate::lane::Lane;
use crate::mark::{Mark, Marks};
use dt_text::{Key, NoMemory};
use std::alloc::Global;

/// What an entry is to do with a row.
#[derive(Clone, Copy)]
pub enum Way {
    Read,
    Write,
}

/// What is kept of a row: its name, which is a home and a key, the number of its granule, and its lanes, of those that wait to read
/// it, and of those that wait to write it. Mostly all of these are looked at, so they lie side by side: a push that compares the name
/// finds the lanes in the lines of memory next to it.
#[derive(Drop)]
pub struct Row {
    pub name: (u8, Key),
    pub granule: usize,
    pub reads: Lane,
    pub writes: Lane,
}

impl Row {
    /// A row of this name and granule, in which nothing waits. Takes no memory.
    pub fn new(name: (u8, Key), granule: usize) -> Self
        ensures name { result.name ≡ name }
        ensures granule { result.granule ≡ granule }
        ensures reads { result.reads ≡ [] }
        ensures writes { result.writes ≡ [] }
    {
        Row {
            name,
            granule,
            reads: Lane::new(),
            writes: Lane::new(),
        }
    }

    /// The lane of those that are to use it in this way.
    #[inline(always)]
    fn lane(&self, way: Way) -> &Lane
        ensures { result.now ≡ lane_of way self.now }
    {
        match way {
            Way::Read => &self.reads,
            Way::Write => &self.writes,
        }
    }

    /// The same lane, to be changed.
    #[inline(always)]
    fn lane_mut(&mut self, way: Way) -> &mut Lane
        ensures* lent { sem 𝓛 (LendsLane way self.entry result) }
        ensures value { result.now ≡ lane_of way self.old }
    {
        match way {
            Way::Read => &mut self.reads,
            Way::Write => &mut self.writes,
        }
    }
}

/// Adds the mark of one that is to use a row in this way, behind all others of the way; after `NoMemory` each lane has the marks
/// that it had.
pub fn push(
    alloc: Global,
    table: &mut Vec<Row>,
    row: usize,
    way: Way,
    mark: Mark,
) -> Result<(), NoMemory>
    requires known { row < length table.old.items }
    requires positive { 0 < mark.number }
    requires last { AllIn (λ m. m.number < mark.number) (get_or (lanes_of way table.old.items) row []) }
    ensures added { OnOk result (ChangesLane (lanes_of way table.old.items) row (get_or (lanes_of way table.old.items) row [] ++ mark ∷ []) (lanes_of way table.new.items)) }
    ensures same { OnErr result (SameLanes (lanes_of way table.old.items) (lanes_of way table.new.items)) }
    ensures others { (other : Way) → other ≢ way → SameLanes (lanes_of other table.old.items) (lanes_of other table.new.items) }
    ensures heads { heads_of table.new.items ≡ heads_of table.old.items }
{
    table[row].lane_mut(way).push(alloc, mark)
}

/// Takes out the mark of a number of those that are to use a row in this way. Takes no memory.
pub fn remove(table: &mut Vec<Row>, row: usize, way: Way, number: u64)
    ensures lane { ChangesLane (lanes_of way table.old.items) row (filter (λ m. not (m.number == number)) (get_or (lanes_of way table.old.items) row [])) (lanes_of way table.new.items) }
    ensures others { (other : Way) → other ≢ way → SameLanes (lanes_of other table.old.items) (lanes_of other table.new.items) }
    ensures heads { heads_of table.new.items ≡ heads_of table.old.items }
{
    if row < table.len() {
        table[row].lane_mut(way).remove(number);
    }
}

/// Gives the mark of a number of those that are to use a row in this way a lesser number; no other of them lies between. Takes no
/// memory.
pub fn renumber(table: &mut Vec<Row>, row: usize, way: Way, number: u64, new: u64)
    requires positive { 0 < new }
    requires lesser { new ≤ number }
    requires gap { AllIn (IsGap number new) (get_or (lanes_of way table.old.items) row []) }
    ensures lane { ChangesLane (lanes_of way table.old.items) row (map (renumbered number new) (get_or (lanes_of way table.old.items) row [])) (lanes_of way table.new.items) }
    ensures others { (other : Way) → other ≢ way → SameLanes (lanes_of other table.old.items) (lanes_of other table.new.items) }
    ensures heads { heads_of table.new.items ≡ heads_of table.old.items }
{
    if row < table.len() {
        table[row].lane_mut(way).renumber(number, new);
    }
}

/// Whether nothing waits to read a row.
pub fn has_no_read(table: &[Row], row: usize) -> bool
    ensures { result ≡ (length (get_or (lanes_read table.now) row []) == 0) }
{
    match table.get(row) {
        Some(of_row) => of_row.reads.is_empty(),
        None => true,
    }
}

/// Whether something waits to read or write a row.
pub fn is_used(table: &[Row], row: usize) -> bool
    ensures { result ≡ is_used (lanes_read table.now) (lanes_written table.now) row }
{
    match table.get(row) {
        Some(of_row) => !of_row.reads.is_empty() || !of_row.writes.is_empty(),
        None => false,
    }
}

/// Of those that are to write a row the last mark with a number between the two.
#[inline(always)]
pub fn last_write(table: &[Row], row: usize, low: u64, high: u64) -> Option<Mark>
    ensures { IsLastBetween low high (get_or (lanes_written table.now) row []) result }
{
    table.get(row)?.writes.last_between(low, high)
}

/// Of those that are to use a row in this way the first mark with a number between the two.
#[inline(always)]
pub fn first_between(table: &[Row], row: usize, way: Way, low: u64, high: u64) -> Option<Mark>
    ensures { IsFirstBetween low high (get_or (lanes_of way table.now) row []) result }
{
    table.get(row)?.lane(way).first_between(low, high)
}

/// Appends the marks of those that are to read a row with numbers between the two; after `NoMemory` maybe only some of them.
pub fn add_reads(
    table: &[Row],
    row: usize,
    low: u64,
    high: u64,
    marks: &mut Marks,
) -> Result<(), NoMemory>
    ensures { OnOk result (marks.new.items ≡ marks.old.items ++ filter (is_between low high) (get_or (lanes_read table.now) row [])) }
{
    match table.get(row) {
        Some(of_row) => of_row.reads.add_between(low, high, marks),
        None => Ok(()),
    }
}

ghost use Rattle.std.specs.Prelude.{◌≡◌, ◌++◌, [], get_or, option_to_list, IfOk, OnOk};
ghost use Rattle.dt_lists.specs.Lists.{AnyIn, Distinct};
ghost use Rattle.dt_queue.specs.LanesInner.{AddsMarks, AreApart, AreMarks, HasRisingNumbers, IsLastIn, IsNearInRow, number_or};
ghost use Rattle.dt_queue.specs.ListedInner.{listed_left};
ghost use Rattle.dt_queue.specs.TableInner.{lanes_read, lanes_written};

use crate::listing::ListedBetween;
use crate::mark::{Mark, Marks};
use crate::row::{Row, add_reads, last_write};
use dt_text::NoMemory;
use smallvec::SmallVec;
use std::alloc::Global;

/// The number of a mark, or the other one where there is no mark.
pub fn number_or(mark: Option<Mark>, other: u64) -> u64
    ensures { result ≡ number_or mark other }
{
    match mark {
        Some(mark) => mark.number,
        None => other,
    }
}

/// Appends the mark, if there is one.
pub fn add(mark: Option<Mark>, marks: &mut Marks) -> Result<(), NoMemory>
    ensures { OnOk result (marks.new.items ≡ marks.old.items ++ option_to_list mark) }
{
    if let Some(mark) = mark {
        marks.push(mark)?;
    }
    Ok(())
}

/// The mark, if there is one.
pub fn only(alloc: Global, mark: Option<Mark>) -> Result<Marks, NoMemory>
    ensures { IfOk result (λ marks. marks.items ≡ option_to_list mark) }
{
    let mut marks = SmallVec::new(alloc);
    add(mark, &mut marks)?;
    Ok(marks)
}

/// Of the marks of those that write a row between two numbers the last one, if there is one.
pub fn near_write(
    alloc: Global,
    table: &[Row],
    row: usize,
    low: u64,
    high: u64,
) -> Result<Marks, NoMemory>
    requires { HasRisingNumbers (get_or (lanes_written table.now) row []) }
    ensures { IfOk result (λ marks. AreMarks (IsLastIn (get_or (lanes_written table.now) row []) low high) marks.items) }
{
    only(alloc, last_write(table, row, low, high))
}

/// Appends, of the marks of a row between two numbers, those that are nearest to an entry after them that writes the row: those
/// that read it and after which none writes it, or, where there are none, the last one that writes it.
pub fn add_row(
    table: &[Row],
    row: usize,
    low: u64,
    high: u64,
    marks: &mut Marks,
) -> Result<(), NoMemory>
    requires { AreApart (lanes_read table.now) (lanes_written table.now) }
    ensures { OnOk result (AddsMarks (IsNearInRow (get_or (lanes_read table.now) row []) (get_or (lanes_written table.now) row []) low high) marks.old.items marks.new.items) }
{
    let write = last_write(table, row, low, high);
    let had = marks.len();
    add_reads(table, row, number_or(write, low), high, marks)?;
    if marks.len() == had {
        add(write, marks)?;
    }
    Ok(())
}

/// The same marks of one row alone.
pub fn near_row(
    alloc: Global,
    table: &[Row],
    row: usize,
    low: u64,
    high: u64,
) -> Result<Marks, NoMemory>
    requires { AreApart (lanes_read table.now) (lanes_written table.now) }
    ensures { IfOk result (λ marks. AreMarks (IsNearInRow (get_or (lanes_read table.now) row []) (get_or (lanes_written table.now) row []) low high) marks.items) }
{
    let mut marks = SmallVec::new(alloc);
    add_row(table, row, low, high, &mut marks)?;
    Ok(marks)
}

/// The same marks of several rows, in the order of their pushes.
pub fn near_rows(
    alloc: Global,
    table: &[Row],
    mut rows: ListedBetween<'_>,
    low: u64,
    high: u64,
) -> Result<Marks, NoMemory>
    requires apart { AreApart (lanes_read table.now) (lanes_written table.now) }
    requires once { Distinct (listed_left rows) }
    ensures { IfOk result (λ marks. AreMarks (λ m. AnyIn (λ row. IsNearInRow (get_or (lanes_read table.now) row []) (get_or (lanes_written table.now) row []) low high m) (listed_left rows.entry)) marks.items) }
{
    let mut marks = SmallVec::new(alloc);
    while let Some(row) = rows.next() {
        add_row(table, row, low, high, &mut marks)?;
    }
    marks.as_mut_slice().sort_by_key(alloc, |mark| mark.number)?;
    Ok(marks)
}

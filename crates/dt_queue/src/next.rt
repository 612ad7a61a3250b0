ghost use Rattle.std.specs.Prelude.{◌≡◌, ◌++◌, [], ◌∷◌, get_or, option_to_list, MatchOption, None};
ghost use Rattle.dt_queue.specs.LanesInner.{AreApart, HasRisingNumbers};
ghost use Rattle.dt_queue.specs.ListedInner.{listed_left};
ghost use Rattle.dt_queue.specs.TableInner.{lanes_read, lanes_written};

use crate::listing::ListedBetween;
use crate::mark::Mark;
use crate::nearest::number_or;
use crate::row::{Row, Way, first_between};

/// A search for the marks of the followers of an entry, which goes from row to row. For one that takes its granule whole these are the
/// rows that came to be used between it and the next such entry: it looks at each listing of theirs once (at all listings of the
/// granule, once the entries were numbered anew), and costs as much as there are such listings and followers.
#[derive(Clone, Copy)]
pub struct NextMarks<'a> {
    pub table: &'a [Row],
    /// The rows that are still to be searched, for what lies between two numbers.
    pub rows: ListedBetween<'a>,
    pub low: u64,
    pub high: u64,
    /// The row that the search is in: what waits to read it with a number between these two is still to be given.
    pub row: usize,
    pub after: u64,
    pub limit: u64,
    /// What is given where nothing else was.
    pub last: Option<Mark>,
}

impl<'a> NextMarks<'a> {
    ghost use Rattle.dt_queue.specs.NextInner.{first_in, marks_left, next_of_row, next_of_rows, or_else_one, reads_left, rows_left};

    /// For an entry that reads a row: of the marks of those that write it between two numbers the first one, or the other one.
    pub fn of_read(table: &'a [Row], row: usize, low: u64, high: u64, other: Option<Mark>) -> Self
        requires { HasRisingNumbers (get_or (lanes_written table.now) row []) }
        ensures marks { marks_left result ≡ or_else_one (option_to_list (first_in low high (get_or (lanes_written table.now) row []))) other }
        ensures table { result.table.now ≡ table.now }
    {
        NextMarks {
            table,
            rows: ListedBetween::none(),
            low,
            high,
            row,
            after: 0,
            limit: 0,
            last: first_between(table, row, Way::Write, low, high).or(other),
        }
    }

    /// For an entry that writes a row: the marks of the row between two numbers that are next to it, or the other one.
    pub fn of_write(table: &'a [Row], row: usize, low: u64, high: u64, other: Option<Mark>) -> Self
        requires { HasRisingNumbers (get_or (lanes_written table.now) row []) }
        ensures marks { marks_left result ≡ or_else_one (next_of_row (get_or (lanes_read table.now) row []) (get_or (lanes_written table.now) row []) low high) other }
        ensures table { result.table.now ≡ table.now }
    {
        let write = first_between(table, row, Way::Write, low, high);
        NextMarks {
            table,
            rows: ListedBetween::none(),
            low,
            high,
            row,
            after: low,
            limit: number_or(write, high),
            last: write.or(other),
        }
    }

    /// For an entry that takes a granule whole: those of all of these rows, or the other one.
    pub fn of_rows(
        table: &'a [Row],
        rows: ListedBetween<'a>,
        low: u64,
        high: u64,
        other: Option<Mark>,
    ) -> Self
        ensures marks { marks_left result ≡ or_else_one (next_of_rows (lanes_read table.now) (lanes_written table.now) low high (listed_left rows.entry)) other }
        ensures table { result.table.now ≡ table.now }
    {
        NextMarks {
            table,
            rows,
            low,
            high,
            row: 0,
            after: 0,
            limit: 0,
            last: other,
        }
    }

    /// Takes the next mark, if one is left.
    pub fn next(&mut self) -> Option<Mark>
        requires { AreApart (lanes_read self.old.table.now) (lanes_written self.old.table.now) }
        ensures taken { MatchOption result ((marks_left self.old ≡ []) × (marks_left self.new ≡ [])) (λ mark. marks_left self.old ≡ mark ∷ marks_left self.new) }
        ensures table { self.new.table.now ≡ self.old.table.now }
    {
        let next = self.next_in_rows();
        if next.is_some() {
            self.last = None;
            return next;
        }
        self.last.take()
    }

    /// The same of the marks of rows alone.
    fn next_in_rows(&mut self) -> Option<Mark>
        requires { AreApart (lanes_read self.old.table.now) (lanes_written self.old.table.now) }
        ensures taken { MatchOption result ((rows_left self.old ≡ []) × (rows_left self.new ≡ [])) (λ mark. rows_left self.old ≡ mark ∷ rows_left self.new) }
        ensures table { self.new.table.now ≡ self.old.table.now }
        ensures last { self.new.last ≡ self.old.last }
    {
        if let Some(read) = first_between(self.table, self.row, Way::Read, self.after, self.limit) {
            self.after = read.number;
            return Some(read);
        }
        while let Some(row) = self.rows.next() {
            let next = self.enter(row);
            if next.is_some() {
                return next;
            }
        }
        None
    }

    /// Begins with another row, where none is left of the one before, and takes its first mark, if it has one.
    fn enter(&mut self, row: usize) -> Option<Mark>
        requires apart { AreApart (lanes_read self.old.table.now) (lanes_written self.old.table.now) }
        requires none { reads_left self.old ≡ [] }
        ensures taken { option_to_list result ++ reads_left self.new
            ≡ next_of_row (get_or (lanes_read self.old.table.now) row []) (get_or (lanes_written self.old.table.now) row []) self.old.low self.old.high }
        ensures none { result ≡ None → reads_left self.new ≡ [] }
        ensures same { self.new ≡ record self.old { row = self.new.row; after = self.new.after; limit = self.new.limit } }
    {
        let write = first_between(self.table, row, Way::Write, self.low, self.high);
        let limit = number_or(write, self.high);
        let Some(read) = first_between(self.table, row, Way::Read, self.low, limit) else {
            return write;
        };
        self.row = row;
        self.after = read.number;
        self.limit = limit;
        Some(read)
    }
}

ghost use Rattle.std.specs.Prelude.{◌≡◌, ◌≤◌, ◌<◌, ◌-◌, ℕ, false, [], OnErr, OnOk, get_or, length, map, vec_capacity, vec_len};
ghost use Rattle.std.specs.List.{filter};
ghost use Rattle.dt_lists.specs.Lists.{EachThen};
ghost use Rattle.dt_queue.specs.TableInner.{lanes_read, lanes_written};
ghost use Rattle.dt_queue.specs.ListedInner.{AreLogged, Forgets, IsListedRow, ListsRow, SameListings, Tidies, is_later, is_numbered, last_listing, listed_left, listings_at, rows_between, since, stays};

use crate::listing::{ListedBetween, Listing};
use crate::row::{Row, is_used};
use dt_text::NoMemory;
use std::alloc::Global;

/// The listings of a granule, in the order of their pushes, and how many were left when they were tidied last.
#[derive(Drop)]
pub struct Log {
    pub listings: Vec<Listing>,
    pub tidied: usize,
}

/// Which rows of a granule came to be used between two pushes, so that an entry that takes the granule whole looks at no others.
///
/// A row is listed when something comes that reads or writes it, where it was not listed since the last entry that waits to take its
/// granule whole. So most pushes find their row listed, as one number tells, and a removal changes nothing here. Listings go when
/// the log of their granule is tidied.
#[derive(Drop)]
pub struct ListedRows {
    /// Of each granule, by its number, its log.
    pub logs: Vec<Log>,
    /// Of each row the number of its last listing, or 0 where it has none.
    pub last: Vec<u64>,
    /// Whether the numbers of the listings are those of pushes. After 2^64 pushes the entries are numbered anew, and from then on
    /// nothing is known of listings but which rows they list.
    pub exact: bool,
}

impl ListedRows {
    /// No row is listed. Takes no memory.
    pub fn new(alloc: Global) -> Self
        ensures logs { result.logs.items ≡ [] }
        ensures last { result.last.items ≡ [] }
    {
        ListedRows {
            logs: Vec::new(alloc),
            last: Vec::new(alloc),
            exact: true,
        }
    }

    /// Lists a row of a granule at the push of this number, where it is not listed since that of the last entry that waits to take the
    /// granule whole, or, where none does, since 0. After `NoMemory` all is listed as before.
    pub fn add(
        &mut self,
        alloc: Global,
        granule: usize,
        row: usize,
        number: u64,
        whole: u64,
    ) -> Result<(), NoMemory>
        ensures added { OnOk result (ListsRow granule row number whole self.old self.new) }
        ensures same { OnErr result (SameListings self.old self.new) }
    {
        let before = last_of(self.last.as_slice(), row);
        if self.since(whole) < before {
            return Ok(());
        }
        make_log(alloc, &mut self.logs, granule)?;
        make_last(&mut self.last, row)?;
        self.logs[granule].listings.push_reserved(Listing {
            row,
            number,
            before,
        });
        self.last[row] = number;
        Ok(())
    }

    /// Whether the log of a granule is twice as long as it was when it was tidied last, or longer.
    pub fn has_doubled(&self, granule: usize) -> bool {
        match self.logs.get(granule) {
            Some(log) => log.listings.len() / 2 >= log.tidied,
            None => false,
        }
    }

    /// Takes listings out of the log of a granule: those of rows in which nothing waits to read or write; and, of those up to the number
    /// of the first entry that waits to take the granule whole, all but the oldest of each row. Takes no memory.
    pub fn tidy(&mut self, granule: usize, first: u64, table: &[Row])
        ensures { Tidies granule first (lanes_read table.now) (lanes_written table.now) self.old self.new }
    {
        if granule < self.logs.len() {
            forget_unused(
                self.logs[granule].listings.as_slice(),
                table,
                &mut self.last,
            );
            self.logs[granule].tidy(first, table);
        }
    }

    /// The rows that are listed between two pushes, of which the first is that of an entry that takes the granule whole and waits, or
    /// is 0; where numbers tell nothing, all rows that are listed of the granule. Takes no memory.
    pub fn between(&self, granule: usize, low: u64, high: u64) -> ListedBetween<'_>
        requires { AreLogged self.now }
        ensures { listed_left result ≡ rows_between self.now granule low high }
    {
        let log = self.log(granule);
        ListedBetween {
            listings: if self.exact {
                numbered(log, low, high)
            } else {
                log
            },
            low: self.since(low),
        }
    }

    /// Numbers of pushes tell nothing of the listings any more. Takes no memory.
    pub fn forget_numbers(&mut self)
        ensures { self.new ≡ record self.old { exact = false } }
    {
        self.exact = false;
    }

    /// The log of a granule.
    fn log(&self, granule: usize) -> &[Listing]
        ensures { result.now ≡ listings_at self.now granule }
    {
        match self.logs.get(granule) {
            Some(log) => log.listings.as_slice(),
            None => &[],
        }
    }

    /// The number, where numbers tell something, and else 0.
    fn since(&self, number: u64) -> u64
        ensures { result ≡ since self.now number }
    {
        if self.exact { number } else { 0 }
    }
}

impl Log {
    /// Takes listings out, where `first` is the number of the first entry that waits to take the granule whole. Takes no memory.
    fn tidy(&mut self, first: u64, table: &[Row])
        ensures { self.new.listings.items ≡ filter (stays first (lanes_read table.now) (lanes_written table.now)) self.old.listings.items }
    {
        self.listings.retain(|listing| stays(listing, first, table));
        self.tidied = self.listings.len();
    }
}

/// Whether a listing stays in a log that is tidied: that of a row in which something waits, if it is its oldest, or came after the
/// first entry that waits to take the granule whole.
fn stays(listing: &Listing, first: u64, table: &[Row]) -> bool
    ensures { result ≡ stays first (lanes_read table.now) (lanes_written table.now) listing.now }
{
    is_used(table, listing.row) && (listing.before == 0 || first < listing.number)
}

/// The number of the last listing of a row, or 0.
fn last_of(last: &[u64], row: usize) -> u64
    ensures { result ≡ get_or last.now row 0 }
{
    match last.get(row) {
        Some(number) => *number,
        None => 0,
    }
}

/// Of listings whose numbers do not fall those between two numbers, found by halving.
fn numbered(listings: &[Listing], low: u64, high: u64) -> &[Listing]
    requires { EachThen (λ a b. a.number ≤ b.number) listings.now }
    ensures { result.now ≡ filter (is_numbered low high) listings.now }
{
    let later = after(listings, low);
    let end = later.partition_point(|listing| listing.number < high);
    later.split_at(end).0
}

/// Of listings whose numbers do not fall those after a number.
fn after(listings: &[Listing], low: u64) -> &[Listing]
    requires { EachThen (λ a b. a.number ≤ b.number) listings.now }
    ensures { result.now ≡ filter (is_later low) listings.now }
{
    let start = listings.partition_point(|listing| listing.number <= low);
    listings.split_at(start).1
}

/// Makes room for one more listing in the log of a granule. The logs stay, also after `NoMemory`.
fn make_log(alloc: Global, logs: &mut Vec<Log>, granule: usize) -> Result<(), NoMemory>
    ensures room { OnOk result (0 < get_or (map (λ l. vec_capacity l.listings - vec_len l.listings) logs.new.items) granule 0) }
    ensures same { (g : ℕ) → get_or (map (λ l. l.listings.items) logs.new.items) g [] ≡ get_or (map (λ l. l.listings.items) logs.old.items) g [] }
{
    while logs.len() <= granule {
        logs.push(Log {
            listings: Vec::new(alloc),
            tidied: 0,
        })?;
    }
    logs[granule].listings.reserve(1)?;
    Ok(())
}

/// Makes a place for the number of the last listing of a row. The numbers stay, also after `NoMemory`.
fn make_last(last: &mut Vec<u64>, row: usize) -> Result<(), NoMemory>
    ensures known { OnOk result (row < length last.new.items) }
    ensures same { (r : ℕ) → get_or last.new.items r 0 ≡ get_or last.old.items r 0 }
{
    while last.len() <= row {
        last.push(0)?;
    }
    Ok(())
}

/// Of the rows of these listings those in which nothing waits have no last listing any more. Takes no memory.
fn forget_unused(listings: &[Listing], table: &[Row], last: &mut Vec<u64>)
    ensures { Forgets (lanes_read table.now) (lanes_written table.now) (IsListedRow listings.now) last.old.items last.new.items }
{
    for listing in listings {
        forget_if_unused(listing.row, table, last);
    }
}

/// The same of one row.
fn forget_if_unused(row: usize, table: &[Row], last: &mut Vec<u64>)
    ensures { Forgets (lanes_read table.now) (lanes_written table.now) (λ r. r ≡ row) last.old.items last.new.items }
{
    if !is_used(table, row) && row < last.len() {
        last[row] = 0;
    }
}

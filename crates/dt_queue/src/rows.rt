ghost use Rattle.std.specs.Prelude.{◌≡◌, ◌<◌, [], length, slice_get, Some, IfOk, IfSome};
ghost use Rattle.dt_lists.specs.Lists.{Has};
ghost use Rattle.dt_queue.specs.LanesInner.{SameLanes};
ghost use Rattle.dt_queue.specs.TableInner.{lanes_read, lanes_written};

use crate::hints::Hints;
use crate::row::Row;
use crate::used::Used;
use dt_access::granule;
use dt_text::{Key, NoMemory};
use indexmap::IndexSet;
use std::alloc::Global;

/// The rows that were ever waited for, each a key at a home, and their granules. A row and a granule have the number of their
/// first use, from 0; so what is kept of a row lies in a table, and names are looked up once at each push: mostly where the key's
/// hint leads, and else by their hash. A row's name lies in the table too, beside its lanes: so a hint is tried at the place in
/// memory where a push goes on, and not also at one in the set of names.
#[derive(Drop)]
pub struct Rows {
    pub names: IndexSet<(u8, Key)>,
    pub granules: IndexSet<(u8, Key)>,
    pub table: Vec<Row>,
    pub hints: Hints,
}

impl Rows {
    ghost use Rattle.dt_queue.specs.RowsInner.{AreRowsLinked, KeepsRows, granule_at, links};

    /// No row was waited for. Takes no memory.
    pub fn new(alloc: Global) -> Self
        ensures linked { AreRowsLinked (links result) }
        ensures empty { result.names.keys ≡ [] }
        ensures table { result.table.items ≡ [] }
    {
        Rows {
            names: IndexSet::new(alloc),
            granules: IndexSet::new(alloc),
            table: Vec::new(alloc),
            hints: Hints::new(alloc),
        }
    }

    /// The row of a key at a home, which is added where it is new. All other rows stay, also after `NoMemory`.
    pub fn row(&mut self, alloc: Global, home: u8, key: &Key) -> Result<usize, NoMemory>
        requires { AreRowsLinked (links self.old) }
        ensures linked { AreRowsLinked (links self.new) }
        ensures kept { KeepsRows (links self.old) (links self.new) }
        ensures reads { SameLanes (lanes_read self.old.table.items) (lanes_read self.new.table.items) }
        ensures writes { SameLanes (lanes_written self.old.table.items) (lanes_written self.new.table.items) }
        ensures found { IfOk result (λ row. slice_get self.new.names.keys row ≡ Some (home, key.now)) }
    {
        if let Some(row) = self.hinted(home, key) {
            return Ok(row);
        }
        let row = self.look_up(alloc, home, key)?;
        self.hints.note(key.hint(), row)?;
        Ok(row)
    }

    /// The row to which the hint of a key leads, if it is that of the key at this home.
    fn hinted(&self, home: u8, key: &Key) -> Option<usize>
        requires { AreRowsLinked (links self.now) }
        ensures { IfSome result (λ row. slice_get self.now.names.keys row ≡ Some (home, key.now)) }
    {
        let row = self.hints.get(key.hint())?;
        let name = &self.table.get(row)?.name;
        if name.0 == home && name.1 == *key {
            Some(row)
        } else {
            None
        }
    }

    /// The same row, found by the hash of its name.
    fn look_up(&mut self, alloc: Global, home: u8, key: &Key) -> Result<usize, NoMemory>
        requires { AreRowsLinked (links self.old) }
        ensures linked { AreRowsLinked (links self.new) }
        ensures kept { KeepsRows (links self.old) (links self.new) }
        ensures reads { SameLanes (lanes_read self.old.table.items) (lanes_read self.new.table.items) }
        ensures writes { SameLanes (lanes_written self.old.table.items) (lanes_written self.new.table.items) }
        ensures found { IfOk result (λ row. slice_get self.new.names.keys row ≡ Some (home, key.now)) }
    {
        match self.names.get_index_of(Used { home, key }) {
            Some(row) => Ok(row),
            None => self.add_row(alloc, (home, key.copy(alloc)?)),
        }
    }

    /// Adds a row. Its name is copied before anything changes.
    fn add_row(&mut self, alloc: Global, name: (u8, Key)) -> Result<usize, NoMemory>
        requires linked { AreRowsLinked (links self.old) }
        requires absent { ¬ (Has self.old.names.keys name) }
        ensures linked { AreRowsLinked (links self.new) }
        ensures kept { KeepsRows (links self.old) (links self.new) }
        ensures reads { SameLanes (lanes_read self.old.table.items) (lanes_read self.new.table.items) }
        ensures writes { SameLanes (lanes_written self.old.table.items) (lanes_written self.new.table.items) }
        ensures found { IfOk result (λ row. slice_get self.new.names.keys row ≡ Some name) }
    {
        let copied = (name.0, name.1.copy(alloc)?);
        let granule = self.granule((name.0, granule(alloc, &name.1)?))?;
        let row = self.table.len();
        self.table.reserve(1)?;
        self.names.insert(name)?;
        self.table.push_reserved(Row::new(copied, granule));
        Ok(row)
    }

    /// The granule of this name, which is added where it is new.
    fn granule(&mut self, name: (u8, Key)) -> Result<usize, NoMemory>
        requires { AreRowsLinked (links self.old) }
        ensures linked { AreRowsLinked (links self.new) }
        ensures names { self.new.names.keys ≡ self.old.names.keys }
        ensures table { self.new.table ≡ self.old.table }
        ensures kept { KeepsRows (links self.old) (links self.new) }
        ensures found { IfOk result (λ granule. slice_get self.new.granules.keys granule ≡ Some name) }
    {
        if let Some(granule) = self.granules.get_index_of(&name) {
            return Ok(granule);
        }
        let granule = self.granules.len();
        self.granules.insert(name)?;
        Ok(granule)
    }

    /// The granule of a row. Takes no memory.
    pub fn granule_of(&self, row: usize) -> usize
        requires { row < length self.now.table.items }
        ensures { result ≡ granule_at (links self.now) row }
    {
        self.table[row].granule
    }
}

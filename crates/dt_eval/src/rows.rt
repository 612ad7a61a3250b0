ghost use Rattle.std.specs.Prelude.{◌≡◌, ◌<◌, true, map, length, slice_index_or, slice_set, IfOk, option_copied};
ghost use Rattle.dt_lists.specs.Lists.{AllIn, EachThen};
ghost use Rattle.dt_access.specs.Orders.{KeyBefore};
ghost use Rattle.dt_eval.specs.Data.{declared_key, value_in, with_value};
ghost use Rattle.dt_eval.specs.Data.{names_at, keys_in};
ghost use Rattle.dt_eval.specs.Meaning.{unchanged, writes_of};
ghost use Rattle.dt_eval.specs.RowsInner.{rows_in};
ghost use Rattle.std.specs.List.{list_all};

use dt_access::Writes;
use dt_text::{Key, NoMemory, Value};
use smallvec::SmallVec;
use std::alloc::Global;
use std::marker::Model;

/// For each declaration the place of the row that its key has. That of a few declarations takes no memory.
pub(crate) type Places = SmallVec<usize, 4>;

/// For each row whether it was set or cleared. Those of a few rows take no memory.
type Marks = SmallVec<bool, 8>;

/// The rows of a run, and for each declaration which of them its key has. Contracts see the key of each declaration and
/// the rows.
#[derive(Drop)]
pub(crate) struct Rows {
    items: Vec<(Key, Option<Value>)>,
    changed: Marks,
    places: Places,
}

impl Model for Rows {
    ghost use Rattle.std.specs.Prelude.{◌≡◌, List, ℕ, ◌<◌, length};
    ghost use Rattle.dt_lists.specs.Lists.{AllIn, EachThen};
    ghost use Rattle.dt_access.specs.Orders.{KeyBefore};
    ghost use Rattle.dt_eval.specs.declared.state.Row.{Row};
    ghost use Rattle.dt_eval.specs.Data.{names_at, keys_in};
    ghost use Rattle.dt_eval.specs.RowsInner.{rows_in};

    ghost Value = { List (List ℕ) × List Row };

    ghost view = { λ r. (names_at r.places.items (rows_in r.items.items r.changed.items), rows_in r.items.items r.changed.items) };

    ghost invariant = { λ r. (length r.changed.items ≡ length r.items.items)
        × AllIn (λ p. p < length (rows_in r.items.items r.changed.items)) r.places.items
        × EachThen KeyBefore (keys_in (rows_in r.items.items r.changed.items)) };
}

impl Rows {
    /// These rows as they are read, the declarations being of the keys at these places.
    pub(crate) fn new(
        alloc: Global,
        items: Vec<(Key, Option<Value>)>,
        places: Places,
    ) -> Result<Self, NoMemory>
        requires places { AllIn (λ p. p < length (map unchanged items.items)) places.items }
        requires keys { EachThen KeyBefore (keys_in (map unchanged items.items)) }
        ensures { IfOk result (λ rows. rows ≡ (names_at places.items (map unchanged items.items), map unchanged items.items)) }
    {
        let changed = Marks::from_elem(alloc, false, items.len())?;
        Ok(Rows {
            items,
            changed,
            places,
        })
    }

    /// The value of the row of the key that the declaration of this number gives, if it has one. Takes no memory.
    pub(crate) fn value(&self, key: u32) -> Option<&Value>
        requires { key < length self.now.0 }
        ensures { option_copied result ≡ value_in self.now.1 (declared_key self.now.0 key) }
    {
        self.items[place_at(&self.places, key)].1.as_ref()
    }

    /// Gives the row of the key that the declaration of this number gives a value, or none. Takes no memory.
    pub(crate) fn change(&mut self, key: u32, value: Option<Value>)
        requires { key < length self.old.0 }
        ensures { self.new ≡ (self.old.0, with_value (declared_key self.old.0 key) value self.old.1) }
    {
        let place = place_at(&self.places, key);
        self.items[place].1 = value;
        mark(&mut self.changed, place);
    }

    /// The rows that were set or cleared, each with its last value or none, in order of keys.
    pub(crate) fn into_writes(self, alloc: Global) -> Result<Writes, NoMemory>
        ensures { IfOk result (λ writes. writes ≡ writes_of self.1) }
    {
        let Rows { items, changed, .. } = self;
        Ok(Writes::from_vec(changed_rows(alloc, items, changed.as_slice())?))
    }
}

/// The place of the row of the key that the declaration of this number gives.
fn place_at(places: &Places, key: u32) -> usize
    requires { key < length places.now.items }
    ensures { result ≡ slice_index_or places.now.items key result }
{
    places.as_slice()[key as usize]
}

/// Marks the row at this place.
fn mark(marks: &mut Marks, place: usize)
    requires { place < length marks.old.items }
    ensures { marks.new.items ≡ slice_set marks.old.items place true }
{
    marks.as_mut_slice()[place] = true;
}

/// The keys and values of the rows that were set or cleared, in order. Takes no memory where all were.
fn changed_rows(
    alloc: Global,
    items: Vec<(Key, Option<Value>)>,
    changed: &[bool],
) -> Result<Vec<(Key, Option<Value>)>, NoMemory>
    requires { length changed.now ≡ length items.items }
    ensures { IfOk result (λ writes. writes.items ≡ writes_of (rows_in items.items changed.now)) }
{
    if are_all(changed) {
        return Ok(items);
    }
    let mut writes = Vec::new(alloc);
    for (changed, row) in changed.iter().zip(items) {
        if *changed {
            writes.push(row)?;
        }
    }
    Ok(writes)
}

/// Whether each of these holds.
fn are_all(tests: &[bool]) -> bool
    ensures { result ≡ list_all (λ test. test) tests.now }
{
    tests.iter().all(|test| *test)
}

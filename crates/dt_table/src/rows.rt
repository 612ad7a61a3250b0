//! The values of keys: those of the opening, and beside them those of all other keys that were ever given one.
ghost use Rattle.std.specs.Prelude.{◌≡◌, ◌+◌, ◌<◌, ◌≤◌, ◌++◌, IsOk, IfOk, OnOk, None, unwrap_or};
ghost use Rattle.std.specs.Option.{option_copied};
ghost use Rattle.std.specs.Ordering.{nat_cmp};
ghost use Rattle.std.specs.Cmp.Lexicographic.{slice_cmp};
ghost use Rattle.std.specs.FinMap.{from_entries, insert};
ghost use Rattle.std.specs.List.{IsDistinct};
ghost use Rattle.std.specs.Map.{keys_of, lookup};
ghost use Rattle.dt_access.specs.Clash.{same_key};
ghost use Rattle.dt_access.specs.Orders.{HasDistinctKeys};
ghost use Rattle.dt_table.specs.RowsInner.{first_values};
ghost use Rattle.dt_table.specs.StoredUnitInner.{has_value, keys_with_value};

use crate::opened::OpenedRows;
use dt_text::{Key, NoMemory, Value};
use indexmap::IndexMap;
use std::alloc::Global;
use std::marker::Model;
use std::sync::Arc;

/// The values of keys in a table.
///
/// Contracts see `entries`, each key that ever had a value or lost it with what it has now, and as `spare` for how many keys
/// there is room.
#[derive(Drop)]
pub struct Rows {
    opened: OpenedRows,
    /// What keys have that are not in the opening.
    others: IndexMap<Key, Option<Value>>,
}

impl Model for Rows {
    ghost use Rattle.std.specs.Prelude.{◌++◌};
    ghost use Rattle.std.specs.Map.{keys_of};
    ghost use Rattle.dt_table.specs.RowsInner.{RowsView, AreOthers};
    ghost use Rattle.dt_table.specs.TableCode.{rows_view_code};

    ghost Value = { RowsView };

    ghost coded = { rows_view_code };

    ghost use Rattle.indexmap.specs.IndexMap.{spare};

    ghost view = { λ r. record { entries = r.opened ++ r.others.entries; spare = spare r.others } };

    ghost invariant = { λ r. AreOthers (keys_of r.opened) r.others.entries };
}

impl Rows {
    /// These rows, unchanged.
    pub fn of(alloc: Global, rows: &Arc<IndexMap<Key, Value>>) -> Result<Self, NoMemory>
        ensures { IfOk result (λ made. made.entries ≡ first_values rows.now.value.entries) }
    {
        Ok(Rows {
            opened: OpenedRows::of(alloc, rows)?,
            others: IndexMap::new(alloc),
        })
    }

    /// The value of a key. None exactly where it has none.
    pub fn get(&self, key: &Key) -> Option<&Value>
        ensures { option_copied result ≡ unwrap_or (lookup (same_key key.now) self.now.entries) None }
    {
        match self.opened.place_of(key) {
            Some(place) => self.opened.row_at(place).1,
            None => self.others.get(key)?.as_ref(),
        }
    }

    /// The same key, with a hint by which its row is found soon.
    pub fn hinted(&self, key: Key) -> Key
        ensures { result ≡ key }
    {
        self.opened.hinted(key)
    }

    /// Whether a key has a value.
    pub fn has_value(&self, key: &Key) -> bool
        ensures { result ≡ has_value self.now.entries key.now }
    {
        self.get(key).is_some()
    }

    /// Makes room for n keys. Nothing else changes, whatever the answer.
    pub fn reserve(&mut self, places: usize) -> Result<(), NoMemory>
        ensures entries { self.new.entries ≡ self.old.entries }
        ensures room { OnOk result (places ≤ self.new.spare) }
        ensures spare { self.old.spare ≤ self.new.spare }
        ensures succeeds { places ≤ self.old.spare → IsOk result }
    {
        self.others.reserve(places)?;
        Ok(())
    }

    /// Gives a key its value or none, which takes no memory where there is room.
    pub fn put(&mut self, key: Key, value: Option<Value>)
        requires { 0 < self.old.spare }
        ensures entries { from_entries {R = slice_cmp nat_cmp} self.new.entries ≡ insert (from_entries self.old.entries) key value }
        ensures room { self.old.spare ≤ self.new.spare + 1 }
    {
        if let Some(place) = self.opened.place_of(&key) {
            self.opened.change(place, value);
            return;
        }
        match self.others.insert(key, value) {
            Ok(_) => (),
            Err(_) => unreachable!(),
        }
    }

    /// The keys that have a value.
    pub fn keys_with_value(&self, alloc: Global) -> Result<Vec<Key>, NoMemory>
        ensures keys { IfOk result (λ keys. keys.items ≡ keys_with_value self.now.entries) }
        ensures once { OnOk result (IsDistinct same_key (keys_of self.now.entries)) }
    {
        let mut keys = self.opened.keys_with_value(alloc)?;
        add_keys(alloc, &mut keys, &self.others)?;
        Ok(keys)
    }
}

/// The values that keys have before any transaction.
pub fn opening_values(
    alloc: Global,
    rows: &[(Key, Value)],
) -> Result<IndexMap<Key, Value>, NoMemory>
    requires { HasDistinctKeys rows.now }
    ensures { IfOk result (λ opened. opened.entries ≡ rows.now) }
{
    let mut opened = IndexMap::with_capacity(alloc, rows.len())?;
    for (key, value) in rows {
        opened.insert(key.copy(alloc)?, value.copy(alloc)?)?;
    }
    Ok(opened)
}

/// Adds the keys that have a value among these.
fn add_keys(
    alloc: Global,
    keys: &mut Vec<Key>,
    values: &IndexMap<Key, Option<Value>>,
) -> Result<(), NoMemory>
    ensures keys { OnOk result (keys.new.items ≡ keys.old.items ++ keys_with_value values.now.entries) }
    ensures once { OnOk result (IsDistinct same_key (keys_of values.now.entries)) }
{
    for (key, value) in values {
        if value.is_some() {
            keys.push(key.copy(alloc)?)?;
        }
    }
    Ok(())
}

//! The rows of the opening, which the tables of several regions share, and beside each what this table has changed of it.
ghost use Rattle.std.specs.Prelude.{◌≡◌, ◌<◌, IfOk, OnOk, Some, length, position, replicate, slice_get};
ghost use Rattle.std.specs.Option.{option_copied};
ghost use Rattle.std.specs.List.{IsDistinct};
ghost use Rattle.std.specs.Map.{keys_of};
ghost use Rattle.indexmap.specs.IndexMap.{set_value_at};
ghost use Rattle.dt_access.specs.Clash.{same_key};
ghost use Rattle.dt_table.specs.RowsInner.{first_values};
ghost use Rattle.dt_table.specs.StoredUnitInner.{keys_with_value};
ghost use Rattle.dt_table.specs.declared.opened.Kept.TheVariants.{AsOpened};

use dt_text::{Key, NoMemory, Value};
use indexmap::IndexMap;
use std::alloc::Global;
use std::marker::Model;
use std::sync::Arc;

/// What a table keeps of a row of the opening.
#[derive(Drop)]
pub enum Kept {
    /// It has its value of the opening.
    AsOpened,
    /// It has changed, to this value or none.
    Now(Option<Value>),
}

/// The rows of the opening in a table.
///
/// Contracts see each of their keys with what it has now, in the order of the opening.
#[derive(Drop)]
pub struct OpenedRows {
    opening: Arc<IndexMap<Key, Value>>,
    /// What is kept of each row, by its place in the opening.
    kept: Vec<Kept>,
}

impl Model for OpenedRows {
    ghost use Rattle.dt_table.specs.RowsInner.{KeyValues, rows_now, AreOpened};

    ghost Value = { KeyValues };

    ghost view = { λ r. rows_now r.opening.value.entries r.kept.items };

    ghost invariant = { λ r. AreOpened r.opening.value.entries r.kept.items };
}

impl OpenedRows {
    /// These rows, unchanged.
    pub fn of(alloc: Global, rows: &Arc<IndexMap<Key, Value>>) -> Result<Self, NoMemory>
        ensures { IfOk result (λ made. made ≡ first_values rows.now.value.entries) }
    {
        Ok(OpenedRows {
            opening: Arc::try_clone(rows)?,
            kept: all_as_opened(alloc, rows.len())?,
        })
    }

    /// The place of a key in the opening, if it is there. Where the key's hint leads to it, the key is not hashed.
    pub fn place_of(&self, key: &Key) -> Option<usize>
        ensures { result ≡ position (same_key key.now) (keys_of self.now) }
    {
        if let Some(place) = key.hint().checked_sub(1) {
            if let Some((known, _)) = self.opening.get_index(place as usize) {
                if *known == *key {
                    return Some(place as usize);
                }
            }
        }
        self.opening.get_index_of(key)
    }

    /// The key with a hint that leads to its place in the opening, if it has one that 32 bits can tell.
    pub fn hinted(&self, key: Key) -> Key
        ensures { result ≡ key }
    {
        let Some(place) = self.place_of(&key) else {
            return key;
        };
        match u32::try_from(place) {
            Ok(place) if place < u32::MAX => key.with_hint(place + 1),
            _ => key,
        }
    }

    /// The key of the row at a place, and what it has now.
    pub fn row_at(&self, place: usize) -> (&Key, Option<&Value>)
        requires { place < length self.now }
        ensures { slice_get self.now place ≡ Some (result.0.now, option_copied result.1) }
    {
        let Some((key, opened)) = self.opening.get_index(place) else {
            unreachable!();
        };
        match &self.kept[place] {
            Kept::AsOpened => (key, Some(opened)),
            Kept::Now(value) => (key, value.as_ref()),
        }
    }

    /// Gives the row at a place a value or none. Takes no memory.
    pub fn change(&mut self, place: usize, value: Option<Value>)
        requires { place < length self.old }
        ensures { self.new ≡ set_value_at self.old place value }
    {
        self.kept[place] = Kept::Now(value);
    }

    /// The keys of the opening that have a value.
    #[tactic(auto, using(crate::proofs::RowsNow::next_with_value, crate::proofs::RowsNow::next_without_value))]
    pub fn keys_with_value(&self, alloc: Global) -> Result<Vec<Key>, NoMemory>
        ensures keys { IfOk result (λ keys. keys.items ≡ keys_with_value self.now) }
        ensures once { OnOk result (IsDistinct same_key (keys_of self.now)) }
    {
        let mut keys = Vec::new(alloc);
        for place in 0..self.kept.len() {
            let (key, value) = self.row_at(place);
            if value.is_some() {
                keys.push(key.copy(alloc)?)?;
            }
        }
        Ok(keys)
    }
}

/// What is kept of n rows that have not changed.
fn all_as_opened(alloc: Global, rows: usize) -> Result<Vec<Kept>, NoMemory>
    ensures { IfOk result (λ kept. kept.items ≡ replicate rows AsOpened) }
{
    let mut kept = Vec::with_capacity(alloc, rows)?;
    for _place in 0..rows {
        kept.push(Kept::AsOpened)?;
    }
    Ok(kept)
}

ghost use Rattle.std.specs.Prelude.{◌≡◌, ◌+◌, ◌<◌, ◌≤◌, [], ◌∷◌, ◌++◌, is_some, map, OnOk};
ghost use Rattle.std.specs.Option.{option_copied};
ghost use Rattle.std.specs.Map.{lookup};
ghost use Rattle.dt_lists.specs.Lists.{Has};
ghost use Rattle.dt_access.specs.Ids.{same_id};

use dt_access::TxnId;
use dt_index::IdIndex;
use dt_text::NoMemory;
use std::alloc::Global;
use std::marker::Model;

/// Values by the ids of transactions, in the order in which they came. No id stands twice.
///
/// Contracts see the list, and as `spare` how many more can be kept without memory.
#[derive(Drop)]
pub struct ById<V> {
    entries: Vec<(TxnId, V)>,
    /// For each id the place of its entry.
    index: IdIndex,
}

impl<V> Model for ById<V> {
    ghost use Rattle.std.specs.Prelude.{◌-◌, min, vec_capacity, vec_len};
    ghost use Rattle.dt_region.specs.ByIdInner.{ByIdView, LeadsTo};

    ghost Value = { ByIdView V };

    ghost view = { λ b. record { entries = b.entries.items; spare = min (vec_capacity b.entries - vec_len b.entries) b.index.spare } };

    ghost invariant = { λ b. LeadsTo b.index b.entries.items };
}

impl<V> ById<V> {
    /// None yet. Takes no memory.
    pub fn new(alloc: Global) -> Self
        ensures { result.entries ≡ [] }
    {
        ById {
            entries: Vec::new(alloc),
            index: IdIndex::new(alloc),
        }
    }

    /// The value of an id. None exactly where there is none. Takes no memory.
    pub fn get(&self, id: TxnId) -> Option<&V>
        ensures { option_copied result ≡ lookup (same_id id) self.now.entries }
    {
        let place = self.index.get(id)?;
        let (_, value) = &self.entries[place];
        Some(value)
    }

    /// Whether an id has a value. Takes no memory.
    pub fn has(&self, id: TxnId) -> bool
        ensures { result ≡ is_some (lookup (same_id id) self.now.entries) }
    {
        self.get(id).is_some()
    }

    /// Makes room for n more.
    pub fn reserve(&mut self, places: usize) -> Result<(), NoMemory>
        ensures same { self.new.entries ≡ self.old.entries }
        ensures room { OnOk result (places ≤ self.new.spare) }
        ensures spare { self.old.spare ≤ self.new.spare }
    {
        self.entries.reserve(places)?;
        self.index.reserve(places)
    }

    /// Makes room for n more in the list, where so many are expected. The index gets none of it, since it needs room only for ids
    /// that come far out of order.
    pub fn expect(&mut self, values: usize) -> Result<(), NoMemory>
        ensures same { self.new.entries ≡ self.old.entries }
        ensures spare { self.old.spare ≤ self.new.spare }
    {
        self.entries.reserve_exact(values)?;
        Ok(())
    }

    /// Sees to it that an id will be found fast once it has a value. Nothing that contracts see changes.
    pub fn prepare(&mut self, alloc: Global, id: TxnId) -> Result<(), NoMemory>
        ensures { self.new ≡ self.old }
    {
        self.index.prepare(alloc, id)
    }

    /// Keeps the value of an id that has none yet, as the last one. Takes no memory where there is room.
    pub fn add(&mut self, id: TxnId, value: V)
        requires room { 0 < self.old.spare }
        requires waiting { ¬ (Has (map (λ e. e.0) self.old.entries) id) }
        ensures added { self.new.entries ≡ self.old.entries ++ (id, value) ∷ [] }
        ensures room { self.old.spare ≤ self.new.spare + 1 }
    {
        self.index.put(id, self.entries.len());
        self.entries.push_reserved((id, value));
    }
}

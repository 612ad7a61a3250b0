ghost use Rattle.std.specs.Prelude.{◌≡◌, ◌≢◌, ◌+◌, ◌<◌, ◌≤◌, None, Some, IsFalse, IsTrue, OnOk, vec_len};
ghost use Rattle.std.specs.Map.{lookup};
ghost use Rattle.indexmap.specs.IndexMap.{spare};
ghost use Rattle.dt_access.specs.Ids.{same_id};
ghost use Rattle.dt_access.specs.declared.TxnId.{TxnId};
ghost use Rattle.dt_index.specs.Index.{place_listed, place_of};

use crate::places::Places;
use dt_access::TxnId;
use dt_text::NoMemory;
use indexmap::IndexMap;
use std::alloc::Global;
use std::marker::Model;

/// The places of what belongs to ids of transactions. Contracts see the place of each id (`place_of`), and as `spare` how many more
/// ids fit in without taking memory.
#[derive(Drop)]
pub struct IdIndex {
    /// For each region, the places of its ids by their numbers.
    lists: Vec<Places>,
    /// The places of the ids that have none there.
    others: IndexMap<TxnId, usize>,
}

impl Model for IdIndex {
    ghost use Rattle.indexmap.specs.IndexMap.{spare};
    ghost use Rattle.dt_index.specs.Index.{IdIndexView};

    ghost Value = { IdIndexView };

    ghost view = { λ x. record { lists = x.lists.items; others = x.others.entries; spare = spare x.others } };
}

impl IdIndex {
    /// No id has a place. Takes no memory.
    pub fn new(alloc: Global) -> Self
        ensures { (id : TxnId) → place_of result id ≡ None }
    {
        IdIndex {
            lists: Vec::new(alloc),
            others: IndexMap::new(alloc),
        }
    }

    /// The place of an id, if it has one. Takes no memory.
    pub fn get(&self, id: TxnId) -> Option<usize>
        ensures { result ≡ place_of self.now id }
    {
        match listed(self.lists.as_slice(), id) {
            Some(place) => Some(place),
            None => kept_beside(&self.others, id),
        }
    }

    /// Makes room for so many ids more. Each id keeps its place, also after `NoMemory`.
    pub fn reserve(&mut self, ids: usize) -> Result<(), NoMemory>
        ensures same { (id : TxnId) → place_of self.new id ≡ place_of self.old id }
        ensures room { OnOk result (ids ≤ self.new.spare) }
        ensures spare { self.old.spare ≤ self.new.spare }
    {
        self.others.reserve(ids)?;
        Ok(())
    }

    /// Sees to it that an id will be found fast once it has a place, unless it stands far past all of its region. Each id keeps its
    /// place, also after `NoMemory`.
    pub fn prepare(&mut self, alloc: Global, id: TxnId) -> Result<(), NoMemory>
        ensures same { (other : TxnId) → place_of self.new other ≡ place_of self.old other }
        ensures spare { self.new.spare ≡ self.old.spare }
    {
        widen(alloc, &mut self.lists, id.region)?;
        self.lists[id.region as usize].reach(id.seq)
    }

    /// Gives an id this place, whether it had one or not. All other ids keep theirs. Takes no memory.
    pub fn put(&mut self, id: TxnId, place: usize)
        requires room { 0 < self.old.spare }
        ensures put { place_of self.new id ≡ Some place }
        ensures others { (other : TxnId) → other ≢ id → place_of self.new other ≡ place_of self.old other }
        ensures room { self.old.spare ≤ self.new.spare + 1 }
    {
        if !put_listed(&mut self.lists, id, place) {
            put_beside(&mut self.others, id, place);
        }
    }
}

// The place that an id has in the list of its region, if it has one there.
fn listed(lists: &[Places], id: TxnId) -> Option<usize>
    ensures { result ≡ place_listed lists.now id }
{
    lists.get(id.region as usize)?.get(id.seq)
}

// The place that is kept for an id beside the lists, if one is. Mostly none is kept there at all, and then nothing is hashed.
fn kept_beside(others: &IndexMap<TxnId, usize>, id: TxnId) -> Option<usize>
    ensures { result ≡ lookup (same_id id) others.now.entries }
{
    if others.is_empty() {
        return None;
    }
    others.get(&id).copied()
}

// Sees to it that there is a list for a region. Each id keeps its place.
fn widen(alloc: Global, lists: &mut Vec<Places>, region: u8) -> Result<(), NoMemory>
    ensures ok { OnOk result (region < vec_len lists.new) }
    ensures same { (id : TxnId) → place_listed lists.new.items id ≡ place_listed lists.old.items id }
{
    for _region in lists.len()..region as usize + 1 {
        lists.push(Places::new(alloc))?;
    }
    Ok(())
}

// Gives an id this place in the list of its region, if it fits there, and says whether it does; else the id has none there.
fn put_listed(lists: &mut Vec<Places>, id: TxnId, place: usize) -> bool
    ensures put { IsTrue result → place_listed lists.new.items id ≡ Some place }
    ensures none { IsFalse result → place_listed lists.new.items id ≡ None }
    ensures others { (other : TxnId) → other ≢ id → place_listed lists.new.items other ≡ place_listed lists.old.items other }
{
    if id.region as usize >= lists.len() {
        return false;
    }
    lists[id.region as usize].put(id.seq, place)
}

// Keeps the place of an id beside the lists, where there is room. Takes no memory.
fn put_beside(others: &mut IndexMap<TxnId, usize>, id: TxnId, place: usize)
    requires { 0 < spare others.old }
    ensures put { lookup (same_id id) others.new.entries ≡ Some place }
    ensures others { (other : TxnId) → other ≢ id → lookup (same_id other) others.new.entries ≡ lookup (same_id other) others.old.entries }
    ensures room { spare others.old ≤ spare others.new + 1 }
{
    match others.insert(id, place) {
        Ok(_) => (),
        Err(_) => unreachable!(),
    }
}

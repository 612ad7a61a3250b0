ghost use Rattle.std.specs.Prelude.{◌≡◌, ◌+◌, ◌<◌, ◌^◌, [], ◌∷◌, ◌++◌, OnOk, length};
ghost use Rattle.dt_lists.specs.Lists.{Has, Distinct};
ghost use Rattle.dt_graph.specs.NamesInner.{HasRoomForId};
ghost use Rattle.dt_graph.specs.SubsetInner.{StandsAtPlace};
ghost use Rattle.dt_waits.specs.Waits.{id_at};

use crate::room::push_reserved;
use dt_access::TxnId;
use dt_index::IdIndex;
use dt_text::NoMemory;
use std::alloc::Global;
use std::marker::Model;

/// The ids of the vertices: each has the number of its first part among those of all ids, from 0.
#[derive(Drop)]
pub struct Names {
    ids: Vec<TxnId>,
    /// Where each id stands among them.
    index: IdIndex,
}

impl Model for Names {
    ghost use Rattle.std.specs.Prelude.{◌-◌, vec_capacity, vec_len};
    ghost use Rattle.dt_index.specs.Index.{place_of};
    ghost use Rattle.dt_graph.specs.NamesInner.{AreIdsNumbered, NamesView};

    ghost Value = { NamesView };

    ghost view = { λ n. record { ids = n.ids.items; room = vec_capacity n.ids - vec_len n.ids; spare = n.index.spare } };

    ghost invariant = { λ n. AreIdsNumbered n.ids.items (place_of n.index) };
}

impl Names {
    /// No id has a number. Takes no memory.
    pub fn new(alloc: Global) -> Self
        ensures { result.ids ≡ [] }
    {
        Names {
            ids: Vec::new(alloc),
            index: IdIndex::new(alloc),
        }
    }

    /// Makes room for one more id, which is this one.
    pub fn reserve(&mut self, alloc: Global, id: TxnId) -> Result<(), NoMemory>
        ensures room { OnOk result (HasRoomForId self.new) }
        ensures same { self.new.ids ≡ self.old.ids }
    {
        self.ids.reserve(1)?;
        self.index.reserve(1)?;
        self.index.prepare(alloc, id)
    }

    /// The number of an id, if it has one.
    pub fn number_of(&self, id: TxnId) -> Option<u32>
        ensures number { StandsAtPlace self.now.ids id result }
        ensures once { Distinct self.now.ids }
    {
        let number = self.index.get(id)?;
        Some(number as u32)
    }

    /// The id of a number.
    pub fn id_of(&self, number: u32) -> TxnId
        requires { number < length self.now.ids }
        ensures { result ≡ id_at self.now.ids number }
    {
        self.ids[number as usize]
    }

    /// Gives an id the next number. Takes no memory.
    pub fn add(&mut self, id: TxnId)
        requires fresh { ¬ (Has self.old.ids id) }
        requires few { length self.old.ids + 1 < 2 ^ 32 }
        requires room { HasRoomForId self.old }
        ensures { self.new.ids ≡ self.old.ids ++ id ∷ [] }
    {
        let number = self.ids.len();
        push_reserved(&mut self.ids, id);
        self.index.put(id, number);
    }
}

ghost use Rattle.std.specs.Prelude.{◌≡◌, ◌||◌, [], not, IfOk, OnOk};
ghost use Rattle.dt_access.specs.Ids.{same_id};
ghost use Rattle.dt_access.specs.declared.TxnId.{TxnId};
ghost use Rattle.dt_world.specs.MarksInner.{AreMarkedIds, is_marked};

use dt_access::TxnId;
use dt_index::IdIndex;
use dt_text::NoMemory;
use std::alloc::Global;
use std::marker::Model;

/// Which ids are marked: those that have a place in an index, whatever the place.
#[derive(Drop)]
pub struct Marks {
    alloc: Global,
    index: IdIndex,
}

impl Model for Marks {
    ghost use Rattle.dt_index.specs.Index.{IdIndexView};

    ghost Value = { IdIndexView };

    ghost view = { λ m. m.index };
}

impl Marks {
    /// None. Takes no memory.
    pub fn new(alloc: Global) -> Self
        ensures { AreMarkedIds result [] }
    {
        Marks {
            alloc,
            index: IdIndex::new(alloc),
        }
    }

    /// Marks an id. Whether it was not marked before.
    pub fn mark(&mut self, id: TxnId) -> Result<bool, NoMemory>
        ensures first { IfOk result (λ first. first ≡ not (is_marked self.old id)) }
        ensures marks { OnOk result ((other : TxnId) → is_marked self.new other ≡ (same_id other id || is_marked self.old other)) }
    {
        if self.index.get(id).is_some() {
            return Ok(false);
        }
        self.index.prepare(self.alloc, id)?;
        self.index.reserve(1)?;
        self.index.put(id, 0);
        Ok(true)
    }
}

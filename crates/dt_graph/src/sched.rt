use crate::graph::Graph;
use crate::seen::{Change, Seen};
use dt_access::{Ids, Part, TxnId};
use dt_sched::Scheduler;
use dt_text::NoMemory;
use std::alloc::Global;
use std::marker::Model;

/// The scheduler that answers from what is left in the graph. What was inserted, resolved and done is kept for contracts alone,
/// and takes no memory.
#[derive(Drop)]
pub struct QueueSched {
    seen: Seen,
    graph: Graph,
}

impl Model for QueueSched {
    ghost use Rattle.dt_sched.specs.Sched.{Sched};
    ghost use Rattle.dt_waits.specs.Graph.{IsKeeping};

    ghost Value = { Sched };

    ghost view = { λ s. s.seen.sched };

    ghost invariant = { λ s. IsKeeping s.seen.sched s.graph };
}

impl Scheduler for QueueSched {
    ghost seen = { λ s. s };

    /// It never needs memory to finish an id.
    ghost spare = { λ _. 18446744073709551615 };

    fn empty(alloc: Global, regions: u8) -> Result<Self, NoMemory> {
        Ok(QueueSched {
            seen: Seen::nothing(regions),
            graph: Graph::new(alloc),
        })
    }

    fn insert(&mut self, alloc: Global, part: &Part) -> Result<(), NoMemory> {
        self.graph.insert(alloc, part)?;
        self.seen = self.seen.after(&Change::Inserted(part));
        Ok(())
    }

    fn executable(&self, _alloc: Global, id: TxnId) -> Result<bool, NoMemory> {
        Ok(self.graph.is_ready(id))
    }

    fn next_ready(&self, _alloc: Global, busy: &[TxnId]) -> Result<Option<TxnId>, NoMemory> {
        Ok(self.graph.ready_beside(busy))
    }

    fn resolvable(&self, alloc: Global, ids: &[TxnId]) -> Result<bool, NoMemory> {
        self.graph.is_class(alloc, ids)
    }

    fn next_class(&self, alloc: Global) -> Result<Option<Ids>, NoMemory> {
        self.graph.some_class(alloc)
    }

    fn resolve(&mut self, alloc: Global, ids: &[TxnId]) -> Result<(), NoMemory> {
        self.graph.resolve(alloc, ids)?;
        self.seen = self.seen.after(&Change::Resolved(ids));
        Ok(())
    }

    fn reserve(&mut self, _alloc: Global, _places: usize) -> Result<(), NoMemory> {
        Ok(())
    }

    fn finish(&mut self, id: TxnId) {
        self.graph.finish(id);
        self.seen = self.seen.after(&Change::Finished(id));
    }
}

ghost use Rattle.std.specs.Prelude.{◌≡◌, [], IfOk, replicate};

use crate::decide::{is_executable, is_resolvable, next_class, next_ready};
use crate::graph::Graph;
use dt_access::{Ids, Part, TxnId};
use dt_sched::Scheduler;
use dt_text::{Listed, NoMemory};
use std::alloc::Global;
use std::marker::Model;

/// The scheduler that is the definitions' own program: it keeps all inserted parts, all resolved classes and all done
/// ids, and for each answer it gathers the edges between the parts anew and follows them.
#[derive(Drop)]
pub struct PlainSched {
    logs: Vec<Listed<Part>>,
    resolved: Vec<Ids>,
    done: Vec<TxnId>,
}

impl Model for PlainSched {
    ghost use Rattle.std.specs.Prelude.{◌-◌, vec_len, vec_capacity};
    ghost use Rattle.dt_plain.specs.PlainSchedView.{PlainSchedView};

    ghost Value = { PlainSchedView };

    ghost view = { λ s. record { seen = record { logs = s.logs.items; resolved = s.resolved.items; done = s.done.items }; spare = vec_capacity s.done - vec_len s.done } };
}

/// An empty log for each region.
pub fn empty_logs(alloc: Global, regions: u8) -> Result<Vec<Listed<Part>>, NoMemory>
    ensures { IfOk result (λ logs. logs.items ≡ replicate regions []) }
{
    let mut logs = Vec::new(alloc);
    for _region in 0..regions {
        logs.push(Listed::new(alloc))?;
    }
    Ok(logs)
}

impl Scheduler for PlainSched {
    ghost seen = { λ s. s.seen };

    ghost spare = { λ s. s.spare };

    fn empty(alloc: Global, regions: u8) -> Result<Self, NoMemory> {
        Ok(PlainSched {
            logs: empty_logs(alloc, regions)?,
            resolved: Vec::new(alloc),
            done: Vec::new(alloc),
        })
    }

    fn insert(&mut self, alloc: Global, part: &Part) -> Result<(), NoMemory> {
        let log = &mut self.logs[part.home as usize];
        log.push(part.copy(alloc)?)
    }

    fn executable(&self, alloc: Global, id: TxnId) -> Result<bool, NoMemory> {
        let graph = Graph::of(alloc, self.logs.as_slice())?;
        is_executable(
            alloc,
            &graph,
            self.resolved.as_slice(),
            self.done.as_slice(),
            id,
        )
    }

    fn next_ready(&self, alloc: Global, busy: &[TxnId]) -> Result<Option<TxnId>, NoMemory> {
        let graph = Graph::of(alloc, self.logs.as_slice())?;
        next_ready(
            alloc,
            &graph,
            self.resolved.as_slice(),
            self.done.as_slice(),
            busy,
        )
    }

    fn resolvable(&self, alloc: Global, ids: &[TxnId]) -> Result<bool, NoMemory> {
        let graph = Graph::of(alloc, self.logs.as_slice())?;
        is_resolvable(
            alloc,
            &graph,
            self.resolved.as_slice(),
            self.done.as_slice(),
            ids,
        )
    }

    fn next_class(&self, alloc: Global) -> Result<Option<Ids>, NoMemory> {
        let graph = Graph::of(alloc, self.logs.as_slice())?;
        next_class(
            alloc,
            &graph,
            self.resolved.as_slice(),
            self.done.as_slice(),
        )
    }

    fn resolve(&mut self, alloc: Global, ids: &[TxnId]) -> Result<(), NoMemory> {
        let class = Ids::from_vec(Vec::from_slice(alloc, ids)?);
        self.resolved.push(class)?;
        Ok(())
    }

    fn reserve(&mut self, _alloc: Global, places: usize) -> Result<(), NoMemory> {
        self.done.reserve(places)?;
        Ok(())
    }

    fn finish(&mut self, id: TxnId) {
        if self.done.push(id).is_err() {
            unreachable!()
        }
    }
}

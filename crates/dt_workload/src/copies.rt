ghost use Rattle.std.specs.Prelude.{◌≡◌, IfOk};

use crate::workload::{Ranked, Session, Wanted, Workload};
use dt_access::TryCopy;
use dt_text::NoMemory;
use std::alloc::Global;

impl Wanted {
    /// An equal call or move.
    pub fn copy(&self, alloc: Global) -> Result<Self, NoMemory>
        ensures { IfOk result (λ copied. copied ≡ self.now) }
    {
        match self {
            Wanted::Call(proc, args) => Ok(Wanted::Call(*proc, args.copy(alloc)?)),
            Wanted::Move(key, target) => Ok(Wanted::Move(key.copy(alloc)?, *target)),
        }
    }
}

impl Ranked {
    /// An equal call or move of the same rank.
    pub fn copy(&self, alloc: Global) -> Result<Self, NoMemory>
        ensures { IfOk result (λ copied. copied ≡ self.now) }
    {
        Ok(Ranked {
            rank: self.rank,
            wanted: self.wanted.copy(alloc)?,
        })
    }
}

impl TryCopy for Ranked {
    fn copy(&self, alloc: Global) -> Result<Self, NoMemory> {
        Ranked::copy(self, alloc)
    }
}

impl Session {
    /// An equal session.
    pub fn copy(&self, alloc: Global) -> Result<Self, NoMemory>
        ensures { IfOk result (λ copied. copied ≡ self.now) }
    {
        Ok(Session {
            name: self.name.copy(alloc)?,
            region: self.region,
            calls: self.calls.copy(alloc)?,
        })
    }
}

impl TryCopy for Session {
    fn copy(&self, alloc: Global) -> Result<Self, NoMemory> {
        Session::copy(self, alloc)
    }
}

impl Workload {
    /// An equal workload.
    pub fn copy(&self, alloc: Global) -> Result<Self, NoMemory>
        ensures { IfOk result (λ copied. copied ≡ self.now) }
    {
        Ok(Workload {
            sessions: self.sessions.copy(alloc)?,
        })
    }
}

ghost use Rattle.std.specs.Prelude.{OnOk};
ghost use Rattle.dt_txn.specs.Replica.{IsDrained};
ghost use Rattle.dt_region.specs.Region.{RegionView};
ghost use Rattle.dt_region.specs.Rounds.{CanRound, Continues};

use crate::region::Region;
use dt_proc::Procs;
use dt_sched::Scheduler;
use dt_text::NoMemory;
use std::alloc::Global;

/// What is seen as a region: the clauses of [`Rounds`] speak of it.
pub trait Rounded {
    ghost seen: { Self → RegionView };
}

impl<S: Scheduler> Rounded for Region<S> {
    ghost seen = { λ region. region };
}

/// What makes rounds of a region `T`.
pub trait Rounds<T: Rounded> {
    /// It is in a state to make rounds.
    ghost ready: { Self → Type 0 };

    /// Inserts, resolves and executes, by these procedures, until nothing is left. After `NoMemory` it has stopped somewhere
    /// on the way.
    fn round(&self, alloc: Global, region: &mut T, procs: &Procs) -> Result<(), NoMemory>
        requires ready { ready self.now }
        requires can { CanRound procs.now (T.seen region.old) }
        ensures continues { Continues procs.now (T.seen region.old) (T.seen region.new) }
        ensures drained { OnOk result (IsDrained (T.seen region.new).state.logs (T.seen region.new).state.here) };
}

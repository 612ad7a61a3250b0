ghost use Rattle.std.specs.Prelude.{OnOk};

use dt_proc::Procs;
use dt_region::{Rounded, Rounds};
use dt_text::NoMemory;
use std::alloc::Global;

/// Makes rounds by a closure that makes one: so a caller can pass a round by threads, with a runtime, a gate and a number of
/// workers of its own.
#[derive(Drop)]
pub struct By<F> {
    pub by: F,
}

impl<T: Rounded, F: Fn(Global, &mut T, &Procs) -> Result<(), NoMemory>> Rounds<T> for By<F> {
    ghost use Rattle.std.specs.Borrow.{Bor, MutBor};
    ghost use Rattle.std.specs.Prelude.{List};
    ghost use Rattle.dt_proc.specs.Tree.{ProcTree};
    ghost use Rattle.dt_txn.specs.Replica.{IsDrained};
    ghost use Rattle.dt_region.specs.Rounds.{CanRound, Continues};

    ghost ready = { λ b. ((a : _) (x : MutBor T) (p : Bor (List ProcTree)) → CanRound p.now (T.seen x.now) → F.pre b.by a x p)
        × ((a : _) (x y : MutBor T) (p : Bor (List ProcTree)) (r : _) → F.post b.by a x p r y
        → Continues p.now (T.seen x.now) (T.seen y.now) × OnOk r (IsDrained (T.seen y.now).state.logs (T.seen y.now).state.here)) };

    fn round(&self, alloc: Global, region: &mut T, procs: &Procs) -> Result<(), NoMemory> {
        (self.by)(alloc, region, procs)
    }
}

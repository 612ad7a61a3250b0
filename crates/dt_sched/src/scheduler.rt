ghost use Rattle.std.specs.Prelude.{◌≡◌, ◌+◌, ◌≤◌, ◌↔◌, ℕ, IsTrue, IfOk, OnOk, OnErr};
ghost use Rattle.dt_access.specs.Ids.{AreAscending};
ghost use Rattle.dt_sched.specs.Sched.{Sched, nothing_yet, CanInsert, after_insert, after_resolve, after_finish, CanExecute, CanResolve, IsNextReady, IsNextClass};

use dt_access::{Ids, Part, TxnId};
use dt_text::NoMemory;
use std::alloc::Global;

/// What decides, from the parts that a region has inserted, what the region may execute and resolve.
///
/// It is seen as the inserted parts of each log, the resolved classes, the done ids, and beside them a number
/// `spare` of ids that can be finished without taking memory. After `NoMemory` it is as before.
pub trait Scheduler: Sized {
    ghost seen: { Self → Sched };

    ghost spare: { Self → ℕ };

    /// A scheduler for n regions, with nothing inserted, resolved or done.
    fn empty(alloc: Global, regions: u8) -> Result<Self, NoMemory>
        ensures { IfOk result (λ s. seen s ≡ nothing_yet regions) };

    /// Adds the part at the back of the log of its home.
    fn insert(&mut self, alloc: Global, part: &Part) -> Result<(), NoMemory>
        requires { CanInsert (seen self.old).logs part.now }
        ensures ok { OnOk result (seen self.new ≡ after_insert (seen self.old) part.now) }
        ensures err { OnErr result (seen self.new ≡ seen self.old) }
        ensures spare { spare self.old ≤ spare self.new };

    /// Whether the id may be executed now.
    fn executable(&self, alloc: Global, id: TxnId) -> Result<bool, NoMemory>
        ensures { IfOk result (λ b. IsTrue b ↔ CanExecute (seen self.now) id) };

    /// Some id that may be executed now and isn't among the busy ones, or `None` where there is none.
    fn next_ready(&self, alloc: Global, busy: &[TxnId]) -> Result<Option<TxnId>, NoMemory>
        ensures { IfOk result (IsNextReady (seen self.now) busy.now) };

    /// Whether the ids are a class that may be resolved now.
    fn resolvable(&self, alloc: Global, ids: &[TxnId]) -> Result<bool, NoMemory>
        requires { AreAscending ids.now }
        ensures { IfOk result (λ b. IsTrue b ↔ CanResolve (seen self.now) ids.now) };

    /// Some class that may be resolved now, in ascending order, or `None` where there is none.
    fn next_class(&self, alloc: Global) -> Result<Option<Ids>, NoMemory>
        ensures { IfOk result (IsNextClass (seen self.now)) };

    /// Adds the class to those that are resolved.
    fn resolve(&mut self, alloc: Global, ids: &[TxnId]) -> Result<(), NoMemory>
        requires { CanResolve (seen self.old) ids.now }
        ensures ok { OnOk result (seen self.new ≡ after_resolve (seen self.old) ids.now) }
        ensures err { OnErr result (seen self.new ≡ seen self.old) }
        ensures spare { spare self.old ≤ spare self.new };

    /// Makes room for at least n calls of `finish`. Nothing else changes.
    fn reserve(&mut self, alloc: Global, places: usize) -> Result<(), NoMemory>
        ensures room { OnOk result (places ≤ spare self.new) }
        ensures same { seen self.new ≡ seen self.old }
        ensures spare { spare self.old ≤ spare self.new };

    /// Adds the id to those that are done. Takes no memory.
    fn finish(&mut self, id: TxnId)
        requires executable { CanExecute (seen self.old) id }
        requires room { 1 ≤ spare self.old }
        ensures done { seen self.new ≡ after_finish (seen self.old) id }
        ensures spare { spare self.old ≤ spare self.new + 1 };
}

ghost use Rattle.std.specs.Prelude.{◌≡◌, ◌≢◌, ◌↔◌, ◌<◌, ◌+◌, ◌^◌, [], length, map, max, slice_index, vec_len, vec_capacity, Some, IsTrue, IfOk, IfErr, OnErr, OnOk};
ghost use Rattle.dt_events.specs.declared.Event.TheVariants.{Insert};
ghost use Rattle.dt_sched.specs.Sched.{CanExecute, IsNextClass};
ghost use Rattle.dt_txn.specs.Execution.{see};
ghost use Rattle.dt_sched.specs.Views.{log_at};
ghost use Rattle.dt_txn.specs.Transaction.{used_of};
ghost use Rattle.dt_region.specs.Region.{held, sched_of};
ghost use Rattle.dt_region.specs.Rules.{MakesStep};
ghost use Rattle.dt_region.specs.Rounds.{CanRound};
ghost use Rattle.dt_region.specs.Underway.{IsUnderway};
ghost use Rattle.dt_lock.specs.Claims.{IsClaim};
ghost use Rattle.dt_lock.specs.Held.{ClaimsSome, Commits, GivesBack, IsBusy, IsClaimed, IsNextFree, ResolvesSome, uses_held};

use crate::claim::{Claim, Finished};
use crate::clashes::clash;
use crate::named::Named;
use crate::running::{Running, is_running, note, take_off};
use dt_access::{Access, Ids, TryCopy, TxnId};
use dt_region::Region;
use dt_sched::Scheduler;
use dt_text::NoMemory;
use dt_txn::{Seens, Txn, see};
use std::alloc::Global;
use std::marker::{Model, PhantomData};

/// A region behind its lock, in the round that `N` names, with the claims that are running.
///
/// Contracts see both. Its type keeps what `IsHeld` says: the region has gone on from the named one by legal steps of its own;
/// what is running may be executed now and saw what the rows still are; no two that are running touch each other; and there is
/// room to commit all of them.
#[derive(Drop)]
pub struct Held<S: Scheduler, N: Named> {
    region: Region<S>,
    running: Vec<Running>,
    of: PhantomData<N>,
}

impl<S: Scheduler, N: Named> Model for Held<S, N> {
    ghost use Rattle.dt_lock.specs.Held.{HeldView, IsHeld};
    ghost use Rattle.dt_lock.specs.HeldCode.{held_code};

    ghost Value = { HeldView };

    ghost coded = { held_code };

    ghost view = { λ h. record { region = h.region; running = h.running.items } };

    ghost invariant = { λ h. IsHeld N.procs N.before (record { region = h.region; running = h.running.items }) };
}

impl<S: Scheduler, N: Named> Held<S, N> {
    /// Puts the region that `N` names behind the lock, where it may make a round. Nothing is running. Takes no memory.
    pub fn enter(alloc: Global, region: Region<S>) -> Self
        requires region { region ≡ N.before }
        requires can { CanRound N.procs N.before }
        ensures { result ≡ record { region = N.before; running = [] } }
    {
        let _regions = region.regions();
        Held {
            region,
            running: Vec::new(alloc),
            of: PhantomData,
        }
    }

    /// Gives the region back. It hands itself back exactly where a claim is running. Takes no memory.
    pub fn leave(self) -> Result<Region<S>, Held<S, N>>
        ensures left { IfOk result (λ region. (self.running ≡ []) × (region ≡ self.region)) }
        ensures underway { IfOk result (λ region. IsUnderway N.procs N.before region) }
        ensures back { IfErr result (λ held. (self.running ≢ []) × (held ≡ self)) }
    {
        if !self.running.is_empty() {
            return Err(self);
        }
        let Held {
            region,
            running: _,
            of: _,
        } = self;
        Ok(region)
    }

    /// How many regions there are. Takes no memory.
    pub fn regions(&self) -> u8
        ensures { result ≡ N.before.state.regions }
    {
        self.region.regions()
    }

    // Some class that is resolvable, or `None` where there is none.
    pub(crate) fn next_class(&self, alloc: Global) -> Result<Option<Ids>, NoMemory>
        ensures { IfOk result (IsNextClass (sched_of self.now.region.state.logs self.now.region.state.here)) }
    {
        self.region.next_class(alloc)
    }

    // Whether some part of a home's log is still to be inserted.
    pub(crate) fn lacks(&self, home: u8) -> bool
        requires { home < N.before.state.regions }
        ensures { IsTrue result ↔ slice_index self.now.region.state.here.inserted home < length (log_at self.now.region.state.logs home) }
    {
        self.region.inserted(home) < self.region.log(home).len()
    }

    // A round has no more steps than these: each inserts a part of some log, resolves a class of such or executes one.
    pub(crate) fn most_steps(&self) -> u64 {
        let mut parts: u64 = 0;
        for home in 0..self.region.regions() {
            parts = parts.saturating_add(u64::from(self.region.log(home).len()));
        }
        parts.saturating_mul(3)
    }

    /// Inserts the next part of a home's log, as the region's call of this name.
    pub fn insert(&mut self, alloc: Global, home: u8) -> Result<bool, NoMemory>
        requires home { home < N.before.state.regions }
        ensures makes { MakesStep [] self.old.region (Insert self.old.region.state.number home) result self.new.region }
        ensures running { self.new.running ≡ self.old.running }
    {
        self.region.insert(alloc, home)
    }

    /// Resolves some class that is resolvable, and gives it. `None` exactly where there is none; then nothing changes, and
    /// neither does after `NoMemory`.
    pub fn resolve(&mut self, alloc: Global) -> Result<Option<Ids>, NoMemory>
        ensures makes { ResolvesSome self.old.region result self.new.region }
        ensures running { self.new.running ≡ self.old.running }
    {
        let Some(ids) = self.region.next_class(alloc)? else {
            return Ok(None);
        };
        self.region.resolve(alloc, ids.as_slice())?;
        Ok(Some(ids))
    }

    /// Claims a transaction that is executable, isn't running, and whose access list clashes with that of no running claim; all
    /// memory that its commit needs is taken now. `None` exactly where there is none; then nothing changes, and neither does
    /// after `NoMemory`.
    pub fn claim(&mut self, alloc: Global) -> Result<Option<Claim<N>>, NoMemory>
        ensures { ClaimsSome N.before.state self.old result self.new }
    {
        match self.next_free(alloc)? {
            Some(id) => Ok(Some(self.claim_id(alloc, id)?)),
            None => Ok(None),
        }
    }

    // Some id that is executable and isn't busy, or `None` where there is none.
    fn next_free(&self, alloc: Global) -> Result<Option<TxnId>, NoMemory>
        ensures { IfOk result (IsNextFree N.before.state self.now) }
    {
        let mut busy = Vec::new(alloc);
        'ids: loop {
            let Some(id) = self.region.ready(alloc, busy.as_slice())? else {
                return Ok(None);
            };
            if !self.is_busy(id) {
                return Ok(Some(id));
            }
            busy.push(id)?;
        }
    }

    // Whether an id is running, or clashes with a running claim.
    fn is_busy(&self, id: TxnId) -> bool
        ensures { IsTrue result ↔ IsBusy N.before.state self.now.running id }
    {
        for running in self.running.as_slice() {
            if running.id == id || clash(self.access(running.id), self.access(id)) {
                return true;
            }
        }
        false
    }

    // The access list of the transaction that the region holds under an id; none where it holds none.
    fn access(&self, id: TxnId) -> &[Access]
        ensures { map used_of result.now ≡ uses_held (held N.before.state id) }
    {
        match self.region.txn(id) {
            Some(txn) => txn.access.as_slice(),
            None => &[],
        }
    }

    // Claims an id that is executable and isn't busy.
    fn claim_id(&mut self, alloc: Global, id: TxnId) -> Result<Claim<N>, NoMemory>
        requires executable { CanExecute (sched_of self.old.region.state.logs self.old.region.state.here) id }
        requires free { ¬ (IsBusy N.before.state self.old.running id) }
        ensures ok { IfOk result (λ claim. IsClaimed self.old claim self.new) }
        ensures id { IfOk result (λ claim. claim.txn.id ≡ id) }
        ensures err { OnErr result (self.new ≡ self.old) }
    {
        let (txn, seen) = self.sight(alloc, id)?;
        self.note_sight(alloc, id, &txn, &seen)?;
        Ok(Claim::new(txn, seen))
    }

    // Notes as running an id that is executable and isn't busy, with what its transaction sees.
    fn note_sight(
        &mut self,
        alloc: Global,
        id: TxnId,
        txn: &Txn,
        seen: &Seens,
    ) -> Result<(), NoMemory>
        requires executable { CanExecute (sched_of self.old.region.state.logs self.old.region.state.here) id }
        requires free { ¬ (IsBusy N.before.state self.old.running id) }
        requires held { held N.before.state id ≡ Some txn.now }
        requires seen { seen.now ≡ see txn.now self.old.region.state.here.table }
        ensures claim { OnOk result (IsClaim N.procs N.before.state (record { txn = txn.now; seen = seen.now })) }
        ensures ok { OnOk result (IsClaimed self.old (record { txn = txn.now; seen = seen.now }) self.new) }
        ensures err { OnErr result (self.new ≡ self.old) }
    {
        let noted = seen.copy(alloc)?;
        make_room(alloc, &mut self.region, &mut self.running, id)?;
        note(&mut self.running, Running { id, seen: noted });
        Ok(())
    }

    // A copy of the transaction of an id that is executable, and what it sees.
    fn sight(&self, alloc: Global, id: TxnId) -> Result<(Txn, Seens), NoMemory>
        requires { CanExecute (sched_of self.now.region.state.logs self.now.region.state.here) id }
        ensures held { IfOk result (λ sight. held N.before.state id ≡ Some sight.0) }
        ensures seen { IfOk result (λ sight. sight.1 ≡ see sight.0 self.now.region.state.here.table) }
    {
        match self.region.txn(id) {
            Some(txn) => Ok((txn.copy(alloc)?, see(alloc, txn, self.region.table())?)),
            None => unreachable!(),
        }
    }

    /// Commits what a worker brings back: the transaction is executed, and its event kept. True exactly where a running claim
    /// equals that of what is finished; otherwise nothing changes. Takes no memory.
    pub fn commit(&mut self, finished: Finished<N>) -> bool
        ensures { Commits N.procs self.old finished result self.new }
    {
        let id = finished.id();
        if !is_running(self.running.as_slice(), id, finished.seen()) {
            return false;
        }
        take_off(&mut self.running, id);
        let (outcome, effect) = finished.into_run();
        self.region.finish(id, outcome, effect);
        true
    }

    /// Takes back a claim that is not computed: an equal one that is running is taken off. Takes no memory.
    pub fn give_back(&mut self, claim: Claim<N>)
        ensures { GivesBack self.old claim self.new }
    {
        self.take_back(&claim);
    }

    // Takes off what is running of a claim, if anything is.
    fn take_back(&mut self, claim: &Claim<N>)
        ensures { GivesBack self.old claim.now self.new }
    {
        let id = claim.id();
        if !is_running(self.running.as_slice(), id, claim.seen()) {
            return;
        }
        take_off(&mut self.running, id);
    }

    /// Takes off every running claim, so that the region can leave. Takes no memory.
    pub fn cancel(&mut self)
        ensures { self.new ≡ record self.old { running = [] } }
    {
        self.running.clear();
    }
}

// Sees to it that the claim of one id more can be noted and committed.
fn make_room<S: Scheduler>(
    alloc: Global,
    region: &mut Region<S>,
    running: &mut Vec<Running>,
    id: TxnId,
) -> Result<(), NoMemory>
    requires { length running.old.items + 1 < 2 ^ 32 }
    ensures ok { OnOk result (region.new ≡ record region.old { room = max region.old.room (length running.old.items + 1) }) }
    ensures err { OnErr result (region.new ≡ region.old) }
    ensures noted { running.new.items ≡ running.old.items }
    ensures place { OnOk result (vec_len running.new < vec_capacity running.new) }
{
    running.reserve(1)?;
    let runs = running.len() as u32 + 1;
    region.prepare(alloc, id)?;
    region.reserve(alloc, runs)
}

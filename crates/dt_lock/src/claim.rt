ghost use Rattle.std.specs.Prelude.{◌≡◌, ◌↔◌, IfOk, IfErr, IsTrue};
ghost use Rattle.dt_lock.specs.LongInner.{IsLongBody};

use crate::named::Named;
use crate::statements::is_long;
use dt_access::TxnId;
use dt_proc::Procs;
use dt_table::Effect;
use dt_text::NoMemory;
use dt_txn::{Body, Outcome, Seens, Txn, execute_seen};
use std::alloc::Global;
use std::marker::{Model, PhantomData};

/// A transaction that is claimed to be computed, of the round that `N` names, and what it saw when it was claimed.
///
/// Contracts see both. Its type keeps that the transaction is the one that the named region holds under its id, and is valid
/// there.
#[derive(Drop)]
pub struct Claim<N: Named> {
    txn: Txn,
    seen: Seens,
    of: PhantomData<N>,
}

impl<N: Named> Model for Claim<N> {
    ghost use Rattle.dt_lock.specs.Claims.{ClaimView, IsClaim};

    ghost Value = { ClaimView };

    ghost view = { λ c. record { txn = c.txn; seen = c.seen } };

    ghost invariant = { λ c. IsClaim N.procs N.before.state (record { txn = c.txn; seen = c.seen }) };
}

impl<N: Named> Claim<N> {
    ghost use Rattle.dt_lock.specs.Claims.{IsClaim};

    // A claim of a transaction that saw this.
    pub(crate) fn new(txn: Txn, seen: Seens) -> Self
        requires { IsClaim N.procs N.before.state (record { txn = txn; seen = seen }) }
        ensures { result ≡ record { txn = txn; seen = seen } }
    {
        Claim {
            txn,
            seen,
            of: PhantomData,
        }
    }

    /// Whose claim it is. Takes no memory.
    pub fn id(&self) -> TxnId
        ensures { result ≡ self.now.txn.id }
    {
        self.txn.id
    }

    // What its transaction saw.
    pub(crate) fn seen(&self) -> &Seens
        ensures { result.now ≡ self.now.seen }
    {
        &self.seen
    }

    // Whether it is a call of a long procedure, by which a round judges whether it is worth a thread.
    pub(crate) fn is_long(&self, procs: &Procs) -> bool
        ensures { IsTrue result ↔ IsLongBody procs.now self.now.txn.body }
    {
        match &self.txn.body {
            Body::Call(proc, _) => is_long(procs, *proc),
            Body::Move(_, _) => false,
        }
    }

    /// Finds what the transaction comes to, by the procedures that `N` names, from what it saw; no lock is needed for it.
    /// Gives the claim back where memory runs out.
    pub fn work(self, alloc: Global, procs: &Procs) -> Result<Finished<N>, (Claim<N>, NoMemory)>
        requires { procs.now ≡ N.procs }
        ensures finished { IfOk result (λ finished. finished.claim ≡ self) }
        ensures back { IfErr result (λ back. back.0 ≡ self) }
    {
        match execute_seen(alloc, &self.txn, procs, &self.seen) {
            Ok((outcome, effect)) => Ok(Finished {
                claim: self,
                outcome,
                effect,
            }),
            Err(error) => Err((self, error)),
        }
    }
}

/// A claim with what its transaction comes to.
///
/// Contracts see all three. Its type keeps that the outcome and the effect are those of its own claim, by the procedures that
/// `N` names; so nobody else can make one.
#[derive(Drop)]
pub struct Finished<N: Named> {
    claim: Claim<N>,
    outcome: Outcome,
    effect: Effect,
}

impl<N: Named> Model for Finished<N> {
    ghost use Rattle.dt_lock.specs.Claims.{FinishedView, IsWorked};

    ghost Value = { FinishedView };

    ghost view = { λ f. record { claim = f.claim; outcome = f.outcome; effect = f.effect } };

    ghost invariant = { λ f. IsWorked N.procs (record { claim = f.claim; outcome = f.outcome; effect = f.effect }) };
}

impl<N: Named> Finished<N> {
    ghost use Rattle.dt_lock.specs.Claims.{IsClaim, IsWorked};

    /// Whose claim it was. Takes no memory.
    pub fn id(&self) -> TxnId
        ensures { result ≡ self.now.claim.txn.id }
    {
        self.claim.id()
    }

    // What its transaction saw.
    pub(crate) fn seen(&self) -> &Seens
        ensures { result.now ≡ self.now.claim.seen }
    {
        self.claim.seen()
    }

    // What the transaction comes to.
    pub(crate) fn into_run(self) -> (Outcome, Effect)
        ensures run { result ≡ (self.outcome, self.effect) }
        ensures claim { IsClaim N.procs N.before.state self.claim }
        ensures finished { IsWorked N.procs self }
    {
        let Finished {
            claim: _,
            outcome: came_to,
            effect: changes,
        } = self;
        (came_to, changes)
    }
}

ghost use Rattle.std.specs.Prelude.{◌≡◌};

use crate::claim::{Claim, Finished};
use crate::gate::Gate;
use crate::held::Held;
use crate::jobs::Job;
use crate::named::Named;
use dt_proc::Procs;
use dt_sched::Scheduler;
use dt_text::NoMemory;
use std::alloc::Global;
use std::sync::{Mutex, Wait};

/// Does a job, of a region behind its lock. It ends after as many steps as a round can have, if not before.
pub fn act<R: Wait, S: Scheduler, N: Named, G: Gate>(
    rt: &R,
    alloc: Global,
    lock: &Mutex<Held<S, N>>,
    job: Job<N>,
    procs: &Procs,
    gate: &G,
)
    requires { procs.now ≡ N.procs }
{
    let most = lock.lock(rt).most_steps();
    match job {
        Job::Insert(home) => insert_all(rt, alloc, lock, most, home),
        Job::Resolve => resolve_all(rt, alloc, lock, most),
        Job::Work(claim) => work_all(rt, alloc, lock, most, claim, procs, gate),
    }
}

// Inserts what is missing of a home's log, part by part. Once memory has run out others insert the rest.
fn insert_all<R: Wait, S: Scheduler, N: Named>(
    rt: &R,
    alloc: Global,
    lock: &Mutex<Held<S, N>>,
    most: u64,
    home: u8,
) {
    for _step in 0..most {
        let mut held = lock.lock(rt);
        if home >= held.regions() || !matches!(held.insert(alloc, home), Ok(true)) {
            return;
        }
    }
}

// Resolves classes, until nothing is missing and none is resolvable.
fn resolve_all<R: Wait, S: Scheduler, N: Named>(
    rt: &R,
    alloc: Global,
    lock: &Mutex<Held<S, N>>,
    most: u64,
) {
    for _step in 0..most {
        let mut held = lock.lock(rt);
        if !matches!(resolve_on(alloc, &mut *held), Ok(true)) {
            return;
        }
    }
}

// Inserts a part that is missing, and resolves a class. False where there was neither.
fn resolve_on<S: Scheduler, N: Named>(
    alloc: Global,
    held: &mut Held<S, N>,
) -> Result<bool, NoMemory> {
    let inserted = insert_some(alloc, held)?;
    let resolved = held.resolve(alloc)?;
    Ok(inserted || resolved.is_some())
}

// Inserts the next part of the first log of which one is missing. False where none is.
fn insert_some<S: Scheduler, N: Named>(
    alloc: Global,
    held: &mut Held<S, N>,
) -> Result<bool, NoMemory> {
    for home in 0..held.regions() {
        if held.insert(alloc, home)? {
            return Ok(true);
        }
    }
    Ok(false)
}

// Computes claims, until nothing is missing and there is none to claim, or memory runs out.
fn work_all<R: Wait, S: Scheduler, N: Named, G: Gate>(
    rt: &R,
    alloc: Global,
    lock: &Mutex<Held<S, N>>,
    most: u64,
    first: Claim<N>,
    procs: &Procs,
    gate: &G,
)
    requires { procs.now ≡ N.procs }
{
    let mut claim = first;
    for _step in 0..most {
        let Some(next) = work_one(rt, alloc, lock, most, claim, procs, gate) else {
            return;
        };
        claim = next;
    }
}

// Computes a claim and commits it, and gives the next one to compute. Gives the claim back where memory runs out, and then there is
// no next one.
fn work_one<R: Wait, S: Scheduler, N: Named, G: Gate>(
    rt: &R,
    alloc: Global,
    lock: &Mutex<Held<S, N>>,
    most: u64,
    claim: Claim<N>,
    procs: &Procs,
    gate: &G,
) -> Option<Claim<N>>
    requires { procs.now ≡ N.procs }
{
    match claim.work(alloc, procs) {
        Ok(finished) => {
            commit_one(rt, lock, finished, gate);
            next_claim(rt, alloc, lock, most)
        }
        Err((claim, NoMemory)) => {
            give_back_one(rt, lock, claim);
            None
        }
    }
}

// Commits what is finished, once it has passed the gate.
fn commit_one<R: Wait, S: Scheduler, N: Named, G: Gate>(
    rt: &R,
    lock: &Mutex<Held<S, N>>,
    finished: Finished<N>,
    gate: &G,
) {
    gate.between(finished.id());
    lock.lock(rt).commit(finished);
}

// Gives a claim back.
fn give_back_one<R: Wait, S: Scheduler, N: Named>(
    rt: &R,
    lock: &Mutex<Held<S, N>>,
    claim: Claim<N>,
) {
    lock.lock(rt).give_back(claim);
}

// The next claim to compute. None where nothing is missing and there is none to claim, or memory ran out.
fn next_claim<R: Wait, S: Scheduler, N: Named>(
    rt: &R,
    alloc: Global,
    lock: &Mutex<Held<S, N>>,
    most: u64,
) -> Option<Claim<N>> {
    for _step in 0..most {
        let mut held = lock.lock(rt);
        let inserted = insert_some(alloc, &mut *held).ok()?;
        if let Some(claim) = held.claim(alloc).ok()? {
            return Some(claim);
        }
        if !inserted {
            return None;
        }
    }
    None
}

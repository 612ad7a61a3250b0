ghost use Rattle.std.specs.Prelude.{◌<◌};

use crate::claim::Claim;
use crate::gate::Gate;
use crate::held::Held;
use crate::named::Named;
use dt_proc::Procs;
use dt_sched::Scheduler;
use dt_text::NoMemory;
use std::alloc::Global;

/// What one thread of a round does.
#[derive(Drop)]
pub enum Job<N: Named> {
    /// Inserts what is missing of this home's log.
    Insert(u8),
    /// Resolves, as long as something is missing or resolvable.
    Resolve,
    /// Computes claims, beginning with this one.
    Work(Claim<N>),
}

// The calling thread inserts this many parts of each log at a time, and resolves this many classes.
const FEW: u32 = 64;

/// The jobs that there are for threads, for at most `workers` workers. The calling thread inserts and resolves, a few at a
/// time, until there are several long claims at once. Then there is a worker for each of them, and beside these one job for
/// each log of which more is missing, and one to resolve, if there is more. Where it comes to the end before that, there is at
/// most one job, which takes no thread beside the calling one.
pub fn jobs<S: Scheduler, N: Named, G: Gate>(
    alloc: Global,
    held: &mut Held<S, N>,
    procs: &Procs,
    workers: u32,
    gate: &G,
) -> Result<Vec<Job<N>>, NoMemory> {
    for _batch in 0..held.most_steps() {
        insert_few(alloc, held)?;
        let resolved = resolve_few(alloc, held)?;
        let claims = long_claims(alloc, held, procs, workers, gate)?;
        if claims.len() > 1 || (resolved && !lacks_some(held)) {
            return jobs_of(alloc, held, resolved, claims);
        }
        give_back_all(held, claims);
    }
    Ok(Vec::new(alloc))
}

// The jobs of a region whose long claims these are: what is missing of its logs, what may be resolved, and the claims.
fn jobs_of<S: Scheduler, N: Named>(
    alloc: Global,
    held: &Held<S, N>,
    resolved: bool,
    claims: Vec<Claim<N>>,
) -> Result<Vec<Job<N>>, NoMemory> {
    let mut jobs = Vec::new(alloc);
    for home in 0..held.regions() {
        if held.lacks(home) {
            jobs.push(Job::Insert(home))?;
        }
    }
    if !resolved || !jobs.is_empty() {
        jobs.push(Job::Resolve)?;
    }
    for claim in claims {
        jobs.push(Job::Work(claim))?;
    }
    Ok(jobs)
}

// Inserts a few parts of each log.
fn insert_few<S: Scheduler, N: Named>(
    alloc: Global,
    held: &mut Held<S, N>,
) -> Result<(), NoMemory> {
    for home in 0..held.regions() {
        insert_few_of(alloc, held, home)?;
    }
    Ok(())
}

// Inserts a few parts of a home's log.
fn insert_few_of<S: Scheduler, N: Named>(
    alloc: Global,
    held: &mut Held<S, N>,
    home: u8,
) -> Result<(), NoMemory>
    requires { home < N.before.state.regions }
{
    for _part in 0..FEW {
        if !held.insert(alloc, home)? {
            return Ok(());
        }
    }
    Ok(())
}

// Whether some part of some log is missing.
fn lacks_some<S: Scheduler, N: Named>(held: &Held<S, N>) -> bool {
    (0..held.regions()).any(|home| held.lacks(home))
}

// Resolves a few classes, and says whether it came to the end of those that are resolvable.
fn resolve_few<S: Scheduler, N: Named>(
    alloc: Global,
    held: &mut Held<S, N>,
) -> Result<bool, NoMemory> {
    for _class in 0..FEW {
        if held.resolve(alloc)?.is_none() {
            return Ok(true);
        }
    }
    Ok(held.next_class(alloc)?.is_none())
}

// Claims as many transactions as there are workers, or as there are, and gives back the short ones. All count as long where
// the gate may hold a worker until another comes.
fn long_claims<S: Scheduler, N: Named, G: Gate>(
    alloc: Global,
    held: &mut Held<S, N>,
    procs: &Procs,
    workers: u32,
    gate: &G,
) -> Result<Vec<Claim<N>>, NoMemory> {
    let mut long = Vec::new(alloc);
    let mut short = Vec::new(alloc);
    for _worker in 0..workers {
        let Some(claim) = held.claim(alloc)? else {
            break;
        };
        if gate.holds() || claim.is_long(procs) {
            long.push(claim)?;
        } else {
            short.push(claim)?;
        }
    }
    give_back_all(held, short);
    Ok(long)
}

// Gives claims back.
fn give_back_all<S: Scheduler, N: Named>(held: &mut Held<S, N>, claims: Vec<Claim<N>>) {
    for claim in claims {
        held.give_back(claim);
    }
}

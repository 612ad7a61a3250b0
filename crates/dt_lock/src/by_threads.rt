ghost use Rattle.std.specs.Prelude.{◌≡◌, OnOk};
ghost use Rattle.dt_txn.specs.Replica.{IsDrained};
ghost use Rattle.dt_region.specs.Rounds.{CanRound, Continues};

use crate::gate::Gate;
use crate::held::Held;
use crate::jobs::{Job, jobs};
use crate::named::Named;
use crate::statements::some_is_long;
use crate::work::act;
use dt_proc::Procs;
use dt_region::{Alone, Region, Rounds, finish};
use dt_sched::Scheduler;
use dt_table::Table;
use dt_text::NoMemory;
use std::alloc::Global;
use std::marker::Brand;
use std::sync::{Mutex, Wait};
use std::thread::Threads;
use std::{mem, thread};

/// Makes a round of a region by threads, with at most `workers` workers: they insert, resolve and execute, by these procedures,
/// until nothing is left, and the calling thread finishes what they leave. The promise is that of `Rounds`; it doesn't depend on
/// how many threads there are, nor on the schedule. No thread is started unless at least two calls can be executed at once that
/// are long: of a procedure with 4,000 outermost statements or more, or any call where the gate may hold a worker.
pub fn round<R: Threads + Wait + Sync, S: Scheduler + Drop + Send, G: Gate>(
    rt: &R,
    alloc: Global,
    region: &mut Region<S>,
    procs: &Procs,
    workers: u32,
    gate: &G,
) -> Result<(), NoMemory>
    requires { CanRound procs.now region.old }
    ensures continues { Continues procs.now region.old region.new }
    ensures drained { OnOk result (IsDrained region.new.state.logs region.new.state.here) }
{
    if !gate.holds() && (workers < 2 || !some_is_long(procs)) {
        return Alone.round(alloc, region, procs);
    }
    round_by_threads(rt, alloc, region, procs, workers, gate)
}

// Makes a round by threads.
fn round_by_threads<R: Threads + Wait + Sync, S: Scheduler + Drop + Send, G: Gate>(
    rt: &R,
    alloc: Global,
    region: &mut Region<S>,
    procs: &Procs,
    workers: u32,
    gate: &G,
) -> Result<(), NoMemory>
    requires { CanRound procs.now region.old }
    ensures continues { Continues procs.now region.old region.new }
    ensures drained { OnOk result (IsDrained region.new.state.logs region.new.state.here) }
{
    let empty = empty_region(alloc)?;
    let whole = mem::replace(region, empty);
    let (after, result) = round_named::<Brand, R, S, G>(rt, alloc, whole, procs, workers, gate);
    *region = after;
    result
}

// A region of which nothing is asked: it stands in the place of one that is behind its lock.
fn empty_region<S: Scheduler>(alloc: Global) -> Result<Region<S>, NoMemory> {
    Region::new(alloc, 0, 1, Table::new(alloc, 1, 1, &[], &[])?)
}

// Makes the round that `N` names. Gives the region back, and whether there was memory to finish.
fn round_named<
    N: Named + Send + Sync,
    R: Threads + Wait + Sync,
    S: Scheduler + Drop + Send,
    G: Gate,
>(
    rt: &R,
    alloc: Global,
    region: Region<S>,
    procs: &Procs,
    workers: u32,
    gate: &G,
) -> (Region<S>, Result<(), NoMemory>)
    requires region { region ≡ N.before }
    requires procs { procs.now ≡ N.procs }
    requires can { CanRound N.procs N.before }
    ensures continues { Continues N.procs N.before result.0 }
    ensures drained { OnOk result.1 (IsDrained result.0.state.logs result.0.state.here) }
{
    let mut held = Held::<S, N>::enter(alloc, region);
    match jobs(alloc, &mut held, procs, workers, gate) {
        Ok(jobs) => finish_held(alloc, by_threads(rt, alloc, held, jobs, procs, gate), procs),
        Err(NoMemory) => finish_held(alloc, held, procs),
    }
}

// Runs the jobs of a region, which lies behind a lock meanwhile.
fn by_threads<
    R: Threads + Wait + Sync,
    S: Scheduler + Drop + Send,
    N: Named + Send + Sync,
    G: Gate,
>(rt: &R, alloc: Global, held: Held<S, N>, jobs: Vec<Job<N>>, procs: &Procs, gate: &G) -> Held<S, N>
    requires { procs.now ≡ N.procs }
{
    let lock = Mutex::new(held);
    act_all(rt, alloc, &lock, jobs, procs, gate);
    lock.into_inner()
}

// Runs the jobs, each in a thread of its own. Where no thread can be started, the calling one does what it would have done; where memory
// runs out before, the jobs are dropped, and what they were to do is left to the end of the round.
fn act_all<R: Threads + Wait + Sync, S: Scheduler + Drop + Send, N: Named + Send + Sync, G: Gate>(
    rt: &R,
    alloc: Global,
    lock: &Mutex<Held<S, N>>,
    jobs: Vec<Job<N>>,
    procs: &Procs,
    gate: &G,
)
    requires { procs.now ≡ N.procs }
{
    each_with(
        rt,
        lock,
        jobs,
        &|lock: &Mutex<Held<S, N>>, job: Job<N>| -> ()
            requires { procs.now ≡ N.procs }
        { act(rt, alloc, lock, job, procs, gate) },
    );
}

// Calls with what lies behind a lock and each of these jobs, in a thread each, or in the calling one where no thread can be started.
// Where memory runs out before, none is called.
fn each_with<R: Threads + Sync, T: Send, J: Send + Drop, F: Fn(&Mutex<T>, J) + Sync>(
    rt: &R,
    lock: &Mutex<T>,
    jobs: Vec<J>,
    call: &F,
)
    requires { F.IsAlwaysCallable call.now }
{
    let _done = thread::map_vec(
        rt,
        jobs,
        &|job| -> ()
            requires { F.IsAlwaysCallable call.now }
        { call(lock, job) },
    );
}

// Takes the region out of its lock, and finishes the round on the calling thread.
fn finish_held<S: Scheduler + Drop, N: Named>(
    alloc: Global,
    held: Held<S, N>,
    procs: &Procs,
) -> (Region<S>, Result<(), NoMemory>)
    requires { procs.now ≡ N.procs }
    ensures continues { Continues N.procs N.before result.0 }
    ensures drained { OnOk result.1 (IsDrained result.0.state.logs result.0.state.here) }
{
    let mut held = held;
    held.cancel();
    match held.leave() {
        Ok(mut region) => {
            let regions = region.regions();
            let result = finish(alloc, &mut region, regions, procs);
            (region, result)
        }
        Err(_) => unreachable!(),
    }
}

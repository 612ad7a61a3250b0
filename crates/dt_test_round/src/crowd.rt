//! That as many workers are at work at once as there may be, and never one more.

use crate::feeding::Row;
use crate::rounds::{GET, RoundReport, parts, told_of};
use dt_access::TxnId;
use dt_graph::QueueSched;
use dt_lock::Gate;
use dt_proc::{Procs, builtin_procs};
use dt_test_texts::wrong;
use std::alloc::Global;
use std::mem::forget;
use std::sync::Wait;
use std::sync::atomic::{AtomicU64, Ordering};
use std::test::Fail;
use std::thread;
use std::thread::Threads;

/// Holds workers until as many as there may be are inside at once, or one has waited for long enough; and then for a moment, in which
/// one too many would come. Notes how many came too many or waited in vain, and how many passed.
#[derive(Drop)]
struct Crowd {
    limit: u64,
    inside: AtomicU64,
    open: AtomicU64,
    faults: AtomicU64,
    passed: AtomicU64,
}

/// How often a worker looks for the others.
const LOOKS: u64 = 10000000;

/// How many looks make a moment, in which a thread that is there comes to run.
const MOMENT: u64 = 30000000;

impl Crowd {
    fn new(workers: u32) -> Self {
        Crowd {
            limit: u64::from(workers),
            inside: AtomicU64::new(0),
            open: AtomicU64::new(0),
            faults: AtomicU64::new(0),
            passed: AtomicU64::new(0),
        }
    }

    /// Whether all of so many calls passed, and nothing else was noted.
    fn has_seen(&self, calls: u32) -> bool {
        self.passed.load(Ordering::SeqCst) == u64::from(calls)
            && self.faults.load(Ordering::SeqCst) == 0
    }

    /// Waits until all are inside, which the others learn, too. Who waits in vain lets them go on.
    fn wait(&self) {
        for _look in 0..LOOKS {
            if self.inside.load(Ordering::SeqCst) >= self.limit {
                self.open.store(1, Ordering::SeqCst);
            }
            if self.open.load(Ordering::SeqCst) == 1 {
                return;
            }
            thread::yield_now();
        }
        self.faults.fetch_add(1, Ordering::SeqCst);
        self.open.store(1, Ordering::SeqCst);
    }

    /// Waits for a moment.
    fn linger(&self) {
        for _look in 0..MOMENT {
            self.inside.load(Ordering::SeqCst);
        }
    }
}

impl Gate for Crowd {
    fn between(&self, _id: TxnId) {
        if self.inside.fetch_add(1, Ordering::SeqCst) >= self.limit {
            self.faults.fetch_add(1, Ordering::SeqCst);
        }
        self.wait();
        self.linger();
        self.inside.fetch_sub(1, Ordering::SeqCst);
        self.passed.fetch_add(1, Ordering::SeqCst);
    }
}

/// So many calls of which none waits for another, since each reads a row that none writes.
fn reads(alloc: Global, calls: u32) -> Result<Vec<Row<'static>>, Fail> {
    let mut rows = Vec::new(alloc);
    for seq in 1..=calls {
        rows.push((0, seq, 0, GET))?;
    }
    Ok(rows)
}

/// How many workers there may be, and how many calls: more than workers, so that one of them goes on to a second call.
const CROWDS: &[(u32, u32)] = &[(1, 2), (2, 3), (16, 17)];

/// So many calls come to a region, which makes a round by so many workers that pass this gate.
fn go_through<R: Threads + Wait + Sync>(
    rt: &R,
    alloc: Global,
    procs: &Procs,
    workers: u32,
    calls: u32,
    gate: &Crowd,
) -> Result<(), Fail> {
    let rows = reads(alloc, calls)?;
    let _told = told_of::<R, QueueSched, Crowd>(
        rt,
        alloc,
        procs,
        parts(rows.as_slice()),
        Some(workers),
        gate,
        RoundReport::Events,
    )?;
    Ok(())
}

/// Whether as many workers as there may be meet, never one more, and each of these calls passes.
fn meet<R: Threads + Wait + Sync>(
    rt: &R,
    alloc: Global,
    procs: &Procs,
    workers: u32,
    calls: u32,
) -> Result<bool, Fail> {
    let gate = Crowd::new(workers);
    go_through(rt, alloc, procs, workers, calls, &gate)?;
    Ok(gate.has_seen(calls))
}

/// Fails at the first of these rows at which that is not so.
fn check<R: Threads + Wait + Sync>(rt: &R, alloc: Global, procs: &Procs) -> Result<(), Fail> {
    for (row, (workers, calls)) in CROWDS.iter().enumerate() {
        if !meet(rt, alloc, procs, *workers, *calls)? {
            return Err(wrong(row));
        }
    }
    Ok(())
}

#[test]
fn as_many_workers_as_may_be_are_at_work_at_once(rt: HostRuntime) -> Result<(), Fail> {
    let procs = builtin_procs(rt.alloc())?;
    let checked = check(&rt, rt.alloc(), &procs);
    forget(procs);
    checked
}

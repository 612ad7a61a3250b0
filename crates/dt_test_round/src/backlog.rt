//! A round over long logs, in which threads insert, resolve and execute beside each other; and what one thread makes of them.

use crate::calls::{Call, procs_of};
use crate::feeding::Row;
use crate::rounds::{Open, RoundReport, parts, told_of};
use dt_access::TxnId;
use dt_graph::QueueSched;
use dt_lock::Gate;
use std::alloc::Global;
use std::mem::forget;
use std::sync::Wait;
use std::sync::atomic::{AtomicU64, Ordering};
use std::test::Fail;
use std::thread;
use std::thread::Threads;

/// What `cross` leaves depends on which of two calls comes first.
const PROCS: &[u8] =
    b"proc climb(k: text) write a = k; { if has(a) { set a = int(a) + 1; } else { set a = 1; } give int(a); }
proc cross(from: text, to: text) write a = from; write b = to;
{ if not has(a) { set a = 3; } if not has(b) { set b = 4; } set a = 2 * int(a) + int(b); set b = int(a) - int(b); give int(a), int(b); }";

/// In a cluster of four the home of `d`, `h`, `l` and `p` is region 0, and that of `a`, `e` and `q` region 1.
const CLIMB_D: Call<'static> = (b"climb", &[b"d"]);

const CLIMB_H: Call<'static> = (b"climb", &[b"h"]);

const CLIMB_A: Call<'static> = (b"climb", &[b"a"]);

const CROSS_LE: Call<'static> = (b"cross", &[b"l", b"e"]);

const CROSS_EL: Call<'static> = (b"cross", &[b"e", b"l"]);

const CROSS_PQ: Call<'static> = (b"cross", &[b"p", b"q"]);

const CROSS_QP: Call<'static> = (b"cross", &[b"q", b"p"]);

/// With how many calls of one home each of the two logs begins: more than the calling thread inserts before it looks for work for
/// others.
const FRONT: u32 = 100;

/// The numbers of transactions that wait for each other are not greater.
const GROUPS: u32 = 2;

/// The parts behind: two transactions wait for each other, and two more, and none of them for what stands before them.
const BACK: [Row<'static>; 8] = [
    (0, 1, 0, CROSS_LE),
    (0, 1, 1, CROSS_EL),
    (1, 1, 1, CROSS_EL),
    (1, 1, 0, CROSS_LE),
    (0, 2, 0, CROSS_PQ),
    (0, 2, 1, CROSS_QP),
    (1, 2, 1, CROSS_QP),
    (1, 2, 0, CROSS_PQ),
];

/// The parts of two long logs: at their front, those of region 0 use two rows in turn, those of region 1 one.
fn backlog(alloc: Global) -> Result<Vec<Row<'static>>, Fail> {
    let mut rows = Vec::new(alloc);
    for place in 1..=FRONT {
        let number = GROUPS + place;
        let climb = if number % 2 == 0 { CLIMB_D } else { CLIMB_H };
        rows.push((0, number, 0, climb))?;
        rows.push((1, number, 1, CLIMB_A))?;
    }
    for row in &BACK {
        rows.push(*row)?;
    }
    Ok(rows)
}

/// What a region of two long logs comes to in one round.
fn told<R: Threads + Wait + Sync, G: Gate>(
    rt: &R,
    alloc: Global,
    workers: u32,
    gate: &G,
) -> Result<Vec<u8>, Fail> {
    let rows = backlog(alloc)?;
    let procs = procs_of(alloc, PROCS)?;
    let told = told_of::<R, QueueSched, G>(
        rt,
        alloc,
        &procs,
        parts(rows.as_slice()),
        Some(workers),
        gate,
        RoundReport::Outcomes,
    );
    forget(procs);
    told
}

/// Holds a worker until all that waited for each other has passed, or for some time. So the workers are still there when another
/// thread inserts and resolves those.
#[derive(Drop)]
struct Patient {
    passed: AtomicU64,
}

/// How often a worker looks.
const LOOKS: u32 = 1000;

impl Gate for Patient {
    fn between(&self, id: TxnId) {
        if id.seq <= GROUPS {
            self.passed.fetch_add(1, Ordering::SeqCst);
            return;
        }
        for _look in 0..LOOKS {
            if self.passed.load(Ordering::SeqCst) > 3 {
                return;
            }
            thread::yield_now();
        }
    }
}

/// How the events end: each of the two groups was resolved once.
const RESOLVED: &[u8] = b"insert 3 1\nresolve 3 1.0 1.1\nresolve 3 2.0 2.1\n";

/// What threads come to, if all that waited for each other passed the gate.
fn told_by_threads<R: Threads + Wait + Sync>(rt: &R, alloc: Global) -> Result<Vec<u8>, Fail> {
    let gate = Patient {
        passed: AtomicU64::new(0),
    };
    let told = told(rt, alloc, 3, &gate)?;
    if gate.passed.load(Ordering::SeqCst) != 4 {
        return Err(Fail::from("four of them pass the gate"));
    }
    Ok(told)
}

/// Whether what one thread comes to ends so, and more threads come to the same.
fn is_same<R: Threads + Wait + Sync>(rt: &R, alloc: Global, end: &[u8]) -> Result<bool, Fail> {
    let alone = told(rt, alloc, 1, &Open)?;
    Ok(alone.as_slice().ends_with(end) && told_by_threads(rt, alloc)? == alone)
}

#[test]
fn threads_that_insert_resolve_and_work_come_to_the_same(rt: HostRuntime) -> Result<(), Fail> {
    assert!(rt; is_same(&rt, rt.alloc(), RESOLVED)?);
    Ok(())
}

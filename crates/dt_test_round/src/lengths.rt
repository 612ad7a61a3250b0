//! Which calls get workers where the gate holds nobody: those whose procedures have many outermost statements.

use crate::calls::{Call, procs_of};
use crate::feeding::Row;
use crate::meeting::Meeting;
use crate::rounds::{RoundReport, parts, told_of};
use dt_access::TxnId;
use dt_graph::QueueSched;
use dt_lock::{Gate, NoGate};
use dt_proc::Procs;
use dt_test_texts::wrong;
use std::alloc::Global;
use std::mem::forget;
use std::sync::Wait;
use std::sync::atomic::{AtomicU64, Ordering};
use std::test::Fail;
use std::thread::Threads;

/// Notes how many workers passed, and holds none.
#[derive(Drop)]
struct Count {
    passed: AtomicU64,
}

impl Gate for Count {
    fn between(&self, _id: TxnId) {
        self.passed.fetch_add(1, Ordering::SeqCst);
    }

    fn holds(&self) -> bool {
        false
    }
}

/// A meeting of two workers at a gate that is taken for one which holds nobody, as the program's is.
#[derive(Drop)]
struct Passing {
    meeting: Meeting,
}

impl Gate for Passing {
    fn between(&self, id: TxnId) {
        self.meeting.between(id);
    }

    fn holds(&self) -> bool {
        false
    }
}

/// A procedure with an `if`, whose blocks have `first` and `second` statements, followed by n statements.
fn climb(alloc: Global, n: u32, first: u32, second: u32) -> Result<Procs, Fail> {
    let mut text = Vec::new(alloc);
    put_block(
        &mut text,
        b"proc climb(k: text) write a = k; { if has(a) { ",
        first,
        b"} ",
    )?;
    put_block(&mut text, b"else { ", second, b"} ")?;
    put_block(&mut text, b"", n, b"}")?;
    procs_of(alloc, text.as_slice())
}

/// Appends n statements to a text, between a front and a back.
pub fn put_block(text: &mut Vec<u8>, front: &[u8], n: u32, back: &[u8]) -> Result<(), Fail> {
    text.extend_from_slice(front)?;
    for _statement in 0..n {
        text.extend_from_slice(b"set a = 1; ")?;
    }
    text.extend_from_slice(back)?;
    Ok(())
}

/// How many workers pass the gate in a round of two calls of this procedure, of which neither waits for the other.
fn passes<R: Threads + Wait + Sync>(
    rt: &R,
    alloc: Global,
    procs: &Procs,
    workers: u32,
) -> Result<u64, Fail> {
    let gate = Count {
        passed: AtomicU64::new(0),
    };
    let _told = told_of::<R, QueueSched, Count>(
        rt,
        alloc,
        procs,
        parts(&APART),
        Some(workers),
        &gate,
        RoundReport::Events,
    )?;
    Ok(gate.passed.load(Ordering::SeqCst))
}

const CLIMB_D: Call<'static> = (b"climb", &[b"d"]);

const CLIMB_H: Call<'static> = (b"climb", &[b"h"]);

/// Two calls, of which neither waits for the other.
const APART: [Row<'static>; 2] = [(0, 1, 0, CLIMB_D), (0, 2, 0, CLIMB_H)];

/// Whether the workers of two calls of this procedure meet, though the gate says that it holds nobody.
fn meet<R: Threads + Wait + Sync>(rt: &R, alloc: Global, procs: &Procs) -> Result<bool, Fail> {
    let gate = Passing {
        meeting: Meeting::new(),
    };
    let _told = told_of::<R, QueueSched, Passing>(
        rt,
        alloc,
        procs,
        parts(&APART),
        Some(2),
        &gate,
        RoundReport::Events,
    )?;
    Ok(gate.meeting.has_seen_two())
}

/// The statements behind the `if`, those of its two blocks, the workers that there may be, and how many pass the gate. The `if` and
/// 3,999 statements behind it are 4,000. The rows have no value, so its second block is executed, and its first is not.
const LENGTHS: &[(u32, u32, u32, u32, u64)] = &[
    (3998, 2, 2, 4, 0),
    (3999, 2, 2, 4, 2),
    (3999, 2, 2, 2, 2),
    (3999, 2, 2, 1, 0),
    (3998, 5000, 2, 4, 0),
    (3998, 2, 5000, 4, 0),
];

/// Whether so many pass the gate; the procedures are left to the end of the process.
fn is_passed<R: Threads + Wait + Sync>(
    rt: &R,
    alloc: Global,
    procs: Procs,
    workers: u32,
    want: u64,
) -> Result<bool, Fail> {
    let passed = passes(rt, alloc, &procs, workers);
    forget(procs);
    Ok(passed? == want)
}

/// Fails at the first length at which others pass the gate.
fn check<R: Threads + Wait + Sync>(rt: &R, alloc: Global) -> Result<(), Fail> {
    for (row, (n, first, second, workers, want)) in LENGTHS.iter().enumerate() {
        let procs = climb(alloc, *n, *first, *second)?;
        if !is_passed(rt, alloc, procs, *workers, *want)? {
            return Err(wrong(row));
        }
    }
    Ok(())
}

#[test]
fn long_calls_get_workers(rt: HostRuntime) -> Result<(), Fail> {
    assert!(rt; !NoGate.holds());
    check(&rt, rt.alloc())
}

#[test]
fn workers_of_long_calls_are_at_work_at_once(rt: HostRuntime) -> Result<(), Fail> {
    let procs = climb(rt.alloc(), 3999, 2, 2)?;
    let met = meet(&rt, rt.alloc(), &procs);
    forget(procs);
    assert!(rt; met?);
    Ok(())
}

//! That two workers are at work at once.

use crate::feeding::Row;
use crate::meeting::Meeting;
use crate::rounds::{PUT, PUT_H, RoundReport, parts, told_of};
use dt_graph::QueueSched;
use dt_proc::{Procs, builtin_procs};
use std::alloc::Global;
use std::mem::forget;
use std::sync::Wait;
use std::test::Fail;
use std::thread::Threads;

const APART: [Row<'static>; 2] = [(0, 1, 0, PUT), (0, 2, 0, PUT_H)];

/// Whether two workers meet.
fn meet<R: Threads + Wait + Sync>(rt: &R, alloc: Global, procs: &Procs) -> Result<bool, Fail> {
    let gate = Meeting::new();
    let _told = told_of::<R, QueueSched, Meeting>(
        rt,
        alloc,
        procs,
        parts(&APART),
        Some(2),
        &gate,
        RoundReport::Events,
    )?;
    Ok(gate.has_seen_two())
}

#[test]
fn two_workers_are_at_work_at_once(rt: HostRuntime) -> Result<(), Fail> {
    let procs = builtin_procs(rt.alloc())?;
    let met = meet(&rt, rt.alloc(), &procs);
    forget(procs);
    assert!(rt; met?);
    Ok(())
}

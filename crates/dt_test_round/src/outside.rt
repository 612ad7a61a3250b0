//! A call is computed outside the lock: meanwhile another worker claims, computes and commits.

use crate::calls::{Call, procs_of};
use crate::feeding::Row;
use crate::lengths::put_block;
use crate::rounds::{RoundReport, parts, told_of};
use dt_access::TxnId;
use dt_graph::QueueSched;
use dt_lock::Gate;
use dt_proc::Procs;
use std::alloc::Global;
use std::mem::forget;
use std::sync::Wait;
use std::sync::atomic::{AtomicU64, Ordering};
use std::test::Fail;
use std::thread::Threads;

/// Two workers meet here with their first calls. When both are there the one goes on to the long call, and says so; the other one
/// waits for a moment then and after each of its calls, so that the first one may come to the lock.
#[derive(Drop)]
struct Relay {
    met: AtomicU64,
    gone: AtomicU64,
}

impl Relay {
    fn new() -> Self {
        Relay {
            met: AtomicU64::new(0),
            gone: AtomicU64::new(0),
        }
    }

    /// Waits for a moment.
    fn wait(&self) {
        for _look in 0..MOMENT {
            self.gone.load(Ordering::SeqCst);
        }
    }
}

/// Looks at a count until something is counted, or for some time.
fn look(count: &AtomicU64, least: u64) {
    for _look in 0..LOOKS {
        if count.load(Ordering::SeqCst) >= least {
            return;
        }
    }
}

// How often a worker looks for the other one; and how many looks make a moment, a few of which are shorter than the long call.
const LOOKS: u64 = 100000000;

const MOMENT: u64 = 100000;

impl Gate for Relay {
    fn between(&self, id: TxnId) {
        match id.seq {
            1 => {
                self.met.fetch_add(1, Ordering::SeqCst);
                look(&self.met, 2);
                self.gone.fetch_add(1, Ordering::SeqCst);
            }
            2 => {
                self.met.fetch_add(1, Ordering::SeqCst);
                look(&self.gone, 1);
                self.wait();
            }
            3 => (),
            _ => self.wait(),
        }
    }
}

const SHORT_D: Call<'static> = (b"short", &[b"d"]);

const SHORT_H: Call<'static> = (b"short", &[b"h"]);

const LONG_D: Call<'static> = (b"long", &[b"d"]);

/// A chain of calls of one row whose second is long, and one of another row whose calls are short.
const CHAINS: [Row<'static>; 6] = [
    (0, 1, 0, SHORT_D),
    (0, 2, 0, SHORT_H),
    (0, 3, 0, LONG_D),
    (0, 4, 0, SHORT_H),
    (0, 5, 0, SHORT_H),
    (0, 6, 0, SHORT_H),
];

/// A short procedure and a long one.
fn procs(alloc: Global) -> Result<Procs, Fail> {
    let front =
        b"proc short(k: text) write a = k; { set a = 1; } proc long(k: text) write a = k; { ";
    let mut text = Vec::new(alloc);
    put_block(&mut text, front, 40000, b"}")?;
    procs_of(alloc, text.as_slice())
}

/// How the events end where all short calls were committed while the long one was computed.
const BEHIND: &[u8] = b"execute 3 6.0\n18 execute 3 3.0\ntrue";

/// How often it is tried at most: a worker may be stopped while the other one goes on.
const TIMES: u32 = 200;

/// Whether all short calls are committed while the long one is computed.
fn are_committed<R: Threads + Wait + Sync>(
    rt: &R,
    alloc: Global,
    procs: &Procs,
) -> Result<bool, Fail> {
    let told = told_of::<R, QueueSched, Relay>(
        rt,
        alloc,
        procs,
        parts(&CHAINS),
        Some(2),
        &Relay::new(),
        RoundReport::Events,
    )?;
    Ok(told.as_slice().ends_with(BEHIND))
}

/// Tries it until they are.
fn try_on<R: Threads + Wait + Sync>(rt: &R, alloc: Global, procs: &Procs) -> Result<(), Fail> {
    for _time in 0..TIMES {
        if are_committed(rt, alloc, procs)? {
            return Ok(());
        }
    }
    Err(Fail::from("no call was committed while another was worked"))
}

#[test]
fn others_commit_while_a_call_is_worked(rt: HostRuntime) -> Result<(), Fail> {
    let procs = procs(rt.alloc())?;
    let tried = try_on(&rt, rt.alloc(), &procs);
    forget(procs);
    tried
}

//! Runs of generated loads, whose calls are all answered and leave the sum of all accounts.
ghost use Rattle.std.specs.Prelude.{◌≡◌, ◌≤◌, false};

use crate::cases::{Want, holds_of};
use dt_gen::{generate, row_sum};
use dt_graph::QueueSched;
use dt_lock::NoGate;
use dt_run::{Nodes, run};
use std::alloc::Global;
use std::mem::forget;
use std::sync::Wait;
use std::test::Fail;
use std::thread::Threads;

/// How many replies the report of a run has, and the sum of the rows that it shows of region 0.
pub fn counted<R: Threads + Wait + Sync>(
    rt: &R,
    alloc: Global,
    nodes: &mut Nodes<QueueSched>,
) -> Result<(usize, i128), Fail>
    requires { nodes.old.broken ≡ false }
{
    let report = run(rt, alloc, nodes, &NoGate)?;
    let sum = match report.tables.as_slice().first() {
        Some(rows) => row_sum(rows.as_slice()),
        None => 0,
    };
    let replies = report.replies.as_slice().len();
    forget(report);
    Ok((replies, sum))
}

/// Whether each call of a load of n calls has a reply, and no money is lost.
fn is_answered<R: Threads + Wait + Sync>(
    rt: &R,
    alloc: Global,
    calls: u32,
    replies: usize,
) -> Result<bool, Fail>
    requires some { 1 ≤ calls }
    requires few { calls ≤ 20000 }
{
    let (cluster, workload) = generate(alloc, calls)?;
    let held = holds_of(
        rt,
        alloc,
        &cluster,
        &workload,
        Want::Report(replies, 100_000),
    );
    forget((cluster, workload));
    held
}

#[test]
fn each_call_of_a_load_has_a_reply_and_no_money_is_lost(rt: HostRuntime) -> Result<(), Fail> {
    assert!(rt; is_answered(&rt, rt.alloc(), 64, 64)?);
    assert!(rt; is_answered(&rt, rt.alloc(), 5000, 5000)?);
    Ok(())
}

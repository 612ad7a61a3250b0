//! That the text which nodes give when all is done is that of their report.
ghost use Rattle.std.specs.Prelude.{◌≡◌, ◌≤◌, false, OnOk};
ghost use Rattle.dt_cluster.specs.Valid.{IsValidCluster};
ghost use Rattle.dt_workload.specs.Valid.{IsValidWorkload};
ghost use Rattle.dt_run.specs.EndOfRun.{IsAllDone};
ghost use Rattle.dt_run.specs.Silence.{made_in};

use crate::phases::TWO;
use dt_cluster::Cluster;
use dt_graph::QueueSched;
use dt_lock::NoGate;
use dt_report::print;
use dt_run::{Nodes, run_to_end};
use dt_test_inputs::{cluster_of, workload_of};
use dt_workload::Workload;
use std::alloc::Global;
use std::mem::forget;
use std::sync::Wait;
use std::test::Fail;
use std::thread::Threads;

/// The report of a run to the end, in words.
fn printed<R: Threads + Wait + Sync>(
    rt: &R,
    alloc: Global,
    nodes: &mut Nodes<QueueSched>,
) -> Result<Vec<u8>, Fail>
    requires { nodes.old.broken ≡ false }
    ensures phases { OnOk result (1 ≤ made_in nodes.new) }
    ensures sound { OnOk result (nodes.new.broken ≡ false) }
    ensures done { OnOk result (IsAllDone nodes.new) }
{
    run_to_end(rt, alloc, nodes, &NoGate)?;
    let report = nodes.report(alloc)?;
    let text = print(alloc, &report);
    forget(report);
    Ok(text?)
}

/// Whether the text that the nodes of a cluster with a workload give when all is done is that of their report.
fn text_is_of_report<R: Threads + Wait + Sync>(
    rt: &R,
    alloc: Global,
    cluster: Cluster,
    workload: Workload,
) -> Result<bool, Fail>
    requires cluster { IsValidCluster cluster }
    requires workload { IsValidWorkload cluster workload }
{
    let mut nodes: Nodes<QueueSched> = Nodes::opening(alloc, cluster, workload)?;
    match printed(rt, alloc, &mut nodes) {
        Ok(text) => Ok(nodes.text(alloc)?.as_slice() == text.as_slice()),
        Err(fail) => {
            forget(nodes);
            Err(fail)
        }
    }
}

/// A cluster of two regions, in which a row that `a` would place in region 1 is at home in region 0.
const MOVED: &[u8] = b"regions = 2\n[homes]\na = 0\n[rows]\na = 10\nb = 10\n";

/// The same of two transfers.
fn text_of_two_is_of_report<R: Threads + Wait + Sync>(rt: &R, alloc: Global) -> Result<bool, Fail> {
    let cluster = cluster_of(alloc, MOVED)?;
    match workload_of(alloc, &cluster, TWO) {
        Ok(workload) => text_is_of_report(rt, alloc, cluster, workload),
        Err(fail) => {
            forget(cluster);
            Err(fail)
        }
    }
}

#[test]
fn the_text_of_a_run_is_that_of_its_report(rt: HostRuntime) -> Result<(), Fail> {
    assert!(rt; text_of_two_is_of_report(&rt, rt.alloc())?);
    Ok(())
}

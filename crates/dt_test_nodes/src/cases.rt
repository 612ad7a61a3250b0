//! Clusters and their workloads, and what is to hold of their runs. Nodes, clusters and workloads are left to the end of the process: that
//! they may be dropped would be proved in each function that owns one.
ghost use Rattle.std.specs.Prelude.{◌≡◌, false};
ghost use Rattle.dt_cluster.specs.Valid.{IsValidCluster};
ghost use Rattle.dt_workload.specs.Valid.{IsValidWorkload};

use crate::generated::counted;
use crate::phases::phases_of;
use crate::workers::{meet_in_phase, meet_in_run};
use dt_cluster::Cluster;
use dt_graph::QueueSched;
use dt_run::Nodes;
use dt_test_inputs::{cluster_of, workload_of};
use dt_workload::Workload;
use std::alloc::Global;
use std::mem::forget;
use std::sync::Wait;
use std::test::Fail;
use std::thread::Threads;

/// What is to hold of a run.
#[derive(Clone, Copy)]
pub enum Want {
    /// This many phases are made until all is done, and at most this many silent ones in a row.
    Phases(u64, u64),
    /// No more than these.
    FewPhases(u64, u64),
    /// The report has this many replies, and the rows that it shows of region 0 have this sum.
    Report(usize, i128),
    /// Two workers are at work at once, and pass the gate: in a run to the end, or in the first phase, after which all is done.
    MeetInRun,
    MeetInPhase,
}

/// Whether it holds of the run of some nodes.
fn holds<R: Threads + Wait + Sync>(
    rt: &R,
    alloc: Global,
    nodes: &mut Nodes<QueueSched>,
    want: Want,
) -> Result<bool, Fail>
    requires { nodes.old.broken ≡ false }
{
    match want {
        Want::Phases(made, quiet) => Ok(phases_of(rt, alloc, nodes)? == (made, quiet)),
        Want::FewPhases(most, most_quiet) => {
            let (made, quiet) = phases_of(rt, alloc, nodes)?;
            Ok(made <= most && quiet <= most_quiet)
        }
        Want::Report(replies, sum) => Ok(counted(rt, alloc, nodes)? == (replies, sum)),
        Want::MeetInRun => meet_in_run(rt, alloc, nodes),
        Want::MeetInPhase => meet_in_phase(rt, alloc, nodes),
    }
}

/// Whether it holds of the run of a cluster with a workload.
pub fn holds_of<R: Threads + Wait + Sync>(
    rt: &R,
    alloc: Global,
    cluster: &Cluster,
    workload: &Workload,
    want: Want,
) -> Result<bool, Fail>
    requires cluster { IsValidCluster cluster.now }
    requires workload { IsValidWorkload cluster.now workload.now }
{
    let mut nodes: Nodes<QueueSched> = Nodes::new(alloc, cluster, workload)?;
    let held = holds(rt, alloc, &mut nodes, want);
    forget(nodes);
    held
}

/// Whether it holds of the run of a cluster with the workload of a file.
fn holds_on<R: Threads + Wait + Sync>(
    rt: &R,
    alloc: Global,
    cluster: &Cluster,
    file: &[u8],
    want: Want,
) -> Result<bool, Fail>
    requires { IsValidCluster cluster.now }
{
    let workload = workload_of(alloc, cluster, file)?;
    let held = holds_of(rt, alloc, cluster, &workload, want);
    forget(workload);
    held
}

/// Whether it holds of the run of the cluster and the workload of two files.
pub fn holds_in<R: Threads + Wait + Sync>(
    rt: &R,
    alloc: Global,
    cluster: &[u8],
    workload: &[u8],
    want: Want,
) -> Result<bool, Fail> {
    let cluster = cluster_of(alloc, cluster)?;
    let held = holds_on(rt, alloc, &cluster, workload, want);
    forget(cluster);
    held
}

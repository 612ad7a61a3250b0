//! What `run` and `big` report: all regions run at once, until every call is answered and every attempt executed everywhere.
ghost use Rattle.std.specs.Prelude.{◌≡◌, ◌≤◌, IfOk};
ghost use Rattle.std.specs.Fmt.{decimal};
ghost use Rattle.dt_cluster.specs.Valid.{IsValidCluster};
ghost use Rattle.dt_workload.specs.Valid.{IsValidWorkload};
ghost use Rattle.dt_command.specs.TaskCode.{IsRight, run_asked_for};
ghost use Rattle.dt_command.specs.Headline.{BigRun};
ghost use Rattle.dt_command.specs.RefusalCode.{IsSummaryOfRun, IsTextOf, IsTextOfRun};

use crate::files::load_both;
use crate::status::Status;
use crate::words::RunWords;
use dt_cluster::Cluster;
use dt_gen::generate;
use dt_graph::QueueSched;
use dt_lock::NoGate;
use dt_outside::Folder;
use dt_run::{Nodes, run_to_end};
use dt_text::NoMemory;
use dt_workload::Workload;
use std::alloc::Global;
use std::mem::forget;
use std::sync::Wait;
use std::thread::Threads;

/// The text of the report that a run asks for, or why there is none. No clause says that it returns.
pub fn run_text<R: Threads + Wait + Sync, F: Folder>(
    rt: &R,
    alloc: Global,
    words: RunWords<'_>,
    files: &mut F,
) -> Result<Vec<u8>, Status>
    requires { IsRight words.cluster }
    ensures { IsTextOf F.seen files.old files.new result (run_asked_for words.entry) }
{
    let (cluster, workload) = load_both(alloc, files, words.cluster, words.workload)?;
    Ok(text_of_run(rt, alloc, cluster, workload)?)
}

/// What is reported of a run of the generated load of n calls. No clause says that it returns.
pub fn big_text<R: Threads + Wait + Sync>(
    rt: &R,
    alloc: Global,
    calls: u32,
) -> Result<Vec<u8>, NoMemory>
    requires some { 1 ≤ calls }
    requires few { calls ≤ 20000 }
    ensures { IfOk result (λ text. BigRun (decimal calls) (λ lines. text.items ≡ lines)) }
{
    let (cluster, workload) = generate(alloc, calls)?;
    summary_of_run(rt, alloc, cluster, workload, calls)
}

/// The text of the report of a run of a workload in a cluster.
fn text_of_run<R: Threads + Wait + Sync>(
    rt: &R,
    alloc: Global,
    cluster: Cluster,
    workload: Workload,
) -> Result<Vec<u8>, NoMemory>
    requires cluster { IsValidCluster cluster }
    requires workload { IsValidWorkload cluster workload }
    ensures { IfOk result (λ text. IsTextOfRun cluster workload text.items) }
{
    let mut nodes: Nodes<QueueSched> = Nodes::opening(alloc, cluster, workload)?;
    run_to_end(rt, alloc, &mut nodes, &NoGate)?;
    nodes.text(alloc)
}

/// The summary of the report of a run of a workload of n calls in a cluster.
fn summary_of_run<R: Threads + Wait + Sync>(
    rt: &R,
    alloc: Global,
    cluster: Cluster,
    workload: Workload,
    calls: u32,
) -> Result<Vec<u8>, NoMemory>
    requires cluster { IsValidCluster cluster }
    requires workload { IsValidWorkload cluster workload }
    ensures { IfOk result (λ text. IsSummaryOfRun cluster workload calls text.items) }
{
    let mut nodes: Nodes<QueueSched> = Nodes::opening(alloc, cluster, workload)?;
    run_to_end(rt, alloc, &mut nodes, &NoGate)?;
    let text = nodes.summary(alloc, calls)?;
    // The program ends soon, and then gives back all memory at once.
    forget(nodes);
    Ok(text)
}

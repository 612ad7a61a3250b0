ghost use Rattle.std.specs.Prelude.{◌≡◌, ◌≤◌, length, IfOk};
ghost use Rattle.dt_cluster.specs.Valid.{IsValidCluster};
ghost use Rattle.dt_workload.specs.Valid.{IsValidWorkload};
ghost use Rattle.dt_session.specs.Run.{AreLegal, world_after};
ghost use Rattle.dt_report.specs.Report.{report_text};
ghost use Rattle.dt_world.specs.WorldReport.{report_of, IsToldBy};
ghost use Rattle.dt_command.specs.TaskCode.{IsRight, asked_for};
ghost use Rattle.dt_command.specs.TaskFiles.{file_limit, unnumbered};
ghost use Rattle.dt_command.specs.RefusalCode.{IsStepRefusal, IsTextOf, refusal_of};

use crate::files::{load_both, load_events};
use crate::status::{EventsCause, Status};
use crate::words::ReplayWords;
use dt_cluster::Cluster;
use dt_events::NumberedEvents;
use dt_graph::QueueSched;
use dt_outside::Folder;
use dt_workload::Workload;
use dt_world::{StepError, World};
use std::alloc::Global;
use std::mem::forget;

/// The text of the report that a replay asks for, or why there is none.
pub fn replay_text<F: Folder>(
    alloc: Global,
    replay: ReplayWords<'_>,
    files: &mut F,
) -> Result<Vec<u8>, Status>
    requires { IsRight replay.cluster }
    ensures { IsTextOf F.seen files.old files.new result (asked_for replay.entry) }
{
    let (cluster, workload) = load_both(alloc, files, replay.cluster, replay.workload)?;
    let events = load_events(alloc, files, replay.events)?;
    report_of(alloc, cluster, workload, events)
}

/// The text of the report of these events, if each is legal after those before it.
fn report_of(
    alloc: Global,
    cluster: Cluster,
    workload: Workload,
    events: NumberedEvents,
) -> Result<Vec<u8>, Status>
    requires cluster { IsValidCluster cluster }
    requires workload { IsValidWorkload cluster workload }
    requires few { length events ≤ file_limit }
    ensures legal { IfOk result (λ _. AreLegal cluster workload (unnumbered events)) }
    ensures report { IfOk result (λ text. text.items ≡ report_text (report_of cluster workload (unnumbered events))) }
    ensures told { IfOk result (λ text. IsToldBy text.items (unnumbered events)) }
    ensures refused { (status : _) → result ≡ Err status → IsStepRefusal cluster workload events status }
{
    let world = world_after(alloc, cluster, workload, &events)?;
    let (text, sites) = world.text(alloc, events.events())?;
    // The program ends soon, and then gives back all memory at once, in less time than piece by piece.
    forget(sites);
    forget(events);
    Ok(text)
}

/// The world after these events, if each is legal after those before it.
fn world_after(
    alloc: Global,
    cluster: Cluster,
    workload: Workload,
    numbered: &NumberedEvents,
) -> Result<World<QueueSched>, Status>
    requires cluster { IsValidCluster cluster }
    requires workload { IsValidWorkload cluster workload }
    requires few { length numbered.now ≤ file_limit }
    ensures legal { IfOk result (λ _. AreLegal cluster workload (unnumbered numbered.now)) }
    ensures cluster { IfOk result (λ world. world.cluster ≡ cluster) }
    ensures workload { IfOk result (λ world. world.workload ≡ workload) }
    ensures state { IfOk result (λ world. world.state ≡ world_after cluster workload (unnumbered numbered.now)) }
    ensures refused { (status : _) → result ≡ Err status → IsStepRefusal cluster workload numbered.now status }
{
    let mut world = World::opening(alloc, cluster, workload)?;
    let events = numbered.events();
    for (at, event) in events.iter().enumerate() {
        if let Err(error) = world.step(alloc, event) {
            return Err(refusal(numbered.line(at), error));
        }
    }
    Ok(world)
}

/// What is answered where the event of a line was not made.
fn refusal(line: u32, error: StepError) -> Status
    ensures { result ≡ refusal_of line error }
{
    match error {
        StepError::Illegal(rule) => Status::BadEvents(line, EventsCause::Rule(rule)),
        StepError::NoMemory => Status::NoMemory,
    }
}

//! The run itself.
ghost use denote.Param.Send.{IsSend, IsSync};
ghost use Rattle.std.specs.Prelude.{◌≡◌, ◌≤◌, false, true, IfOk, OnErr, OnOk};
ghost use Rattle.dt_run.specs.EndOfRun.{IsAllDone};
ghost use Rattle.dt_run.specs.HelpersInner.{LendsTurns, HasRunOn, nodes_of};
ghost use Rattle.dt_run.specs.NodesStand.{AreNodes};
ghost use Rattle.dt_run.specs.Phase.{KeepsEvents};
ghost use Rattle.dt_run.specs.Run.{IsRunReport};
ghost use Rattle.dt_run.specs.SeatsInner.{AreRunning, SeatCan, SeatGoes};
ghost use Rattle.dt_run.specs.Silence.{MakesFewPhases, made_in};

use crate::course::{Course, Setting};
use crate::done::all_done;
use crate::nodes::Nodes;
use crate::seat::Seat;
use crate::turns::turn_seat;
use dt_lock::Gate;
use dt_pool::{Helper, Lending, Link, Server, hire, links};
use dt_proc::Procs;
use dt_report::Report;
use dt_sched::Scheduler;
use dt_text::NoMemory;
use std::alloc::Global;
use std::marker::Brand;
use std::sync::Wait;
use std::thread::Threads;
use std::{mem, thread};

/// Makes phases until every call is answered and every region has executed every attempt, and gives the report of the events
/// that the nodes then hold, in the order of their stamps. There is a bound on the number of its phases, for every loss plan of a
/// cluster (at most every second packet is lost), so it returns if each of them does. It fails only when out of memory: in a
/// phase, which the nodes then report (`broken`), and they are as after some phases, of which the last one was made in part; or
/// for the report alone, when all is done. What was kept before stays.
pub fn run<R: Threads + Wait + Sync, S: Scheduler + Drop + Send, G: Gate>(
    rt: &R,
    alloc: Global,
    nodes: &mut Nodes<S>,
    gate: &G,
) -> Result<Report, NoMemory>
    requires { nodes.old.broken ≡ false }
    ensures nodes { AreNodes nodes.new }
    ensures cluster { nodes.new.cluster ≡ nodes.old.cluster }
    ensures workload { nodes.new.workload ≡ nodes.old.workload }
    ensures kept { KeepsEvents nodes.old nodes.new }
    ensures sound { OnOk result (nodes.new.broken ≡ false) }
    ensures done { OnOk result (IsAllDone nodes.new) }
    ensures failed { OnErr result (nodes.new.broken ≡ false → IsAllDone nodes.new) }
    ensures phases { OnOk result (MakesFewPhases nodes.old nodes.new) }
    ensures report { IfOk result (IsRunReport nodes.new) }
{
    run_to_end(rt, alloc, nodes, gate)?;
    nodes.report(alloc)
}

/// Makes the phases of `run`, and no report: whoever wants only its text takes [`Nodes::text`]. It fails only in a phase.
pub fn run_to_end<R: Threads + Wait + Sync, S: Scheduler + Drop + Send, G: Gate>(
    rt: &R,
    alloc: Global,
    nodes: &mut Nodes<S>,
    gate: &G,
) -> Result<(), NoMemory>
    requires { nodes.old.broken ≡ false }
    ensures nodes { AreNodes nodes.new }
    ensures cluster { nodes.new.cluster ≡ nodes.old.cluster }
    ensures workload { nodes.new.workload ≡ nodes.old.workload }
    ensures kept { KeepsEvents nodes.old nodes.new }
    ensures sound { OnOk result (nodes.new.broken ≡ false) }
    ensures done { OnOk result (IsAllDone nodes.new) }
    ensures failed { OnErr result (nodes.new.broken ≡ true) }
    ensures some { OnOk result (1 ≤ made_in nodes.new) }
    ensures phases { OnOk result (MakesFewPhases nodes.old nodes.new) }
{
    let helpers = nodes.course.seats.len().saturating_sub(1);
    let links = links(alloc, helpers);
    let course = mem::replace(&mut nodes.course, Course::begin(Vec::new(alloc)));
    let (course, made) = with_links::<R, S, G, Brand>(
        rt,
        alloc,
        &nodes.setting,
        gate,
        course,
        links,
    );
    nodes.course = course;
    made
}

/// Makes the phases with a helper for each of these links, where a thread for it can be made.
fn with_links<
    R: Threads + Wait + Sync,
    S: Scheduler + Drop + Send,
    G: Gate,
    N: Lending<Seat<S>> + Send,
>(
    rt: &R,
    alloc: Global,
    setting: &Setting,
    gate: &G,
    course: Course<S>,
    links: Vec<Link<Seat<S>>>,
) -> (Course<S>, Result<(), NoMemory>)
    requires links { N.links ≡ links.items }
    requires turns { LendsTurns setting.now.cluster.procs N.can N.goes }
    requires running { AreRunning setting.now.cluster setting.now.workload course.seats.items course.broken course.counts }
    requires sound { course.broken ≡ false }
    ensures running { AreRunning setting.now.cluster setting.now.workload result.0.seats.items result.0.broken result.0.counts }
    ensures run { HasRunOn (nodes_of setting.now course.seats.items course.broken) (nodes_of setting.now result.0.seats.items result.0.broken) result.1 }
{
    thread::scope(
        thread::scope_env(),
        rt,
        move |scope| -> (Course<S>, Result<(), NoMemory>)
            requires send { IsSend N.row × IsSend S.row × IsSync R.row × IsSync G.row }
            requires links { N.links ≡ links.items }
            requires turns { LendsTurns setting.now.cluster.procs N.can N.goes }
            requires running { AreRunning setting.now.cluster setting.now.workload course.seats.items course.broken course.counts }
            requires sound { course.broken ≡ false }
            ensures running { AreRunning setting.entry.now.cluster setting.entry.now.workload result.0.seats.items result.0.broken result.0.counts }
            ensures run { HasRunOn (nodes_of setting.entry.now course.seats.items course.broken) (nodes_of setting.entry.now result.0.seats.items result.0.broken) result.1 }
        {
            let procs = &setting.cluster.procs;
            let workers = setting.cluster.workers;
            let mut links = links;
            let mut helpers = Vec::new(alloc);
            while let Some(link) = links.pop() {
                let Ok((mine, theirs)) = hire::<Seat<S>, N>(alloc, link, links.len()) else {
                    break;
                };
                let served = scope.spawn(
                    move ||
                        requires { LendsTurns procs.now N.can N.goes }
                    { help(rt, alloc, theirs, procs, workers, gate) },
                );
                if served.is_err() {
                    break;
                }
                if helpers.push(mine).is_err() {
                    break;
                }
            }
            make_phases(rt, alloc, setting, gate, course, helpers.as_mut_slice())
        },
    )
}

/// Makes the turns of the seats that are lent to a helper.
fn help<R: Threads + Wait + Sync, S: Scheduler + Drop + Send, G: Gate, N: Lending<Seat<S>>>(
    rt: &R,
    alloc: Global,
    theirs: Server<Seat<S>, N>,
    procs: &Procs,
    workers: u32,
    gate: &G,
)
    requires { LendsTurns procs.now N.can N.goes }
{
    theirs.serve(
        rt,
        &|seat: &mut Seat<S>|
            requires { SeatCan procs.now seat.now }
            ensures { SeatGoes procs.entry.now seat.entry.now seat.exit.now }
        {
            turn_seat(rt, alloc, seat, procs, workers, gate);
        },
    );
}

/// Makes phases until all is done, with these helpers. It fails only in a phase.
fn make_phases<R: Threads + Wait + Sync, S: Scheduler + Drop + Send, G: Gate, N: Lending<Seat<S>>>(
    rt: &R,
    alloc: Global,
    setting: &Setting,
    gate: &G,
    course: Course<S>,
    helpers: &mut [Helper<Seat<S>, N>],
) -> (Course<S>, Result<(), NoMemory>)
    requires turns { LendsTurns setting.now.cluster.procs N.can N.goes }
    requires running { AreRunning setting.now.cluster setting.now.workload course.seats.items course.broken course.counts }
    requires sound { course.broken ≡ false }
    ensures running { AreRunning setting.now.cluster setting.now.workload result.0.seats.items result.0.broken result.0.counts }
    ensures run { HasRunOn (nodes_of setting.now course.seats.items course.broken) (nodes_of setting.now result.0.seats.items result.0.broken) result.1 }
{
    let mut course = course;
    'phases: loop {
        match course.phase(rt, alloc, setting, gate, helpers) {
            Ok(()) => (),
            Err(refused) => return (course, Err(refused)),
        }
        if all_done(course.seats.as_slice()) {
            return (course, Ok(()));
        }
    }
}

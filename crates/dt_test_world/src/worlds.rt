//! Worlds whose cluster, workload and events stand in texts.
ghost use Rattle.std.specs.Prelude.{◌≡◌, [], length, IfOk, OnOk};
ghost use Rattle.dt_cluster.specs.Valid.{IsValidCluster};
ghost use Rattle.dt_test_world.specs.WorldOfEvents.{HasLed};

use dt_cluster::Cluster;
use dt_events::{Event, put_event, read_events};
use dt_plain::PlainSched;
use dt_report::print;
use dt_test_inputs::{cluster_of, workload_of};
use dt_text::NoMemory;
use dt_world::{StepError, World};
use std::alloc::Global;
use std::mem::forget;
use std::test::Fail;

/// More bytes and more events than a test has.
const MANY: usize = 1000000;

/// Makes an event, and adds it to those that were made, if it is legal. Gives its rule where it is refused.
fn make(
    world: &mut World<PlainSched>,
    alloc: Global,
    made: &mut Vec<Event>,
    event: Event,
) -> Result<Option<u8>, Fail>
    requires led { HasLed world.old made.old.items }
    requires steps { world.old.steps ≡ length made.old.items }
    ensures led { OnOk result (HasLed world.new made.new.items) }
    ensures cluster { OnOk result (world.new.cluster ≡ world.old.cluster) }
    ensures steps { OnOk result (world.new.steps ≡ length made.new.items) }
{
    if made.len() >= MANY {
        return Err(Fail::from("a test has few events"));
    }
    match world.step(alloc, &event) {
        Ok(()) => {
            made.push(event)?;
            Ok(None)
        }
        Err(StepError::Illegal(rule)) => Ok(Some(rule)),
        Err(StepError::NoMemory) => Err(NoMemory.into()),
    }
}

/// Makes the events of a file one after another in a world before anything happens, as far as they are legal. Gives these, and the
/// line and the rule of each of the others.
fn play(
    world: &mut World<PlainSched>,
    alloc: Global,
    file: &[u8],
) -> Result<(Vec<Event>, Vec<u8>), Fail>
    requires led { HasLed world.old [] }
    requires steps { world.old.steps ≡ 0 }
    ensures led { IfOk result (λ played. HasLed world.new played.0.items) }
    ensures cluster { OnOk result (world.new.cluster ≡ world.old.cluster) }
{
    if file.len() >= MANY {
        return Err(Fail::from("a test has few bytes"));
    }
    let mut made = Vec::new(alloc);
    let mut refused = Vec::new(alloc);
    let events = read_events(alloc, file)?;
    for at in 0..events.len() {
        let event = events.events()[at].copy(alloc)?;
        if let Some(rule) = make(world, alloc, &mut made, event)? {
            put_refused(alloc, &mut refused, events.line(at), rule)?;
        }
    }
    Ok((made, refused))
}

/// Adds the line of an event and the rule by which it is refused.
pub fn put_refused(alloc: Global, told: &mut Vec<u8>, line: u32, rule: u8) -> Result<(), Fail> {
    let refused = format!(in alloc; "line {line}: rule {rule}\n")?;
    told.extend_from_slice(refused.as_bytes())?;
    Ok(())
}

/// What is asked of a world after its events.
#[derive(Clone, Copy)]
pub enum Asked {
    /// The line and the rule of each event that was refused, and the report of the others.
    Report,
    /// What each region keeps of them, a line each, behind a line with its number.
    Kept,
}

/// What comes of events in a world before anything happens, of n regions.
fn told_by(
    world: &mut World<PlainSched>,
    alloc: Global,
    regions: u8,
    events: &[u8],
    asked: Asked,
) -> Result<Vec<u8>, Fail>
    requires led { HasLed world.old [] }
    requires steps { world.old.steps ≡ 0 }
    requires regions { regions ≡ world.old.cluster.regions }
{
    let (made, refused) = play(world, alloc, events)?;
    match asked {
        Asked::Report => reported(alloc, world, made, refused),
        Asked::Kept => kept(alloc, world, regions),
    }
}

/// What comes of events on a cluster and a workload of it.
fn told_on(
    alloc: Global,
    cluster: &Cluster,
    workload: &[u8],
    events: &[u8],
    asked: Asked,
) -> Result<Vec<u8>, Fail>
    requires { IsValidCluster cluster.now }
{
    let workload = workload_of(alloc, cluster, workload)?;
    let world = World::begin(alloc, cluster, &workload);
    forget(workload);
    let mut world = world?;
    let told = told_by(&mut world, alloc, cluster.regions, events, asked);
    forget(world);
    told
}

/// What comes of events on a cluster and its workload. The world, the workload and the cluster are left to the end of the process: that
/// they may be dropped would be proved in each function that owns one.
pub fn told(
    alloc: Global,
    cluster: &[u8],
    workload: &[u8],
    events: &[u8],
    asked: Asked,
) -> Result<Vec<u8>, Fail> {
    let cluster = cluster_of(alloc, cluster)?;
    let told = told_on(alloc, &cluster, workload, events, asked);
    forget(cluster);
    told
}

/// The report of the events that led to a world, behind these lines.
fn reported(
    alloc: Global,
    world: &World<PlainSched>,
    made: Vec<Event>,
    lines: Vec<u8>,
) -> Result<Vec<u8>, Fail>
    requires { HasLed world.now made.items }
{
    let report = world.report(alloc, made)?;
    let text = print(alloc, &report);
    forget(report);
    let mut told = lines;
    told.extend_from_slice(text?.as_slice())?;
    Ok(told)
}

/// What each of n regions keeps, a line each, behind a line with its number.
fn kept(alloc: Global, world: &World<PlainSched>, regions: u8) -> Result<Vec<u8>, Fail>
    requires { regions ≡ world.now.cluster.regions }
{
    let mut told = Vec::new(alloc);
    for region in 0..regions {
        told.extend_from_slice(format!(in alloc; "region {region}\n")?.as_bytes())?;
        for kept in world.kept(region) {
            put_event(alloc, &mut told, &kept.event)?;
        }
    }
    Ok(told)
}

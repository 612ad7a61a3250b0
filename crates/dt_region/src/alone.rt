ghost use Rattle.std.specs.Prelude.{◌≡◌, List, OnOk};
ghost use Rattle.dt_access.specs.declared.TxnId.{TxnId};
ghost use Rattle.dt_proc.specs.Tree.{ProcTree};
ghost use Rattle.dt_sched.specs.Sched.{CanExecute};
ghost use Rattle.dt_region.specs.Conditions.{CanMove, HoldsValid};
ghost use Rattle.dt_region.specs.Region.{HasStamp, RegionView, sched_of};
ghost use Rattle.dt_region.specs.Sound.{IsSoundRegion};
ghost use Rattle.dt_region.specs.StepsInner.{InsertsSome, StepsOn};
ghost use Rattle.dt_region.specs.Underway.{IsOnWay, IsUnderway};
ghost use Rattle.dt_txn.specs.Replica.{IsDrained};

use crate::region::Region;
use crate::rounds::Rounds;
use dt_proc::Procs;
use dt_sched::Scheduler;
use dt_text::NoMemory;
use std::alloc::Global;

/// Makes rounds on the calling thread.
#[derive(Drop)]
pub struct Alone;

impl<S: Scheduler> Rounds<Region<S>> for Alone {
    ghost ready = { λ alone. Unit {0} };

    fn round(&self, alloc: Global, region: &mut Region<S>, procs: &Procs) -> Result<(), NoMemory> {
        let regions = region.regions();
        finish(alloc, region, regions, procs)
    }
}

/// Finishes a round on its way, of one of n regions, on the calling thread: inserts, resolves and executes, by these
/// procedures, until nothing is left. After `NoMemory` it has stopped somewhere on the way.
pub fn finish<S: Scheduler>(
    alloc: Global,
    region: &mut Region<S>,
    regions: u8,
    procs: &Procs,
) -> Result<(), NoMemory>
    requires regions { regions ≡ region.old.state.regions }
    requires on_way { IsOnWay procs.now region.old }
    ensures underway { (entry : RegionView) → IsUnderway procs.now entry region.old → IsUnderway procs.now entry region.new }
    ensures drained { OnOk result (IsDrained region.new.state.logs region.new.state.here) }
{
    'steps: loop {
        if !step(alloc, region, regions, procs)? {
            return Ok(());
        }
    }
}

// Makes one step of one of n regions: it inserts, or else executes, or else resolves. False where there is nothing left
// to do.
fn step<S: Scheduler>(
    alloc: Global,
    region: &mut Region<S>,
    regions: u8,
    procs: &Procs,
) -> Result<bool, NoMemory>
    requires regions { regions ≡ region.old.state.regions }
    requires sound { IsSoundRegion region.old.state }
    requires stamp { HasStamp region.old }
    requires holds { HoldsValid procs.now region.old.state }
    requires moves { (id : TxnId) → CanExecute (sched_of region.old.state.logs region.old.state.here) id → CanMove region.old.state id }
    ensures steps { StepsOn procs.now region.old result region.new }
    ensures sound { IsSoundRegion region.new.state }
{
    if insert_some(alloc, region, regions)? {
        return Ok(true);
    }
    if let Some(id) = region.ready(alloc, &[])? {
        return region.execute(alloc, id, procs);
    }
    if let Some(ids) = region.next_class(alloc)? {
        return region.resolve(alloc, ids.as_slice());
    }
    Ok(false)
}

// Inserts the next part of the first log of which one is left; the others are passed over at the cost of a comparison. False
// where all that is received is inserted.
fn insert_some<S: Scheduler>(
    alloc: Global,
    region: &mut Region<S>,
    regions: u8,
) -> Result<bool, NoMemory>
    requires regions { regions ≡ region.old.state.regions }
    requires sound { IsSoundRegion region.old.state }
    requires stamp { HasStamp region.old }
    ensures inserts { (procs : List ProcTree) → InsertsSome procs region.old result region.new }
    ensures sound { IsSoundRegion region.new.state }
{
    for home in 0..regions {
        if region.inserted(home) < region.log(home).len() {
            return region.insert(alloc, home);
        }
    }
    Ok(false)
}

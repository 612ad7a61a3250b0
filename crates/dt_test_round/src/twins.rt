//! Two equal regions, to which the same calls and parts come, of each in turn.
ghost use Rattle.std.specs.Prelude.{◌≡◌, ◌+◌, ◌<◌, IfOk, OnOk};
ghost use Rattle.dt_events.specs.declared.Event.TheVariants.{Submit};
ghost use Rattle.dt_txn.specs.Transaction.{BodyFits};
ghost use Rattle.dt_region.specs.Rules.{after_submit, with_event};
ghost use Rattle.dt_region.specs.Rounds.{CanRound};
ghost use Rattle.dt_test_round.specs.FedRegion.{WasFed};

use crate::feeding::{Row, next};
use crate::requests::{Submitted, wanted};
use crate::rounds::begun;
use crate::steps::{PUT_B, PUT_D};
use dt_proc::Procs;
use dt_region::Region;
use dt_sched::Scheduler;
use dt_text::Name;
use dt_txn::Body;
use std::alloc::Global;
use std::mem::forget;
use std::test::Fail;

/// A session of a region, which has made at most n events before, submits a copy of a call.
fn submit_copy<S: Scheduler>(
    alloc: Global,
    region: &mut Region<S>,
    procs: &Procs,
    count: usize,
    session: &Name,
    body: &Body,
) -> Result<(), Fail>
    requires few { count < 1000 }
    requires fed { WasFed procs.now count region.old }
    requires fits { BodyFits procs.now region.old.state.here.table.version region.old.state.regions body.now }
    ensures fed { OnOk result (WasFed procs.now (count + 1) region.new) }
    ensures makes { OnOk result (region.new ≡ with_event region.old (after_submit procs.now region.old.state 5 body.now) (Submit region.old.state.number session.now)) }
{
    region.submit(alloc, session, 5, body.copy(alloc)?, procs)?;
    Ok(())
}

/// The same session of two equal regions, which have made at most n events before, submits copies of a call.
fn submit_copies<S: Scheduler>(
    alloc: Global,
    region: &mut Region<S>,
    twin: &mut Region<S>,
    procs: &Procs,
    count: usize,
    session: &Name,
    body: &Body,
) -> Result<(), Fail>
    requires few { count < 1000 }
    requires fed { WasFed procs.now count region.old }
    requires equal { twin.old ≡ region.old }
    requires fits { BodyFits procs.now region.old.state.here.table.version region.old.state.regions body.now }
    ensures fed { OnOk result (WasFed procs.now (count + 1) region.new) }
    ensures equal { OnOk result (twin.new ≡ region.new) }
{
    submit_copy(alloc, twin, procs, count, session, body)?;
    submit_copy(alloc, region, procs, count, session, body)?;
    Ok(())
}

/// The same session of two equal regions, which have made at most n events before, submits a call.
fn submit<S: Scheduler>(
    alloc: Global,
    region: &mut Region<S>,
    twin: &mut Region<S>,
    procs: &Procs,
    count: usize,
    call: &Submitted,
) -> Result<(), Fail>
    requires few { count < 1000 }
    requires fed { WasFed procs.now count region.old }
    requires equal { twin.old ≡ region.old }
    ensures fed { OnOk result (WasFed procs.now (count + 1) region.new) }
    ensures equal { OnOk result (twin.new ≡ region.new) }
{
    let (session, number, arguments) = wanted(alloc, procs, call)?;
    let body = Body::Call(number, arguments);
    submit_copies(alloc, region, twin, procs, count, &session, &body)
}

/// Two equal regions, which have made at most n events before, place the same part in their own logs.
fn place<S: Scheduler>(
    alloc: Global,
    region: &mut Region<S>,
    twin: &mut Region<S>,
    procs: &Procs,
    count: usize,
    row: &Row,
) -> Result<(), Fail>
    requires few { count < 1000 }
    requires fed { WasFed procs.now count region.old }
    requires equal { twin.old ≡ region.old }
    ensures fed { OnOk result (WasFed procs.now (count + 1) region.new) }
    ensures equal { OnOk result (twin.new ≡ region.new) }
{
    let (home, _, by, _) = *row;
    if home != region.number() || by >= region.regions() {
        return Err(Fail::from("the home is the region"));
    }
    let txn = next(alloc, region, procs, row)?;
    let number = region.taken(by);
    if !twin.append(alloc, by, number, &txn)? || !region.append(alloc, by, number, &txn)? {
        return Err(Fail::from("the request is the next one"));
    }
    Ok(())
}

/// In two equal regions that have done nothing two sessions submit a call, and the parts of both calls come to stand in the region's log.
fn feed<S: Scheduler>(
    alloc: Global,
    region: &mut Region<S>,
    twin: &mut Region<S>,
    procs: &Procs,
) -> Result<(), Fail>
    requires fed { WasFed procs.now 0 region.old }
    requires equal { twin.old ≡ region.old }
    ensures can { OnOk result (CanRound procs.now region.new) }
    ensures equal { OnOk result (twin.new ≡ region.new) }
{
    submit(alloc, region, twin, procs, 0, &(b"x", PUT_B))?;
    submit(alloc, region, twin, procs, 1, &(b"y", PUT_D))?;
    place(alloc, region, twin, procs, 2, &(0, 1, 0, PUT_B))?;
    place(alloc, region, twin, procs, 3, &(0, 2, 0, PUT_D))?;
    Ok(())
}

/// Two equal regions to which all this came.
pub fn twins<S: Scheduler + Drop>(
    alloc: Global,
    procs: &Procs,
) -> Result<(Region<S>, Region<S>), Fail>
    ensures can { IfOk result (λ twins. CanRound procs.now twins.0) }
    ensures equal { IfOk result (λ twins. twins.1 ≡ twins.0) }
{
    let mut region: Region<S> = begun(alloc, 0, 2)?;
    let mut twin: Region<S> = match begun(alloc, 0, 2) {
        Ok(twin) => twin,
        Err(fail) => {
            forget(region);
            return Err(fail);
        }
    };
    match feed(alloc, &mut region, &mut twin, procs) {
        Ok(()) => Ok((region, twin)),
        Err(fail) => {
            forget(region);
            forget(twin);
            Err(fail)
        }
    }
}

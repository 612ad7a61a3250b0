//! What a region submits.
ghost use Rattle.std.specs.Prelude.{◌+◌, ◌<◌, ◌≤◌, length, IfOk, OnOk};
ghost use Rattle.dt_eval.specs.Calls.{CallFits};
ghost use Rattle.dt_test_round.specs.FedRegion.{WasFed};

use crate::calls::{Call, call_of};
use dt_eval::Args;
use dt_proc::Procs;
use dt_region::Region;
use dt_sched::Scheduler;
use dt_text::Name;
use dt_txn::Body;
use std::alloc::Global;
use std::test::Fail;

/// The name of a session, and the call that it submits.
pub type Submitted<'a> = (&'a [u8], Call<'a>);

/// The name of a session, and the number of its call's procedure with the arguments.
pub fn wanted(alloc: Global, procs: &Procs, call: &Submitted) -> Result<(Name, u32, Args), Fail>
    ensures { IfOk result (λ wanted. CallFits procs.now wanted.1 wanted.2) }
{
    let (session, call) = *call;
    if session.len() > 32 {
        return Err(Fail::from("a name is short"));
    }
    let session = Name::read(alloc, session)?;
    let (number, arguments) = call_of(alloc, procs, call)?;
    Ok((session, number, arguments))
}

/// A session of a region, which has made at most n events before, submits a call.
fn submit<S: Scheduler>(
    alloc: Global,
    region: &mut Region<S>,
    procs: &Procs,
    count: usize,
    call: &Submitted,
) -> Result<(), Fail>
    requires few { count < 1000 }
    requires fed { WasFed procs.now count region.old }
    ensures { OnOk result (WasFed procs.now (count + 1) region.new) }
{
    let (session, number, arguments) = wanted(alloc, procs, call)?;
    region.submit(alloc, &session, 5, Body::Call(number, arguments), procs)?;
    Ok(())
}

/// Sessions of a region that has done nothing submit these calls.
pub fn submit_all<S: Scheduler>(
    alloc: Global,
    region: &mut Region<S>,
    procs: &Procs,
    calls: &[Submitted],
) -> Result<(), Fail>
    requires { WasFed procs.now 0 region.old }
    ensures few { OnOk result (length calls.now ≤ 100) }
    ensures fed { OnOk result (WasFed procs.now (length calls.now) region.new) }
{
    if calls.len() > 100 {
        return Err(Fail::from("a test has few calls"));
    }
    for (count, call) in calls.iter().enumerate() {
        submit(alloc, region, procs, count, call)?;
    }
    Ok(())
}

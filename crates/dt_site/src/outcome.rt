//! What becomes of a session's attempts, by what its region keeps: the outcome of the one that it waits for, and which is its
//! next.
ghost use Rattle.std.specs.Prelude.{◌≡◌, ◌<◌, length, IfOk, IsSome};
ghost use Rattle.std.specs.Option.{option_copied};
ghost use Rattle.dt_access.specs.Clash.{Bytes};
ghost use Rattle.dt_session.specs.Sessions.{StandsAt};
ghost use Rattle.dt_site.specs.NextAttempt.{HasNextCall, IsNextHere, last_here};

use crate::site::Origin;
use dt_region::Region;
use dt_sched::Scheduler;
use dt_session::Sessions;
use dt_text::NoMemory;
use dt_txn::{Body, Outcome};
use std::alloc::Global;

/// The outcome at a region of the attempt that the session at this place, from 0, in byte order of names, waits for, if there
/// are all three. Takes no memory.
pub fn last_outcome_at<'a, S: Scheduler>(
    sessions: &Sessions,
    region: &'a Region<S>,
    index: u32,
) -> Option<&'a Outcome>
    ensures outcome { (name : Bytes) → StandsAt sessions.now index name → option_copied result ≡ last_here sessions.now region.now.state name }
    ensures there { IsSome result → index < length sessions.now.seats }
{
    region.outcome(sessions.waits_at(index)?)
}

/// What the session at this place, from 0, in byte order of names, may submit next, with its rank, and whose it is: the sessions
/// and the outcomes are those that its region keeps. `None` exactly where it may submit nothing, or no session stands there.
pub fn next_attempt<S: Scheduler>(
    alloc: Global,
    sessions: &Sessions,
    region: &Region<S>,
    index: u32,
) -> Result<Option<(Origin, u8, Body)>, NoMemory>
    requires { (name : Bytes) → StandsAt sessions.now index name → HasNextCall sessions.now region.now.state name }
    ensures next { (name : Bytes) → StandsAt sessions.now index name → IfOk result (IsNextHere sessions.now region.now.state name) }
    ensures there { IfOk result (λ next. IsSome next → index < length sessions.now.seats) }
{
    let last = last_outcome_at(sessions, region, index);
    let Some((call, attempt)) = sessions.next_at(index, last) else {
        return Ok(None);
    };
    let Some(name) = sessions.name(index) else {
        unreachable!()
    };
    let (rank, body) = sessions.body_at(alloc, index, call)?;
    let origin = Origin {
        session: name.copy(alloc)?,
        call,
        attempt,
    };
    Ok(Some((origin, rank, body)))
}

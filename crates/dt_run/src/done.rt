//! Whether all is done: every call is answered, and every region has executed every attempt. Nothing here takes memory.
ghost use Rattle.std.specs.Prelude.{◌↔◌, ◌<◌, ◌+◌, length, IsTrue};
ghost use Rattle.dt_lists.specs.Lists.{AllIn, Has};
ghost use Rattle.dt_txn.specs.Replica.{done_ids};
ghost use Rattle.dt_session.specs.Sessions.{EachNameIsAnswered};
ghost use Rattle.dt_run.specs.EndOfRun.{HasDone};
ghost use Rattle.dt_run.specs.HelpersInner.{HaveAllDone};
ghost use Rattle.dt_run.specs.SeatsInner.{HasFewSubmitted};

use crate::seat::Seat;
use dt_access::TxnId;
use dt_region::Region;
use dt_sched::Scheduler;

/// Whether every call of every session is answered, and every region has executed all that every region submitted.
pub fn all_done<S: Scheduler + Drop>(seats: &[Seat<S>]) -> bool
    requires { AllIn HasFewSubmitted seats.now }
    ensures { IsTrue result ↔ HaveAllDone seats.now }
{
    are_answered(seats) && have_done_all(seats)
}

/// Whether every call of every session is answered.
fn are_answered<S: Scheduler + Drop>(seats: &[Seat<S>]) -> bool
    ensures { IsTrue result ↔ AllIn (λ s. EachNameIsAnswered s.node.sessions) seats.now }
{
    for seat in seats {
        if !seat.node.sessions().all_answered() {
            return false;
        }
    }
    true
}

/// Whether every region has executed all that every region submitted.
fn have_done_all<S: Scheduler + Drop>(seats: &[Seat<S>]) -> bool
    requires { AllIn HasFewSubmitted seats.now }
    ensures { IsTrue result ↔ AllIn (λ source. AllIn (λ s. HasDone s.node source.node) seats.now) seats.now }
{
    for source in seats {
        if !have_done(seats, source.node.region()) {
            return false;
        }
    }
    true
}

/// Whether every region has executed all that one submitted.
fn have_done<S: Scheduler + Drop>(seats: &[Seat<S>], source: &Region<S>) -> bool
    requires { length source.now.state.submitted + 1 < 4294967296 }
    ensures { IsTrue result ↔ AllIn (λ s. AllIn (λ txn. Has (done_ids s.node.site.region.state.here) txn.id) source.now.state.submitted) seats.now }
{
    for seat in seats {
        if !has_done(seat.node.region(), source) {
            return false;
        }
    }
    true
}

/// Whether a region has executed all that another one submitted.
fn has_done<S: Scheduler>(region: &Region<S>, source: &Region<S>) -> bool
    requires { length source.now.state.submitted + 1 < 4294967296 }
    ensures { IsTrue result ↔ AllIn (λ txn. Has (done_ids region.now.state.here) txn.id) source.now.state.submitted }
{
    let mut id = TxnId {
        seq: 1,
        region: source.number(),
    };
    while source.txn(id).is_some() {
        if region.outcome(id).is_none() {
            return false;
        }
        id.seq += 1;
    }
    true
}

//! How many phases were made, and how many events and answers were kept, as the nodes count them.
ghost use Rattle.std.specs.Prelude.{◌≡◌, ◌<◌, ◌+◌, ◌==◌, ◌^◌, length, sum_by, if◌then◌else◌};
ghost use Rattle.dt_run.specs.SeatsInner.{answers_at, events_at, seat_at};

use crate::seat::Seat;
use dt_gen::kept_answers;
use dt_sched::Scheduler;

/// How far all nodes have come.
#[derive(Clone, Copy, Debug, PartialEq, Eq)]
pub struct Counts {
    /// How many phases were made.
    pub made: u64,
    /// How many events all regions together have kept.
    pub kept: u64,
    /// How many silent phases were made since the last one in which some event was kept.
    pub quiet: u64,
}

impl Counts {
    /// Before the first phase.
    pub fn none() -> Self
        ensures { result ≡ record { made = 0; kept = 0; quiet = 0 } }
    {
        Counts {
            made: 0,
            kept: 0,
            quiet: 0,
        }
    }

    /// After one phase more, which left these seats.
    pub fn after<S: Scheduler + Drop>(self, seats: &[Seat<S>]) -> Self
        requires kept { sum_by events_at seats.now < 2 ^ 64 }
        requires quiet { self.quiet < length (seat_at seats.now 0).marks }
        ensures made { result.made ≡ length (seat_at seats.now 0).marks }
        ensures kept { result.kept ≡ sum_by events_at seats.now }
        ensures quiet { result.quiet ≡ (if self.kept == result.kept then self.quiet + 1 else 0) }
    {
        let made = marks_of(seats);
        let kept = kept_by(seats);
        let quiet = if self.kept == kept { self.quiet + 1 } else { 0 };
        Counts { made, kept, quiet }
    }
}

/// How many phases the first seat has marked.
fn marks_of<S: Scheduler + Drop>(seats: &[Seat<S>]) -> u64
    ensures { result ≡ length (seat_at seats.now 0).marks }
{
    match seats.first() {
        Some(seat) => seat.marks.len() as u64,
        None => 0,
    }
}

/// How many events the regions of all seats have kept.
fn kept_by<S: Scheduler + Drop>(seats: &[Seat<S>]) -> u64
    requires { sum_by events_at seats.now < 2 ^ 64 }
    ensures { result ≡ sum_by events_at seats.now }
{
    seats
        .iter()
        .map(|seat| seat.node.region().events().len() as u64)
        .sum()
}

/// How many answers the regions of all seats have kept.
pub fn answers_by<S: Scheduler + Drop>(seats: &[Seat<S>]) -> u64
    requires { sum_by answers_at seats.now < 2 ^ 64 }
    ensures { result ≡ sum_by answers_at seats.now }
{
    seats
        .iter()
        .map(|seat| kept_answers(seat.node.region().events()) as u64)
        .sum()
}

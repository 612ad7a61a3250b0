ghost use Rattle.std.specs.Prelude.{◌≡◌, IfOk};
ghost use Rattle.dt_events.specs.declared.event.Event.TheVariants.{Append, Deliver};

use dt_access::{Ids, TxnId};
use dt_text::{Common, Name, NoMemory};
use std::alloc::Global;

/// One atomic step of one region, the region being the first number in its text. It takes 16 bytes: what has more lies elsewhere.
#[derive(Debug, PartialEq, Eq, Drop)]
pub enum Event {
    /// A session of the region submits its next attempt.
    Submit {
        region: u8,
        session: Name,
    },
    /// The home `home` takes request number `number`, from 0, of those that region `source` asked it to place.
    Append {
        home: u8,
        source: u8,
        number: u32,
    },
    /// The region receives the entries of a home's log from place `first` up to `last`.
    Deliver {
        region: u8,
        home: u8,
        first: u32,
        last: u32,
    },
    /// The region inserts the next entry of a home's log into its graph.
    Insert {
        region: u8,
        home: u8,
    },
    /// The region resolves a deadlocked group.
    Resolve {
        region: u8,
        ids: Common<Ids>,
    },
    /// The region executes a transaction.
    Execute {
        region: u8,
        id: TxnId,
    },
    /// The region answers one of its sessions.
    Answer {
        region: u8,
        session: Name,
    },
}

/// An event with the stamp under which its region keeps it. The stamps of a region's events rise.
#[derive(Drop)]
pub struct Stamped {
    pub stamp: u64,
    pub event: Event,
}

impl Event {
    /// An equal event.
    pub fn copy(&self, alloc: Global) -> Result<Self, NoMemory>
        ensures { IfOk result (λ copied. copied ≡ self.now) }
    {
        match self {
            Event::Submit { region, session } => Ok(Event::Submit {
                region: *region,
                session: session.copy(alloc)?,
            }),
            Event::Resolve { region, ids } => Ok(Event::Resolve {
                region: *region,
                ids: ids.copy()?,
            }),
            Event::Append {
                home,
                source,
                number,
            } => Ok(appended(*home, *source, *number)),
            Event::Deliver {
                region,
                home,
                first,
                last,
            } => Ok(delivered(*region, *home, *first, *last)),
            Event::Insert { region, home } => Ok(Event::Insert {
                region: *region,
                home: *home,
            }),
            Event::Execute { region, id } => Ok(Event::Execute {
                region: *region,
                id: *id,
            }),
            Event::Answer { region, session } => Ok(Event::Answer {
                region: *region,
                session: session.copy(alloc)?,
            }),
        }
    }
}

/// The event in which a home takes a request.
fn appended(home: u8, source: u8, number: u32) -> Event
    ensures { result ≡ Append home source number }
{
    Event::Append {
        home,
        source,
        number,
    }
}

/// The event in which a region receives entries of a home's log.
fn delivered(region: u8, home: u8, first: u32, last: u32) -> Event
    ensures { result ≡ Deliver region home first last }
{
    Event::Deliver {
        region,
        home,
        first,
        last,
    }
}

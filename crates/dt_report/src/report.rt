use dt_access::TxnId;
use dt_events::Event;
use dt_table::ShownList;
use dt_text::{Listed, Name};
use dt_txn::Outcome;

/// The answer to a session's call.
#[derive(Drop)]
pub struct Reply {
    pub session: Name,
    /// The number of the call in its session, from 1.
    pub call: u32,
    /// The outcome of its last attempt.
    pub outcome: Outcome,
}

/// An executed attempt.
#[derive(Drop)]
pub struct Ran {
    pub id: TxnId,
    pub session: Name,
    /// The number of the call in its session, from 1.
    pub call: u32,
    /// The number of the attempt within its call, from 1.
    pub attempt: u32,
    pub outcome: Outcome,
}

/// Answers, in the order in which they were given.
pub type Replies = Listed<Reply>;

/// Executed attempts.
pub type Rans = Listed<Ran>;

/// For each region, the rows that it shows.
pub type Tables = Listed<ShownList>;

/// Events, in order.
pub type EventList = Listed<Event>;

/// A report.
#[derive(Drop)]
pub struct Report {
    pub replies: Replies,
    /// The executed attempts in the one serial order.
    pub order: Rans,
    pub tables: Tables,
    pub events: EventList,
}

//! Transactions: what a region annotates and sends to the homes, and what one does to a table.
//!
//! A region that submits a call or a move notes for each key which home its table gives it, and how often the key's unit was
//! moved so far. By the homes the transaction is cut into parts, one for the log of each; the numbers of moves show, when it
//! runs, whether its parts still stand in the right logs. If not, it is stale and changes nothing.
//!
//! Read next: `specs/Transaction.antt`, `specs/Execution.antt` and `specs/Staleness.antt`; `specs/Replica.antt` for what a
//! region keeps for itself.
#![tactic(auto)]

mod accesses;
mod annotation;
mod called;
mod execution;
mod laws;
mod outcome;
mod placement;
mod txn;

pub use accesses::Accesses;
pub use annotation::annotate;
pub use execution::{execute, execute_seen, see};
pub use laws::stale_outcomes;
pub use outcome::{Outcome, Seen, Seens};
pub use placement::{homes, part_at, parts};
pub use txn::{Body, Entries, Entry, Txn, Txns};

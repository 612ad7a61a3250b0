//! One region of a cluster, stepped by itself.
//!
//! A region takes the submissions of its sessions, orders in its own log the parts of transactions that are at home with
//! it, receives the logs of the other regions, and from these logs alone decides what to execute and in which order: so
//! all regions execute alike. It knows no other region; whoever holds it carries requests and deliveries to it. Each call
//! of [`Region`] is one of the seven rules by which a world of regions goes on:
//!
//! | rule | call | what becomes of it |
//! |---|---|---|
//! | 1 | `submit` | a transaction with a new id, of this rank, annotated by the region's table; each of its homes is asked for its part |
//! | 2 | `append` | the part of a transaction stands at the end of the region's own log, if it is the next request of its source |
//! | 3 | `deliver` | the entries of another region's log past the end of what was received of it are received |
//! | 4 | `insert` | the next part that was received is in the region's view, from which its scheduler decides |
//! | 5 | `resolve` | a class of deadlocked transactions is resolved, so that they run in the order of their ranks and ids |
//! | 6 | `execute` | a transaction has its outcome, and its effect on the region's table |
//! | 7 | `answer` | a session has its answer, of which the region keeps the event alone |
//!
//! A call keeps its event where it changed something, and where it answers `NoMemory` nothing has changed. The event's stamp
//! is one above the greatest of the region's last stamp and all stamps that it heard of (`hear`). A region is `drained` where
//! it has inserted all that it received, and may neither execute nor resolve anything; a round brings it there ([`Rounds`]),
//! of which the calling thread makes one by itself ([`Alone`]). What makes rounds is generic in that trait, so that a round
//! by many threads makes the same promise. What a call does is stated in `specs/Rules.antt`, when it may be made in
//! `specs/Conditions.antt`, and what holds of every region in `specs/Sound.antt`.
//!
//! A region that is alone in its cluster runs a body so, where `S` is a scheduler:
//!
//! ```text
//! let mut region: Region<S> = Region::new(alloc, 0, 1, table)?;
//! let id = region.submit(alloc, &session, rank, body, &procs)?;
//! let txn = region.common_txn(id)?.copy()?;
//! region.append_owned(alloc, 0, 0, txn)?;   // the request of its only home, which is itself
//! region.insert(alloc, 0)?;
//! region.execute(alloc, id, &procs)?;       // region.outcome(id) is what the session is answered
//! region.answer(alloc, &session)?;
//! ```
#![tactic(auto)]

mod alone;
mod by_id;
mod entries;
mod foreign;
mod kept;
mod opening;
mod region;
mod requests;
mod rounds;

pub use alone::{Alone, finish};
pub use region::Region;
pub use rounds::{Rounded, Rounds};

//! A region behind a lock, for one round by many threads.
//!
//! A round inserts, resolves and executes until nothing is left (`dt_region`). Most of its time goes into what transactions
//! compute, and that needs no lock: a worker claims a transaction under the lock, with a copy of what it sees, computes outside,
//! and commits under the lock. The lock keeps [`Held`], whose type says that all of this is one legal continuation of the region,
//! whatever the schedule: each step under the lock is one event of the region, or none.
//!
//! | step under the lock | event |
//! |---|---|
//! | [`Held::insert`] that answers true | `insert` |
//! | [`Held::resolve`] that gives a class | `resolve` |
//! | [`Held::commit`] that answers true | `execute` |
//! | `enter`, `leave`, `claim`, `give_back`, `cancel` | none |
//!
//! What a worker brings back is a [`Finished`], which only its own [`Claim`] gives, by `work`: so a worker is trusted with nothing.
//! A claim takes all the memory that its commit needs, so no commit is refused.
//!
//! What belongs to one round carries its name, a type of the trait [`Named`]: contracts see in it the region as it was before the
//! round, and the procedures. Read next: `specs/Held.antt`, for what the lock keeps.
#![tactic(auto)]

mod by;
mod by_threads;
mod claim;
mod clashes;
mod gate;
mod held;
mod jobs;
mod named;
mod running;
mod statements;
mod work;

pub use by::By;
pub use by_threads::round;
pub use claim::{Claim, Finished};
pub use gate::{Gate, NoGate};
pub use held::Held;
pub use named::Named;
pub use running::Running;

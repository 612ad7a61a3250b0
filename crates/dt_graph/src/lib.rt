//! The scheduler with queues: it decides from what is left in the graph, and from nothing else, what may be executed and
//! resolved.
//!
//! Once all that reaches a transaction is done, it is out: nothing waits for it, and no answer reads it. Of the
//! others, each use of a row stands in a queue (the crate dt_queue), and a transaction waits for the neighbours of its entries;
//! its degree counts them. Why that is enough is shown in the crate dt_waits, whose words the contracts here use. So
//!
//! - one that is complete, in no resolved class and of degree 0 is executable: it is kept in a set of those that are ready;
//! - one that is complete, in no resolved class and of a higher degree is stuck, until its neighbours are done, or until a
//!   class of stuck ones is found that waits for nothing else. Such a class is resolvable, and it is looked for among the
//!   stuck ones alone (the crate dt_class);
//! - of a resolved class the soonest member that is not done is ready.
//!
//! Once all before it have left too, the record of a transaction that has left is forgotten.
//!
//! Read next: dt_waits for what is kept and why it is enough, `sched.rt` for the calls, `specs/SmallStepsInner.antt` for what happens
//! within one.
#![tactic(auto)]

mod class;
mod enter;
mod gone;
mod graph;
mod group;
mod kept;
mod leave;
mod members;
mod names;
mod records;
mod room;
mod sched;
mod seen;
mod vertices;
mod waits;

pub use sched::QueueSched;

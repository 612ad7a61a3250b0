//! What a region may decide from the parts that it has inserted: which transactions it may execute, and which groups
//! it may resolve. The trait `Scheduler` is what decides it.
//!
//! Each home keeps a log. In it stand the parts of all transactions that use rows of that home, each part with its keys
//! and modes, and with the list of all homes of its transaction. All regions insert the same logs, each as far as it has
//! received them.
//!
//! - **View**: what a region has inserted, of each log a front.
//! - **Edge**: from u to t where in some log u's part stands before t's part and the two clash: they have a key in
//!   common of which one of them does more than read it, or one of them takes a granule as a whole of which the other has
//!   a key.
//! - **Reaches**: a chain of edges leads from u to t, or u is t.
//! - **Complete**: the transaction has its part at each of its homes. **Closed**: all that reaches it is complete. Then no
//!   longer view has anything more that reaches it.
//! - **Class**: all that reach t and that t reaches. Where each transaction has one home, classes have one member; with
//!   more homes the edges may form a cycle.
//! - **Precedes**: u reaches t, and if t reaches u too, u is the sooner one: its rank is lower, or the ranks are the same
//!   and its id is smaller. It is a strict order.
//! - **Executable**: closed, not done, all that precedes it is done, and its class is resolved if it has two members.
//! - **Resolvable**: a class of two or more, all of it complete, where all else that reaches it is done.
//!
//! An example: two payments, 1.0 from row a to row b, and 1.1 from b to a. Row a has home 0, row b has home 1. Home 0 puts
//! 1.0 before 1.1, home 1 puts 1.1 before 1.0. A region that has inserted only the first entry of each log sees no edge;
//! but neither payment is complete, so neither is executable. With all four entries inserted there are edges both ways:
//! the two are one class, which is resolvable, and 1.0 precedes 1.1 where they have the same rank, since its id is the
//! smaller one. Once the class is resolved, 1.0 runs, and then 1.1. Every region finds this, in whatever order the entries
//! came.
//!
//! Read next: `specs/Views.antt` and `specs/Decide.antt` for the definitions, `laws.rt` for what holds of every view (that
//! regions agree is `closed_views`, that nothing is left undone is `drained`), and the crate dt_plain for a scheduler.
#![tactic(auto)]

mod laws;
mod scheduler;

pub use laws::{closed_views, drained, one_home_each, order, reach_is_decided, stability, ties};
pub use scheduler::Scheduler;

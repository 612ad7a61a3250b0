//! Links that are rings: what one region sends another, through places in memory that two threads use without a lock.
//!
//! A region has one end and its neighbour the other, and in a phase each may use its end in a thread of its own. Neither is
//! shown what the other does there: what is put in a phase waits unknown, and a place that was emptied is not yet free. Both
//! become known between phases, when one owner holds the two ends and brings them [`beside`] each other.
//!
//! Read next: `specs/Rings.antt`, what is seen of the two ends; then `src/ends.rt`.
#![tactic(auto)]

mod ends;
mod laws;

pub use ends::{RingIn, RingOut, beside, ring};
pub use laws::{ends_may_move, ends_stay_ends};

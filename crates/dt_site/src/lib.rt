//! One region among all: what a world, and each node of a cluster that runs, holds of a region.
//!
//! A [`Region`](dt_region::Region) keeps transactions, logs and rows. A [`Site`] is a region and, of each transaction that
//! it submitted, whose it is: the session, the number of its call, and the number of the attempt.
//!
//! What makes this a crate of its own is the relation between a site and a world of all regions, `StandsIn` in `specs/`,
//! and what follows from it. Where a site stands in a world that legal events lead to:
//!
//! - it may be given the requests that the world's regions asked it to place (`can_append`);
//! - it may be given any stretch of another region's log, from a place that it has already or not (`can_deliver`);
//! - what it holds is valid for the cluster's procedures and version, and each move has a place left in the list of its
//!   unit, so that it may execute (`holds_valid`, `can_move`);
//! - after its call answers that it was made, it stands in the world after the event, and so do all other sites.
//!
//! What the tables of all regions have at first, they share ([`opening_of`], [`first_site`]). What became of the
//! attempt that a session waits for, its region says ([`last_outcome_at`]); from this, and from where the session stands, follows
//! what it submits next ([`next_attempt`]).
//!
//! The proofs speak of one site and a world, not of how the others are held. So they serve a world that holds all sites, as
//! well as a node that has only its own and learns of the others by packets.
#![tactic(auto)]

mod outcome;
mod site;
mod tables;

pub use outcome::{last_outcome_at, next_attempt};
pub use site::{Origin, Site, first_site};
pub use tables::opening_of;

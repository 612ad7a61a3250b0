//! Helpers: threads that are kept over many parallel steps, so that a step does not pay for starting one.
//!
//! A lender has a [`Helper`] for each of them, and the thread has its [`Server`]. The lender lends an item, goes on with
//! something else, and takes the item back when it is worked; what it gets is what the work makes of what it lent, and nothing
//! else ([`Helper::take_back`]). What a channel carries between two threads is known only by its type; here it is known by a ring
//! of snapshots, which take no memory: each item travels with the ring's other end, and when both ends are in one hand again, what
//! went in and what came out are the same list ([`Link`]).
#![tactic(auto)]

mod helper;
mod lending;
mod lent;
mod link;
mod many;
mod wait;

pub use helper::{Helper, Server, hire};
pub use lending::Lending;
pub use link::Link;
pub use many::{lend_last, links, take_back};

//! The plain scheduler: it goes through all inserted parts for every answer, as the definitions do.
//!
//! It is plain on purpose: it keeps nothing but what was inserted, resolved and done, so that what it answers is easily seen
//! to be right. It is slow for thousands of parts. The trait that it meets, and the words of its answers, are those of
//! `dt_sched`.
//!
//! Read next: `specs/GraphsInner.antt`, the graph that it gathers for an answer.
#![tactic(auto)]

mod class;
mod complete;
mod decide;
mod graph;
mod ids;
mod plain;
mod ranks;
mod search;

pub use complete::is_at;
pub use plain::{PlainSched, empty_logs};

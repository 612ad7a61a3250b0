//! Directed graphs: what a vertex reaches, what reaches it, and its class, which is what does both.
//!
//! A vertex reaches another where a chain of edges leads there. In a graph of who waits for whom, a class of two or more
//! is a deadlock. A graph is built edge by edge (`Adj::new`, `edge`) and then asked. An answer looks at each vertex and at
//! each edge a few times at most, so its time grows with the number of both together and not with their product; no
//! contract speaks of time. `specs/Graphs.antt` has the words of the contracts.
#![tactic(auto)]

mod adj;
mod found;
mod link;
mod search;
mod source;

pub use adj::Adj;

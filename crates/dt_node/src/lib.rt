//! A node: one region of a cluster that runs by itself, with the sessions that stand at it.
//!
//! A cluster runs in phases, and in each every node makes one turn, as do all others. In a turn a node waits for no other. It
//! cannot see other regions, and knows of them what packets brought it:
//!
//! 1. It takes every packet that waits. Of each it hears the stamp, places the requests, receives the entries of the source's
//!    log, and notes how far the source has come with its own requests and its own log (`arrivals.rt`).
//! 2. It answers each session whose attempt has ended, and lets each session submit that may; what a submission asks of the
//!    region itself it places at once (`sessions.rt`).
//! 3. It makes a round: whatever can be inserted, resolved and executed is (`dt_region`'s [`Rounds`](dt_region::Rounds)).
//! 4. Where the second step changed something, it goes back to it. A round that could make nothing, since the one before it
//!    left nothing, is left out.
//! 5. It sends one packet to each other region: all that this one is not known to have, as far as a packet holds it
//!    (`departures.rt`). The loss plan says how often it is put.
//!
//! Nothing is requested again. A packet begins where the last one that is known to have arrived ended, so what a lost packet
//! held is in the next one, and what came twice is old and changes nothing.
//!
//! Contracts say of a turn what it makes of every world of events in which the node stood before it (`HasGone`): the turn
//! knows none of these worlds, and whoever holds all nodes knows one. After `NoMemory` too, what a node kept goes on from what
//! there was.
//!
//! Read next: `specs/NodeView`, `specs/Packets`, `specs/NodeInWorld`, `specs/Turn`, `specs/Steps`, `specs/TurnPackets`; then `node.rt`,
//! the turn.
#![tactic(auto)]

mod arrivals;
mod departures;
mod node;
mod sessions;

pub use departures::other_region;
pub use node::Node;

//! What regions send each other, and the links that carry it.
//!
//! In every turn a region sends each other region all that this one is not known to have: requests to place, entries of its
//! log, how far it has come with theirs, and a stamp. A link may lose a packet and may bring one twice. Nothing is requested
//! again: the next packet begins where the last one that is known to have arrived ended, so what was lost is in it, and what
//! came twice is old.
//!
//! Which packets of a link are lost and which come twice is planned by their numbers alone ([`LossPlan`]): in every run the same
//! numbers. A packet is put into an [`Outlet`] and taken out of an [`Inlet`]; a [`Shelf`] is both, and holds what
//! waits in between.
//!
//! Read next: `specs/Loss.antt` for the plan and what it can't do, `specs/Links.antt` for the ends of a link.
#![tactic(auto)]

mod laws;
mod links;
mod loss;
mod packet;
mod shelf;

pub use laws::{each_packet_has_one_verdict, one_of_two_packets_is_put};
pub use links::{Inlet, Outlet};
pub use loss::{LossPlan, Verdict};
pub use packet::Packet;
pub use shelf::Shelf;

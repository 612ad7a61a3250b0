//! All nodes of a cluster at once: they run in phases over links that lose packets, until every call is answered.
//!
//! In a phase every node makes one turn (`turns.rt`). A run has helpers for them, threads that are kept over all its phases
//! (`to_end.rt`). A node knows nothing of what the others do meanwhile: what it sends waits on a link, and becomes known between
//! two phases, when the ends of each link are brought beside each other (`links.rt`). [`run`] makes phases until all is done;
//! there is a bound on their number, for every loss plan of a cluster (at most every second packet is lost): `specs/Silence`,
//! and the laws of `end_laws.rt`.
//!
//! Nobody has the events of all regions as one list while they are made. In the end they are put in the order of their stamps
//! (`merge.rt`): this list is legal, and it leads to the world in which all nodes are, by the laws of `dt_merge`. So whatever
//! is proved of a list of events holds of what ran. The report is that of this list, read off the nodes (`sites.rt`):
//! nothing is executed again.
//!
//! The type of [`Nodes`] keeps what makes this so (`specs/NodesStand`): some list has the events of all nodes in the order in
//! which they were made, each node stands in the world after it, and each packet that waits is what its source would send
//! now. One turn of each node, taken one after another, makes the list longer, since a turn's events go on from whatever
//! events there were (`HasGone` of `dt_node`).
//!
//! Read next: `specs/NodesView`, `specs/Marks`, `specs/NodesStand`, `specs/Phase`, `specs/EndOfRun`, `specs/Run`, `specs/Silence`;
//! then `nodes.rt`, `course.rt` and `to_end.rt`.
#![tactic(auto)]

mod counts;
mod course;
mod done;
mod end_laws;
mod links;
mod merge;
mod nodes;
mod seat;
mod sites;
mod to_end;
mod turns;

pub use counts::Counts;
pub use end_laws::{
    begins_to_end, each_phase_is_counted, each_phase_leads_to_an_end, phases_are_few,
    silent_phases_lead_to_an_end, what_is_done_stays_done, what_waits_is_true,
};
pub use nodes::Nodes;
pub use to_end::{run, run_to_end};

//! What is left in the graph, and how its queues show what waits for what: the definitions and laws by which the scheduler with
//! queues (the crate dt_graph) is proved. There is no code here but two plain types, a narrow place and a list of slots.
//!
//! Once all that reaches a transaction is done, it is out: nothing waits for it, and no answer reads it (`specs/LeftInGraph.antt`). Of
//! the others, each use of a row stands in a queue (the crate dt_queue), and a transaction waits for the neighbours of its
//! entries (`specs/Waits.antt`); its degree counts them. What is kept of them is `GraphView`, and that it is right at each
//! moment is `KeepsGraph` (`specs/Graph.antt`); what each call makes of it stands in `specs/Steps.antt`.
//!
//! Read next: `laws.rt` for why it is enough, `proofs/KeepsGraph.antt` for how each call keeps the graph.
#![tactic(auto)]

mod laws;
mod open;
mod place;
mod slots;
mod vertex;

pub use laws::{left_is_enough, neighbours_are_enough};
pub use open::Open;
pub use place::Place;
pub use slots::Slots;
pub use vertex::Vertex;

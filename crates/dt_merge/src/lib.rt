//! Why the events of many regions may be listed as one. There is no code here: `specs/` says what is one region's own, what
//! a merge is and what a chronicle is, and the functions below carry the laws.
//!
//! Regions run side by side, and each keeps a list of its own events with stamps. To say of them that they agree one needs
//! one list of events that is legal. The regions made one, event by event (`IsChronicle`), but nobody saw it. What can be
//! printed is the merge of what they kept, in the order of stamps (`IsMerge`). Why the merge serves as well:
//!
//! 1. **Frame** (`frame`). An event changes what is its own region's own: the region's node, and the places of its sessions.
//! 2. **Locality** (`locality`). Whether an event is legal, and what it does, follows from its region's own part, and from what it
//!    takes from one other region being there. What other regions did in between makes no difference to it.
//! 3. **Order** (`commuting`, `side_by_side`, `rescheduling`). So events of different regions that do not feed each other may
//!    change places; turns that regions make side by side may be listed one after another; and a list of legal events may be
//!    put into any other order that leaves each region's own order, and in which each event finds what it takes. This part
//!    speaks of no world: `specs/Regional` has all that it rests on.
//! 4. **The merge** (`merge_of_a_chronicle`). An event has a greater stamp than what it takes from another region. So the
//!    order of stamps is such an order: the merge is legal, and leads to the very world that the regions are in.
//!
//! Beside this stands a bound (`weights`): each event that changes something raises the weight of its region, and no weight goes
//! past what the calls, the tries and the regions allow. So there is a bound on such events.
//!
//! Read next: `specs/OwnPart`, `specs/Merge`, then `src/laws.rt`.
#![tactic(auto)]

mod laws;

pub use laws::{
    commuting, frame, locality, merge_of_a_chronicle, merges, rescheduling, side_by_side, weights,
};

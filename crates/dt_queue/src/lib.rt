//! Queues of entries that wait for rows: which entries an entry has to wait for, and which wait for it.
//!
//! An entry waits at a home for the use of a key. Of the entries of one home and one granule those clash that use one key,
//! unless both read it, and one that takes the whole granule clashes with all. An entry waits for each earlier one that it
//! clashes with; `Queues` gives the nearest of these, its neighbours, since they wait for the others. `specs/Queues.antt` has
//! the words of the contracts; `specs/KeptInner.antt` says how the entries are kept.
#![tactic(auto)]

mod cell;
mod flags;
mod follower;
mod hints;
mod kept;
mod lane;
mod lanes;
mod listed;
mod listing;
mod mark;
mod nearest;
mod next;
mod numbers;
mod queues;
mod row;
mod rows;
mod tail;
mod used;
mod wholes;

pub use follower::Follower;
pub use queues::{Followers, Queues};

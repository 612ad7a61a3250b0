//! Places of what belongs to ids of transactions.
//!
//! Whoever keeps something for each transaction keeps it in a list, in the order in which it came, and has an [`IdIndex`] beside
//! that leads from an id to its place there. Ids are counted in each region from 1, so the index has for each region a list
//! by the numbers of its ids, and mostly nothing is hashed; the few ids that come far out of order are in a map beside. What it
//! answers does not hang on where it keeps an id: `specs/Index.antt` has the words of the contracts.
//!
//! ```text
//! let mut index = IdIndex::new(alloc);
//! index.prepare(alloc, id)?;        // so that the id is found without hashing
//! index.reserve(1)?;                // so that the next call takes no memory
//! index.put(id, things.len());
//! things.push(thing)?;
//! // index.get(id) is where the thing stands
//! ```
#![tactic(auto)]

mod index;
mod places;

pub use index::IdIndex;

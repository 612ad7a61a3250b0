//! What a transaction wants of the rows: ids, granules of keys, access lists, the parts that homes order, and when two
//! parts clash.
//!
//! A part is what one home of a transaction puts into its log: the keys of that home, each with how it is used, all homes of
//! the transaction, and its rank. Two parts that clash have to run in the order of the log; all others may change places.
//!
//! Read next: `specs/Granules.antt` and `specs/Clash.antt`; `specs/Ids.antt` for how ids are ordered and spelled.
#![tactic(auto)]

mod access;
mod clashes;
mod copies;
mod granules;
mod homes;
mod id;
mod keys;
mod lists;
mod part;
mod shared;
mod writes;

pub use access::{Access, Mode};
pub use clashes::clash;
pub use copies::TryCopy;
pub use granules::{granule, granule_bytes, is_granule, is_unit, unit_bytes};
pub use homes::Homes;
pub use id::{TxnId, are_ascending, put_id, read_id};
pub use keys::Keys;
pub use lists::Ids;
pub use part::Part;
pub use shared::Shared;
pub use writes::Writes;

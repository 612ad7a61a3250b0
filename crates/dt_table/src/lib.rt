//! The table of a region: for each key a value or none, and for each unit of keys the list of its moves.
//!
//! A unit is what has a home and moves: each key by itself in version 1 of a cluster, and a granule of keys in version 2.
//!
//! Read next: `specs/Table.antt`, what is read of a table and what an effect changes; then `src/table.rt`.
#![tactic(auto)]

mod effect;
mod homes;
mod moved;
mod opened;
mod opening;
mod rows;
mod shown;
mod stored;
mod table;
mod units;

pub use effect::{Effect, UnitName};
pub use opening::Opening;
pub use shown::{Shown, ShownList};
pub use table::{Mastership, Table, TableRow};

//! Small helpers of tests: the failure of a table at a row, keys, names and homes that stand in a test, and the pieces
//! that what a test tells is made of.
//!
//! The crates of tests use them; nothing else does. No helper promises more than tests need, since a clause costs time in each
//! test that calls it.
#![tactic(auto)]

mod homes;
mod pieces;
mod spelled;

pub use homes::{are_below, has_home};
pub use pieces::{put_all, put_number, wrong};
pub use spelled::{exact_key, key_of, name_of};

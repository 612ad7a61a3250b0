//! What a call of a procedure means: which rows it uses, and what it gives from their values.
//!
//! Which rows those are follows from the arguments alone, and what it gives from their values alone: so calls can be ordered
//! before they run, and every region that runs one on the same values finds the same.
//!
//! Read next: `specs/Cases.antt`, the meaning case by case; `specs/Keys.antt`, the rows that a call uses; `src/laws.rt`.
#![tactic(auto)]

mod calls;
mod finish;
mod frame;
mod keys;
mod laws;
mod operators;
mod places;
mod rows;
mod state;
mod stop;
mod values;
mod variables;

pub use calls::{fits, run, run_owned};
pub use finish::{Args, Cause, Finish, Reads};
pub use keys::{KeysError, keys_of};
pub use laws::{keys_alone_count, meaning_is_by_cases, only_declared_are_written};
pub use values::Values;

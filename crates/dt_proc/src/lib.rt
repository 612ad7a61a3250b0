//! Procedures: their trees, and the reader of their text.
//!
//! The reader goes over the text twice. What it is made of was tested by the first pass, in the crate below; here names and
//! kinds are tested, and the trees are made.
//!
//! Read next: `specs/Tree.antt`, what a procedure is; `specs/SecondPass.antt`, what a text means; `specs/Sound.antt`, what
//! holds of every procedure. What a tree does when it runs is stated in `dt_eval`.
#![tactic(auto)]

mod builtin;
mod error;
mod expressions;
mod fronts;
mod keys;
mod laws;
mod parameters;
mod procs;
mod reader;
mod scope;
mod statements;
mod tree;

pub use builtin::builtin_procs;
pub use error::ProcError;
pub use laws::{texts_have_an_outcome, texts_have_one_outcome};
pub use procs::{Proc, Procs};
pub use reader::read_procs;
pub use tree::{Expr, Give, Gives, KeyDecl, KeyItem, KeyItems, Kind, Op, Sort, Stmt, Stmts};

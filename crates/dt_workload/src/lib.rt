//! What the sessions of a cluster want, and the reader of its file.
//!
//! Read next: `specs/Lines.antt` and `specs/File.antt`, what a file means and which fault is reported for one that means nothing;
//! `specs/Valid.antt`, what every workload is; `src/laws.rt`, that each file has just one outcome.
#![tactic(auto)]

mod copies;
mod draft;
mod error;
mod form;
mod laws;
mod reader;
mod workload;

pub use error::{WorkloadCause, WorkloadError};
pub use laws::{
    files_are_one_workload, files_have_an_outcome, files_have_one_fault, workloads_have_no_fault,
};
pub use reader::read_workload;
pub use workload::{Bodies, Ranked, Session, SessionList, Wanted, Workload};

//! The reader of cluster files: what a file means, and which fault is reported for one that means nothing.
//!
//! Read next: `specs/File.antt`, what a file means; `Valid` of `dt_cluster`, what every cluster is; `src/laws.rt`, that each
//! file has just one outcome.
#![tactic(auto)]

mod entries;
mod error;
mod homes;
mod laws;
mod numbers;
mod reader;
mod rows;

pub use error::{ClusterCause, ClusterError, ClusterFault, ClusterPlace, Label};
pub use laws::{
    clusters_have_no_fault, files_are_one_cluster, files_have_an_outcome, files_have_one_fault,
};
pub use reader::read_cluster;

//! The clusters and the workloads of files that stand in tests.
//!
//! The crates of tests use it; nothing else does.
#![tactic(auto)]

mod read;

pub use read::{cluster_of, workload_of};

//! What a cluster is: its version, its regions, its procedures, the homes and values of its rows, and its limits.
//!
//! Read next: `specs/Valid.antt`, what every cluster is; `dt_cluster_file`, the files that give clusters.
#![tactic(auto)]

mod cluster;
mod copies;

pub use cluster::{Cluster, HomeList, RowList, builtin};

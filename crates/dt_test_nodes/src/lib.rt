//! Tests of what runs come to, all regions at once until nothing is left; and of whole calls of the command (`commands.rt`).
//! A case is a cluster, a workload, and what is to hold of their run (`cases.rt`). Nodes, clusters and workloads are made in one function
//! each, which lends them to the others.
#![tactic(auto)]

#[cfg(test)]
mod cases;
#[cfg(test)]
mod commands;
#[cfg(test)]
mod generated;
#[cfg(test)]
mod phases;
#[cfg(test)]
mod texts;
#[cfg(test)]
mod workers;

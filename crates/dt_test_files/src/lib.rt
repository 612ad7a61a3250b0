//! Tests of what a run begins with: files and streams, the files of clusters and workloads, and generated loads.
//! Each is a table of expected values that were worked out independently, with one loop, which names the first row that is
//! not answered as it says; there is no other code.
#![tactic(auto)]

#[cfg(test)]
mod clusters;
#[cfg(test)]
mod devices;
#[cfg(test)]
mod folders;
#[cfg(test)]
mod loads;
#[cfg(test)]
mod pieces;
#[cfg(test)]
mod sinks;
#[cfg(test)]
mod workloads;

//! Tests of the world: which events are legal, and what they come to.
//! A case is a cluster, a workload and a list of events, as a reader would write them; there is no other code here.
#![tactic(auto)]

#[cfg(test)]
mod cases;
#[cfg(test)]
mod circles;
#[cfg(test)]
mod regions;
#[cfg(test)]
mod scripts;
#[cfg(test)]
mod sessions;
#[cfg(test)]
mod sizes;
#[cfg(test)]
mod tries;
#[cfg(test)]
mod worlds;

//! Tests of rounds: what a region makes, by itself, of the parts that came to it, until nothing is left.
//! A case is what came to it and the events that follow. Besides the tests there is a gate at which two workers meet, which the tests of
//! whole runs use too.
#![tactic(auto)]

mod meeting;

pub use meeting::Meeting;

#[cfg(test)]
mod backlog;
#[cfg(test)]
mod calls;
#[cfg(test)]
mod crowd;
#[cfg(test)]
mod feeding;
#[cfg(test)]
mod lengths;
#[cfg(test)]
mod locked;
#[cfg(test)]
mod outcomes;
#[cfg(test)]
mod outside;
#[cfg(test)]
mod requests;
#[cfg(test)]
mod rounds;
#[cfg(test)]
mod steps;
#[cfg(test)]
mod twins;

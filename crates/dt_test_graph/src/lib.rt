//! Tests of the schedulers and of their graph: what a vertex reaches, its class, queues, what is ready and what is resolved,
//! and that the two schedulers answer alike.
//! Most are tables of expected values that were worked out independently, each with one loop, which names the first row that
//! is not answered as it says; `drawn.rt` draws parts and calls at random. The schedulers are made in one function
//! (`alike.rt`), which is given its calls as a list, and left to the end of the process.
#![tactic(auto)]

#[cfg(test)]
mod alike;
#[cfg(test)]
mod calls;
#[cfg(test)]
mod clashes;
#[cfg(test)]
mod classes;
#[cfg(test)]
mod drawn;
#[cfg(test)]
mod fitting;
#[cfg(test)]
mod parts;
#[cfg(test)]
mod queues;
#[cfg(test)]
mod worked;

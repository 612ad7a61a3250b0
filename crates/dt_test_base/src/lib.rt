//! Tests of what stands below a region: texts, ids, parts, indexes, logs and events, the language of procedures, rows and
//! transactions, reports, and packets and links. Each is a table of expected values that were worked out independently, with
//! one loop, which names the first row that is not answered as it says; there is no other code.
#![tactic(auto)]

#[cfg(test)]
mod bytes;
#[cfg(test)]
mod calls;
#[cfg(test)]
mod ends;
#[cfg(test)]
mod events;
#[cfg(test)]
mod indexes;
#[cfg(test)]
mod logs;
#[cfg(test)]
mod losses;
#[cfg(test)]
mod packets;
#[cfg(test)]
mod parts;
#[cfg(test)]
mod printed;
#[cfg(test)]
mod reports;
#[cfg(test)]
mod rings;
#[cfg(test)]
mod rows;
#[cfg(test)]
mod shelves;
#[cfg(test)]
mod sources;
#[cfg(test)]
mod transactions;

//! Worlds of regions and sessions: their states, their legal events, and what all regions agree on. `specs/` is the theory that
//! the programs are proved against. The only code is [`Sessions`], which keeps the sessions of one region.
//!
//! A cluster has some regions. Each keeps a log of its own and receives fronts of the logs of all others, and from what it
//! received alone it decides what to execute, and in which order. A key has a home, the region whose log orders its uses;
//! a call that uses keys of several homes has a part in each of these logs. Sessions stand at regions, and each makes its
//! calls one after another. A world (`specs/World`) is the state of all of them, and changes by one event at a time:
//!
//! | rule | event | what happens |
//! |---|---|---|
//! | 1 | `Submit` | a session's next call, or the same call again where its attempt was stale, gets an id; its region's table says which homes its keys have, and each home is asked for its part |
//! | 2 | `Append` | a home places the next part that a region asked for at the end of its log |
//! | 3 | `Deliver` | a region receives more of a home's log |
//! | 4 | `Insert` | a region takes the next part that it received into its graph of what comes before what |
//! | 5 | `Resolve` | a region finds a deadlocked group, all of whose parts it has: from now on it goes by ranks and ids |
//! | 6 | `Execute` | a region runs a transaction before which all that precedes it has run |
//! | 7 | `Answer` | a session learns the outcome that its region has for its attempt; not where that is stale and a try is left |
//!
//! Two payments that cross: the key `a` has its home in region 0, `b` in region 1. A session of region 0 pays from `a` to
//! `b` (id 1.0) while one of region 1 pays from `b` to `a` (id 1.1). Each is asked for at both homes:
//!
//! ```text
//! log of region 0:  1.0  1.1        log of region 1:  1.1  1.0
//! ```
//!
//! Log 0 puts 1.0 first and log 1 puts 1.1 first, so neither can go before the other: a deadlock, with no lock held. Each
//! region that has all four parts sees the same group {1.0, 1.1}, resolves it, and runs the lower rank first and, as both
//! have one rank here, the smaller id. Whatever is delivered when, all regions end with the same rows, and both sessions are
//! given outcomes of the one order 1.0, 1.1.
//!
//! A key may be moved to another home by a transaction of its own; in version 2 of a cluster a move takes along all keys of a
//! granule. A transaction keeps how often each of its keys was moved when its region submitted it. Where it runs after a move
//! more than that, the key's log may be another one by now, so the attempt is `Stale`: it does nothing, and its session may try
//! again. An attempt that runs before the move is not stale by it, whenever it was submitted.
//!
//! Read next: `specs/World` (what a state is), `specs/Tries` (when a session may go on), `specs/Step` (the rules), `specs/Run`
//! (lists of events and their serial order), `specs/Agreement` (what all regions agree on), `specs/Sessions` (the sessions of
//! one region). `specs/OneHome`, `specs/Eager` and `specs/Finished` name kinds of workloads and of lists. What a region does by
//! itself in rules 1, 2 and 4 to 6 is defined below, in `dt_txn`.
#![tactic(auto)]

mod sessions;

pub use sessions::{Seat, Sessions, Waiting};

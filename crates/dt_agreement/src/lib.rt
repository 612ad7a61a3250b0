//! What holds in every legal world, and that all regions agree. There is no code here: `specs/` says what a legal world
//! keeps, `proofs/` shows that each legal event keeps it and what follows, and the functions below carry the laws.
//!
//! How the proof goes, in four steps:
//!
//! 1. **The invariant** (`specs/Invariant`, `Inv`). Each region counts its submissions; each home's log has, of each
//!    region, the first of what that region asked for, once and in order; what a region inserted is a front of the logs,
//!    what it executed was closed there and came after all that precedes it; its table is that of running what it
//!    executed, in its order. The opening world has it, and each of the seven rules keeps it: one file of proofs a rule.
//! 2. **Histories of moves** (`Rooted`). Which log orders a key's uses changes when the key's unit is moved, so two attempts
//!    that use one key may share no log. What ties them together is that each annotation is rooted: its home is the one after
//!    n moves of the unit's one history, and the last of these moves precedes the attempt.
//! 3. **One outcome** (`dt_serial`). Whatever runs transactions in an order in which each comes after all that precedes it
//!    gets the same outcome for each of them, given the two facts above: an attempt that is not stale ran between the same
//!    two moves of the unit of each of its keys everywhere, and within that stretch the log of one home orders all that clash.
//! 4. **Agreement** (`agreement`). The ids in the order of their first execution anywhere are one such order, and what each
//!    region executed is another (`one_history`), so each region has outcomes and rows of the one serial order.
//!
//! An example of two regions: `x` is at home in region 0, `y` in region 1, and each has 10. In region 0 Ann calls for a transfer
//! of 3 from `x` to `y`, which is the attempt 1.0. In region 1 Bo adds 1 to `y`, which is 1.1. Each home is asked for its part of
//! an attempt, and places it in its own log:
//!
//! ```text
//! log 0:   1.0          the part of the transfer that uses x
//! log 1:   1.1   1.0    Bo's call, and the part of the transfer that uses y
//! ```
//!
//! Both write `y`, so 1.1 precedes 1.0: no region may execute the transfer before it has both parts and has executed 1.1. Say
//! that both regions have executed 1.1, that Bo is answered, and that region 0 has executed 1.0, while region 1 still lacks log 0.
//! The serial order is 1.1, 1.0, and the regions agree: each outcome that one of them keeps is that of this order; region 0 has 7
//! and 14, and region 1, which executed 1.1 alone, 10 and 11. Once region 1 has log 0 too and both are drained, it has 7 and 14
//! as well. And what is submitted after Bo was answered stands behind 1.1 in the order, once it is executed.
//!
//! Read next: `src/laws.rt`, the laws one by one. What a proof of a crate above may cite stands in `proofs/Callers`.
#![tactic(auto)]

mod laws;

pub use laws::{
    across_moves, agreement, drained_regions, invariant_of_legal_worlds, moves_of_a_unit,
    nothing_left_out, one_history, one_home_each_call, reached_counters,
};

//! Serial runs in different orders that agree.
//!
//! Each region executes its transactions one after another, and no two regions need the same order. The logs order
//! those that clash, and every region keeps to that order; the others each region takes as they come. This crate shows
//! that none of this can be seen, neither in an outcome nor in a table. It speaks of lists of transactions and of tables
//! alone: there is no region here, no log and no event, and no code that runs.
//!
//! - A *history* (`IsHistory`) is one run of all transactions, and an order of ids that fits it: what precedes a
//!   transaction stands before it; of two that clash, and were annotated with the same number of moves of what they clash on,
//!   one precedes the other; and each comes after the moves that it was annotated with.
//! - A *part* of a history (`IsPart`) is what one region may have run: some of its transactions, in an order of the
//!   region's own, each after all that precedes it.
//! - The laws hold of every part. `one_outcome`: each transaction has the outcome that it has in the history. `one_table`:
//!   the table depends on which transactions are in the part, not on their order. `moves_of_a_unit`: the moves of a unit
//!   are the first ones that it has in the history. `reached_counters`: no unit was moved less often than a transaction
//!   that runs was annotated with. `across_moves` orders transactions on both sides of a move. `reasons`: an abort or a
//!   stale attempt has its cause.
//!
//! An example: `a` and `b` are payments between the accounts x and y, and `c` fills the account z. The payments clash, and
//! the logs put `a` before `b`; nothing precedes `c`. With the history a, b, c a region may run c, a, b, and another may
//! have come to a, c. By `one_outcome` each of the three gave the same everywhere. By `one_table` the first region has the
//! table of the history, and the second that of a history without `b`. A move of x is what makes it hard: a payment that
//! was annotated before it is stale after it, and changes nothing. But the move precedes that payment or follows it
//! everywhere alike, so it is stale in all parts or in none.
//!
//! Of units and of what clashes the laws use four things, which are facts of dt_access: what clashes is of one unit; a move's
//! entry clashes with each entry of its unit; entries of one key clash where one of them may write; and it does not matter
//! which of two entries comes first. So they hold in both versions, where a unit is a key and where it is a granule.
//!
//! Read `specs/Order.antt` first, then `src/laws.rt`. That the regions of a legal run execute parts of one history is
//! shown in the crate of the agreement, above this one.
#![tactic(auto)]

mod laws;

pub use laws::{across_moves, moves_of_a_unit, one_outcome, one_table, reached_counters, reasons};

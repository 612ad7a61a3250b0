//! The generated load: a cluster of accounts and a workload of transfers and moves, of which the number of calls is chosen; what is
//! reported of a run of it; and its laws: nothing that a run of it does makes or loses money.
//!
//! Read next: `specs/Load.antt`, the load itself; `specs/Draws.antt`, the pseudo-random numbers behind it; `specs/Balances.antt`, what
//! the accounts have in a table; `specs/Summary.antt`, what is reported of a run; `specs/Laws.antt`, what stays so; `src/laws.rt`;
//! `src/summaries.rt`.
#![tactic(auto)]

mod accounts;
mod calls;
mod draws;
mod laws;
mod load;
mod summaries;

pub use laws::{
    each_attempt_ends_plainly, each_call_has_a_reply, each_call_is_answered_once,
    each_region_holds_accounts, each_report_shows_the_total, each_summary_is_known,
    load_keeps_total, shown_sum_is_total,
};
pub use load::generate;
pub use summaries::{kept_answers, row_sum, summary_text};

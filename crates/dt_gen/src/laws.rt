//! The laws of the generated load. Each is the contract of a function that does nothing.
ghost use Rattle.dt_gen.specs.Laws.{EachAttemptEndsPlainly, EachCallHasAReply, EachCallIsAnsweredOnce, EachRegionHoldsAccounts, EachReportShowsTheTotal, EachSummaryIsKnown, LoadKeepsTotal, ShownSumIsTotal};

/// What the accounts have together is the same after any transactions of the load, in whatever order they run: a transfer takes
/// from one account what it gives to another, or changes nothing, and a move writes nothing.
pub fn load_keeps_total()
    ensures { LoadKeepsTotal }
{}

/// At each moment of a run of the load, each region has rows for the accounts and for nothing else, of numbers that are not
/// negative, and 100,000 in all.
pub fn each_region_holds_accounts()
    ensures { EachRegionHoldsAccounts }
{}

/// At each moment of a run of the load, each attempt that a region has executed gave its values, failed for lack of funds, or was
/// stale: no sum overflows, and each account has a row with a number.
pub fn each_attempt_ends_plainly()
    ensures { EachAttemptEndsPlainly }
{}

/// What a report shows of a table that holds the accounts has their total as its sum.
pub fn shown_sum_is_total()
    ensures { ShownSumIsTotal }
{}

/// The rows that a report of a run of the load shows of a region have the sum 100,000.
pub fn each_report_shows_the_total()
    ensures { EachReportShowsTheTotal }
{}

/// A finished run of the load has as many answers as calls.
pub fn each_call_is_answered_once()
    ensures { EachCallIsAnsweredOnce }
{}

/// A list that has an item for each answer of a finished run of the load, as the replies of its report do, has as many items as
/// there are calls.
pub fn each_call_has_a_reply()
    ensures { EachCallHasAReply }
{}

/// What is reported of a finished run of the load of n calls is known beforehand: as many answers as calls, and the sum 100,000.
pub fn each_summary_is_known()
    ensures { EachSummaryIsKnown }
{}

//! Cases of worlds, each with what comes of its events.
use crate::scripts::Play;
use crate::worlds::Asked;
use dt_test_texts::wrong;
use std::alloc::Global;
use std::mem::forget;
use std::test::Fail;

/// A cluster, its sessions, their events, and what is to come of them, a line each.
struct Case {
    cluster: &'static [&'static str],
    workload: &'static [&'static str],
    /// The events. Behind a `!` stands the rule by which the event is refused.
    events: &'static [&'static str],
    /// The report, up to its events.
    report: &'static [&'static str],
}

/// The case of what is repeated.
const REPEATING: Case = Case {
    // Repeated requests and deliveries change nothing, and none is made up.
    cluster: &["regions = 2"],
    workload: TWO_PUTS,
    events: REPEATED,
    report: &[
        "replies",
        "reply x 1 done",
        "order",
        "2.0 y 1 1 done",
        "1.0 x 1 1 done",
        "table 0",
        "b = 1 home 0 moves 0",
        "d = 2 home 0 moves 0",
        "table 1",
        "d = 2 home 0 moves 0",
    ],
};

/// The cases.
const CASES: &[Case] = &[
    REPEATING,
    Case {
        // A session is answered by its own region alone.
        cluster: &["regions = 2"],
        workload: &["session x at 0", "call put \"b\" 1"],
        events: &[
            "submit 0 x",
            "append 0 0 0",
            "deliver 1 0 0 1",
            "insert 1 0",
            "execute 1 1.0",
            "answer 0 x !7",
            "answer 1 x !7",
            "submit 0 x !1",
            "execute 1 1.0 !6",
            "execute 0 1.0 !6",
            "insert 0 0",
            "execute 0 1.0",
            "answer 0 x",
            "submit 0 x !1",
            "answer 0 x !7",
        ],
        report: &[
            "replies",
            "reply x 1 done",
            "order",
            "1.0 x 1 1 done",
            "table 0",
            "b = 1 home 0 moves 0",
            "table 1",
            "b = 1 home 0 moves 0",
        ],
    },
    Case {
        // There are no events of other regions and sessions.
        cluster: &["regions = 2"],
        workload: &["session x at 0", "call put \"b\" 1"],
        events: &[
            "submit 2 x !1",
            "submit 0 y !1",
            "submit 1 x !1",
            "append 2 0 0 !2",
            "append 0 2 0 !2",
            "append 0 0 0 !2",
            "deliver 2 0 0 0 !3",
            "deliver 0 2 0 0 !3",
            "insert 2 0 !4",
            "insert 0 2 !4",
            "insert 0 0 !4",
            "resolve 2 1.0 1.1 !5",
            "resolve 0 1.0 1.1 !5",
            "execute 2 1.0 !6",
            "execute 0 1.0 !6",
            "answer 2 x !7",
            "answer 0 x !7",
            "answer 0 y !7",
            "deliver 1 0 0 0",
        ],
        report: &["replies", "order", "table 0", "table 1"],
    },
    Case {
        // Moves that wait for each other are resolved.
        cluster: &["regions = 2"],
        workload: &[
            "session n at 0",
            "move b to 1",
            "session q at 1",
            "move b to 1",
        ],
        events: &[
            "submit 0 n",
            "submit 1 q",
            "append 0 0 0",
            "append 0 1 0",
            "append 1 1 0",
            "append 1 0 0",
            "deliver 0 1 0 2",
            "insert 0 0",
            "insert 0 0",
            "insert 0 1",
            "resolve 0 1.0 1.1 !5",
            "execute 0 1.0 !6",
            "insert 0 1",
            "resolve 0 1.0 1.1",
            "execute 0 1.0",
            "execute 0 1.1",
            "answer 0 n",
            "answer 1 q !7",
        ],
        report: &[
            "replies",
            "reply n 1 done",
            "order",
            "1.0 n 1 1 done",
            "1.1 q 1 1 stale b had 0 by 1.0",
            "table 0",
            "b = none home 1 moves 1",
            "table 1",
        ],
    },
    Case {
        // A granule moves with its rows, and nothing else does.
        cluster: &[
            "regions = 2",
            "version = 2",
            "[rows]",
            "\"b/1\" = 10",
            "b-1 = 20",
        ],
        workload: &[
            "session m at 0",
            "move b to 1",
            "session p at 0",
            "call add \"b/1\" 5",
            "session q at 0",
            "call add \"b-1\" 5",
        ],
        events: &[
            "submit 0 m",
            "submit 0 p",
            "submit 0 q",
            "append 0 0 0",
            "append 0 0 1",
            "append 0 0 2",
            "append 1 0 0",
            "insert 0 0",
            "insert 0 0",
            "insert 0 0",
            "execute 0 2.0 !6",
            "execute 0 3.0",
            "deliver 0 1 0 1",
            "insert 0 1",
            "execute 0 2.0 !6",
            "execute 0 1.0",
            "execute 0 2.0",
            "answer 0 q",
        ],
        report: &[
            "replies",
            "reply q 1 done 25",
            "order",
            "3.0 q 1 1 done 25",
            "1.0 m 1 1 done",
            "2.0 p 1 1 stale b had 0 by 1.0",
            "table 0",
            "b = none home 1 moves 1",
            "b-1 = 25 home 0 moves 0",
            "b/1 = 10 home 1 moves 1",
            "table 1",
            "b-1 = 20 home 0 moves 0",
            "b/1 = 10 home 0 moves 0",
        ],
    },
];

/// Two puts of one home.
const TWO_PUTS: &[&str] = &[
    "session x at 0",
    "call put \"b\" 1",
    "session y at 0",
    "call put \"d\" 2",
];

/// The home is asked again, and its log is received in stretches that are lost, repeated and overlapping.
const REPEATED: &[&str] = &[
    "submit 0 x",
    "append 0 0 1 !2",
    "append 0 0 0",
    "append 0 0 0",
    "deliver 1 0 0 2 !3",
    "deliver 1 0 0 0",
    "deliver 1 0 0 1",
    "submit 0 y",
    "append 0 0 0",
    "append 0 0 1",
    "deliver 1 0 2 1 !3",
    "deliver 1 0 2 2",
    "deliver 1 0 0 1",
    "deliver 0 0 0 2",
    "insert 1 0",
    "insert 1 0 !4",
    "deliver 1 0 0 2",
    "insert 1 0",
    "execute 1 2.0",
    "execute 1 2.0 !6",
    "insert 0 0",
    "insert 0 0",
    "insert 0 0 !4",
    "execute 0 2.0",
    "execute 0 1.0",
    "answer 0 x",
];

/// What the regions keep of these: each its own, and of these those that took effect.
const KEPT: &[&str] = &[
    "region 0",
    "submit 0 x",
    "append 0 0 0",
    "submit 0 y",
    "append 0 0 1",
    "insert 0 0",
    "insert 0 0",
    "execute 0 2.0",
    "execute 0 1.0",
    "answer 0 x",
    "region 1",
    "deliver 1 0 0 1",
    "insert 1 0",
    "deliver 1 0 0 2",
    "insert 1 0",
    "execute 1 2.0",
];

/// The case, as it is tried.
fn fill(play: &mut Play, case: &Case) -> Result<(), Fail> {
    play.cluster.add_all(case.cluster)?;
    play.workload.add_all(case.workload)?;
    play.events.add_all(case.events)?;
    play.report.add_all(case.report)
}

/// Whether a case that is tried in this play is reported as it says.
fn is_reported(alloc: Global, play: &mut Play, case: &Case) -> Result<bool, Fail> {
    fill(play, case)?;
    play.comes_as_wanted(alloc)
}

/// Fails at the first case that is reported in another way. Plays are left to the end of the process: that they may be dropped
/// would be proved here.
fn check(alloc: Global) -> Result<(), Fail> {
    for (row, case) in CASES.iter().enumerate() {
        let mut play = Play::new(alloc);
        let reported = is_reported(alloc, &mut play, case);
        forget(play);
        if !reported? {
            return Err(wrong(row));
        }
    }
    Ok(())
}

#[test]
fn events_are_refused_by_their_rules_and_the_others_reported(rt: HostRuntime) -> Result<(), Fail> {
    check(rt.alloc())
}

/// Whether the regions keep these lines of the case that is tried in this play.
fn are_kept(alloc: Global, play: &mut Play, lines: &[&str]) -> Result<bool, Fail> {
    fill(play, &REPEATING)?;
    let kept = play.told(alloc, Asked::Kept)?;
    play.order.add_all(lines)?;
    Ok(kept == play.order.bytes()?)
}

/// Whether they keep their own events that took effect.
fn own_are_kept(alloc: Global) -> Result<bool, Fail> {
    let mut play = Play::new(alloc);
    let kept = are_kept(alloc, &mut play, KEPT);
    forget(play);
    kept
}

#[test]
fn a_region_keeps_its_own_events_that_took_effect(rt: HostRuntime) -> Result<(), Fail> {
    assert!(rt; own_are_kept(rt.alloc())?);
    Ok(())
}

//! Replays: what events come to, and the first fault in them.
use super::{ended, faults, joined, moves, told_over, turns};
use dt_text::NoMemory;
use std::alloc::Global;
use std::sync::Wait;
use std::test::Fail;
use std::thread::Threads;

/// A replay, and how it ends.
pub(super) struct Case {
    /// What the case shows.
    pub shows: &'static str,
    /// The cluster's file, or the word of a built-in one.
    pub cluster: &'static str,
    pub workload: &'static [u8],
    /// The first events, and those after them.
    pub events: &'static [u8],
    pub then: &'static [u8],
    pub exit: u8,
    /// The report up to its events, or else the fault.
    pub told: &'static [u8],
}

/// Three puts of one home.
const THREE_PUTS: &[u8] = b"session x at 0\n\
    call put \"b\" 1\n\
    session y at 0\n\
    call put \"d\" 2\n\
    session z at 0\n\
    call put \"f\" 3\n";

/// They are asked for, and placed in the log of their home.
const THREE_PUTS_BEGIN: &[u8] = b"submit 0 x\n\
    submit 0 y\n\
    submit 0 z\n\
    append 0 0 0\n\
    append 0 0 1\n\
    append 0 0 2\n";

/// Two transfers of two homes, in opposite ways.
const CROSSING: &[u8] = b"session p at 0\n\
    call xfer \"b\" \"a\" 3\n\
    session q at 1\n\
    call xfer \"a\" \"b\" 4\n";

/// The same two, of which the second has a lower rank.
const CROSSING_URGENT: &[u8] = b"session p at 0\n\
    call xfer \"b\" \"a\" 3\n\
    session q at 1\n\
    call/2 xfer \"a\" \"b\" 4\n";

/// The same two, with the rank of a call that names none.
const CROSSING_OF_RANK_5: &[u8] = b"session p at 0\n\
    call/5 xfer \"b\" \"a\" 3\n\
    session q at 1\n\
    call xfer \"a\" \"b\" 4\n";

/// They stand in both logs in opposite orders, of which region 0 inserts its own.
const CROSSING_BEGIN: &[u8] = b"submit 0 p\n\
    submit 1 q\n\
    append 0 0 0\n\
    append 1 1 0\n\
    append 0 1 0\n\
    append 1 0 0\n\
    deliver 0 1 0 2\n\
    deliver 1 0 0 2\n\
    insert 0 0\n\
    insert 0 0\n";

/// Two reads of a key, and a put.
const TWO_READS: &[u8] = b"session x at 0\n\
    call get \"b\"\n\
    session y at 0\n\
    call get \"b\"\n\
    session z at 0\n\
    call put \"b\" 1\n";

/// All are inserted, and the second read is executed.
const TWO_READS_BEGIN: &[u8] = b"submit 0 x\n\
    submit 0 y\n\
    submit 0 z\n\
    append 0 0 0\n\
    append 0 0 1\n\
    append 0 0 2\n\
    insert 0 0\n\
    insert 0 0\n\
    insert 0 0\n\
    execute 0 2.0\n";

/// A put, and three transfers in a circle, which it reaches.
const CIRCLE: &[u8] = b"session u at 0\n\
    call put \"c\" 20\n\
    session p at 0\n\
    call xfer \"c\" \"a\" 1\n\
    session q at 1\n\
    call xfer \"a\" \"b\" 1\n\
    session s at 2\n\
    call xfer \"b\" \"c\" 1\n";

/// All parts are placed, and region 0 inserts them.
const CIRCLE_BEGIN: &[u8] = b"submit 0 u\n\
    append 0 0 0\n\
    submit 0 p\n\
    submit 1 q\n\
    submit 2 s\n\
    append 0 0 1\n\
    append 1 1 0\n\
    append 2 2 0\n\
    append 0 2 0\n\
    append 1 0 0\n\
    append 2 1 0\n\
    deliver 0 1 0 2\n\
    deliver 0 2 0 2\n\
    insert 0 0\n\
    insert 0 0\n\
    insert 0 0\n\
    insert 0 1\n\
    insert 0 1\n\
    insert 0 2\n\
    insert 0 2\n";

/// Replays.
const CASES: &[Case] = &[
    Case {
        shows: "nothing is reported of nothing",
        cluster: ":1",
        workload: b"",
        events: b"",
        then: b"",
        exit: 0,
        told: b"replies\n\
            order\n\
            table 0\n",
    },
    Case {
        shows: "repeated and lost deliveries change nothing",
        cluster: ":2",
        workload: THREE_PUTS,
        events: THREE_PUTS_BEGIN,
        then: b"deliver 1 0 0 2\n\
            deliver 1 0 0 2\n\
            deliver 1 0 3 3\n\
            deliver 1 0 1 3\n\
            insert 1 0\n\
            insert 1 0\n\
            insert 1 0\n\
            execute 1 1.0\n\
            execute 1 2.0\n\
            execute 1 3.0\n",
        exit: 0,
        told: b"replies\n\
            order\n\
            1.0 x 1 1 done\n\
            2.0 y 1 1 done\n\
            3.0 z 1 1 done\n\
            table 0\n\
            table 1\n\
            b = 1 home 0 moves 0\n\
            d = 2 home 0 moves 0\n\
            f = 3 home 0 moves 0\n",
    },
    Case {
        shows: "a delivery past the end of a log is refused",
        cluster: ":2",
        workload: THREE_PUTS,
        events: THREE_PUTS_BEGIN,
        then: b"deliver 1 0 0 4\n",
        exit: 6,
        told: b"detock: events line 7: rule 3\n",
    },
    Case {
        shows: "regions may execute what does not clash in any order",
        cluster: ":2",
        workload: b"session x at 0\n\
            call put \"b\" 1\n\
            session y at 0\n\
            call put \"d\" 2\n",
        events: b"submit 0 x\n\
            submit 0 y\n\
            append 0 0 0\n\
            append 0 0 1\n\
            insert 0 0\n\
            insert 0 0\n\
            deliver 1 0 0 2\n\
            insert 1 0\n\
            insert 1 0\n\
            execute 1 2.0\n\
            execute 0 1.0\n\
            execute 0 2.0\n\
            execute 1 1.0\n",
        then: b"",
        exit: 0,
        told: b"replies\n\
            order\n\
            2.0 y 1 1 done\n\
            1.0 x 1 1 done\n\
            table 0\n\
            b = 1 home 0 moves 0\n\
            d = 2 home 0 moves 0\n\
            table 1\n\
            b = 1 home 0 moves 0\n\
            d = 2 home 0 moves 0\n",
    },
    Case {
        shows: "calls over two homes deadlock and end alike",
        cluster: "regions = 2\n\
            [rows]\n\
            a = 10\n\
            b = 10\n",
        workload: CROSSING,
        events: CROSSING_BEGIN,
        then: b"insert 0 1\n\
            insert 0 1\n\
            insert 1 0\n\
            insert 1 0\n\
            insert 1 1\n\
            insert 1 1\n\
            resolve 0 1.0 1.1\n\
            execute 0 1.0\n\
            execute 0 1.1\n\
            resolve 1 1.0 1.1\n\
            execute 1 1.0\n\
            execute 1 1.1\n\
            answer 0 p\n\
            answer 1 q\n",
        exit: 0,
        told: b"replies\n\
            reply p 1 done 7 13\n\
            reply q 1 done 9 11\n\
            order\n\
            1.0 p 1 1 done 7 13\n\
            1.1 q 1 1 done 9 11\n\
            table 0\n\
            a = 9 home 1 moves 0\n\
            b = 11 home 0 moves 0\n\
            table 1\n\
            a = 9 home 1 moves 0\n\
            b = 11 home 0 moves 0\n",
    },
    Case {
        shows: "in a deadlocked group the lower rank runs first",
        cluster: "regions = 2\n\
            [rows]\n\
            a = 10\n\
            b = 10\n",
        workload: CROSSING_URGENT,
        events: CROSSING_BEGIN,
        then: b"insert 0 1\n\
            insert 0 1\n\
            insert 1 0\n\
            insert 1 0\n\
            insert 1 1\n\
            insert 1 1\n\
            resolve 0 1.0 1.1\n\
            execute 0 1.1\n\
            execute 0 1.0\n\
            resolve 1 1.0 1.1\n\
            execute 1 1.1\n\
            execute 1 1.0\n\
            answer 0 p\n\
            answer 1 q\n",
        exit: 0,
        told: b"replies\n\
            reply p 1 done 11 9\n\
            reply q 1 done 6 14\n\
            order\n\
            1.1 q 1 1 done 6 14\n\
            1.0 p 1 1 done 11 9\n\
            table 0\n\
            a = 9 home 1 moves 0\n\
            b = 11 home 0 moves 0\n\
            table 1\n\
            a = 9 home 1 moves 0\n\
            b = 11 home 0 moves 0\n",
    },
    Case {
        shows: "a higher rank does not run before a lower one of its group",
        cluster: "regions = 2\n\
            [rows]\n\
            a = 10\n\
            b = 10\n",
        workload: CROSSING_URGENT,
        events: CROSSING_BEGIN,
        then: b"insert 0 1\n\
            insert 0 1\n\
            insert 1 0\n\
            insert 1 0\n\
            insert 1 1\n\
            insert 1 1\n\
            resolve 0 1.0 1.1\n\
            execute 0 1.0\n",
        exit: 6,
        told: b"detock: events line 18: rule 6\n",
    },
    Case {
        shows: "a call that tells no rank has rank 5, so that ids decide",
        cluster: "regions = 2\n\
            [rows]\n\
            a = 10\n\
            b = 10\n",
        workload: CROSSING_OF_RANK_5,
        events: CROSSING_BEGIN,
        then: b"insert 0 1\n\
            insert 0 1\n\
            resolve 0 1.0 1.1\n\
            execute 0 1.1\n",
        exit: 6,
        told: b"detock: events line 14: rule 6\n",
    },
    Case {
        shows: "a group is not resolved before it is known whole",
        cluster: "regions = 2\n\
            [rows]\n\
            a = 10\n\
            b = 10\n",
        workload: CROSSING,
        events: CROSSING_BEGIN,
        then: b"resolve 0 1.0 1.1\n",
        exit: 6,
        told: b"detock: events line 11: rule 5\n",
    },
    Case {
        shows: "a member of a group is not executed before it is resolved",
        cluster: "regions = 2\n\
            [rows]\n\
            a = 10\n\
            b = 10\n",
        workload: CROSSING,
        events: CROSSING_BEGIN,
        then: b"execute 0 1.0\n",
        exit: 6,
        told: b"detock: events line 11: rule 6\n",
    },
    Case {
        shows: "reads do not wait for each other",
        cluster: ":2",
        workload: TWO_READS,
        events: TWO_READS_BEGIN,
        then: b"execute 0 1.0\n\
            execute 0 3.0\n\
            answer 0 y\n",
        exit: 0,
        told: b"replies\n\
            reply y 1 done none\n\
            order\n\
            2.0 y 1 1 done none\n\
            1.0 x 1 1 done none\n\
            3.0 z 1 1 done\n\
            table 0\n\
            b = 1 home 0 moves 0\n\
            table 1\n",
    },
    Case {
        shows: "a put waits for the reads before it",
        cluster: ":2",
        workload: TWO_READS,
        events: TWO_READS_BEGIN,
        then: b"execute 0 3.0\n",
        exit: 6,
        told: b"detock: events line 11: rule 6\n",
    },
    Case {
        shows: "what stands outside a circle runs first",
        cluster: "regions = 3\n\
            [rows]\n\
            a = 10\n\
            b = 10\n\
            c = 10\n",
        workload: CIRCLE,
        events: CIRCLE_BEGIN,
        then: b"execute 0 1.0\n\
            resolve 0 1.1 1.2 2.0\n\
            execute 0 1.1\n\
            execute 0 1.2\n\
            execute 0 2.0\n",
        exit: 0,
        told: b"replies\n\
            order\n\
            1.0 u 1 1 done\n\
            1.1 q 1 1 done 9 11\n\
            1.2 s 1 1 done 10 21\n\
            2.0 p 1 1 done 20 10\n\
            table 0\n\
            a = 10 home 1 moves 0\n\
            b = 10 home 2 moves 0\n\
            c = 20 home 0 moves 0\n\
            table 1\n\
            a = 10 home 1 moves 0\n\
            b = 10 home 2 moves 0\n\
            c = 10 home 0 moves 0\n\
            table 2\n\
            a = 10 home 1 moves 0\n\
            b = 10 home 2 moves 0\n\
            c = 10 home 0 moves 0\n",
    },
    Case {
        shows: "a circle waits for what reaches it from outside",
        cluster: "regions = 3\n\
            [rows]\n\
            a = 10\n\
            b = 10\n\
            c = 10\n",
        workload: CIRCLE,
        events: CIRCLE_BEGIN,
        then: b"resolve 0 1.1 1.2 2.0\n",
        exit: 6,
        told: b"detock: events line 21: rule 5\n",
    },
    Case {
        shows: "nothing is executed before its insertion",
        cluster: ":1",
        workload: b"session a at 0\n\
            call put \"b\" 5\n",
        events: b"submit 0 a\n\
            append 0 0 0\n\
            execute 0 1.0\n",
        then: b"",
        exit: 6,
        told: b"detock: events line 3: rule 6\n",
    },
    Case {
        shows: "a number has one spelling",
        cluster: ":1",
        workload: b"session a at 0\n\
            call put \"b\" 5\n",
        events: b"submit 0 a\n\
            append 0 0 00\n\
            insert 0 0\n\
            execute 0 1.0\n\
            answer 0 a\n",
        then: b"",
        exit: 6,
        told: b"detock: events line 2: no event\n",
    },
    Case {
        shows: "all lines are read before any event is tried, and skipped lines count",
        cluster: ":1",
        workload: b"session a at 0\n\
            call put \"b\" 5\n",
        events: b"answer 0 a\n\
            \n\
            # a comment\n\
            answer 0\n",
        then: b"",
        exit: 6,
        told: b"detock: events line 4: no event\n",
    },
    Case {
        shows: "the line of an event is reported and not its number",
        cluster: ":1",
        workload: b"session a at 0\n\
            call put \"b\" 5\n",
        events: b"# a comment\n\
            answer 0 a\n\
            answer 0 a\n",
        then: b"",
        exit: 6,
        told: b"detock: events line 2: rule 7\n",
    },
    Case {
        shows: "there is no region 2",
        cluster: ":1",
        workload: b"session a at 0\n\
            call put \"b\" 5\n",
        events: b"resolve 2 1.0 1.1\n",
        then: b"",
        exit: 6,
        told: b"detock: events line 1: rule 5\n",
    },
];

/// A verb, and how many words a call of it has.
type Verb = (&'static str, usize);

/// `replay CLUSTER WORKLOAD EVENTS`.
const REPLAY: Verb = ("replay", 4);

/// `run CLUSTER WORKLOAD`.
const RUN: Verb = ("run", 3);

/// The word of the built-in cluster, or the name of a cluster's file.
fn cluster_word(cluster: &'static str) -> &'static str {
    match cluster.as_bytes() {
        [b':', ..] => cluster,
        _ => "c",
    }
}

/// How a case ends.
fn told_by<R: Threads + Wait + Sync>(
    rt: &R,
    alloc: Global,
    verb: Verb,
    case: &Case,
) -> Result<Vec<u8>, NoMemory> {
    let words = [verb.0, cluster_word(case.cluster), "w", "e"];
    let words = words.get(..verb.1).unwrap_or_default();
    let events = joined(alloc, &[case.events, case.then])?;
    told_over(
        rt,
        alloc,
        words,
        case.cluster.as_bytes(),
        case.workload,
        events.as_slice(),
    )
}

/// How a case is to end.
fn wanted(alloc: Global, case: &Case) -> Result<Vec<u8>, NoMemory> {
    if case.exit != 0 {
        return ended(alloc, case.exit, case.told, b"");
    }
    let report = joined(alloc, &[case.told, b"events\n", case.events, case.then])?;
    ended(alloc, 0, b"", report.as_slice())
}

/// Fails at the first case that ends in another way.
fn check<R: Threads + Wait + Sync>(
    rt: &R,
    alloc: Global,
    verb: Verb,
    cases: &[Case],
) -> Result<(), Fail> {
    for case in cases {
        if told_by(rt, alloc, verb, case)? != wanted(alloc, case)? {
            return Err(Fail::new(case.shows));
        }
    }
    Ok(())
}

/// Fails at the first fault of a cluster or of a workload that is not told.
fn check_faults<R: Threads + Wait + Sync>(rt: &R, alloc: Global, verb: Verb) -> Result<(), Fail> {
    check(rt, alloc, verb, faults::CASES)
}

#[test]
fn the_first_fault_of_the_first_file_is_told_by_a_replay(rt: HostRuntime) -> Result<(), Fail> {
    check_faults(&rt, rt.alloc(), REPLAY)
}

#[test]
fn the_first_fault_of_the_first_file_is_told_by_a_run(rt: HostRuntime) -> Result<(), Fail> {
    check_faults(&rt, rt.alloc(), RUN)
}

#[test]
fn replays_end_with_a_report_or_with_the_first_fault(rt: HostRuntime) -> Result<(), Fail> {
    check(&rt, rt.alloc(), REPLAY, CASES)
}

#[test]
fn replays_with_moves_end_with_a_report_or_with_the_first_fault(
    rt: HostRuntime,
) -> Result<(), Fail> {
    check(&rt, rt.alloc(), REPLAY, moves::CASES)
}

#[test]
fn a_session_makes_one_call_after_another_and_each_is_answered(
    rt: HostRuntime,
) -> Result<(), Fail> {
    check(&rt, rt.alloc(), REPLAY, turns::CASES)
}

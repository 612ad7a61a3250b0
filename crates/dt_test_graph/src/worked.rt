//! Short runs, call by call at both schedulers: what is ready after each call, and what may be resolved.
use crate::alike::{Run, Step, Then, are_alike};
use crate::calls::Call;
use Call::{Execute, Insert, Resolve};
use Then::Tells;
use dt_access::{Mode, TxnId};
use dt_test_texts::wrong;
use std::alloc::Global;
use std::test::Fail;

/// The ids of all runs.
const IDS: [TxnId; 5] = [
    TxnId { seq: 1, region: 0 },
    TxnId { seq: 1, region: 1 },
    TxnId { seq: 1, region: 2 },
    TxnId { seq: 2, region: 0 },
    TxnId { seq: 3, region: 0 },
];

/// Two that wait for each other: neither is complete before the last part.
const PAIR: &[Step] = &[
    (
        Insert((1, 0, 5, 0, b"b", Mode::Write, 0, 1)),
        Tells(b"ready"),
    ),
    (
        Insert((1, 1, 5, 0, b"b", Mode::Write, 0, 1)),
        Tells(b"ready"),
    ),
    (
        Insert((1, 1, 5, 1, b"a", Mode::Write, 0, 1)),
        Tells(b"ready"),
    ),
    (
        Insert((1, 0, 5, 1, b"a", Mode::Write, 0, 1)),
        Tells(b"ready, class 1.0 1.1"),
    ),
    (Resolve, Tells(b"ready 1.0")),
    (Execute(1, 0), Tells(b"ready 1.1")),
    (Execute(1, 1), Tells(b"ready")),
];

/// Two reads in any order, and a write after both.
const READS: &[Step] = &[
    (
        Insert((1, 0, 5, 0, b"b", Mode::Read, 0, 0)),
        Tells(b"ready 1.0"),
    ),
    (
        Insert((2, 0, 5, 0, b"b", Mode::Read, 0, 0)),
        Tells(b"ready 1.0 2.0"),
    ),
    (
        Insert((3, 0, 5, 0, b"b", Mode::Write, 0, 0)),
        Tells(b"ready 1.0 2.0"),
    ),
    (Execute(2, 0), Tells(b"ready 1.0")),
    (Execute(1, 0), Tells(b"ready 3.0")),
    (Execute(3, 0), Tells(b"ready")),
];

/// Numbers of regions, and calls, each with what both schedulers answer after it.
const RUNS: &[(u8, &[Step])] = &[
    (2, PAIR),
    (3, PAIR),
    // In a group the lower rank runs first, whatever the ids are.
    (
        3,
        &[
            (
                Insert((1, 0, 5, 0, b"b", Mode::Write, 0, 1)),
                Tells(b"ready"),
            ),
            (
                Insert((1, 1, 2, 0, b"b", Mode::Write, 0, 1)),
                Tells(b"ready"),
            ),
            (
                Insert((1, 1, 2, 1, b"a", Mode::Write, 0, 1)),
                Tells(b"ready"),
            ),
            (
                Insert((1, 0, 5, 1, b"a", Mode::Write, 0, 1)),
                Tells(b"ready, class 1.0 1.1"),
            ),
            (Resolve, Tells(b"ready 1.1")),
            (Execute(1, 1), Tells(b"ready 1.0")),
            (Execute(1, 0), Tells(b"ready")),
        ],
    ),
    // No rank helps past what stands earlier in a log, where nothing waits for each other.
    (
        3,
        &[
            (
                Insert((1, 0, 9, 0, b"b", Mode::Write, 0, 0)),
                Tells(b"ready 1.0"),
            ),
            (
                Insert((2, 0, 0, 0, b"b", Mode::Write, 0, 0)),
                Tells(b"ready 1.0"),
            ),
            (Execute(1, 0), Tells(b"ready 2.0")),
            (Execute(2, 0), Tells(b"ready")),
        ],
    ),
    // What takes a granule as a whole waits for what reads a row of it, and not for what writes `b-1`.
    (
        3,
        &[
            (
                Insert((1, 0, 5, 0, b"b/1", Mode::Read, 0, 0)),
                Tells(b"ready 1.0"),
            ),
            (
                Insert((2, 0, 5, 0, b"b-1", Mode::Write, 0, 0)),
                Tells(b"ready 1.0 2.0"),
            ),
            (
                Insert((3, 0, 5, 0, b"b", Mode::Whole, 0, 0)),
                Tells(b"ready 1.0 2.0"),
            ),
            (Execute(2, 0), Tells(b"ready 1.0")),
            (Execute(1, 0), Tells(b"ready 3.0")),
            (Execute(3, 0), Tells(b"ready")),
        ],
    ),
    // Three in a ring, which may not be resolved before what stands in front of them was executed.
    (
        3,
        &[
            (
                Insert((1, 0, 5, 0, b"c", Mode::Write, 0, 0)),
                Tells(b"ready 1.0"),
            ),
            (
                Insert((2, 0, 5, 0, b"c", Mode::Write, 0, 1)),
                Tells(b"ready 1.0"),
            ),
            (
                Insert((1, 2, 5, 0, b"c", Mode::Write, 0, 2)),
                Tells(b"ready 1.0"),
            ),
            (
                Insert((1, 1, 5, 1, b"a", Mode::Write, 1, 2)),
                Tells(b"ready 1.0"),
            ),
            (
                Insert((2, 0, 5, 1, b"a", Mode::Write, 0, 1)),
                Tells(b"ready 1.0"),
            ),
            (
                Insert((1, 2, 5, 2, b"b", Mode::Write, 0, 2)),
                Tells(b"ready 1.0"),
            ),
            (
                Insert((1, 1, 5, 2, b"b", Mode::Write, 1, 2)),
                Tells(b"ready 1.0"),
            ),
            (Execute(1, 0), Tells(b"ready, class 1.1 1.2 2.0")),
            (Resolve, Tells(b"ready 1.1")),
            (Execute(1, 1), Tells(b"ready 1.2")),
            (Execute(1, 2), Tells(b"ready 2.0")),
            (Execute(2, 0), Tells(b"ready")),
        ],
    ),
    (2, READS),
    (3, READS),
];

/// Fails at the first run in which one of both answers in another way.
fn check(alloc: Global) -> Result<(), Fail> {
    for (row, (regions, steps)) in RUNS.iter().enumerate() {
        let run = Run {
            regions: *regions,
            steps,
            ids: &IDS,
        };
        if !are_alike(alloc, &run)? {
            return Err(wrong(row));
        }
    }
    Ok(())
}

#[test]
fn both_schedulers_tell_the_same_after_each_call(rt: HostRuntime) -> Result<(), Fail> {
    check(rt.alloc())
}

//! Replays of workloads with moves: what becomes stale, what is tried again, and what is refused.
use super::replays::Case;

/// A move of a key, and a put of it by another session.
const MOVED: &[u8] = b"session m at 0\n\
    move b to 1\n\
    session p at 0\n\
    call put \"b\" 7\n";

/// The put was annotated before the move, and is executed after it, so that it is stale.
const MOVED_BEGIN: &[u8] = b"submit 0 m\n\
    submit 0 p\n\
    append 0 0 0\n\
    append 0 0 1\n\
    append 1 0 0\n\
    deliver 0 1 0 1\n\
    insert 0 0\n\
    insert 0 0\n\
    insert 0 1\n\
    execute 0 1.0\n\
    execute 0 2.0\n";

/// Three moves of a key; the second is annotated before the first, and the third after it.
const THRICE: &[u8] = b"session m1 at 0\n\
    move c to 1\n\
    session m2 at 0\n\
    move c to 2\n\
    session m3 at 0\n\
    move c to 1\n";

/// Region 0 executes the first, the third and the second.
const THRICE_BEGIN: &[u8] = b"submit 0 m1\n\
    submit 0 m2\n\
    append 0 0 0\n\
    append 0 0 1\n\
    append 1 0 0\n\
    deliver 0 1 0 1\n\
    insert 0 0\n\
    insert 0 1\n\
    execute 0 1.0\n\
    submit 0 m3\n\
    append 1 0 1\n\
    deliver 0 1 1 2\n\
    insert 0 1\n\
    execute 0 3.0\n\
    append 2 0 0\n\
    deliver 0 2 0 1\n\
    insert 0 0\n\
    insert 0 2\n\
    execute 0 2.0\n\
    deliver 1 0 0 2\n\
    deliver 1 2 0 1\n\
    insert 1 0\n\
    insert 1 0\n\
    insert 1 1\n\
    insert 1 2\n\
    execute 1 1.0\n";

/// A transfer, and two moves of one of its keys.
const CROSSED: &[u8] = b"session p at 0\n\
    call xfer \"b\" \"a\" 3\n\
    session n at 0\n\
    move b to 1\n\
    session q at 1\n\
    move b to 1\n";

/// Region 0 has all parts of the three, which wait for each other.
const CROSSED_BEGIN: &[u8] = b"submit 0 p\n\
    submit 0 n\n\
    submit 1 q\n\
    append 0 1 0\n\
    append 0 0 0\n\
    append 0 0 1\n\
    append 1 0 0\n\
    append 1 0 1\n\
    append 1 1 0\n\
    deliver 0 1 0 3\n\
    insert 0 0\n\
    insert 0 0\n\
    insert 0 0\n\
    insert 0 1\n\
    insert 0 1\n\
    insert 0 1\n";

/// A cluster whose rows `b/1` and `b/2` move each by itself.
const SINGLE_KEYS: &str = "regions = 2\n\
    [rows]\n\
    \"b/1\" = 10\n\
    \"b/2\" = 20\n";

/// A move of `b`, and an addition to one of these rows.
const ROW_MOVED: &[u8] = b"session m at 0\n\
    move b to 1\n\
    session p at 0\n\
    call add \"b/2\" 5\n";

/// Replays with moves.
pub(super) const CASES: &[Case] = &[
    Case {
        shows: "a stale attempt is made again and succeeds",
        cluster: ":2",
        workload: MOVED,
        events: MOVED_BEGIN,
        then: b"submit 0 p\n\
            append 1 0 1\n\
            deliver 0 1 1 2\n\
            insert 0 1\n\
            execute 0 3.0\n\
            answer 0 m\n\
            answer 0 p\n",
        exit: 0,
        told: b"replies\n\
            reply m 1 done\n\
            reply p 1 done\n\
            order\n\
            1.0 m 1 1 done\n\
            2.0 p 1 1 stale b had 0 by 1.0\n\
            3.0 p 1 2 done\n\
            table 0\n\
            b = 7 home 1 moves 1\n\
            table 1\n",
    },
    Case {
        shows: "a stale attempt with a try left is not answered",
        cluster: ":2",
        workload: MOVED,
        events: MOVED_BEGIN,
        then: b"answer 0 p\n",
        exit: 6,
        told: b"detock: events line 12: rule 7\n",
    },
    Case {
        shows: "an attempt that is not stale is not made again",
        cluster: ":2",
        workload: MOVED,
        events: MOVED_BEGIN,
        then: b"submit 0 m\n",
        exit: 6,
        told: b"detock: events line 12: rule 1\n",
    },
    Case {
        shows: "the second attempt is asked for at the new home and not at the old one",
        cluster: ":2",
        workload: MOVED,
        events: MOVED_BEGIN,
        then: b"submit 0 p\n\
            append 0 0 2\n",
        exit: 6,
        told: b"detock: events line 13: rule 2\n",
    },
    Case {
        shows: "the second attempt runs only after its part is there",
        cluster: ":2",
        workload: MOVED,
        events: MOVED_BEGIN,
        then: b"submit 0 p\n\
            append 1 0 1\n\
            execute 0 3.0\n",
        exit: 6,
        told: b"detock: events line 14: rule 6\n",
    },
    Case {
        shows: "every region names the move after those that the attempt knew",
        cluster: ":3",
        workload: THRICE,
        events: THRICE_BEGIN,
        then: b"execute 1 2.0\n\
            insert 1 1\n\
            execute 1 3.0\n",
        exit: 0,
        told: b"replies\n\
            order\n\
            1.0 m1 1 1 done\n\
            3.0 m3 1 1 done\n\
            2.0 m2 1 1 stale c had 0 by 1.0\n\
            table 0\n\
            c = none home 1 moves 2\n\
            table 1\n\
            c = none home 1 moves 2\n\
            table 2\n",
    },
    Case {
        shows: "a move runs only after its part at its target is there",
        cluster: ":3",
        workload: THRICE,
        events: THRICE_BEGIN,
        then: b"execute 1 3.0\n",
        exit: 6,
        told: b"detock: events line 27: rule 6\n",
    },
    Case {
        shows: "a transfer before a move is not stale",
        cluster: "regions = 2\n\
            [rows]\n\
            a = 10\n\
            b = 10\n",
        workload: CROSSED,
        events: CROSSED_BEGIN,
        then: b"resolve 0 1.0 1.1 2.0\n\
            execute 0 1.0\n\
            execute 0 1.1\n\
            execute 0 2.0\n",
        exit: 0,
        told: b"replies\n\
            order\n\
            1.0 p 1 1 done 7 13\n\
            1.1 q 1 1 done\n\
            2.0 n 1 1 stale b had 0 by 1.1\n\
            table 0\n\
            a = 13 home 1 moves 0\n\
            b = 7 home 1 moves 1\n\
            table 1\n\
            a = 10 home 1 moves 0\n\
            b = 10 home 0 moves 0\n",
    },
    Case {
        shows: "moves that wait for a transfer do not run before it",
        cluster: "regions = 2\n\
            [rows]\n\
            a = 10\n\
            b = 10\n",
        workload: CROSSED,
        events: CROSSED_BEGIN,
        then: b"resolve 0 1.0 1.1 2.0\n\
            execute 0 1.1\n",
        exit: 6,
        told: b"detock: events line 18: rule 6\n",
    },
    Case {
        shows: "a second try is not made where one is allowed",
        cluster: "regions = 2\n\
            tries = 1\n",
        workload: MOVED,
        events: MOVED_BEGIN,
        then: b"submit 0 p\n",
        exit: 6,
        told: b"detock: events line 12: rule 1\n",
    },
    Case {
        shows: "the move of a key takes along no other key",
        cluster: SINGLE_KEYS,
        workload: ROW_MOVED,
        events: MOVED_BEGIN,
        then: b"submit 0 p\n",
        exit: 6,
        told: b"detock: events line 12: rule 1\n",
    },
    Case {
        shows: "the last try is answered though it is stale",
        cluster: "regions = 2\n\
            tries = 1\n",
        workload: MOVED,
        events: MOVED_BEGIN,
        then: b"answer 0 p\n",
        exit: 0,
        told: b"replies\n\
            reply p 1 stale b had 0 by 1.0\n\
            order\n\
            1.0 m 1 1 done\n\
            2.0 p 1 1 stale b had 0 by 1.0\n\
            table 0\n\
            b = none home 1 moves 1\n\
            table 1\n",
    },
];

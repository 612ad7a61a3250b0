//! Replays of one session, `a` at region 0, which makes its calls of one home one after another.
use super::replays::Case;

/// The events of its first two calls, each from its submission to its answer.
const TWO_CALLS: &[u8] = b"submit 0 a\n\
    append 0 0 0\n\
    insert 0 0\n\
    execute 0 1.0\n\
    answer 0 a\n\
    submit 0 a\n\
    append 0 0 1\n\
    insert 0 0\n\
    execute 0 2.0\n\
    answer 0 a\n";

/// The events of its third and fourth call.
const NEXT_TWO_CALLS: &[u8] = b"submit 0 a\n\
    append 0 0 2\n\
    insert 0 0\n\
    execute 0 3.0\n\
    answer 0 a\n\
    submit 0 a\n\
    append 0 0 3\n\
    insert 0 0\n\
    execute 0 4.0\n\
    answer 0 a\n";

/// The events of its first four calls.
const FOUR_CALLS: &[u8] = b"submit 0 a\n\
    append 0 0 0\n\
    insert 0 0\n\
    execute 0 1.0\n\
    answer 0 a\n\
    submit 0 a\n\
    append 0 0 1\n\
    insert 0 0\n\
    execute 0 2.0\n\
    answer 0 a\n\
    submit 0 a\n\
    append 0 0 2\n\
    insert 0 0\n\
    execute 0 3.0\n\
    answer 0 a\n\
    submit 0 a\n\
    append 0 0 3\n\
    insert 0 0\n\
    execute 0 4.0\n\
    answer 0 a\n";

/// The events of its last four calls.
const NEXT_FOUR_CALLS: &[u8] = b"submit 0 a\n\
    append 0 0 4\n\
    insert 0 0\n\
    execute 0 5.0\n\
    answer 0 a\n\
    submit 0 a\n\
    append 0 0 5\n\
    insert 0 0\n\
    execute 0 6.0\n\
    answer 0 a\n\
    submit 0 a\n\
    append 0 0 6\n\
    insert 0 0\n\
    execute 0 7.0\n\
    answer 0 a\n\
    submit 0 a\n\
    append 0 0 7\n\
    insert 0 0\n\
    execute 0 8.0\n\
    answer 0 a\n";

/// Sessions that make two, four and eight calls.
pub(super) const CASES: &[Case] = &[
    Case {
        shows: "calls that overflow, divide by zero or meet another kind are answered, and change nothing",
        cluster: "regions = 1\n\
            [rows]\n\
            b = 9223372036854775807\n\
            t = \"x\"\n",
        workload: b"session a at 0\n\
            call add \"b\" 1\n\
            \n  # the others\n\
            call  div \"b\" 0\n\
            call add \"t\" 1\n\
            call xfer \"b\" \"c\" 1\n",
        events: TWO_CALLS,
        then: NEXT_TWO_CALLS,
        exit: 0,
        told: b"replies\n\
            reply a 1 abort overflow\n\
            reply a 2 abort zero\n\
            reply a 3 abort kind\n\
            reply a 4 abort kind\n\
            order\n\
            1.0 a 1 1 abort overflow\n\
            2.0 a 2 1 abort zero\n\
            3.0 a 3 1 abort kind\n\
            4.0 a 4 1 abort kind\n\
            table 0\n\
            b = 9223372036854775807 home 0 moves 0\n\
            t = \"x\" home 0 moves 0\n",
    },
    Case {
        shows: "a transfer from a row to itself",
        cluster: "regions = 1\n\
            [rows]\n\
            b = 5\n",
        workload: b"session a at 0\n\
            call xfer \"b\" \"b\" 3\n\
            call xfer \"b\" \"b\" 6\n",
        events: TWO_CALLS,
        then: b"",
        exit: 0,
        told: b"replies\n\
            reply a 1 done 5 5\n\
            reply a 2 abort \"funds\"\n\
            order\n\
            1.0 a 1 1 done 5 5\n\
            2.0 a 2 1 abort \"funds\"\n\
            table 0\n\
            b = 5 home 0 moves 0\n",
    },
    Case {
        shows: "what a call leaves is what the next one finds",
        cluster: ":1",
        workload: b"session a at 0\n\
            call put \"b\" 5\n\
            call xfer \"b\" \"b\" 3\n\
            call xfer \"b\" \"b\" 6\n\
            call put \"b\" 9223372036854775807\n\
            call add \"b\" 1\n\
            call div \"b\" 0\n\
            call note \"t\" \"x\"\n\
            call add \"t\" 1\n",
        events: FOUR_CALLS,
        then: NEXT_FOUR_CALLS,
        exit: 0,
        told: b"replies\n\
            reply a 1 done\n\
            reply a 2 done 5 5\n\
            reply a 3 abort \"funds\"\n\
            reply a 4 done\n\
            reply a 5 abort overflow\n\
            reply a 6 abort zero\n\
            reply a 7 done\n\
            reply a 8 abort kind\n\
            order\n\
            1.0 a 1 1 done\n\
            2.0 a 2 1 done 5 5\n\
            3.0 a 3 1 abort \"funds\"\n\
            4.0 a 4 1 done\n\
            5.0 a 5 1 abort overflow\n\
            6.0 a 6 1 abort zero\n\
            7.0 a 7 1 done\n\
            8.0 a 8 1 abort kind\n\
            table 0\n\
            b = 9223372036854775807 home 0 moves 0\n\
            t = \"x\" home 0 moves 0\n",
    },
];

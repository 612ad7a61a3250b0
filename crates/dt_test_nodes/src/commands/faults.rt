//! Faults of a cluster or of a workload, which a replay and a run tell alike.
use super::replays::Case;

/// A workload with a fault, which is told only if the cluster has none.
const NO_LINE: &[u8] = b"no line\n";

/// Events with a fault, which is told only if the cluster and the workload have none.
const NO_EVENT: &[u8] = b"no event\n";

/// Clusters and workloads, one of them at fault.
pub(super) const CASES: &[Case] = &[
    Case {
        shows: "a file that is no toml",
        cluster: "regions =\n",
        workload: NO_LINE,
        events: NO_EVENT,
        then: b"",
        exit: 4,
        told: b"detock: cluster: no toml\n",
    },
    Case {
        shows: "a number of regions that is not allowed",
        cluster: "regions = 9\n",
        workload: NO_LINE,
        events: NO_EVENT,
        then: b"",
        exit: 4,
        told: b"detock: cluster regions: out of range\n",
    },
    Case {
        shows: "the number of regions is missing",
        cluster: "workers = 9\n",
        workload: NO_LINE,
        events: NO_EVENT,
        then: b"",
        exit: 4,
        told: b"detock: cluster regions: missing\n",
    },
    Case {
        shows: "a name that no entry has, of which a byte that is not visible is told as `?`",
        cluster: "regions = 1\n\
            \"a b\" = 1\n",
        workload: NO_LINE,
        events: NO_EVENT,
        then: b"",
        exit: 4,
        told: b"detock: cluster a?b: unknown entry\n",
    },
    Case {
        shows: "a name that procedures do not see, by its byte",
        cluster: "regions = 1\n\
            procs = \"proc f(k: text) read a = j; { }\"\n",
        workload: NO_LINE,
        events: NO_EVENT,
        then: b"",
        exit: 4,
        told: b"detock: cluster procs byte 25: unknown name\n",
    },
    Case {
        shows: "a home that is no region",
        cluster: "regions = 1\n\
            [homes]\n\
            k = 1\n\
            [rows]\n\
            k = true\n",
        workload: NO_LINE,
        events: NO_EVENT,
        then: b"",
        exit: 4,
        told: b"detock: cluster homes.k: out of range\n",
    },
    Case {
        shows: "a name that is no key comes before one that is",
        cluster: "regions = 1\n\
            [rows]\n\
            K = 1\n\
            k = true\n",
        workload: NO_LINE,
        events: NO_EVENT,
        then: b"",
        exit: 4,
        told: b"detock: cluster rows.K: no key\n",
    },
    Case {
        shows: "a procedure that is not there",
        cluster: ":1",
        workload: b"session a at 0\n\
            call nope 1\n",
        events: NO_EVENT,
        then: b"",
        exit: 5,
        told: b"detock: workload line 2: unknown procedure\n",
    },
    Case {
        shows: "a key with one byte too many",
        cluster: ":1",
        workload: b"session a at 0\n\
            move aaaaaaaaaaaaaaaaaaaaaaaaaaaaaaaaaaaaaaaaaaaaaaaaaaaaaaaaaaaaaaaaaaaaaaaaaaaaaaaaaaaaaaaaaaaaaaaaaaaaaaaaaaaaaaaaaaaaaaaaaaaaaaaaa to 0\n",
        events: NO_EVENT,
        then: b"",
        exit: 5,
        told: b"detock: workload line 2: no key\n",
    },
    Case {
        shows: "a session in a region that is not there",
        cluster: ":2",
        workload: b"session a at 2\n",
        events: NO_EVENT,
        then: b"",
        exit: 5,
        told: b"detock: workload line 1: no region\n",
    },
    Case {
        shows: "a call before any session, by its line",
        cluster: ":2",
        workload: b"\n\
            # a comment\n\
            call put \"b\" 5\n",
        events: NO_EVENT,
        then: b"",
        exit: 5,
        told: b"detock: workload line 3: no session\n",
    },
    Case {
        shows: "a call with an argument too few",
        cluster: ":2",
        workload: b"session a at 0\n\
            call put \"b\"\n",
        events: NO_EVENT,
        then: b"",
        exit: 5,
        told: b"detock: workload line 2: wrong arguments\n",
    },
    Case {
        shows: "a second session of the same name",
        cluster: ":2",
        workload: b"session a at 0\n\
            session a at 0\n",
        events: NO_EVENT,
        then: b"",
        exit: 5,
        told: b"detock: workload line 2: name used twice\n",
    },
    Case {
        shows: "a rank that is not allowed",
        cluster: ":2",
        workload: b"session a at 0\n\
            call/10 get \"b\"\n",
        events: NO_EVENT,
        then: b"",
        exit: 5,
        told: b"detock: workload line 2: no line of a workload\n",
    },
    Case {
        shows: "a key within a granule, which does not move",
        cluster: "regions = 2\n\
            version = 2\n",
        workload: b"session a at 0\n\
            move b to 1\n\
            move b/1 to 1\n",
        events: NO_EVENT,
        then: b"",
        exit: 5,
        told: b"detock: workload line 3: no key\n",
    },
    Case {
        shows: "a home of a key within a granule",
        cluster: "regions = 2\n\
            version = 2\n\
            [homes]\n\
            \"b/1\" = 0\n",
        workload: NO_LINE,
        events: NO_EVENT,
        then: b"",
        exit: 4,
        told: b"detock: cluster homes.b/1: no key\n",
    },
    Case {
        shows: "a version that is not there",
        cluster: "regions = 2\n\
            version = 3\n",
        workload: NO_LINE,
        events: NO_EVENT,
        then: b"",
        exit: 4,
        told: b"detock: cluster version: out of range\n",
    },
];

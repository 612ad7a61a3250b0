//! The sessions of one region by themselves: which there are, and when all are answered.
ghost use Rattle.dt_cluster.specs.Valid.{IsValidCluster};

use dt_access::TxnId;
use dt_cluster::Cluster;
use dt_eval::Values;
use dt_session::Sessions;
use dt_test_inputs::{cluster_of, workload_of};
use dt_test_texts::{name_of, wrong};
use dt_text::Name;
use dt_txn::Outcome;
use std::alloc::Global;
use std::mem::forget;
use std::test::Fail;

/// A session submits its next call, which gets the id of this number.
fn submit(sessions: &mut Sessions, name: &Name, seq: u32) -> Result<(), Fail> {
    let Some(place) = sessions.place_of(name) else {
        return Err(Fail::from("the session is here"));
    };
    let Some(_) = sessions.next_at(place, None) else {
        return Err(Fail::from("the session has a call left"));
    };
    sessions.wait_at(place, TxnId { seq, region: 0 }, None);
    Ok(())
}

/// A session is answered.
fn answer(alloc: Global, sessions: &mut Sessions, name: &Name) -> Result<(), Fail> {
    let Some(place) = sessions.place_of(name) else {
        return Err(Fail::from("the session is here"));
    };
    let outcome = Outcome::Gave(Values::new(alloc));
    let is_answered = sessions.answer_at(place, Some(&outcome));
    forget(outcome);
    if !is_answered {
        return Err(Fail::from("the session is answered"));
    }
    Ok(())
}

/// What happens to a session of this name: it submits its next call, which gets the id of this number, or it is answered.
#[derive(Clone, Copy)]
enum Step {
    Submits(&'static [u8], u32),
    IsAnswered(&'static [u8]),
}

/// Makes one step.
fn make(alloc: Global, sessions: &mut Sessions, step: Step) -> Result<(), Fail> {
    match step {
        Step::Submits(name, seq) => submit(sessions, &name_of(alloc, name)?, seq),
        Step::IsAnswered(name) => answer(alloc, sessions, &name_of(alloc, name)?),
    }
}

/// What is seen of the sessions: in the order of their names each name, and behind a `:` the number of the attempt that it waits for,
/// with a space behind it; and at the end whether all are answered.
fn seen_of(alloc: Global, sessions: &Sessions) -> Result<Vec<u8>, Fail> {
    let mut seen = Vec::new(alloc);
    for index in 0..4 {
        if let Some(name) = sessions.name(index) {
            seen.extend_from_slice(name.bytes())?;
        }
        if let Some(id) = sessions.waits_at(index) {
            seen.extend_from_slice(format!(in alloc; ":{}.{}", id.seq, id.region)?.as_bytes())?;
        }
        seen.push(b' ')?;
    }
    let answered = sessions.all_answered();
    seen.extend_from_slice(format!(in alloc; "{answered}")?.as_bytes())?;
    Ok(seen)
}

/// What is seen of the sessions after these steps.
fn seen_by(alloc: Global, sessions: &mut Sessions, steps: &[Step]) -> Result<Vec<u8>, Fail> {
    for step in steps {
        make(alloc, sessions, *step)?;
    }
    seen_of(alloc, sessions)
}

/// What is seen of the sessions of region 0 of a cluster after these steps.
fn seen_on(
    alloc: Global,
    cluster: &Cluster,
    workload: &[u8],
    steps: &[Step],
) -> Result<Vec<u8>, Fail>
    requires { IsValidCluster cluster.now }
{
    let workload = workload_of(alloc, cluster, workload)?;
    let sessions = Sessions::new(alloc, &workload, 0, cluster.tries);
    forget(workload);
    let mut sessions = sessions?;
    let seen = seen_by(alloc, &mut sessions, steps);
    forget(sessions);
    seen
}

/// What is seen of the sessions of region 0 of two after these steps. Sessions, workload and cluster are left to the end of the process:
/// that they may be dropped would be proved in each function that owns one.
fn seen_after(alloc: Global, workload: &[u8], steps: &[Step]) -> Result<Vec<u8>, Fail> {
    let cluster = cluster_of(alloc, b"regions = 2\n")?;
    let seen = seen_on(alloc, &cluster, workload, steps);
    forget(cluster);
    seen
}

/// A session with a call.
const ONE: &[u8] = b"session x at 0\ncall get \"b\"\n";

/// Two sessions here, one of them with two calls, and one at another region.
const TWO: &[u8] =
    b"session y at 0\ncall get \"b\"\ncall get \"b\"\nsession x at 0\ncall get \"b\"\nsession z at 1\ncall get \"b\"\n";

/// Sessions, steps of theirs, and what is seen then.
const CASES: &[(&[u8], &[Step], &[u8])] = &[
    // There are those of the region alone, in the order of their names.
    (
        b"session y at 0\ncall put \"b\" 1\nsession z at 1\nsession x at 0\n",
        &[],
        b"x y   false",
    ),
    // All are answered once every call is.
    (b"", &[], b"    true"),
    (b"session x at 0\n", &[], b"x    true"),
    (b"session z at 1\ncall get \"b\"\n", &[], b"    true"),
    (ONE, &[], b"x    false"),
    (ONE, &[Step::Submits(b"x", 1)], b"x:1.0    false"),
    (
        ONE,
        &[Step::Submits(b"x", 1), Step::IsAnswered(b"x")],
        b"x    true",
    ),
    // A place shows the attempt that its session waits for.
    (TWO, &[], b"x y   false"),
    (TWO, &[Step::Submits(b"y", 7)], b"x y:7.0   false"),
    (
        TWO,
        &[Step::Submits(b"y", 7), Step::Submits(b"x", 8)],
        b"x:8.0 y:7.0   false",
    ),
    (
        TWO,
        &[
            Step::Submits(b"y", 7),
            Step::Submits(b"x", 8),
            Step::IsAnswered(b"y"),
        ],
        b"x:8.0 y   false",
    ),
    (
        TWO,
        &[
            Step::Submits(b"y", 1),
            Step::IsAnswered(b"y"),
            Step::Submits(b"y", 2),
            Step::IsAnswered(b"y"),
        ],
        b"x y   false",
    ),
    (
        TWO,
        &[
            Step::Submits(b"x", 1),
            Step::IsAnswered(b"x"),
            Step::Submits(b"y", 2),
            Step::IsAnswered(b"y"),
        ],
        b"x y   false",
    ),
    (
        TWO,
        &[
            Step::Submits(b"y", 1),
            Step::IsAnswered(b"y"),
            Step::Submits(b"x", 2),
            Step::IsAnswered(b"x"),
            Step::Submits(b"y", 3),
            Step::IsAnswered(b"y"),
        ],
        b"x y   true",
    ),
];

/// Fails at the first case in which something else is seen.
fn check(alloc: Global) -> Result<(), Fail> {
    for (row, (workload, steps, want)) in CASES.iter().enumerate() {
        if seen_after(alloc, workload, steps)?.as_slice() != *want {
            return Err(wrong(row));
        }
    }
    Ok(())
}

#[test]
fn sessions_stand_by_their_names_with_what_they_wait_for_until_all_are_answered(
    rt: HostRuntime,
) -> Result<(), Fail> {
    check(rt.alloc())
}

//! Workload files: the sessions of each, or its first fault.

ghost use Rattle.dt_cluster.specs.Valid.{IsValidCluster};

use crate::pieces::is_long;
use dt_cluster::{Cluster, builtin};
use dt_test_inputs::cluster_of;
use dt_test_texts::{put_all, put_number, wrong};
use dt_text::{NoMemory, Value, put_value};
use dt_workload::{Ranked, Session, Wanted, Workload, WorkloadError, read_workload};
use std::alloc::Global;
use std::mem::forget;
use std::test::Fail;

/// More bytes than a test reads.
const MANY: usize = 1000000;

/// A space, and a rank that is not 5.
fn put_rank(alloc: Global, out: &mut Vec<u8>, rank: u8) -> Result<(), NoMemory> {
    if rank == 5 {
        return put_all(out, &[b" "]);
    }
    put_number(alloc, out, b" ", u64::from(rank))?;
    put_all(out, &[b"/"])
}

/// Values, each behind a space.
fn put_arguments(alloc: Global, out: &mut Vec<u8>, values: &[Value]) -> Result<(), NoMemory> {
    for value in values {
        out.push(b' ')?;
        put_value(alloc, out, value)?;
    }
    Ok(())
}

/// A call in words, as the number of its procedure and its arguments, or a move, as its key and its home; before it its
/// rank, unless that is 5.
fn put_wanted(alloc: Global, out: &mut Vec<u8>, ranked: &Ranked) -> Result<(), NoMemory> {
    put_rank(alloc, out, ranked.rank)?;
    match &ranked.wanted {
        Wanted::Call(number, args) => {
            put_number(alloc, out, b"", u64::from(*number))?;
            put_arguments(alloc, out, args.as_slice())?;
        }
        Wanted::Move(key, home) => {
            put_all(out, &[key.bytes()])?;
            put_number(alloc, out, b">", u64::from(*home))?;
        }
    }
    put_all(out, &[b","])
}

/// A session in words: its name, its region, and what it wants.
pub(crate) fn put_session(
    alloc: Global,
    out: &mut Vec<u8>,
    session: &Session,
) -> Result<(), NoMemory> {
    put_all(out, &[session.name.bytes()])?;
    put_number(alloc, out, b"@", u64::from(session.region))?;
    for wanted in session.calls.as_slice() {
        put_wanted(alloc, out, wanted)?;
    }
    put_all(out, &[b";"])
}

/// The sessions of a workload in words.
fn shown(alloc: Global, workload: &Workload) -> Result<Vec<u8>, NoMemory> {
    let mut out = Vec::new(alloc);
    for session in workload.sessions.as_slice() {
        put_session(alloc, &mut out, session)?;
    }
    Ok(out)
}

/// A copy of a workload, in words. Workloads and clusters are left to the end of the process: that they may be dropped would be proved in
/// each function that owns one.
fn words_of_copy(alloc: Global, workload: &Workload) -> Result<Vec<u8>, Fail> {
    let copy = workload.copy(alloc)?;
    let words = shown(alloc, &copy);
    forget(copy);
    Ok(words?)
}

/// A copy of the workload of a file, in words, or its first fault, in a cluster of n regions.
fn told(alloc: Global, regions: u8, file: &[u8]) -> Result<Vec<u8>, Fail> {
    if regions < 1 || regions > 8 {
        return Err(Fail::from("a cluster has 1 to 8 regions"));
    }
    let cluster = builtin(alloc, regions)?;
    let told = told_in(alloc, &cluster, file);
    forget(cluster);
    told
}

/// A copy of the workload of a file, in words, or its first fault, in a cluster.
fn told_in(alloc: Global, cluster: &Cluster, file: &[u8]) -> Result<Vec<u8>, Fail>
    requires { IsValidCluster cluster.now }
{
    if file.len() > MANY {
        return Err(Fail::from("a test reads few bytes"));
    }
    match read_workload(alloc, file, cluster) {
        Ok(workload) => {
            let told = words_of_copy(alloc, &workload);
            forget(workload);
            told
        }
        Err(WorkloadError::Fault(line, cause)) => {
            let fault = format!(in alloc; "{line} {cause:?}")?;
            Ok(fault.as_bytes().to_vec(alloc)?)
        }
        Err(WorkloadError::NoMemory) => Err(Fail::from(NoMemory)),
    }
}

/// A file, and what is told of it.
type Row = (&'static [u8], &'static str);

/// Fails at the first file of which something else is told in a cluster.
fn check(alloc: Global, cluster: &Cluster, rows: &[Row]) -> Result<(), Fail>
    requires { IsValidCluster cluster.now }
{
    for (row, (file, words)) in rows.iter().enumerate() {
        if told_in(alloc, cluster, file)?.as_slice() != words.as_bytes() {
            return Err(wrong(row));
        }
    }
    Ok(())
}

/// Files, each with what is reported of it in a cluster of two regions.
const FILES: &[Row] = &[
    (b"", ""),
    (b"\n   \n # \xff\t\n", ""),
    (b"session a at 0", "a@0;"),
    (b"  session   a  at 1  \n", "a@1;"),
    (b"\tsession a at 0", "1 Form"),
    (b"session a at 0\r\n", "1 Form"),
    (b"session A at 0", "1 Name"),
    (b"session a-b at 9", "1 Name"),
    (b"session abcdefghijklmnopqrstuvwxyz0123456 at 0", "1 Name"),
    (
        b"session abcdefghijklmnopqrstuvwxyz012345 at 0",
        "abcdefghijklmnopqrstuvwxyz012345@0;",
    ),
    (b"session \"a\" at 0", "1 Form"),
    (b"session a at 0\n# x\n\nsession a at 9", "4 Twice"),
    (b"session a at 2", "1 Region"),
    (b"session a at 4294967295", "1 Region"),
    (b"session a at 4294967296", "1 Form"),
    (b"session a at 00", "1 Form"),
    (b"session a at -1", "1 Form"),
    (b"session a in 0", "1 Form"),
    (b"session a at 0 0", "1 Form"),
    (b"session a at", "1 Form"),
    (b"session", "1 Form"),
    (b"sessions a at 0", "1 Form"),
    (b"session a at 0\ncall put \"b\" 5", "a@0 0 \"b\" 5,;"),
    (
        b"session a at 0\ncall put \"b\" -9223372036854775808",
        "a@0 0 \"b\" -9223372036854775808,;",
    ),
    (
        b"session a at 0\ncall put \"b\" 9223372036854775808",
        "2 Form",
    ),
    (b"session a at 0\ncall put \"b\" -0", "2 Form"),
    (b"session a at 0\ncall put \"b\" 07", "2 Form"),
    (b"session a at 0\ncall put \"b\" x", "2 Form"),
    (b"session a at 0\ncall nope x", "2 Form"),
    (b"session a at 0\ncall nope 1", "2 Proc"),
    (b"session a at 0\ncall nope", "2 Proc"),
    (b"session a at 0\ncall PUT \"B\" 1", "2 Proc"),
    (b"session a at 0\ncall put \"b\" \"5\"", "2 Args"),
    (b"session a at 0\ncall put \"B\"", "2 Args"),
    (b"session a at 0\ncall put \"b\" 5 5", "2 Args"),
    (b"session a at 0\ncall put \"B\" 5", "2 Key"),
    (b"session a at 0\ncall xfer \"b\" \"\" 5", "2 Key"),
    (b"session a at 0\ncall \"put\" \"b\" 5", "2 Form"),
    (b"session a at 0\ncall put \"b\"5", "2 Form"),
    (b"session a at 0\ncall put 5\"b\" 1", "2 Form"),
    (b"session a at 0\ncall", "2 Form"),
    (b"session a at 0\nmove b to 1", "a@0 b>1,;"),
    (b"session a at 0\nmove b to 2", "2 Region"),
    (b"session a at 0\nmove B to 2", "2 Key"),
    (b"session a at 0\nmove b at 1", "2 Form"),
    (b"session a at 0\nmove \"b\" to 1", "2 Form"),
    (
        b"session a at 0\nmove aaaaaaaaaaaaaaaaaaaaaaaaaaaaaaaaaaaaaaaaaaaaaaaaaaaaaaaaaaaaaaaaaaaaaaaaaaaaaaaaaaaaaaaaaaaaaaaaaaaaaaaaaaaaaaaaaaaaaaaaaaaaaaaa to 0",
        "a@0 aaaaaaaaaaaaaaaaaaaaaaaaaaaaaaaaaaaaaaaaaaaaaaaaaaaaaaaaaaaaaaaaaaaaaaaaaaaaaaaaaaaaaaaaaaaaaaaaaaaaaaaaaaaaaaaaaaaaaaaaaaaaaaaa>0,;",
    ),
    (
        b"session a at 0\nmove aaaaaaaaaaaaaaaaaaaaaaaaaaaaaaaaaaaaaaaaaaaaaaaaaaaaaaaaaaaaaaaaaaaaaaaaaaaaaaaaaaaaaaaaaaaaaaaaaaaaaaaaaaaaaaaaaaaaaaaaaaaaaaaaa to 0",
        "2 Key",
    ),
    (b"session a at 0\ncall/2 put \"b\" 5", "a@0 2/0 \"b\" 5,;"),
    (b"session a at 0\ncall/5 put \"b\" 5", "a@0 0 \"b\" 5,;"),
    (b"session a at 0\ncall/9 get \"b\"", "a@0 9/2 \"b\",;"),
    (b"session a at 0\ncall/10 get \"b\"", "2 Form"),
    (b"session a at 0\ncall/02 get \"b\"", "2 Form"),
    (b"session a at 0\ncall/ get \"b\"", "2 Form"),
    (b"session a at 0\ncall/x get \"b\"", "2 Form"),
    (b"session a at 0\ncall2 get \"b\"", "2 Form"),
    (b"session a at 0\nmove/0 b to 1", "a@0 0/b>1,;"),
    (b"session a at 0\nmove/12 b to 1", "2 Form"),
    (b"session/1 a at 0", "1 Form"),
    (b"session a at 0\nmove b/1 to 1", "a@0 b/1>1,;"),
    (b"session a at 0\nmoved b to 1", "2 Form"),
    (
        b"session a at 0\n\ncall put \"b\" 5 # 6\ncall nope",
        "3 Form",
    ),
    (b"call put \"b\" 5", "1 NoSession"),
    (b"move B to 9", "1 NoSession"),
    (b"call nope", "1 NoSession"),
    (b"call nope x", "1 Form"),
    (
        b"session z at 1\ncall note \"k/1\" \"a \\\"b\\\\\"\nmove k/1 to 0\nsession a at 0\ncall xfer \"b\" \"a\" -3\n",
        "z@1 1 \"k/1\" \"a \\\"b\\\\\", k/1>0,;a@0 7 \"b\" \"a\" -3,;",
    ),
];

#[test]
fn each_file_is_a_workload_or_has_a_first_fault(rt: HostRuntime) -> Result<(), Fail> {
    let cluster = builtin(rt.alloc(), 2)?;
    let checked = check(rt.alloc(), &cluster, FILES);
    forget(cluster);
    checked
}

/// The same in such a cluster of version 2.
const MOVES: &[Row] = &[
    (b"session a at 0\nmove b to 1", "a@0 b>1,;"),
    (b"session a at 0\nmove b/1 to 1", "2 Key"),
    (b"session a at 0\nmove /x to 1", "a@0 /x>1,;"),
    (b"session a at 0\nmove /x/y to 9", "2 Key"),
];

#[test]
fn in_version_2_a_move_is_of_a_granule(rt: HostRuntime) -> Result<(), Fail> {
    let cluster = cluster_of(rt.alloc(), b"regions = 2\nversion = 2")?;
    let checked = check(rt.alloc(), &cluster, MOVES);
    forget(cluster);
    checked
}

/// A file of n sessions, at each of m regions in turn.
fn sessions(alloc: Global, regions: u8, count: u32) -> Result<Vec<u8>, Fail> {
    let mut file = Vec::new(alloc);
    for number in 0..count {
        let region = number % u32::from(regions.max(1));
        put_number(alloc, &mut file, b"session s", u64::from(number))?;
        put_number(alloc, &mut file, b" at ", u64::from(region))?;
        file.push(b'\n')?;
    }
    Ok(file)
}

/// Numbers of regions and of sessions, and the length and the end of what is told of them.
const SESSIONS: &[(u8, u32, usize, &[u8])] = &[
    (1, 64, 374, b"s62@0;s63@0;"),
    (1, 65, 10, b"65 TooMany"),
    (8, 320, 2130, b"s318@6;s319@7;"),
    (8, 512, 3474, b"s510@6;s511@7;"),
    (8, 513, 11, b"513 TooMany"),
];

/// Fails at the first sessions of which something else is told.
fn check_sessions(alloc: Global) -> Result<(), Fail> {
    for (row, (regions, count, length, end)) in SESSIONS.iter().enumerate() {
        let file = sessions(alloc, *regions, *count)?;
        if !is_long(
            told(alloc, *regions, file.as_slice())?.as_slice(),
            *length,
            end,
        ) {
            return Err(wrong(row));
        }
    }
    Ok(())
}

#[test]
fn a_region_has_64_sessions(rt: HostRuntime) -> Result<(), Fail> {
    check_sessions(rt.alloc())
}

/// A session with n moves of the same key, and what follows.
fn moves(alloc: Global, count: u32, back: &[u8]) -> Result<Vec<u8>, Fail> {
    let mut file = b"session a at 0\n".to_vec(alloc)?;
    for _ in 0..count {
        file.extend_from_slice(b"move b to 0\n")?;
    }
    file.extend_from_slice(back)?;
    Ok(file)
}

/// Numbers of moves, what follows them, and the length and the end of what is told of them.
const MANY_MOVES: &[(u32, &[u8], usize, &[u8])] = &[
    (20000, b"", 100004, b" b>0, b>0,;"),
    (20001, b"", 13, b"20002 TooMany"),
    (
        20000,
        b"session b at 0\nmove b to 0\n",
        13,
        b"20003 TooMany",
    ),
];

/// Fails at the first moves of which something else is told.
fn check_moves(alloc: Global) -> Result<(), Fail> {
    for (row, (count, back, length, end)) in MANY_MOVES.iter().enumerate() {
        let file = moves(alloc, *count, back)?;
        if !is_long(told(alloc, 1, file.as_slice())?.as_slice(), *length, end) {
            return Err(wrong(row));
        }
    }
    Ok(())
}

#[test]
fn a_file_has_20000_calls_and_moves(rt: HostRuntime) -> Result<(), Fail> {
    check_moves(rt.alloc())
}

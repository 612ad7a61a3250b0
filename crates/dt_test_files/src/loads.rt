//! Generated loads: what their clusters have, and what their sessions want. The rows were worked out by a separate program
//! in another language, from the description alone.

use crate::clusters::put_row;
use crate::pieces::put_numbers;
use crate::workloads::put_session;
use dt_cluster::Cluster;
use dt_gen::generate;
use dt_test_texts::{put_number, wrong};
use dt_text::NoMemory;
use dt_workload::Workload;
use std::alloc::Global;
use std::mem::forget;
use std::test::Fail;

/// The load of n calls. Loads are left to the end of the process: that they may be dropped would be proved in each function that owns one.
fn load_of(alloc: Global, calls: u32) -> Result<(Cluster, Workload), Fail> {
    if calls < 1 || calls > 20000 {
        return Err(Fail::from("a load has 1 to 20,000 calls"));
    }
    Ok(generate(alloc, calls)?)
}

/// The session at a place, in words; nothing past the last one.
fn session_at(alloc: Global, workload: &Workload, place: usize) -> Result<Vec<u8>, NoMemory> {
    let mut out = Vec::new(alloc);
    if let Some(session) = workload.sessions.as_slice().get(place) {
        put_session(alloc, &mut out, session)?;
    }
    Ok(out)
}

/// A session of the load of n calls, in words.
fn session_of(alloc: Global, calls: u32, place: usize) -> Result<Vec<u8>, Fail> {
    let load = load_of(alloc, calls)?;
    let told = session_at(alloc, &load.1, place);
    forget(load);
    Ok(told?)
}

/// The numbers of a cluster, and how many procedures, homes and rows it has, each behind a space.
fn numbers_of(alloc: Global, cluster: &Cluster) -> Result<Vec<u8>, NoMemory> {
    let numbers = [
        u32::from(cluster.version),
        u32::from(cluster.regions),
        cluster.workers,
        cluster.tries,
        cluster.drop,
        cluster.repeat,
        cluster.procs.len(),
    ];
    let mut out = Vec::new(alloc);
    put_numbers(alloc, &mut out, &numbers)?;
    put_number(alloc, &mut out, b" ", cluster.homes.len() as u64)?;
    put_number(alloc, &mut out, b" ", cluster.rows.len() as u64)?;
    Ok(out)
}

/// The row at a place of the list of a cluster, in words.
fn row_of(alloc: Global, cluster: &Cluster, place: usize) -> Result<Vec<u8>, NoMemory> {
    let mut out = Vec::new(alloc);
    if let Some(row) = cluster.rows.as_slice().get(place) {
        put_row(alloc, &mut out, row)?;
    }
    Ok(out)
}

/// Sessions of loads: the number of calls of a load, the place of the session, and its words.
const SESSIONS: &[(u32, usize, &str)] = &[
    (1, 0, "s00@0 7 \"b/13\" \"c/8\" 14,;"),
    (1, 1, "s01@0;"),
    (1, 63, "s63@3;"),
    (1, 64, ""),
    (
        128,
        0,
        "s00@0 7 \"b/13\" \"c/8\" 14, 7 \"b/19\" \"d/14\" 14,;",
    ),
    (
        129,
        0,
        "s00@0 7 \"b/13\" \"c/8\" 14, 7 \"b/19\" \"d/14\" 14, 7 \"a/8\" \"b/14\" 36,;",
    ),
    (
        129,
        1,
        "s01@0 7 \"a/15\" \"c/1\" 28, 7 \"a/11\" \"c/11\" 27,;",
    ),
    (
        200,
        7,
        "s07@0 7 \"d/3\" \"d/20\" 12, 7 \"a/22\" \"c/2\" 25, 7 \"a/9\" \"d/0\" 6, c/15>1,;",
    ),
    (
        200,
        8,
        "s08@0 7 \"c/17\" \"c/4\" 32, 7 \"d/19\" \"a/15\" 48, 7 \"d/0\" \"d/13\" 4,;",
    ),
    (
        200,
        35,
        "s35@2 7 \"a/15\" \"d/11\" 4, d/20>2, 7 \"a/2\" \"a/2\" 13,;",
    ),
    (49, 48, "s48@3 7 \"a/14\" \"c/21\" 27,;"),
    (
        200,
        49,
        "s49@3 d/22>3, 7 \"a/20\" \"a/17\" 15, 7 \"d/17\" \"b/21\" 13,;",
    ),
    (
        200,
        63,
        "s63@3 7 \"d/3\" \"c/13\" 36, 7 \"a/15\" \"b/20\" 43, 7 \"b/22\" \"a/17\" 16,;",
    ),
];

/// Fails at the first session that has other words.
fn check_sessions(alloc: Global) -> Result<(), Fail> {
    for (row, (calls, place, words)) in SESSIONS.iter().enumerate() {
        if session_of(alloc, *calls, *place)?.as_slice() != words.as_bytes() {
            return Err(wrong(row));
        }
    }
    Ok(())
}

#[test]
fn each_session_of_a_load_has_its_calls(rt: HostRuntime) -> Result<(), Fail> {
    check_sessions(rt.alloc())
}

/// Places of the list of rows, each with the row there.
const ROWS: &[(usize, &[u8])] = &[
    (0, b"a/0=1000"),
    (24, b"a/24=1000"),
    (25, b"b/0=1000"),
    (58, b"c/8=1000"),
    (99, b"d/24=1000"),
    (100, b""),
];

/// Fails where the cluster of a load has other numbers, or another row at one of these places.
fn check_cluster(alloc: Global, cluster: &Cluster) -> Result<(), Fail> {
    if numbers_of(alloc, cluster)?.as_slice() != b" 1 4 4 3 5 7 8 0 100".as_slice() {
        return Err(Fail::from("the cluster has its numbers"));
    }
    for (row, (place, words)) in ROWS.iter().enumerate() {
        if row_of(alloc, cluster, *place)?.as_slice() != *words {
            return Err(wrong(row));
        }
    }
    Ok(())
}

#[test]
fn a_load_has_accounts_in_four_regions(rt: HostRuntime) -> Result<(), Fail> {
    let load = load_of(rt.alloc(), 1)?;
    let checked = check_cluster(rt.alloc(), &load.0);
    forget(load);
    checked
}

//! Whole calls of the program over a folder and sinks in memory.
use dt_cluster_file::{ClusterCause, ClusterFault, ClusterPlace};
use dt_command::{EventsCause, Status, detock, detock_alone, threaded_words};
use dt_outside::{MemoryFolder, MemorySink};
use dt_test_texts::{put_all, wrong};
use dt_text::{NoMemory, put_u64};
use dt_workload::WorkloadCause;
use std::alloc::Global;
use std::sync::Wait;
use std::test::Fail;
use std::thread::Threads;

mod faults;
mod hostile;
mod moves;
mod replays;
mod runs;
mod turns;

/// Room that no report or fault line of these tests uses up.
const AMPLE: u64 = 4096;

/// The words of a command line.
fn words_of(alloc: Global, words: &[&str]) -> Result<Vec<String>, NoMemory> {
    let mut all = Vec::new(alloc);
    for word in words {
        all.push(String::from_str(alloc, word)?)?;
    }
    Ok(all)
}

/// Copies of files, each by its name.
fn files_of(alloc: Global, files: &[(&str, &[u8])]) -> Result<Vec<(String, Vec<u8>)>, NoMemory> {
    let mut all = Vec::new(alloc);
    for (name, bytes) in files {
        all.push((
            String::from_str(alloc, name)?,
            Vec::from_slice(alloc, bytes)?,
        ))?;
    }
    Ok(all)
}

/// A folder of these files, whose loads of these numbers fail.
fn folder_of(
    alloc: Global,
    files: &[(&str, &[u8])],
    failing: &[u64],
) -> Result<MemoryFolder, NoMemory> {
    let failing = Vec::from_slice(alloc, failing)?;
    Ok(MemoryFolder::new(files_of(alloc, files)?, failing))
}

/// These pieces, one behind the other.
fn joined(alloc: Global, pieces: &[&[u8]]) -> Result<Vec<u8>, NoMemory> {
    let mut all = Vec::new(alloc);
    put_all(&mut all, pieces)?;
    Ok(all)
}

/// How a call ended: the exit number of its status, what `err` holds, and behind a `|` what `out` holds.
fn ended(alloc: Global, exit: u8, err: &[u8], out: &[u8]) -> Result<Vec<u8>, NoMemory> {
    let mut told = Vec::new(alloc);
    put_u64(alloc, &mut told, u64::from(exit))?;
    put_all(&mut told, &[b" ", err, b"|", out])?;
    Ok(told)
}

/// The exit number of a status, which is let go.
fn exit_of(status: Status) -> u8 {
    status.exit()
}

/// How a call of the program over a folder ends, with this much room in `out` and in `err`.
fn called_over<R: Threads + Wait + Sync>(
    rt: &R,
    alloc: Global,
    words: &[String],
    files: &mut MemoryFolder,
    room: (u64, u64),
) -> Result<Vec<u8>, NoMemory> {
    let mut out = MemorySink::new(alloc, room.0)?;
    let mut err = MemorySink::new(alloc, room.1)?;
    let exit = exit_of(detock(rt, alloc, words, files, &mut out, &mut err));
    ended(alloc, exit, err.bytes(), out.bytes())
}

/// How a call of the program ends over a folder of these files, whose loads of these numbers fail, with this much room in `out` and
/// in `err`.
fn called<R: Threads + Wait + Sync>(
    rt: &R,
    alloc: Global,
    words: &[&str],
    files: &[(&str, &[u8])],
    failing: &[u64],
    room: (u64, u64),
) -> Result<Vec<u8>, NoMemory> {
    let words = words_of(alloc, words)?;
    let mut files = folder_of(alloc, files, failing)?;
    called_over(rt, alloc, words.as_slice(), &mut files, room)
}

/// How a call of the program ends over a cluster, a workload and events.
fn told_over<'a, R: Threads + Wait + Sync>(
    rt: &R,
    alloc: Global,
    words: &[&str],
    cluster: &'a [u8],
    workload: &'a [u8],
    events: &'a [u8],
) -> Result<Vec<u8>, NoMemory> {
    let files = [("c", cluster), ("w", workload), ("e", events)];
    called(rt, alloc, words, &files, &[], (AMPLE, AMPLE))
}

/// Words, the numbers of the loads that fail, the exit number, and the fault that is reported.
type Row = (&'static [&'static str], &'static [u64], u8, &'static [u8]);

/// Fails at the first of these calls that ends in another way, over a folder of these files.
fn check<R: Threads + Wait + Sync>(
    rt: &R,
    alloc: Global,
    files: &[(&str, &[u8])],
    rows: &[Row],
) -> Result<(), Fail> {
    for (row, (words, failing, exit, line)) in rows.iter().enumerate() {
        let told = called(rt, alloc, words, files, failing, (AMPLE, AMPLE))?;
        if told != ended(alloc, *exit, line, b"")? {
            return Err(wrong(row));
        }
    }
    Ok(())
}

/// What is reported of words that ask for no task.
const USAGE: &[u8] =
    b"detock: usage: replay CLUSTER WORKLOAD EVENTS, run CLUSTER WORKLOAD, big N\n";

/// Words that ask for no task.
const OTHER_WORDS: &[Row] = &[
    (&[], &[], 2, USAGE),
    (&["replay"], &[], 2, USAGE),
    (&["replay", ":1", "w"], &[], 2, USAGE),
    (&["replay", ":1", "w", "e", "e"], &[], 2, USAGE),
    (&["replay", ":0", "w", "e"], &[], 2, USAGE),
    (&["replay", ":9", "w", "e"], &[], 2, USAGE),
    (&["replay", ":01", "w", "e"], &[], 2, USAGE),
    (&["replay", "", "w", "e"], &[], 2, USAGE),
    (&["replay", ":1", "", "e"], &[], 2, USAGE),
    (&["replay", ":1", "w", ""], &[], 2, USAGE),
    (&["Replay", ":1", "w", "e"], &[], 2, USAGE),
    (&["run", ":9", "w"], &[], 2, USAGE),
    (&["run", ":1", ""], &[], 2, USAGE),
    (&["big", "0"], &[], 2, USAGE),
    (&["big", "20001"], &[], 2, USAGE),
    (&["big", "007"], &[], 2, USAGE),
    (&["run", ":1", "w", "e"], &[], 2, USAGE),
    (&["big", "1", "1"], &[], 2, USAGE),
];

#[test]
fn other_words_are_told_which_words_there_are(rt: HostRuntime) -> Result<(), Fail> {
    check(&rt, rt.alloc(), &[], OTHER_WORDS)
}

/// The workload of one put in one region.
const ONE_PUT: &[u8] = b"session a at 0\ncall put \"b\" 5\n";

/// The events of that put, from its submission to its answer.
const ONE_PUT_EVENTS: &[u8] = b"submit 0 a\nappend 0 0 0\ninsert 0 0\nexecute 0 1.0\nanswer 0 a\n";

/// The report of that put.
const ONE_PUT_REPORT: &[u8] =
    b"replies\nreply a 1 done\norder\n1.0 a 1 1 done\ntable 0\nb = 5 home 0 moves 0\nevents\nsubmit 0 a\nappend 0 0 0\ninsert 0 0\nexecute 0 1.0\nanswer 0 a\n";

/// Calls over files that cannot be read.
const UNREAD: &[Row] = &[
    (
        &["replay", "c", "w", "e"],
        &[1],
        3,
        b"detock: cannot read word 2\n",
    ),
    (
        &["replay", "c", "w", "e"],
        &[2],
        3,
        b"detock: cannot read word 3\n",
    ),
    // Of a built-in cluster there is no file: the first load is of the workload, the second of the events.
    (
        &["replay", ":1", "w", "e"],
        &[1],
        3,
        b"detock: cannot read word 3\n",
    ),
    (
        &["replay", ":1", "w", "e"],
        &[2],
        3,
        b"detock: cannot read word 4\n",
    ),
    (
        &["replay", "x", "w", "e"],
        &[],
        3,
        b"detock: cannot read word 2\n",
    ),
    (
        &["replay", ":1", "x", "e"],
        &[],
        3,
        b"detock: cannot read word 3\n",
    ),
    (
        &["replay", ":1", "w", "x"],
        &[],
        3,
        b"detock: cannot read word 4\n",
    ),
    // A workload with a move of a key of 128 bytes is read, and then the load of the events fails.
    (
        &["replay", ":1", "n", "e"],
        &[2],
        3,
        b"detock: cannot read word 4\n",
    ),
    // A run loads its cluster and its workload, and no third file.
    (&["run", "c", "w"], &[1], 3, b"detock: cannot read word 2\n"),
    (&["run", "c", "w"], &[2], 3, b"detock: cannot read word 3\n"),
    (
        &["run", ":1", "w"],
        &[1],
        3,
        b"detock: cannot read word 3\n",
    ),
    (&["run", ":1", "x"], &[], 3, b"detock: cannot read word 3\n"),
];

/// The files that are there.
const TEXTS: &[(&str, &[u8])] = &[
    ("c", b"regions = 1\n"),
    ("w", ONE_PUT),
    (
        "n",
        b"session a at 0\nmove aaaaaaaaaaaaaaaaaaaaaaaaaaaaaaaaaaaaaaaaaaaaaaaaaaaaaaaaaaaaaaaaaaaaaaaaaaaaaaaaaaaaaaaaaaaaaaaaaaaaaaaaaaaaaaaaaaaaaaaaaaaaaaaa to 0\n",
    ),
    ("e", ONE_PUT_EVENTS),
];

#[test]
fn a_file_that_cannot_be_read_is_told_by_its_word(rt: HostRuntime) -> Result<(), Fail> {
    check(&rt, rt.alloc(), TEXTS, UNREAD)
}

/// How a call of the program without threads ends, with ample room.
fn called_alone(
    alloc: Global,
    words: &[String],
    files: &mut MemoryFolder,
) -> Result<Vec<u8>, Fail> {
    let mut out = MemorySink::new(alloc, AMPLE)?;
    let mut err = MemorySink::new(alloc, AMPLE)?;
    if threaded_words(words).is_some() {
        return Err(Fail::new("a replay needs no threads"));
    }
    let exit = exit_of(detock_alone(alloc, words, files, &mut out, &mut err));
    Ok(ended(alloc, exit, err.bytes(), out.bytes())?)
}

/// How a replay ends whose files have names that begin with a colon.
fn of_colons(alloc: Global) -> Result<Vec<u8>, Fail> {
    let words = words_of(alloc, &["replay", ":1", ":w", ":2"])?;
    let mut files = folder_of(alloc, &[(":w", ONE_PUT), (":2", ONE_PUT_EVENTS)], &[])?;
    called_alone(alloc, words.as_slice(), &mut files)
}

#[test]
fn a_colon_begins_only_the_words_of_built_in_clusters(rt: HostRuntime) -> Result<(), Fail> {
    let told = of_colons(rt.alloc())?;
    assert!(rt; told.as_slice().strip_prefix(b"0 |".as_slice()) == Some(ONE_PUT_REPORT));
    Ok(())
}

/// The status whose exit number is this one, from 0 to 7.
fn status_of(number: u8) -> Status {
    match number {
        0 => Status::Done,
        1 => Status::NoMemory,
        2 => Status::BadWords,
        3 => Status::CannotRead(3),
        4 => {
            Status::BadCluster(ClusterFault {
                place: ClusterPlace::Whole,
                cause: ClusterCause::NotToml,
            })
        }
        5 => Status::BadWorkload(1, WorkloadCause::Form),
        6 => Status::BadEvents(1, EventsCause::Rule(1)),
        _ => Status::CannotWrite,
    }
}

#[test]
fn each_status_has_its_exit_number() -> Result<(), Fail> {
    for number in 0..8 {
        if exit_of(status_of(number)) != number {
            return Err(wrong(usize::from(number)));
        }
    }
    Ok(())
}

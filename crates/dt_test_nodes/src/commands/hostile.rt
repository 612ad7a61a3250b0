//! Files that are cut, too long or hold one thing too many, and sinks that fail in the middle.
use super::{
    AMPLE, ONE_PUT, ONE_PUT_EVENTS, ONE_PUT_REPORT, called, called_over, ended, files_of,
    told_over, words_of,
};
use dt_outside::MemoryFolder;
use dt_test_texts::wrong;
use dt_text::NoMemory;
use std::alloc::Global;
use std::sync::Wait;
use std::test::Fail;
use std::thread::Threads;

/// How the replay of one put with these events ends, with this much room in `out` and in `err`.
fn one_put<R: Threads + Wait + Sync>(
    rt: &R,
    alloc: Global,
    events: &[u8],
    room: (u64, u64),
) -> Result<Vec<u8>, NoMemory> {
    let files = [("w", ONE_PUT), ("e", events)];
    called(rt, alloc, &["replay", ":1", "w", "e"], &files, &[], room)
}

/// Fails at the first room, smaller than the report, in which a sink holds anything but as much of the report as fits.
fn check_rooms<R: Threads + Wait + Sync>(rt: &R, alloc: Global) -> Result<(), Fail> {
    for room in 0..ONE_PUT_REPORT.len() {
        let fits = ONE_PUT_REPORT.get(..room).unwrap_or_default();
        let told = one_put(rt, alloc, ONE_PUT_EVENTS, (room as u64, AMPLE))?;
        if told != ended(alloc, 7, b"detock: cannot write\n", fits)? {
            return Err(wrong(room));
        }
    }
    Ok(())
}

#[test]
fn a_small_sink_holds_what_fits(rt: HostRuntime) -> Result<(), Fail> {
    check_rooms(&rt, rt.alloc())
}

/// Events of one put, the room in `out` and in `err`, the exit number, and what `err` and `out` hold in the end.
type Room = (&'static [u8], (u64, u64), u8, &'static [u8], &'static [u8]);

/// Sinks that a report or a fault line just fits, or does not.
const ROOMS: &[Room] = &[
    // A sink with the room of the report holds the whole.
    (ONE_PUT_EVENTS, (140, AMPLE), 0, b"", ONE_PUT_REPORT),
    // A fault of `err` changes no status.
    (
        ONE_PUT_EVENTS,
        (40, 8),
        7,
        b"detock: ",
        b"replies\nreply a 1 done\norder\n1.0 a 1 1 d",
    ),
    // A fault line is cut where there is no more room.
    (
        b"submit 0 a\nappend 0 0 0\nexecute 0 1.0\n",
        (AMPLE, 5),
        6,
        b"detoc",
        b"",
    ),
];

/// Fails at the first sinks that hold something else.
fn check_sinks<R: Threads + Wait + Sync>(rt: &R, alloc: Global) -> Result<(), Fail> {
    for (row, (events, room, exit, err, out)) in ROOMS.iter().enumerate() {
        if one_put(rt, alloc, events, *room)? != ended(alloc, *exit, err, out)? {
            return Err(wrong(row));
        }
    }
    Ok(())
}

#[test]
fn sinks_are_filled_and_a_small_one_for_faults_changes_no_status(
    rt: HostRuntime,
) -> Result<(), Fail> {
    check_sinks(&rt, rt.alloc())
}

/// How a replay of events that are cut ends.
enum End {
    /// By a report: they are cut behind an event.
    Report,
    /// By the fault of the line that is cut.
    Fault(&'static [u8]),
}

/// Two lengths, and how events end that are cut at a length from the first to the second.
const CUTS: &[(usize, usize, End)] = &[
    (0, 0, End::Report),
    (1, 9, End::Fault(b"6 detock: events line 1: no event\n|")),
    (10, 11, End::Report),
    (12, 22, End::Fault(b"6 detock: events line 2: no event\n|")),
    (23, 24, End::Report),
    (25, 33, End::Fault(b"6 detock: events line 3: no event\n|")),
    (34, 35, End::Report),
    (36, 47, End::Fault(b"6 detock: events line 4: no event\n|")),
    (48, 49, End::Report),
    (50, 58, End::Fault(b"6 detock: events line 5: no event\n|")),
    (59, 60, End::Report),
];

/// Whether a replay that told this ended so.
fn is_end(told: &[u8], end: &End) -> bool {
    match end {
        End::Report => told.starts_with(b"0 |replies\n"),
        End::Fault(fault) => told == *fault,
    }
}

/// Fails at the first length from the first to the last at which the events, cut there, end in another way.
fn check_lengths<R: Threads + Wait + Sync>(
    rt: &R,
    alloc: Global,
    first: usize,
    last: usize,
    end: &End,
) -> Result<(), Fail> {
    for length in first..=last {
        let events = ONE_PUT_EVENTS.get(..length).unwrap_or_default();
        let told = one_put(rt, alloc, events, (AMPLE, AMPLE))?;
        if !is_end(told.as_slice(), end) {
            return Err(wrong(length));
        }
    }
    Ok(())
}

/// Fails at the first length at which events that are cut end in another way.
fn check_cuts<R: Threads + Wait + Sync>(rt: &R, alloc: Global) -> Result<(), Fail> {
    for (first, last, end) in CUTS {
        check_lengths(rt, alloc, *first, *last, end)?;
    }
    Ok(())
}

#[test]
fn events_that_are_cut_end_by_the_line_that_is_cut(rt: HostRuntime) -> Result<(), Fail> {
    check_cuts(&rt, rt.alloc())
}

/// The files before one that has one byte more than any file may have, the name of that one, the exit number, and the fault that is
/// reported.
const TOO_LONG: &[(&[(&str, &[u8])], &str, u8, &[u8])] = &[
    (&[], "c", 4, b"detock: cluster: too long\n"),
    (
        &[("c", b"regions = 1\n")],
        "w",
        5,
        b"detock: workload line 0: too long\n",
    ),
    (
        &[("c", b"regions = 1\n"), ("w", b"")],
        "e",
        6,
        b"detock: events line 0: too long\n",
    ),
];

/// A folder of these files and of one that is too long.
fn long_folder(
    alloc: Global,
    before: &[(&str, &[u8])],
    name: &str,
) -> Result<MemoryFolder, NoMemory> {
    let mut files = files_of(alloc, before)?;
    let name = String::from_str(alloc, name)?;
    files.push((name, vec![in alloc; b' '; 16_777_217]?))?;
    Ok(MemoryFolder::new(files, Vec::new(alloc)))
}

/// How a replay over that folder ends.
fn over_long<R: Threads + Wait + Sync>(
    rt: &R,
    alloc: Global,
    before: &[(&str, &[u8])],
    name: &str,
) -> Result<Vec<u8>, NoMemory> {
    let words = words_of(alloc, &["replay", "c", "w", "e"])?;
    let mut files = long_folder(alloc, before, name)?;
    called_over(rt, alloc, words.as_slice(), &mut files, (AMPLE, AMPLE))
}

/// Fails at the first file that is too long and is not reported.
fn check_long<R: Threads + Wait + Sync>(rt: &R, alloc: Global) -> Result<(), Fail> {
    for (row, (before, name, exit, line)) in TOO_LONG.iter().enumerate() {
        if over_long(rt, alloc, before, name)? != ended(alloc, *exit, line, b"")? {
            return Err(wrong(row));
        }
    }
    Ok(())
}

#[test]
fn a_file_that_is_too_long_is_told(rt: HostRuntime) -> Result<(), Fail> {
    check_long(&rt, rt.alloc())
}

/// A file, by its front, the piece that follows it, how often, and its back.
type Repeated = (&'static str, &'static str, u32, &'static str);

/// The cluster of one region.
const ONE_REGION: Repeated = ("regions = 1\n", "", 0, "");

/// A file without a byte: a workload of nothing.
const NOTHING: Repeated = ("", "", 0, "");

/// A cluster and a workload with one thing too many: the items of a text, the brackets that are open in a procedure, its `{` among
/// them, and the calls.
const TOO_MANY: &[(Repeated, Repeated, u8, &[u8])] = &[
    (
        ONE_REGION,
        ("session a at 0\ncall note \"t\" \"", "x", 257, "\"\n"),
        5,
        b"detock: workload line 2: no line of a workload\n",
    ),
    (
        (
            "regions = 1\nprocs = \"proc f(k: text) read a = k; { let x = ",
            "(",
            64,
            "\"\n",
        ),
        NOTHING,
        4,
        b"detock: cluster procs byte 101: too many\n",
    ),
    (
        ONE_REGION,
        ("session a at 0\n", "call put \"b\" 5\n", 20_001, ""),
        5,
        b"detock: workload line 20002: too many\n",
    ),
];

/// The bytes of a file.
fn repeated(alloc: Global, file: &Repeated) -> Result<Vec<u8>, NoMemory> {
    let (front, piece, times, back) = file;
    let mut bytes = Vec::from_slice(alloc, front.as_bytes())?;
    for _ in 0..*times {
        bytes.extend_from_slice(piece.as_bytes())?;
    }
    bytes.extend_from_slice(back.as_bytes())?;
    Ok(bytes)
}

/// How a run of these files ends.
fn over_repeated<R: Threads + Wait + Sync>(
    rt: &R,
    alloc: Global,
    cluster: &Repeated,
    workload: &Repeated,
) -> Result<Vec<u8>, NoMemory> {
    let cluster = repeated(alloc, cluster)?;
    let workload = repeated(alloc, workload)?;
    let words = ["run", "c", "w"];
    told_over(
        rt,
        alloc,
        &words,
        cluster.as_slice(),
        workload.as_slice(),
        b"",
    )
}

/// Fails at the first files whose one thing too many is not reported.
fn check_too_many<R: Threads + Wait + Sync>(rt: &R, alloc: Global) -> Result<(), Fail> {
    for (row, (cluster, workload, exit, line)) in TOO_MANY.iter().enumerate() {
        if over_repeated(rt, alloc, cluster, workload)? != ended(alloc, *exit, line, b"")? {
            return Err(wrong(row));
        }
    }
    Ok(())
}

#[test]
fn one_thing_too_many_is_told(rt: HostRuntime) -> Result<(), Fail> {
    check_too_many(&rt, rt.alloc())
}

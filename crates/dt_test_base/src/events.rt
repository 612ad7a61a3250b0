//! Events: what a file of them is read as, and what is printed of it.
use crate::calls::repeated;
use dt_events::{Event, EventsError, NumberedEvents, Stamped, put_event, read_events};
use dt_test_texts::wrong;
use std::alloc::Global;
use std::mem::size_of;
use std::test::Fail;

/// More bytes than a test reads.
const MANY: usize = 100000;

/// Events, each copied and printed.
fn printed(alloc: Global, events: &NumberedEvents) -> Result<Vec<u8>, Fail> {
    let mut out = Vec::new(alloc);
    for event in events.events() {
        put_event(alloc, &mut out, &event.copy(alloc)?)?;
    }
    Ok(out)
}

/// The events of a file, each copied and printed, or the first line that is not an event.
fn told(alloc: Global, file: &[u8]) -> Result<Vec<u8>, Fail> {
    if file.len() > MANY {
        return Err(Fail::from("a test reads few bytes"));
    }
    match read_events(alloc, file) {
        Ok(events) => printed(alloc, &events),
        Err(EventsError::Form(line)) => {
            Ok(
                format!(in alloc; "no event in line {line}")?
                    .as_bytes()
                    .to_vec(alloc)?,
            )
        }
        Err(EventsError::NoMemory) => Err(Fail::from(EventsError::NoMemory)),
    }
}

/// Files, each with its events as they are printed, or the first line that is not an event.
const FILES: &[(&[u8], &[u8])] = &[
    (b"", b""),
    (b"submit 0 a", b"submit 0 a\n"),
    (b"append 255 0 4294967295", b"append 255 0 4294967295\n"),
    (b"deliver 1 0 0 2", b"deliver 1 0 0 2\n"),
    (b"insert 1 0", b"insert 1 0\n"),
    (b"resolve 0 2.0 1.1 1.1", b"resolve 0 2.0 1.1 1.1\n"),
    (b"execute 0 4294967295.255", b"execute 0 4294967295.255\n"),
    (b"answer 0 s_01", b"answer 0 s_01\n"),
    (b"  insert   1 0  ", b"insert 1 0\n"),
    (b"#\n\nanswer 0 a\ninsert 1 0", b"answer 0 a\ninsert 1 0\n"),
    (b"submit", b"no event in line 1"),
    (b"submit 0", b"no event in line 1"),
    (b"submit 0 a b", b"no event in line 1"),
    (b"submit 256 a", b"no event in line 1"),
    (b"submit 0 A", b"no event in line 1"),
    (b"submit 0 \"a\"", b"no event in line 1"),
    (b"submit 0 a\t", b"no event in line 1"),
    (b"append 0 0 00", b"no event in line 1"),
    (b"append 0 0 4294967296", b"no event in line 1"),
    (b"deliver 0 0 0", b"no event in line 1"),
    (b"insert 0 256", b"no event in line 1"),
    (b"insert 0 -1", b"no event in line 1"),
    (b"resolve 0 1.0", b"no event in line 1"),
    (b"execute 0 0.1", b"no event in line 1"),
    (b"execute 0 1", b"no event in line 1"),
    (b"execute 0 1.0 2.0", b"no event in line 1"),
    (b"Insert 1 0", b"no event in line 1"),
    (b"jump 0 a", b"no event in line 1"),
    (
        b"# rows\xff\nsubmit 0 a\n\nappend 0 0 00\nnothing\n",
        b"no event in line 4",
    ),
    (b"submit 0 a\nsubmit 0", b"no event in line 2"),
];

/// Fails at the first file of which something else is told.
fn check_files(alloc: Global) -> Result<(), Fail> {
    for (row, (file, want)) in FILES.iter().enumerate() {
        if told(alloc, file)?.as_slice() != *want {
            return Err(wrong(row));
        }
    }
    Ok(())
}

#[test]
fn each_line_is_an_event_in_one_spelling_or_none(rt: HostRuntime) -> Result<(), Fail> {
    check_files(rt.alloc())
}

/// The front of a file, a piece, how often it stands behind it, and the back.
const LONG: &[(&[u8], &[u8], u32, &[u8])] = &[
    (b"", b"deliver 1 0 0 2\n", 700, b""),
    (b"", b"answer 0 a\n", 5000, b""),
    (b"resolve 0", b" 1.0", 700, b"\n"),
];

/// Whether the events of such a file are printed as they stand there.
fn is_told(
    alloc: Global,
    front: &[u8],
    piece: &[u8],
    times: u32,
    back: &[u8],
) -> Result<bool, Fail> {
    let file = repeated(alloc, front, piece, times, back)?;
    Ok(told(alloc, file.as_slice())? == file)
}

/// Fails at the first long file of which something else is told.
fn check_long(alloc: Global) -> Result<(), Fail> {
    for (row, (front, piece, times, back)) in LONG.iter().enumerate() {
        if !is_told(alloc, front, piece, *times, back)? {
            return Err(wrong(row));
        }
    }
    Ok(())
}

#[test]
fn there_are_as_many_events_and_ids_as_are_listed(rt: HostRuntime) -> Result<(), Fail> {
    check_long(rt.alloc())
}

/// Each region keeps all events that it made.
#[test]
fn an_event_takes_two_words_and_its_stamp_one(rt: HostRuntime) -> Result<(), Fail> {
    assert!(rt; size_of::<Event>() == 16 && size_of::<Stamped>() == 24);
    Ok(())
}

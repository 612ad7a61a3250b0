//! Sinks: how much each write takes, in memory and by a stream, and what is held of two pieces.
ghost use Rattle.std.specs.Prelude.{◌++◌};
ghost use Rattle.dt_outside.specs.Sink.{Writes};

use crate::devices::Narrow;
use dt_outside::{Failed, MemorySink, Sink, StdSink, write_all};
use dt_test_texts::wrong;
use std::alloc::Global;
use std::test::Fail;

/// What a caller of any sink relies on: two pieces are one, and after a fault some first bytes of both were added.
fn write_both<O: Sink>(out: &mut O, first: &[u8], second: &[u8]) -> Result<(), Failed>
    ensures { Writes (O.seen out.old) (O.seen out.new) (first.now ++ second.now) result }
{
    write_all(out, first)?;
    write_all(out, second)
}

/// A piece, and how many of its bytes are taken.
type Taken = (&'static [u8], Result<usize, Failed>);

/// Fails at the first piece of which something else is taken.
fn check_taken<O: Sink>(sink: &mut O, pieces: &[Taken]) -> Result<(), Fail> {
    for (row, (piece, want)) in pieces.iter().enumerate() {
        if sink.write(*piece) != *want {
            return Err(wrong(row));
        }
    }
    Ok(())
}

/// What a sink in memory with room for five takes.
const OF_FIVE: &[Taken] = &[
    (b"abc", Ok(3)),
    (b"", Ok(0)),
    (b"defg", Ok(2)),
    (b"x", Err(Failed)),
];

#[test]
fn a_sink_in_memory_ends_in_mid_piece(rt: HostRuntime) -> Result<(), Fail> {
    let mut sink = MemorySink::new(rt.alloc(), 5)?;
    check_taken(&mut sink, OF_FIVE)?;
    assert!(rt; sink.bytes() == b"abcde".as_slice());
    Ok(())
}

/// The room of a sink, how two pieces of four bytes are written to it, and what it holds then.
const HELD: &[(u64, Result<(), Failed>, &[u8])] = &[
    (9, Ok(()), b"abcdefgh"),
    (8, Ok(()), b"abcdefgh"),
    (6, Err(Failed), b"abcdef"),
];

/// Whether a sink with this room holds this of two pieces.
fn holds(alloc: Global, room: u64, want: Result<(), Failed>, held: &[u8]) -> Result<bool, Fail> {
    let mut sink = MemorySink::new(alloc, room)?;
    Ok(write_both(&mut sink, b"abcd", b"efgh") == want && sink.bytes() == held)
}

/// Fails at the first room in which something else is held.
fn check_held(alloc: Global) -> Result<(), Fail> {
    for (row, (room, want, held)) in HELD.iter().enumerate() {
        if !holds(alloc, *room, *want, *held)? {
            return Err(wrong(row));
        }
    }
    Ok(())
}

#[test]
fn what_was_written_before_a_fault_is_a_prefix(rt: HostRuntime) -> Result<(), Fail> {
    check_held(rt.alloc())
}

#[test]
fn a_stream_is_handed_the_bytes(rt: HostRuntime) -> Result<(), Fail> {
    let mut written = Vec::new(rt.alloc());
    let handed = write_both(&mut StdSink::new(&mut written), b"abcd", b"efgh");
    assert!(rt; handed == Ok(()));
    assert!(rt; written.as_slice() == b"abcdefgh".as_slice());
    Ok(())
}

/// What a stream takes over a narrow device with thirteen bytes of room.
const OF_THIRTEEN: &[Taken] = &[
    (b"abcdefghijklm", Ok(10)),
    (b"klm", Ok(3)),
    (b"n", Err(Failed)),
];

#[test]
fn a_stream_tells_how_many_bytes_it_took(_rt: HostRuntime) -> Result<(), Fail> {
    check_taken(&mut StdSink::new(Narrow::new(13, false)), OF_THIRTEEN)?;
    check_taken(&mut StdSink::new(Narrow::new(13, true)), OF_THIRTEEN)
}

#[test]
fn an_error_of_sinks_says_what_happened(rt: HostRuntime) -> Result<(), Fail> {
    let said = format!(in rt.alloc(); "{Failed}")?;
    assert!(rt; said.as_str() == "the device failed");
    Ok(())
}

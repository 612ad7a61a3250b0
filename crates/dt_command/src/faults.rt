ghost use Rattle.std.specs.Prelude.{◌≡◌, ◌≤◌, ◌++◌, codes, map, length, take};
ghost use Rattle.std.specs.List.{flat_map};
ghost use Rattle.dt_outside.specs.Sink.{Writes};
ghost use Rattle.dt_command.specs.Answers.{IsTold};
ghost use Rattle.dt_command.specs.LineCode.{events_end};
ghost use Rattle.dt_command.specs.Statuses.{fault_line, place_text, visible_byte};

use crate::status::{EventsCause, Status};
use dt_cluster_file::{ClusterFault, ClusterPlace};
use dt_outside::{Failed, Sink, write_all};
use dt_text::is_visible;
use dt_workload::WorkloadCause;
use itoa::Buffer;

/// The most bytes of a name that are written at once.
const RUN: usize = 256;

/// Reports a status by its line, piece by piece; for `Done` it writes nothing. A fault of the sink is counted there, and
/// changes nothing here. Takes no memory.
pub fn tell<E: Sink>(status: &Status, err: &mut E)
    ensures { IsTold E.seen err.old err.new status.now }
{
    if let Status::Done = status {
        return;
    }
    let _ = put_fault(status, err);
}

/// Writes the line of a status.
fn put_fault<E: Sink>(status: &Status, err: &mut E) -> Result<(), Failed>
    ensures { Writes (E.seen err.old) (E.seen err.new) (fault_line status.now) result }
{
    match status {
        Status::Done => Ok(()),
        Status::NoMemory => write_all(err, b"detock: no memory\n"),
        Status::BadWords => write_all(err, USAGE),
        Status::CannotRead(word) => put_cannot_read(*word, err),
        Status::BadCluster(fault) => put_bad_cluster(fault, err),
        Status::BadWorkload(line, cause) => put_bad_workload(*line, *cause, err),
        Status::BadEvents(line, cause) => put_bad_events(*line, *cause, err),
        Status::CannotWrite => write_all(err, b"detock: cannot write\n"),
    }
}

/// The line that says which words there are.
const USAGE: &[u8] =
    b"detock: usage: replay CLUSTER WORKLOAD EVENTS, run CLUSTER WORKLOAD, big N\n";

/// Writes the line of a file that could not be read.
fn put_cannot_read<E: Sink>(word: u32, err: &mut E) -> Result<(), Failed>
    ensures { Writes (E.seen err.old) (E.seen err.new) (fault_line (Status.CannotRead word)) result }
{
    let mut number = Buffer::new();
    let number = number.format(word).as_bytes();
    write_pieces(err, &[b"detock: cannot read word ", number, b"\n"])
}

/// Writes the line of a fault in a cluster's file.
fn put_bad_cluster<E: Sink>(fault: &ClusterFault, err: &mut E) -> Result<(), Failed>
    ensures { Writes (E.seen err.old) (E.seen err.new) (fault_line (Status.BadCluster fault.now)) result }
{
    put_front(&fault.place, err)?;
    write_pieces(err, &[b": ", fault.cause.text().as_bytes(), b"\n"])
}

/// Writes that a cluster's file is at fault, and where.
fn put_front<E: Sink>(place: &ClusterPlace, err: &mut E) -> Result<(), Failed>
    ensures { Writes (E.seen err.old) (E.seen err.new) (codes "detock: cluster" ++ place_text place.now) result }
{
    write_all(err, b"detock: cluster")?;
    put_place(place, err)
}

/// Writes where a cluster's file is at fault.
fn put_place<E: Sink>(place: &ClusterPlace, err: &mut E) -> Result<(), Failed>
    ensures { Writes (E.seen err.old) (E.seen err.new) (place_text place.now) result }
{
    match place {
        ClusterPlace::Whole => Ok(()),
        ClusterPlace::Entry(name) => put_named(b" ", name.bytes(), err),
        ClusterPlace::Home(name) => put_named(b" homes.", name.bytes(), err),
        ClusterPlace::Row(name) => put_named(b" rows.", name.bytes(), err),
        ClusterPlace::Procs(at) => {
            let mut number = Buffer::new();
            let number = number.format(*at).as_bytes();
            write_pieces(err, &[b" procs byte ", number])
        }
    }
}

/// Writes some bytes and a name.
fn put_named<E: Sink>(front: &[u8], name: &[u8], err: &mut E) -> Result<(), Failed>
    ensures { Writes (E.seen err.old) (E.seen err.new) (front.now ++ map visible_byte name.now) result }
{
    write_all(err, front)?;
    write_name(err, name)
}

/// Writes the line of a fault in a workload's file.
fn put_bad_workload<E: Sink>(line: u32, cause: WorkloadCause, err: &mut E) -> Result<(), Failed>
    ensures { Writes (E.seen err.old) (E.seen err.new) (fault_line (Status.BadWorkload line cause)) result }
{
    let mut number = Buffer::new();
    let number = number.format(line).as_bytes();
    let text = cause.text().as_bytes();
    write_pieces(
        err,
        &[b"detock: workload line ", number, b": ", text, b"\n"],
    )
}

/// Writes the line of a fault in a file of events.
fn put_bad_events<E: Sink>(line: u32, cause: EventsCause, err: &mut E) -> Result<(), Failed>
    ensures { Writes (E.seen err.old) (E.seen err.new) (fault_line (Status.BadEvents line cause)) result }
{
    let mut number = Buffer::new();
    let number = number.format(line).as_bytes();
    write_pieces(err, &[b"detock: events line ", number])?;
    put_events_end(cause, err)
}

/// Writes the end of the line of a fault in a file of events: what is wrong there.
fn put_events_end<E: Sink>(cause: EventsCause, err: &mut E) -> Result<(), Failed>
    ensures { Writes (E.seen err.old) (E.seen err.new) (events_end cause) result }
{
    match cause {
        EventsCause::TooLong => write_all(err, b": too long\n"),
        EventsCause::Form => write_all(err, b": no event\n"),
        EventsCause::Rule(rule) => {
            let mut digits = Buffer::new();
            let digits = digits.format(rule).as_bytes();
            write_pieces(err, &[b": rule ", digits, b"\n"])
        }
    }
}

/// Writes the pieces, one behind the other.
fn write_pieces<O: Sink>(out: &mut O, pieces: &[&[u8]]) -> Result<(), Failed>
    ensures { Writes (O.seen out.old) (O.seen out.new) (flat_map (λ piece. piece.now) pieces.now) result }
{
    for piece in pieces {
        write_all(out, piece)?;
    }
    Ok(())
}

/// Writes a name, in which every byte that is not a visible ASCII character becomes `?`.
fn write_name<O: Sink>(out: &mut O, name: &[u8]) -> Result<(), Failed>
    ensures { Writes (O.seen out.old) (O.seen out.new) (map visible_byte name.now) result }
{
    for run in name.chunks(RUN) {
        write_run(out, run)?;
    }
    Ok(())
}

/// Writes up to `RUN` bytes of a name in one piece.
fn write_run<O: Sink>(out: &mut O, run: &[u8]) -> Result<(), Failed>
    requires { length run.now ≤ 256 }
    ensures { Writes (O.seen out.old) (O.seen out.new) (map visible_byte run.now) result }
{
    let shown = shown(run);
    write_all(out, &shown[..run.len()])
}

/// The bytes of a run of a name as they are printed, at the front of an array.
fn shown(run: &[u8]) -> [u8; RUN]
    requires { length run.now ≤ 256 }
    ensures { take (length run.now) result ≡ map visible_byte run.now }
{
    let mut shown = [b'?'; RUN];
    for (place, byte) in run.iter().enumerate() {
        shown[place] = visible_byte(*byte);
    }
    shown
}

/// A byte of a name as it is printed.
fn visible_byte(byte: u8) -> u8
    ensures { result ≡ visible_byte byte }
{
    if is_visible(byte) { byte } else { b'?' }
}

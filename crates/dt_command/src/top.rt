ghost use Rattle.dt_command.specs.Tasks.{NeedsThreads, word_bytes};
ghost use Rattle.dt_command.specs.TaskCode.{IsRightThreaded, threaded_asked_for};
ghost use Rattle.dt_command.specs.Answers.{Comes, IsTold};
ghost use Rattle.dt_command.specs.RefusalCode.{EndsBy, IsAskedFor, IsTextOf};

use crate::faults::tell;
use crate::replay::replay_text;
use crate::run::{big_text, run_text};
use crate::status::Status;
use crate::words::{ThreadedWords, replay_words, threaded_words};
use dt_outside::{Folder, Sink, write_all};
use std::alloc::Global;
use std::sync::Wait;
use std::thread::Threads;

/// Does what the words of the command line ask for.
///
/// The cluster's file is loaded and read, then the workload's; a replay loads and reads that of the events too, all of whose lines
/// are read before any event is tried in order, and a run makes its events by threads. The report is made whole in memory, and
/// then written to `out`. Each status but `Done` is reported to `err` by its line. No clause says that a run returns.
pub fn detock<R: Threads + Wait + Sync, F: Folder, O: Sink, E: Sink>(
    rt: &R,
    alloc: Global,
    words: &[String],
    files: &mut F,
    out: &mut O,
    err: &mut E,
) -> Status
    // The headline (`done`), each refusal by its cause, and the status that the words and files call for (`complete`).
    ensures comes { Comes (word_bytes words.now) F.seen files.old files.new O.seen out.old out.new result }

    // The line of the status.
    ensures told { IsTold E.seen err.old err.new result }
{
    let Some(threaded) = threaded_words(words) else {
        return detock_alone(alloc, words, files, out, err);
    };
    let text = threaded_text(rt, alloc, threaded, files);
    end(text, out, err)
}

/// Does what the words of the command line ask for, where no threads are needed for it: as `detock`, and it returns.
pub fn detock_alone<F: Folder, O: Sink, E: Sink>(
    alloc: Global,
    words: &[String],
    files: &mut F,
    out: &mut O,
    err: &mut E,
) -> Status
    requires { ¬ NeedsThreads (word_bytes words.now) }
    ensures comes { Comes (word_bytes words.now) F.seen files.old files.new O.seen out.old out.new result }
    ensures told { IsTold E.seen err.old err.new result }
{
    let text = alone_text(alloc, words, files);
    end(text, out, err)
}

/// The text that is made by threads, or why there is none.
fn threaded_text<R: Threads + Wait + Sync, F: Folder>(
    rt: &R,
    alloc: Global,
    threaded: ThreadedWords<'_>,
    files: &mut F,
) -> Result<Vec<u8>, Status>
    requires { IsRightThreaded threaded }
    ensures { IsTextOf F.seen files.old files.new result (threaded_asked_for threaded.entry) }
{
    match threaded {
        ThreadedWords::Run(words) => run_text(rt, alloc, words, files),
        ThreadedWords::Big(calls) => Ok(big_text(rt, alloc, calls)?),
    }
}

/// The text that the words ask for where they need no threads, or why there is none.
fn alone_text<F: Folder>(alloc: Global, words: &[String], files: &mut F) -> Result<Vec<u8>, Status>
    requires { ¬ NeedsThreads (word_bytes words.now) }
    ensures { IsAskedFor F.seen files.old files.new result (word_bytes words.now) }
{
    let Some(replay) = replay_words(words) else {
        return Err(Status::BadWords);
    };
    replay_text(alloc, replay, files)
}

/// Writes the text, or passes on why there is none, and reports the status.
fn end<O: Sink, E: Sink>(text: Result<Vec<u8>, Status>, out: &mut O, err: &mut E) -> Status
    ensures ends { EndsBy O.seen out.old out.new text result }
    ensures told { IsTold E.seen err.old err.new result }
{
    let status = status_of(text, out);
    tell(&status, err);
    status
}

/// Writes the text, or passes on why there is none.
fn status_of<O: Sink>(text: Result<Vec<u8>, Status>, out: &mut O) -> Status
    ensures { EndsBy O.seen out.old out.new text result }
{
    let text = match text {
        Ok(text) => text,
        Err(status) => return status,
    };
    match write_all(out, text.as_slice()) {
        Ok(()) => Status::Done,
        Err(_) => Status::CannotWrite,
    }
}

ghost use Rattle.std.specs.Prelude.{◌≡◌, IfOk, IfErr, MatchOption, None, drop};
ghost use Rattle.std.specs.IoError.{error_kind};
ghost use Rattle.dt_command.specs.Tasks.{word_bytes};
ghost use Rattle.dt_command.specs.Answers.{Comes, IsTold};
ghost use Rattle.dt_command.specs.Statuses.{exit_number, no_words, status_without};
ghost use Rattle.dt_command.specs.declared.status.Status.{Status};

use crate::faults::tell;
use crate::status::Status;
use crate::top::detock;
use dt_outside::{Folder, Sink};
use std::alloc::Global;
use std::env::{Env, args};
use std::io;
use std::io::ErrorKind;
use std::sync::Wait;
use std::thread::Threads;

/// The number of no status: the system does not supply the words.
const NO_WORDS: u8 = 12;

/// All words of the command line, the first of which is the program's name. Fails where the system does not supply them, or one
/// is not text.
pub fn command_line<R: Env + Alloc<A = Global>>(rt: &R) -> io::Result<Vec<String>> {
    Ok(args(rt)?.collect(rt.alloc())?)
}

/// Does what the words of a command line ask for, and gives the number with which the program ends.
pub fn exit_of<R: Threads + Wait + Sync, F: Folder, O: Sink, E: Sink>(
    rt: &R,
    alloc: Global,
    line: io::Result<Vec<String>>,
    files: &mut F,
    out: &mut O,
    err: &mut E,
) -> u8
    // The number is that of the status that the words after the program's name give.
    ensures answered { IfOk line (λ all. (status : Status) × (result ≡ exit_number status)
        × Comes (word_bytes (drop 1 all.items)) F.seen files.old files.new O.seen out.old out.new status
        × IsTold E.seen err.old err.new status) }

    // A word that is not text is a fault of the caller; without any words there is no status.
    ensures without { IfErr line (λ error. MatchOption (status_without (error_kind error)) (result ≡ no_words)
        (λ status. (result ≡ exit_number status) × IsTold E.seen err.old err.new status)) }

    // Then no file is loaded, and nothing is written but the line of a status.
    ensures files_same { IfErr line (λ _. files.new ≡ files.old) }
    ensures out_same { IfErr line (λ _. out.new ≡ out.old) }
    ensures silent { IfErr line (λ error. status_without (error_kind error) ≡ None → err.new ≡ err.old) }
{
    let all = match line {
        Ok(all) => all,
        Err(error) => return exit_without(error.kind(), err),
    };
    let status = detock(rt, alloc, after_name(all.as_slice()), files, out, err);
    status.exit()
}

/// Gives the number if there are no words for this reason, and reports the status, if there is one.
fn exit_without<E: Sink>(kind: ErrorKind, err: &mut E) -> u8
    ensures ends { MatchOption (status_without kind) (result ≡ no_words)
        (λ status. (result ≡ exit_number status) × IsTold E.seen err.old err.new status) }
    ensures silent { status_without kind ≡ None → err.new ≡ err.old }
{
    let Some(status) = status_without(kind) else {
        return NO_WORDS;
    };
    tell(&status, err);
    status.exit()
}

/// The words after the program's name.
fn after_name(all: &[String]) -> &[String]
    ensures { result.now ≡ drop 1 all.now }
{
    match all {
        [_, words @ ..] => words,
        [] => all,
    }
}

/// The status where the words could not be obtained for this reason. `None` where the system does not supply them at all.
fn status_without(kind: ErrorKind) -> Option<Status>
    ensures { result ≡ status_without kind }
{
    match kind {
        ErrorKind::OutOfMemory => Some(Status::NoMemory),
        ErrorKind::InvalidData => Some(Status::BadWords),
        _ => None,
    }
}

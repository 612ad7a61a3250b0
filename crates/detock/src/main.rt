//! Detock: a store of rows in several regions, which all reach the same decisions without asking.
#![tactic(auto)]

use dt_command::{command_line, exit_of};
use dt_outside::{DiskFolder, StdSink};
use std::process::ExitCode;

/// Runs the program on the system's words, the real disk and the real streams.
fn main(rt: HostRuntime) -> ExitCode {
    ExitCode::from(exit_of(
        &rt,
        rt.alloc(),
        command_line(&rt),
        &mut DiskFolder::new(&rt),
        &mut StdSink::new(rt.stdout()),
        &mut StdSink::new(rt.stderr()),
    ))
}

//! That the workers of a run are at work at once, and pass its gate.
ghost use Rattle.std.specs.Prelude.{◌≡◌, false};

use crate::cases::{Want, holds_in};
use dt_graph::QueueSched;
use dt_run::{Nodes, run};
use dt_test_round::Meeting;
use std::alloc::Global;
use std::mem::forget;
use std::sync::Wait;
use std::test::Fail;
use std::thread::Threads;

/// Whether two workers of a run to the end meet.
pub fn meet_in_run<R: Threads + Wait + Sync>(
    rt: &R,
    alloc: Global,
    nodes: &mut Nodes<QueueSched>,
) -> Result<bool, Fail>
    requires { nodes.old.broken ≡ false }
{
    let gate = Meeting::new();
    forget(run(rt, alloc, nodes, &gate)?);
    Ok(gate.has_seen_two())
}

/// Whether two workers of a phase meet, after which all is done.
pub fn meet_in_phase<R: Threads + Wait + Sync>(
    rt: &R,
    alloc: Global,
    nodes: &mut Nodes<QueueSched>,
) -> Result<bool, Fail>
    requires { nodes.old.broken ≡ false }
{
    let gate = Meeting::new();
    nodes.phase(rt, alloc, &gate)?;
    Ok(nodes.finished() && gate.has_seen_two())
}

/// One region.
const ALONE: &[u8] = b"regions = 1\n";

/// Two calls, of which neither waits for the other.
const APART: &[u8] = b"session x at 0\ncall put \"b\" 1\nsession y at 0\ncall put \"c\" 2\n";

#[test]
fn two_workers_of_a_run_and_of_a_phase_meet(rt: HostRuntime) -> Result<(), Fail> {
    assert!(rt; holds_in(&rt, rt.alloc(), ALONE, APART, Want::MeetInRun)?);
    assert!(rt; holds_in(&rt, rt.alloc(), ALONE, APART, Want::MeetInPhase)?);
    Ok(())
}

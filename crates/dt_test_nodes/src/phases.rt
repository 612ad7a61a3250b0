//! How many phases all nodes of a cluster make until all is done, and how many silent ones in a row.
ghost use Rattle.std.specs.Prelude.{◌≡◌, false};

use crate::cases::{Want, holds_in};
use dt_graph::QueueSched;
use dt_lock::NoGate;
use dt_run::Nodes;
use dt_test_texts::wrong;
use std::alloc::Global;
use std::sync::Wait;
use std::test::Fail;
use std::thread::Threads;

/// The most phases that two calls of three tries in two regions can make: 4 for each of 96 events, and 4 more.
const MOST: u64 = 388;

/// Phases of some nodes until all is done: how many they have made then, and how many silent ones in a row at most.
pub fn phases_of<R: Threads + Wait + Sync>(
    rt: &R,
    alloc: Global,
    nodes: &mut Nodes<QueueSched>,
) -> Result<(u64, u64), Fail>
    requires { nodes.old.broken ≡ false }
{
    let mut quiet = 0;
    for phase in 0..MOST {
        nodes.phase(rt, alloc, &NoGate)?;
        let counts = nodes.counts();
        if counts.made != phase + 1 {
            return Err(Fail::from("each phase is counted"));
        }
        if counts.quiet > quiet {
            quiet = counts.quiet;
        }
        if nodes.finished() {
            return Ok((counts.made, quiet));
        }
    }
    Err(Fail::from("all is done after at most MOST phases"))
}

/// Two transfers that wait for each other.
pub const TWO: &[u8] =
    b"session p at 0\ncall xfer \"b\" \"a\" 3\nsession q at 1\ncall xfer \"a\" \"b\" 4\n";

/// Loss plans: every n-th packet is lost, and every m-th comes twice, unless it is lost.
const DROPS: [u32; 5] = [0, 2, 3, 4, 5];

const REPEATS: [u32; 4] = [0, 1, 2, 3];

/// Whether two transfers in a cluster of two regions with three tries and this plan are done after few phases.
fn few_phases<R: Threads + Wait + Sync>(
    rt: &R,
    alloc: Global,
    drop: u32,
    repeat: u32,
) -> Result<bool, Fail> {
    let cluster = format!(in alloc;
        "regions = 2\ntries = 3\ndrop = {drop}\nrepeat = {repeat}\n[rows]\na = 10\nb = 10\n"
    )?;
    holds_in(rt, alloc, cluster.as_bytes(), TWO, Want::FewPhases(MOST, 3))
}

/// Fails at the first plan with which they are not.
fn check_plans<R: Threads + Wait + Sync>(rt: &R, alloc: Global) -> Result<(), Fail> {
    for drop in &DROPS {
        for repeat in &REPEATS {
            if !few_phases(rt, alloc, *drop, *repeat)? {
                return Err(Fail::new(format_args!("drop {drop}, repeat {repeat}")));
            }
        }
    }
    Ok(())
}

#[test]
fn two_transfers_are_done_after_few_phases_whatever_is_lost(rt: HostRuntime) -> Result<(), Fail> {
    check_plans(&rt, rt.alloc())
}

/// A session at region 0 that makes n calls.
fn backlog(alloc: Global, calls: u32) -> Result<Vec<u8>, Fail> {
    let mut file = b"session a at 0\n".to_vec(alloc)?;
    for _call in 0..calls {
        file.extend_from_slice(b"call add \"b\" 1\n")?;
    }
    Ok(file)
}

/// A cluster, how many calls one session at region 0 makes, and then: how many phases are made, and how many silent ones in a row.
const BACKLOGS: &[(&[u8], u32, u64, u64)] = &[
    // A region alone takes one phase.
    (b"regions = 1\n", 1, 1, 0),
    (b"regions = 1\n", 300, 1, 0),
    // A log of 300 entries takes two packets, and before the second one region 0 has to know that the first arrived.
    (b"regions = 2\n", 300, 4, 1),
    (b"regions = 2\ndrop = 3\n", 300, 5, 2),
    // The second packets are lost. The third ones bring the same entries again, and what region 1 has received; the fourth ones
    // are lost, and only the fifth has the other entries.
    (b"regions = 2\ndrop = 2\n", 300, 6, 3),
];

/// Fails at the first backlog that takes other phases.
fn check_backlogs<R: Threads + Wait + Sync>(rt: &R, alloc: Global) -> Result<(), Fail> {
    for (row, (cluster, calls, made, quiet)) in BACKLOGS.iter().enumerate() {
        let workload = backlog(alloc, *calls)?;
        if !holds_in(
            rt,
            alloc,
            cluster,
            workload.as_slice(),
            Want::Phases(*made, *quiet),
        )? {
            return Err(wrong(row));
        }
    }
    Ok(())
}

#[test]
fn a_log_longer_than_a_packet_waits_through_three_silent_phases(
    rt: HostRuntime,
) -> Result<(), Fail> {
    check_backlogs(&rt, rt.alloc())
}

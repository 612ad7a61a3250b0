//! Rings: what is put at one end, and what is taken at the other.
ghost use Rattle.dt_ring.specs.Rings.{AreEnds, SameIn, SameOut};

use crate::ends::{check_steps, put, stamped, take};
use dt_packet::{Inlet, Outlet};
use dt_ring::{RingIn, RingOut, beside, ring};
use dt_test_texts::wrong;
use dt_text::{NoMemory, put_u64};
use std::alloc::Global;
use std::test::Fail;
use std::thread::{Threads, join_mut};

/// A step on a ring: at a `+` a packet of this stamp is put, at a `-` one is taken, and else the two ends are brought beside
/// each other. Adds what comes of it.
fn step(
    alloc: Global,
    out: &mut Vec<u8>,
    outlet: &mut RingOut,
    inlet: &mut RingIn,
    stamp: u64,
    step: u8,
) -> Result<(), NoMemory>
    requires { AreEnds outlet.old inlet.old }
    ensures { AreEnds outlet.new inlet.new }
{
    match step {
        b'+' => put(alloc, out, outlet, stamp),
        b'-' => take(alloc, out, inlet),
        _ => beside(outlet, inlet),
    }
}

/// What comes of some steps on a ring of n places. The stamp of a packet is the place of its step.
fn played(alloc: Global, places: u32, steps: &[u8]) -> Result<Vec<u8>, Fail> {
    let (mut outlet, mut inlet) = ring(alloc, places)?;
    let mut out = Vec::new(alloc);
    for (place, sign) in steps.iter().enumerate() {
        step(
            alloc,
            &mut out,
            &mut outlet,
            &mut inlet,
            place as u64,
            *sign,
        )?;
    }
    Ok(out)
}

/// The places of a ring, steps, and what comes of them.
const STEPS: &[(u32, &[u8], &[u8])] = &[
    (8, b"++|---", b"0,1,-"),
    (8, b"++++++++|+", b"9!"),
    (
        8,
        b"+++++++++|+--------+|+|--",
        b"8!10!0,1,2,3,4,5,6,7,19!21,-",
    ),
    (8, b"+-|--", b"-0,-"),
    (8, b"++|+-|---", b"0,1,3,-"),
    (1, b"+|+-+|+|-", b"2!0,4!6,"),
    (0, b"+|+-", b"0!2!-"),
];

#[test]
fn what_is_put_is_taken_in_order_once_the_ends_were_beside_each_other(
    rt: HostRuntime,
) -> Result<(), Fail> {
    check_steps(rt.alloc(), STEPS, &played)
}

/// Puts n packets with rising stamps, and counts how many came back.
fn put_all(alloc: Global, outlet: &mut RingOut, first: u64, puts: u32) -> u32
    ensures { SameOut outlet.old outlet.new }
{
    let mut refused = 0;
    for number in 0..puts {
        if outlet
            .put(stamped(alloc, first.wrapping_add(u64::from(number))))
            .is_err()
        {
            refused += 1;
        }
    }
    refused
}

/// Takes packets until none is known to wait, at most n, and adds the stamp of each and a `,`.
fn take_all(alloc: Global, inlet: &mut RingIn, most: u32) -> Result<Vec<u8>, NoMemory>
    ensures { SameIn inlet.old inlet.new }
{
    let mut out = Vec::new(alloc);
    for _ in 0..most {
        let Some(packet) = inlet.take() else {
            break;
        };
        put_u64(alloc, &mut out, packet.stamp)?;
        out.push(b',')?;
    }
    Ok(out)
}

/// A phase: n packets are put in one thread, while in another all are taken that are known to wait. Counts how many came
/// back, and the stamps of those that were taken.
fn phase<R: Threads>(
    rt: &R,
    alloc: Global,
    outlet: &mut RingOut,
    inlet: &mut RingIn,
    first: u64,
    puts: u32,
) -> Result<(u32, Vec<u8>), NoMemory>
    requires { AreEnds outlet.old inlet.old }
    ensures { AreEnds outlet.new inlet.new }
{
    let (refused, taken) = join_mut(
        rt,
        &mut || put_all(alloc, outlet, first, puts),
        &mut || take_all(alloc, inlet, 100),
    );
    Ok((refused, taken?))
}

/// Adds a `!` for each packet that came back, and the stamps of those that were taken.
fn put_phase(out: &mut Vec<u8>, refused: u32, taken: &[u8]) -> Result<(), NoMemory> {
    for _ in 0..refused {
        out.push(b'!')?;
    }
    out.extend_from_slice(taken)?;
    Ok(())
}

/// What comes of phases on a ring of n places, in each of which m packets are put: a `!` for each that comes
/// back, the stamps of those that are taken, and a `|` where the ends are beside each other.
fn phases<R: Threads>(rt: &R, alloc: Global, places: u32, puts: &[u32]) -> Result<Vec<u8>, Fail> {
    let (mut outlet, mut inlet) = ring(alloc, places)?;
    let mut out = Vec::new(alloc);
    let mut first = 0u64;
    for count in puts {
        let (refused, taken) = phase(rt, alloc, &mut outlet, &mut inlet, first, *count)?;
        first = first.wrapping_add(u64::from(*count));
        put_phase(&mut out, refused, taken.as_slice())?;
        beside(&mut outlet, &mut inlet)?;
        out.push(b'|')?;
    }
    Ok(out)
}

/// The places of a ring, how many packets are put in each phase, and what comes of them.
const PHASES: &[(u32, &[u32], &[u8])] = &[
    (8, &[2, 3, 0, 0], b"|0,1,|2,3,4,||"),
    (2, &[3, 0, 1, 0], b"!|0,1,||3,|"),
    (2, &[1, 2, 2, 0], b"|!0,|!1,|3,|"),
];

/// Fails at the first phases of which something else comes.
fn check_phases<R: Threads>(rt: &R, alloc: Global) -> Result<(), Fail> {
    for (row, (places, puts, want)) in PHASES.iter().enumerate() {
        if phases(rt, alloc, *places, puts)?.as_slice() != *want {
            return Err(wrong(row));
        }
    }
    Ok(())
}

#[test]
fn what_one_thread_puts_another_takes_in_the_next_phase(rt: HostRuntime) -> Result<(), Fail> {
    check_phases(&rt, rt.alloc())
}

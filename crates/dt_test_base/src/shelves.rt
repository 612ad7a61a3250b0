//! Shelves: what is put on them, and what is taken from them.
use crate::ends::{check_steps, put, stamped, take};
use dt_packet::{Inlet, Outlet, Shelf};
use dt_test_texts::wrong;
use std::alloc::Global;
use std::test::Fail;

/// What comes of some steps on a shelf of n places: at each `+` a packet is put, whose stamp is the place of the step,
/// and at each `-` one is taken.
fn played(alloc: Global, places: u32, steps: &[u8]) -> Result<Vec<u8>, Fail> {
    let mut shelf = Shelf::new(alloc, places)?;
    let mut out = Vec::new(alloc);
    for (place, step) in steps.iter().enumerate() {
        if *step == b'+' {
            put(alloc, &mut out, &mut shelf, place as u64)?;
        } else {
            take(alloc, &mut out, &mut shelf)?;
        }
    }
    Ok(out)
}

/// The places of a shelf, steps, and what comes of them.
const STEPS: &[(u32, &[u8], &[u8])] = &[
    (8, b"+++++++++---------", b"8!0,1,2,3,4,5,6,7,-"),
    (2, b"++-+-+--", b"0,1,3,5,"),
    (1, b"++-+--", b"1!0,3,-"),
    (0, b"+-", b"0!-"),
];

#[test]
fn what_is_put_is_taken_in_order_and_no_more_than_there_are_places(
    rt: HostRuntime,
) -> Result<(), Fail> {
    check_steps(rt.alloc(), STEPS, &played)
}

/// The same value, which may be moved to a thread.
fn sent<T: Send>(value: T) -> T {
    value
}

/// Puts n packets on a shelf.
fn put_many(alloc: Global, shelf: &mut Shelf, puts: u32) {
    for stamp in 0..puts {
        let _refused = shelf.put(stamped(alloc, u64::from(stamp)));
    }
}

/// The stamps that are taken from a shelf, until none waits, n at most.
fn taken(alloc: Global, shelf: &mut Shelf, most: u32) -> Result<Vec<u64>, Fail> {
    let mut stamps = Vec::new(alloc);
    for _ in 0..most {
        if let Some(packet) = shelf.take() {
            stamps.push(packet.stamp)?;
        }
    }
    Ok(stamps)
}

/// The stamps that are taken, until none waits, from a shelf of n places on which m packets were put.
fn held(alloc: Global, places: u32, puts: u32) -> Result<Vec<u64>, Fail> {
    let mut shelf = Shelf::new(alloc, places)?;
    put_many(alloc, &mut shelf, puts);
    let mut shelf = sent(shelf);
    taken(alloc, &mut shelf, puts)
}

/// The places of a shelf, how many packets are put on it, and how many it holds then.
const HELD: &[(u32, u32, usize)] = &[(500, 400, 400), (500, 500, 500), (300, 500, 300)];

/// Fails at the first shelf that holds more or fewer.
fn check_held(alloc: Global) -> Result<(), Fail> {
    for (row, (places, puts, want)) in HELD.iter().enumerate() {
        if held(alloc, *places, *puts)?.len() != *want {
            return Err(wrong(row));
        }
    }
    Ok(())
}

#[test]
fn a_large_shelf_holds_as_many_as_it_has_places(rt: HostRuntime) -> Result<(), Fail> {
    check_held(rt.alloc())
}

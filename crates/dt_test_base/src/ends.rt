//! The ends of a link: packets that are known by their stamps, and what comes of steps at the ends.
use dt_packet::{Inlet, Outlet, Packet};
use dt_test_texts::wrong;
use dt_text::{NoMemory, put_u64};
use dt_txn::{Entries, Txns};
use std::alloc::Global;
use std::test::Fail;

/// A packet of this stamp, with nothing in it.
pub fn stamped(alloc: Global, stamp: u64) -> Packet {
    Packet {
        source: 0,
        target: 1,
        stamp,
        asked_at: 0,
        asked: Txns::new(alloc),
        log_at: 0,
        entries: Entries::new(alloc),
        took: 0,
        received: 0,
    }
}

/// Puts a packet of this stamp. Where one comes back, adds its stamp and a `!`.
pub fn put<O: Outlet>(
    alloc: Global,
    out: &mut Vec<u8>,
    outlet: &mut O,
    stamp: u64,
) -> Result<(), NoMemory>
    ensures { (first : O) → O.same first outlet.old → O.same first outlet.new }
{
    if let Err(back) = outlet.put(stamped(alloc, stamp)) {
        put_u64(alloc, out, back.stamp)?;
        out.push(b'!')?;
    }
    Ok(())
}

/// Takes a packet and adds its stamp and a `,`, or adds a `-` where none waits.
pub fn take<I: Inlet>(alloc: Global, out: &mut Vec<u8>, inlet: &mut I) -> Result<(), NoMemory>
    ensures { (first : I) → I.same first inlet.old → I.same first inlet.new }
{
    let Some(packet) = inlet.take() else {
        out.push(b'-')?;
        return Ok(());
    };
    put_u64(alloc, out, packet.stamp)?;
    out.push(b',')?;
    Ok(())
}

/// Fails at the first row of which something else comes. A row has the places of a link, steps, and what comes of them; `played`
/// makes the steps on such a link.
pub fn check_steps<F: Fn(Global, u32, &[u8]) -> Result<Vec<u8>, Fail>>(
    alloc: Global,
    rows: &[(u32, &[u8], &[u8])],
    played: &F,
) -> Result<(), Fail>
    requires { F.IsAlwaysCallable played.now }
{
    for (row, (places, steps, want)) in rows.iter().enumerate() {
        if played(alloc, *places, *steps)?.as_slice() != *want {
            return Err(wrong(row));
        }
    }
    Ok(())
}

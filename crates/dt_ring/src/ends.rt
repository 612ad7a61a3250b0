ghost use Rattle.std.specs.Prelude.{◌≡◌, ◌+◌, [], ◌++◌, length, IsOk, IfOk};
ghost use Rattle.dt_ring.specs.Rings.{AreEnds, SameIn, SameOut};

use dt_packet::{Inlet, Outlet, Packet};
use dt_text::NoMemory;
use rtrb::{Consumer, Producer, RingBuffer};
use std::alloc::Global;
use std::marker::Model;

/// The end of a ring into which packets are put. It may move to a thread.
///
/// Contracts see which ring it is of, what was put before the ends were last beside each other and what was put since, and
/// how many places the ring has and how many of them are free.
#[derive(Drop)]
pub struct RingOut {
    producer: Producer<Packet>,
    // How many places were free when the ends were last beside each other.
    room: usize,
    // How many packets were put since.
    fresh: usize,
}

impl Model for RingOut {
    ghost use Rattle.dt_ring.specs.Rings.{RingOutView};

    ghost Value = { RingOutView };

    ghost use Rattle.dt_ring.specs.EndsInner.{out_view, IsSoundOut};

    ghost view = { out_view };

    ghost invariant = { IsSoundOut };
}

/// The end of a ring from which packets are taken. It may move to a thread.
///
/// Contracts see which ring it is of, what was taken, and what is known to wait.
#[derive(Drop)]
pub struct RingIn {
    consumer: Consumer<Packet>,
}

impl Model for RingIn {
    ghost use Rattle.dt_ring.specs.Rings.{RingInView};

    ghost Value = { RingInView };

    ghost use Rattle.dt_ring.specs.EndsInner.{in_view};

    ghost view = { in_view };
}

/// The two ends of an empty ring with n places. It takes the memory for all of them at once, and no more later.
pub fn ring(alloc: Global, places: u32) -> Result<(RingOut, RingIn), NoMemory>
    ensures ends { IfOk result (λ r. AreEnds r.0 r.1) }
    ensures empty { IfOk result (λ r. (r.0.put ≡ []) × (r.1.waits ≡ [])) }
    ensures unused { IfOk result (λ r. (r.0.before ≡ []) × (r.1.taken ≡ [])) }
    ensures places { IfOk result (λ r. (r.0.places ≡ places) × (r.0.free ≡ places)) }
{
    let room = places as usize;
    let (producer, consumer) = RingBuffer::new(alloc, room)?;
    let out = RingOut {
        producer,
        room,
        fresh: 0,
    };
    Ok((out, RingIn { consumer }))
}

/// Tells each of the two ends of a ring what the other did. What was put since they were last beside each other is known to
/// wait, behind what still waited, and each place without a waiting packet is free. It takes no memory: the answer is `Ok`.
pub fn beside(out: &mut RingOut, inlet: &mut RingIn) -> Result<(), NoMemory>
    requires { AreEnds out.old inlet.old }
    ensures ok { IsOk result }
    ensures ends { AreEnds out.new inlet.new }
    ensures waits { inlet.new.waits ≡ inlet.old.waits ++ out.old.put }
    ensures put { out.new.put ≡ [] }
    ensures ring { out.new.ring ≡ out.old.ring }
    ensures taken { inlet.new.taken ≡ inlet.old.taken }
    ensures before { out.new.before ≡ out.old.before ++ out.old.put }
    ensures free { out.new.free + length inlet.new.waits ≡ out.new.places }
    ensures places { out.new.places ≡ out.old.places }
{
    out.room = out.producer.slots_beside(&mut inlet.consumer);
    out.fresh = 0;
    inlet.consumer.slots_beside(&mut out.producer);
    Ok(())
}

impl Outlet for RingOut {
    ghost seen = { λ out. record { put = out.put; free = out.free } };

    ghost same = { SameOut };

    fn put(&mut self, packet: Packet) -> Result<(), Packet> {
        if self.fresh >= self.room {
            return Err(packet);
        }
        self.producer.push_reserved(packet);
        self.fresh += 1;
        Ok(())
    }
}

impl Inlet for RingIn {
    ghost waits = { λ inlet. inlet.waits };

    ghost same = { SameIn };

    fn take(&mut self) -> Option<Packet> {
        if self.consumer.cached_slots() == 0 {
            return None;
        }
        Some(self.consumer.pop_known())
    }
}

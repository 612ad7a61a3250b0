ghost use Rattle.std.specs.Prelude.{◌≡◌, Some};
ghost use Rattle.rtrb.specs.Ring.{IsPair, SameConsumer, SameProducer, received, sent};
ghost use Rattle.dt_pool.specs.Links.{last_item};

use crate::wait::stuck;
use rtrb::{Consumer, Producer, RingBuffer};
use std::alloc::{AllocError, Global};
use std::marker::Model;
use std::snapshot::Snapshot;
use std::sync::Wait;

/// The two ends of a ring that remembers what was lent to one worker.
#[derive(Drop)]
pub struct Link<X> {
    pub(crate) asks: Producer<Snapshot<X>>,
    pub(crate) was: Consumer<Snapshot<X>>,
}

impl<X> Model for Link<X> {
    ghost use Rattle.rtrb.specs.Ring.{IsPair};
    ghost use Rattle.dt_pool.specs.Links.{LinkName, name_of_outlet};

    ghost Value = { LinkName };

    ghost view = { λ l. name_of_outlet l.asks };

    ghost invariant = { λ l. IsPair l.asks l.was };
}

impl<X> Link<X> {
    /// A new ring.
    pub fn new(alloc: Global) -> Result<Self, AllocError> {
        let (asks, was) = RingBuffer::new(alloc, 2)?;
        Ok(Link { asks, was })
    }
}

/// Remembers an item at both ends of a ring.
#[tactic(auto, using(crate::proofs::LastItems::last_item_append))]
pub(crate) fn remember<X, R: Wait>(
    rt: &R,
    asks: &mut Producer<Snapshot<X>>,
    was: &mut Consumer<Snapshot<X>>,
    item: &X,
)
    requires { IsPair asks.old was.old }
    ensures asks { SameProducer asks.old asks.new }
    ensures was { SameConsumer was.old was.new }
    ensures sent { last_item (sent asks.new) ≡ Some item.now }
    ensures received { last_item (received was.new) ≡ Some item.now }
{
    let seen = Snapshot::of(item);
    if asks.push(seen).is_err() {
        stuck(rt);
    }
    if was.pop().is_err() {
        stuck(rt);
    }
    compare(rt, asks, was);
}

/// Compares the ends of a ring: both remember the same.
pub(crate) fn compare<X, R: Wait>(
    rt: &R,
    asks: &mut Producer<Snapshot<X>>,
    was: &mut Consumer<Snapshot<X>>,
)
    requires { IsPair asks.old was.old }
    ensures asks { SameProducer asks.old asks.new }
    ensures was { SameConsumer was.old was.new }
    ensures sent { sent asks.new ≡ sent asks.old }
    ensures received { received was.new ≡ received was.old }
    ensures same { received was.new ≡ sent asks.new }
{
    if was.slots_beside(asks) != 0 {
        stuck(rt);
    }
}

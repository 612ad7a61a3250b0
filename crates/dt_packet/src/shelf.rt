ghost use Rattle.std.specs.Prelude.{◌≡◌, ◌-◌, [], IfOk, length};

use crate::links::{Inlet, Outlet};
use crate::packet::Packet;
use dt_text::NoMemory;
use std::alloc::Global;
use std::collections::VecDeque;
use std::marker::Model;

/// A place where packets wait: what is put on it at the back is taken at the front.
///
/// Contracts see the packets that wait, and how many it holds at most. It is an outlet with the places that are left, and
/// an inlet; so a link within one program is two of them, one that is being filled and one that is being emptied, which
/// change places between turns.
#[derive(Drop)]
pub struct Shelf {
    packets: VecDeque<Packet>,
    places: u32,
}

impl Model for Shelf {
    ghost use Rattle.std.specs.Prelude.{◌≤◌};
    ghost use Rattle.std.specs.VecDeque.{deque_len, deque_capacity};
    ghost use Rattle.dt_packet.specs.Links.{ShelfView};

    ghost Value = { ShelfView };

    ghost view = { λ s. record { waiting = s.packets.items; places = s.places } };

    ghost invariant = { λ s. (deque_len s.packets ≤ s.places) × (s.places ≤ deque_capacity s.packets) };
}

impl Shelf {
    /// An empty shelf. It takes the memory for n packets at once, and no more later.
    pub fn new(alloc: Global, places: u32) -> Result<Self, NoMemory>
        ensures { IfOk result (λ shelf. shelf ≡ record { waiting = []; places = places }) }
    {
        Ok(Shelf {
            packets: VecDeque::with_capacity(alloc, places as usize)?,
            places,
        })
    }
}

impl Outlet for Shelf {
    ghost seen = { λ shelf. record { put = shelf.waiting; free = shelf.places - length shelf.waiting } };

    ghost same = { λ a b. a.places ≡ b.places };

    fn put(&mut self, packet: Packet) -> Result<(), Packet> {
        if self.packets.len() >= self.places as usize {
            return Err(packet);
        }
        match self.packets.push_back(packet) {
            Ok(()) => Ok(()),
            Err(_) => unreachable!(),
        }
    }
}

impl Inlet for Shelf {
    ghost waits = { λ shelf. shelf.waiting };

    ghost same = { λ a b. a.places ≡ b.places };

    fn take(&mut self) -> Option<Packet> {
        self.packets.pop_front()
    }
}

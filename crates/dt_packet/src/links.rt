ghost use Rattle.dt_packet.specs.Links.{OutletView, Puts, TakesFront};
ghost use Rattle.std.specs.Prelude.{List};
ghost use Rattle.dt_packet.specs.declared.packet.Packet.{Packet};

use crate::packet::Packet;

/// The end of a link into which packets are put. No call takes memory.
pub trait Outlet {
    // What is seen of it.
    ghost seen: { Self → OutletView };

    // What it has in common with itself at other times, whatever is put: which end of which link it is.
    ghost same: { Self → Self → Type 0 };

    /// Adds the packet at the back, and there is one free place less. Hands it back exactly where no place is free; then
    /// nothing changes.
    fn put(&mut self, packet: Packet) -> Result<(), Packet>
        ensures puts { Puts (seen self.old) packet result (seen self.new) }
        ensures same { (first : Self) → same first self.old → same first self.new };
}

/// The end of a link from which packets are taken. No call takes memory.
pub trait Inlet {
    // The packets that are known to wait, the one that was put first in front.
    ghost waits: { Self → List Packet };

    // What it has in common with itself at other times, whatever is taken: which end of which link it is.
    ghost same: { Self → Self → Type 0 };

    /// Takes the front packet off; `None` exactly where none waits.
    fn take(&mut self) -> Option<Packet>
        ensures takes { TakesFront (waits self.old) result (waits self.new) }
        ensures same { (first : Self) → same first self.old → same first self.new };
}

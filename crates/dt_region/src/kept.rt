ghost use Rattle.std.specs.Prelude.{◌≡◌, ◌+◌, ◌<◌, ◌≤◌, [], ◌∷◌, ◌++◌, OnOk};

use dt_events::{Event, Stamped};
use dt_text::NoMemory;
use std::alloc::Global;
use std::marker::Model;

/// Events in the order in which they came, each under its stamp.
///
/// Contracts see the list, and as `spare` how many more can be kept without memory.
#[derive(Drop)]
pub struct Kept {
    events: Vec<Stamped>,
}

impl Model for Kept {
    ghost use Rattle.std.specs.Prelude.{◌-◌, vec_capacity, vec_len};
    ghost use Rattle.dt_region.specs.KeptInner.{KeptView};

    ghost Value = { KeptView };

    ghost view = { λ k. record { events = k.events.items; spare = vec_capacity k.events - vec_len k.events } };
}

impl Kept {
    /// None yet. Takes no memory.
    pub fn new(alloc: Global) -> Self
        ensures { result.events ≡ [] }
    {
        Kept {
            events: Vec::new(alloc),
        }
    }

    /// The events, in order.
    pub fn as_slice(&self) -> &[Stamped]
        ensures { result.now ≡ self.now.events }
    {
        self.events.as_slice()
    }

    /// Makes room for n more. Nothing else changes.
    pub fn reserve(&mut self, places: usize) -> Result<(), NoMemory>
        ensures same { self.new.events ≡ self.old.events }
        ensures room { OnOk result (places ≤ self.new.spare) }
        ensures spare { self.old.spare ≤ self.new.spare }
    {
        self.events.reserve(places)?;
        Ok(())
    }

    /// Keeps an event under a stamp, as the last one. Takes no memory where there is room.
    pub fn keep(&mut self, stamp: u64, event: Event)
        requires { 0 < self.old.spare }
        ensures kept { self.new.events ≡ self.old.events ++ record { stamp = stamp; event = event } ∷ [] }
        ensures spare { self.old.spare ≤ self.new.spare + 1 }
    {
        self.events.push_reserved(Stamped { stamp, event });
    }
}

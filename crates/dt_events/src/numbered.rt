ghost use Rattle.std.specs.Prelude.{◌≡◌, ◌<◌, ◌∷◌, ◌++◌, [], length, map, get_or, IfOk, OnOk, OnErr};

use crate::event::Event;
use dt_text::NoMemory;
use std::alloc::Global;
use std::marker::Model;

/// Events, each with the number of its line. The numbers and the events lie apart, since so they take less memory.
#[derive(Drop)]
pub struct NumberedEvents {
    lines: Vec<u32>,
    events: Vec<Event>,
}

impl Model for NumberedEvents {
    ghost use Rattle.std.specs.Prelude.{◌≡◌, ℕ, List, length};
    ghost use Rattle.std.specs.List.{zip};
    ghost use Rattle.dt_events.specs.declared.event.Event.{Event as OneEvent};

    ghost Value = { List (ℕ × OneEvent) };

    ghost view = { λ n. zip n.lines.items n.events.items };

    ghost invariant = { λ n. length n.lines.items ≡ length n.events.items };
}

impl NumberedEvents {
    /// None yet, with room for so many.
    pub fn with_capacity(alloc: Global, capacity: usize) -> Result<Self, NoMemory>
        ensures { IfOk result (λ numbered. numbered ≡ []) }
    {
        Ok(NumberedEvents {
            lines: Vec::with_capacity(alloc, capacity)?,
            events: Vec::with_capacity(alloc, capacity)?,
        })
    }

    /// Adds an event and the number of its line.
    pub fn push(&mut self, line: u32, event: Event) -> Result<(), NoMemory>
        ensures added { OnOk result (self.new ≡ self.old ++ (line, event) ∷ []) }
        ensures same { OnErr result (self.new ≡ self.old) }
    {
        self.events.push(event)?;
        if let Err(error) = self.lines.push(line) {
            self.events.pop();
            return Err(NoMemory::from(error));
        }
        Ok(())
    }

    /// How many there are.
    pub fn len(&self) -> usize
        ensures { result ≡ length self.now }
    {
        self.events.len()
    }

    /// The number of the line of the event at a place.
    pub fn line(&self, at: usize) -> u32
        requires { at < length self.now }
        ensures { result ≡ get_or (map (λ event. event.0) self.now) at 0 }
    {
        self.lines[at]
    }

    /// The events without their numbers.
    pub fn events(&self) -> &[Event]
        ensures { result.now ≡ map (λ event. event.1) self.now }
    {
        self.events.as_slice()
    }
}

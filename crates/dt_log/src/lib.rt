//! The log of one home, as a region has received it: a list of parts that only grows at its end.
//!
//! Read next: `specs/Logs.antt`, what becomes of a delivery that comes twice, too late or too early.
#![tactic(auto)]

ghost use Rattle.std.specs.Prelude.{◌≡◌, ◌≢◌, ◌+◌, ◌<◌, ◌≤◌, ◌^◌, [], ◌∷◌, ◌++◌, length, vec_len, slice_get, option_copied, OnOk, OnErr, IfOk};
ghost use Rattle.dt_log.specs.Logs.{AgreeOnOverlap, StandFrom, Takes};

use dt_access::Part;
use dt_text::{Common, NoMemory};
use std::alloc::Global;
use std::marker::Model;

/// The parts that one home has placed in order, or as many of them as were received. A part is in common to all logs that
/// have it.
///
/// Contracts see the list of parts, which has at most 4,294,967,295 of them.
#[derive(Debug, Drop)]
pub struct Log {
    parts: Vec<Common<Part>>,
}

impl Model for Log {
    ghost use Rattle.std.specs.Prelude.{◌<◌, ◌^◌, List, length};
    ghost use Rattle.dt_access.specs.declared.Part.{Part};

    ghost Value = { List Part };

    ghost view = { λ l. l.parts.items };

    ghost invariant = { λ l. length l.parts.items < 2 ^ 32 };
}

/// What a delivery of entries was.
#[derive(Clone, Copy, Debug, PartialEq, Eq)]
pub enum Taken {
    /// This many entries at its end were past the log's end, and were added.
    New(u32),
    /// The log had all entries; nothing changed.
    Old,
    /// The entries begin past the log's end; nothing changed.
    Gap,
}

impl Log {
    /// The empty log. Takes no memory.
    pub fn new(alloc: Global) -> Self
        ensures { result ≡ [] }
    {
        Log {
            parts: Vec::new(alloc),
        }
    }

    /// Makes room for just n more parts. Nothing else changes, whatever the answer.
    pub fn reserve(&mut self, parts: usize) -> Result<(), NoMemory>
        ensures { self.new ≡ self.old }
    {
        self.parts.reserve_exact(parts)?;
        Ok(())
    }

    /// Adds a part at the end; after `NoMemory` the log is as before.
    pub fn push(&mut self, part: Common<Part>) -> Result<(), NoMemory>
        requires { length self.old + 1 < 2 ^ 32 }
        ensures added { OnOk result (self.new ≡ self.old ++ part ∷ []) }
        ensures same { OnErr result (self.new ≡ self.old) }
    {
        self.parts.push(part)?;
        Ok(())
    }

    /// The part at a place, from 0; `None` exactly at and past the end. Takes no memory.
    pub fn get(&self, place: u32) -> Option<&Part>
        ensures { option_copied result ≡ slice_get self.now place }
    {
        match self.common(place) {
            Some(part) => Some(part.get()),
            None => None,
        }
    }

    /// The same part as `get`, to be had in common with this log. Takes no memory.
    pub fn common(&self, place: u32) -> Option<&Common<Part>>
        ensures { option_copied result ≡ slice_get self.now place }
    {
        self.parts.get(place as usize)
    }

    /// How many parts there are. Takes no memory.
    pub fn len(&self) -> u32
        ensures { result ≡ length self.now }
    {
        self.parts.len() as u32
    }

    /// Takes a delivery: entries of the true log from place `first` on, some of which may be held
    /// already. Those past the end are added. Takes memory only where it adds some, and after
    /// `NoMemory` the log is as before.
    pub fn take(&mut self, first: u32, mut entries: Vec<Common<Part>>) -> Result<Taken, NoMemory>
        requires overlap { AgreeOnOverlap self.old first entries.items }
        requires place { first ≤ length self.old → first + vec_len entries < 2 ^ 32 }
        ensures takes { Takes self.old first entries.items result self.new }

        // Unless there was a gap, the log then has all of them.
        ensures held { IfOk result (λ taken. taken ≢ Taken.Gap → StandFrom self.new first entries.items) }
    {
        let first = first as usize;
        let held = self.parts.len();
        if first > held {
            return Ok(Taken::Gap);
        }
        let overlap = held - first;
        if entries.len() <= overlap {
            return Ok(Taken::Old);
        }
        entries.drain(..overlap);
        let added = entries.len() as u32;
        self.parts.append(&mut entries)?;
        Ok(Taken::New(added))
    }
}

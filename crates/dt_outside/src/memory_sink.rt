ghost use Rattle.std.specs.Prelude.{◌≡◌, ◌<◌, ◌≤◌, ◌-◌, ◌++◌, ◌↔◌, [], length, take, min, IfOk, OnErr, IsErr, Some};
ghost use Rattle.dt_outside.specs.Faults.{next_count};

use crate::failures::Failed;
use crate::sinks::Sink;
use dt_text::NoMemory;
use std::alloc::Global;
use std::marker::Model;

/// A sink in memory. It shows its bytes, and fails once its room is used up.
#[derive(Drop)]
pub struct MemorySink {
    content: Vec<u8>,
    room: usize,
    faults: u64,
}

impl Model for MemorySink {
    ghost use Rattle.std.specs.Prelude.{◌≤◌, vec_len, vec_capacity};
    ghost use Rattle.dt_outside.specs.Sink.{MemorySinkView};

    ghost Value = { MemorySinkView };

    ghost view = { λ s. record { content = s.content.items; room = s.room; faults = s.faults } };

    ghost invariant = { λ s. (vec_len s.content ≤ s.room) × (s.room ≤ vec_capacity s.content) };
}

impl MemorySink {
    /// An empty sink that takes memory for `room` bytes at once, and no more later.
    pub fn new(alloc: Global, room: u64) -> Result<Self, NoMemory>
        ensures { IfOk result (λ sink. sink ≡ record { content = []; room = room; faults = 0 }) }
    {
        let room = room as usize;
        Ok(MemorySink {
            content: Vec::with_capacity(alloc, room)?,
            room,
            faults: 0,
        })
    }

    /// The bytes that it holds. Takes no memory.
    pub fn bytes(&self) -> &[u8]
        ensures { result.now ≡ self.now.content }
    {
        self.content.as_slice()
    }
}

impl Sink for MemorySink {
    ghost seen = { λ sink. record { held = Some sink.content; faults = sink.faults } };

    /// Adds as many first bytes of the piece as there is room for. Fails exactly where the room is
    /// used up already.
    fn write(&mut self, piece: &[u8]) -> Result<usize, Failed>
        ensures full { IsErr result ↔ (length self.old.content ≡ self.old.room) }
        ensures taken { IfOk result (λ n. n ≡ min (length piece.now) (self.old.room - length self.old.content)) }
        ensures added { IfOk result (λ n.
            self.new ≡ record self.old { content = self.old.content ++ take n piece.now }) }
        ensures progress { IfOk result (λ n. 0 < length piece.now → 0 < n) }
        ensures counted { OnErr result (self.new ≡ record self.old { faults = next_count self.old.faults }) }
        ensures later { self.old.faults ≤ self.new.faults }
    {
        let free = self.room - self.content.len();
        if free == 0 {
            self.faults = self.faults.saturating_add(1);
            return Err(Failed);
        }
        let taken = piece.len().min(free);
        match self.content.extend_from_slice(&piece[..taken]) {
            Ok(()) => Ok(taken),
            Err(_) => unreachable!(),
        }
    }
}

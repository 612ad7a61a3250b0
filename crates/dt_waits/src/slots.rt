ghost use Rattle.std.specs.Prelude.{◌≡◌, ◌⊎◌, [], ◌∷◌, ◌++◌, length, option_to_list, IfOk, IsSome, OnErr, OnOk};

use dt_text::NoMemory;
use smallvec::SmallVec;
use std::alloc::Global;
use std::marker::Model;

/// The slots of entries, in the order in which they were pushed. Up to two of them lie in the list itself, and take no memory.
#[derive(Drop)]
pub struct Slots {
    items: SmallVec<usize, 2>,
}

impl Model for Slots {
    ghost use Rattle.std.specs.Prelude.{List, ℕ};

    ghost Value = { List ℕ };

    ghost view = { λ s. s.items.items };
}

impl Slots {
    /// The empty list. Takes no memory.
    pub fn new(alloc: Global) -> Self
        ensures { result ≡ [] }
    {
        Slots {
            items: SmallVec::new(alloc),
        }
    }

    /// An equal list.
    pub fn copy(&self, alloc: Global) -> Result<Self, NoMemory>
        ensures { IfOk result (λ copied. copied ≡ self.now) }
    {
        Ok(Slots {
            items: SmallVec::from_slice(alloc, self.items.as_slice())?,
        })
    }

    /// Makes room for just n more slots. Nothing else changes, whatever the answer.
    pub fn reserve(&mut self, slots: usize) -> Result<(), NoMemory>
        ensures { self.new ≡ self.old }
    {
        self.items.reserve_exact(slots)?;
        Ok(())
    }

    /// Adds a slot at the back; after `NoMemory` the list is as before.
    pub fn push(&mut self, slot: usize) -> Result<(), NoMemory>
        ensures added { OnOk result (self.new ≡ self.old ++ slot ∷ []) }
        ensures same { OnErr result (self.new ≡ self.old) }
    {
        self.items.push(slot)?;
        Ok(())
    }

    /// Takes the last slot off; `None` where the list is empty, and only there. Takes no memory.
    pub fn pop(&mut self) -> Option<usize>
        ensures taken { self.old ≡ self.new ++ option_to_list result }
        ensures empty { IsSome result ⊎ (self.old ≡ []) }
    {
        self.items.pop()
    }

    /// The slots, in order. Takes no memory.
    pub fn as_slice(&self) -> &[usize]
        ensures { result.now ≡ self.now }
    {
        self.items.as_slice()
    }

    /// How many slots there are.
    pub fn len(&self) -> usize
        ensures { result ≡ length self.now }
    {
        self.items.len()
    }
}

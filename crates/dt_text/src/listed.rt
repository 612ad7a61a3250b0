ghost use Rattle.std.proofs.Common.{rules};
ghost use Rattle.std.specs.Cmp.Lexicographic.{pointwise};
ghost use Rattle.std.specs.Cmp.Rules.{comparing};
ghost use Rattle.std.specs.Prelude.{◌≡◌, ◌↔◌, ◌⊎◌, [], ◌∷◌, ◌++◌, List, length, IsSome, IsTrue, OnOk, OnErr, option_to_list};

use crate::no_memory::NoMemory;
use std::alloc::Global;
use std::marker::Model;

/// A list. Contracts see the items in order and nothing else: neither room nor where it lies.
#[derive(Debug, Drop)]
pub struct Listed<X> {
    items: Vec<X>,
}

impl<X> Model for Listed<X> {
    ghost Value = { List X };

    ghost view = { λ l. l.items.items };
}

impl<X> Listed<X> {
    /// The empty list. Takes no memory.
    pub fn new(alloc: Global) -> Self
        ensures { result ≡ [] }
    {
        Listed {
            items: Vec::new(alloc),
        }
    }

    /// The items of a vector, in its order. Takes no memory.
    pub fn from_vec(items: Vec<X>) -> Self
        ensures { result ≡ items.items }
    {
        Listed { items }
    }

    /// Gives the items back as a vector. Takes no memory.
    pub fn into_vec(self) -> Vec<X>
        ensures { result.items ≡ self }
    {
        let Listed { items } = self;
        items
    }

    /// Adds an item at the back; after `NoMemory` the list is as before.
    pub fn push(&mut self, item: X) -> Result<(), NoMemory>
    where
        X: Drop,
        ensures added { OnOk result (self.new ≡ self.old ++ item ∷ []) }
        ensures same { OnErr result (self.new ≡ self.old) }
    {
        self.items.push(item)?;
        Ok(())
    }

    /// Makes room for just n more items. Nothing else changes, whatever the answer.
    pub fn reserve(&mut self, items: usize) -> Result<(), NoMemory>
        ensures { self.new ≡ self.old }
    {
        self.items.reserve_exact(items)?;
        Ok(())
    }

    /// Takes the last item off; `None` where the list is empty, and only there. Takes no memory.
    pub fn pop(&mut self) -> Option<X>
        ensures taken { self.old ≡ self.new ++ option_to_list result }
        ensures empty { IsSome result ⊎ (self.old ≡ []) }
    {
        self.items.pop()
    }

    /// The items, in order. Takes no memory.
    pub fn as_slice(&self) -> &[X]
        ensures { result.now ≡ self.now }
    {
        self.items.as_slice()
    }

    /// How many items there are.
    pub fn len(&self) -> usize
        ensures { result ≡ length self.now }
    {
        self.items.len()
    }

    /// Whether there is no item.
    pub fn is_empty(&self) -> bool
        ensures { IsTrue result ↔ (self.now ≡ []) }
    {
        self.items.is_empty()
    }
}

impl<X: PartialEq> PartialEq for Listed<X> {
    ghost eq = { pointwise X.eq };

    ghost laws = { Prim.search (comparing, rules) };

    fn eq(&self, other: &Self) -> bool {
        self.items.as_slice() == other.items.as_slice()
    }
}

impl<X: Eq> Eq for Listed<X> {
    ghost laws = { Prim.search (comparing, rules) };
}

ghost use Rattle.std.specs.Prelude.{◌≡◌, [], ◌∷◌, ◌++◌, OnOk, OnErr, length};

use dt_access::TryCopy;
use dt_text::{NoMemory, Value};
use smallvec::SmallVec;
use std::alloc::Global;
use std::marker::Model;

/// The values that a call gives, each a value or none. Contracts see them in order and nothing else. Up to two of them lie in
/// the list itself, and take no memory.
#[derive(Debug, Drop)]
pub struct Values {
    items: SmallVec<Option<Value>, 2>,
}

impl Model for Values {
    ghost use Rattle.std.specs.Prelude.{List, Option};
    ghost use Rattle.dt_text.specs.declared.Value.{Value as AnyValue};

    ghost Value = { List (Option AnyValue) };

    ghost view = { λ v. v.items.items };
}

impl Values {
    /// The empty list. Takes no memory.
    pub fn new(alloc: Global) -> Self
        ensures { result ≡ [] }
    {
        Values {
            items: SmallVec::new(alloc),
        }
    }

    /// Adds a value at the back; after `NoMemory` the list is as before.
    pub fn push(&mut self, value: Option<Value>) -> Result<(), NoMemory>
        ensures added { OnOk result (self.new ≡ self.old ++ value ∷ []) }
        ensures same { OnErr result (self.new ≡ self.old) }
    {
        self.items.push(value)?;
        Ok(())
    }

    /// Makes room for just n more values. Nothing else changes, whatever the answer.
    pub fn reserve(&mut self, values: usize) -> Result<(), NoMemory>
        ensures { self.new ≡ self.old }
    {
        self.items.reserve_exact(values)?;
        Ok(())
    }

    /// The values, in order. Takes no memory.
    pub fn as_slice(&self) -> &[Option<Value>]
        ensures { result.now ≡ self.now }
    {
        self.items.as_slice()
    }

    /// How many values there are.
    pub fn len(&self) -> usize
        ensures { result ≡ length self.now }
    {
        self.items.len()
    }
}

impl TryCopy for Values {
    fn copy(&self, alloc: Global) -> Result<Self, NoMemory> {
        let mut copied = Values::new(alloc);
        copied.reserve(self.len())?;
        for value in self.as_slice() {
            copied.push(value.copy(alloc)?)?;
        }
        Ok(copied)
    }
}

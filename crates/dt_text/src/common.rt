ghost use Rattle.std.specs.Prelude.{◌≡◌, IfOk};

use crate::no_memory::NoMemory;
use std::alloc::Global;
use std::cmp::Ordering;
use std::hash::{Hash, Hasher};
use std::marker::Model;
use std::sync::Arc;

/// A value that its copies have in common, so that a copy takes no memory, and what has it takes the room of an address.
/// Contracts see the value.
#[derive(Debug, Drop)]
pub struct Common<X> {
    value: Arc<X>,
}

impl<X> Model for Common<X> {
    ghost Value = { X };

    ghost view = { λ c. c.value.value };
}

impl<X> Common<X> {
    /// This value, which has no copy yet.
    pub fn new(alloc: Global, value: X) -> Result<Self, NoMemory>
    where
        X: Drop,
        ensures { IfOk result (λ common. common ≡ value) }
    {
        Ok(Common {
            value: Arc::new(alloc, value)?,
        })
    }

    /// The value. Takes no memory.
    pub fn get(&self) -> &X
        ensures { result.now ≡ self.now }
    {
        &self.value
    }

    /// An equal value. Takes no memory.
    pub fn copy(&self) -> Result<Self, NoMemory>
        ensures { IfOk result (λ copied. copied ≡ self.now) }
    {
        Ok(Common {
            value: Arc::try_clone(&self.value)?,
        })
    }
}

impl<X: PartialEq> PartialEq for Common<X> {
    ghost eq = { X.eq };

    ghost laws = { X.laws };

    fn eq(&self, other: &Self) -> bool {
        self.get() == other.get()
    }
}

impl<X: Eq> Eq for Common<X> {
    ghost laws = { X.Eq.laws };
}

impl<X: PartialOrd> PartialOrd for Common<X> {
    ghost partial_cmp = { X.partial_cmp };

    ghost laws = { X.PartialOrd.laws };

    fn partial_cmp(&self, other: &Self) -> Option<Ordering> {
        self.get().partial_cmp(other.get())
    }
}

impl<X: Ord> Ord for Common<X> {
    ghost cmp = { X.cmp };

    ghost total = { X.total };

    ghost matches_partial_cmp = { X.matches_partial_cmp };

    ghost matches_eq = { X.matches_eq };

    fn cmp(&self, other: &Self) -> Ordering {
        self.get().cmp(other.get())
    }
}

impl<X: Hash> Hash for Common<X> {
    ghost hash_input = { X.hash_input };

    ghost respects_eq = { X.respects_eq };

    fn hash<H: Hasher>(&self, state: &mut H) {
        self.get().hash(state);
    }
}

ghost use Rattle.std.specs.Prelude.{◌≡◌, [], ◌∷◌, ◌++◌, IfOk, OnOk, OnErr};

use crate::copies::{TryCopy, copy_items};
use dt_text::NoMemory;
use std::alloc::Global;
use std::marker::Model;
use std::sync::Arc;

/// A list that shares its items with its copies, so that a copy takes no memory. Contracts see the items in order and
/// nothing else.
#[derive(Debug, Drop)]
pub struct Shared<X> {
    alloc: Global,
    items: Option<Arc<Vec<X>>>,
}

impl<X> Model for Shared<X> {
    ghost use Rattle.std.specs.Prelude.{List, unwrap_or, option_map, []};

    ghost Value = { List X };

    ghost view = { λ s. unwrap_or (option_map (λ a. a.value.items) s.items) [] };
}

impl<X> Shared<X> {
    /// The empty list. Takes no memory.
    pub fn new(alloc: Global) -> Self
        ensures { result ≡ [] }
    {
        Shared { alloc, items: None }
    }

    /// The items of a vector, in its order.
    pub fn from_vec(alloc: Global, items: Vec<X>) -> Result<Self, NoMemory>
    where
        X: Drop,
        ensures { IfOk result (λ shared. shared ≡ items.items) }
    {
        Ok(Shared {
            alloc,
            items: Some(Arc::new(alloc, items)?),
        })
    }

    /// Adds an item at the back, in this list alone; after `NoMemory` the list is as before.
    pub fn push(&mut self, item: X) -> Result<(), NoMemory>
    where
        X: TryCopy + Drop,
        ensures added { OnOk result (self.new ≡ self.old ++ item ∷ []) }
        ensures same { OnErr result (self.new ≡ self.old) }
    {
        if let Some(shared) = &mut self.items {
            if let Some(own) = Arc::get_mut(shared) {
                own.push(item)?;
                return Ok(());
            }
        }
        let mut own = copy_items(self.alloc, self.as_slice())?;
        own.push(item)?;
        self.items = Some(Arc::new(self.alloc, own)?);
        Ok(())
    }

    /// The items, in order. Takes no memory.
    pub fn as_slice(&self) -> &[X]
        ensures { result.now ≡ self.now }
    {
        match &self.items {
            Some(items) => items.as_slice(),
            None => &[],
        }
    }

    /// An equal list. Takes no memory.
    pub fn copy(&self, _alloc: Global) -> Result<Self, NoMemory>
        ensures { IfOk result (λ copied. copied ≡ self.now) }
    {
        let items = match &self.items {
            Some(items) => Some(Arc::try_clone(items)?),
            None => None,
        };
        Ok(Shared {
            alloc: self.alloc,
            items,
        })
    }
}

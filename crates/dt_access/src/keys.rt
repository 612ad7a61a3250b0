ghost use Rattle.std.specs.Prelude.{◌≡◌, [], ◌∷◌, ◌++◌, IfOk, OnOk, OnErr};
ghost use Rattle.dt_access.specs.Orders.{HasAscendingKeys};

use crate::access::Mode;
use crate::copies::{TryCopy, copy_items};
use dt_text::{Key, NoMemory};
use std::alloc::Global;
use std::marker::Model;
use std::slice::from_ref;

/// Keys with their modes, in ascending order of the keys' bytes; so no key stands twice. One alone, as most parts have, lies in
/// the list itself, and takes no memory.
#[derive(Debug, Drop)]
pub struct Keys {
    alloc: Global,
    form: Form,
}

/// Where the keys with their modes lie.
#[derive(Debug, Drop)]
enum Form {
    /// One alone.
    One((Key, Mode)),
    /// Any number of them, elsewhere.
    Many(Vec<(Key, Mode)>),
}

impl Model for Keys {
    ghost use Rattle.std.specs.Prelude.{List, ℕ};
    ghost use Rattle.dt_access.specs.declared.access.Mode.{Mode};
    ghost use Rattle.dt_access.specs.KeysInner.{kept_keys};
    ghost use Rattle.dt_access.specs.Orders.{HasAscendingKeys};

    ghost Value = { List (List ℕ × Mode) };

    ghost view = { λ k. kept_keys k.form };

    ghost invariant = { λ k. HasAscendingKeys (kept_keys k.form) };
}

impl Keys {
    /// The empty list. Takes no memory.
    pub fn new(alloc: Global) -> Self
        ensures { result ≡ [] }
    {
        Keys {
            alloc,
            form: Form::Many(Vec::new(alloc)),
        }
    }

    /// The list of one key with its mode. Takes no memory.
    pub fn one(alloc: Global, item: (Key, Mode)) -> Self
        ensures { result ≡ item ∷ [] }
    {
        Keys {
            alloc,
            form: Form::One(item),
        }
    }

    /// The keys of a vector, which stand in order there. Takes no memory.
    pub fn from_vec(alloc: Global, items: Vec<(Key, Mode)>) -> Self
        requires { HasAscendingKeys items.items }
        ensures { result ≡ items.items }
    {
        Keys {
            alloc,
            form: Form::Many(items),
        }
    }

    /// Adds a key that is greater than all held ones; after `NoMemory` the list is as before.
    pub fn push(&mut self, item: (Key, Mode)) -> Result<(), NoMemory>
        requires { HasAscendingKeys (self.old ++ item ∷ []) }
        ensures added { OnOk result (self.new ≡ self.old ++ item ∷ []) }
        ensures same { OnErr result (self.new ≡ self.old) }
    {
        match &mut self.form {
            Form::One(first) => {
                let both = pair(self.alloc, first, item)?;
                self.form = Form::Many(both);
            }
            Form::Many(items) if items.is_empty() => self.form = Form::One(item),
            Form::Many(items) => items.push(item)?,
        }
        Ok(())
    }

    /// The keys with their modes, in order. Takes no memory.
    pub fn as_slice(&self) -> &[(Key, Mode)]
        ensures same { result.now ≡ self.now }
        ensures ascending { HasAscendingKeys self.now }
    {
        match &self.form {
            Form::One(item) => from_ref(item),
            Form::Many(items) => items.as_slice(),
        }
    }

    /// An equal list. That of one key takes no memory.
    pub fn copy(&self, alloc: Global) -> Result<Self, NoMemory>
        ensures { IfOk result (λ copied. copied ≡ self.now) }
    {
        let form = match &self.form {
            Form::One(item) => Form::One(item.copy(alloc)?),
            Form::Many(items) => Form::Many(copy_items(alloc, items.as_slice())?),
        };
        Ok(Keys {
            alloc: self.alloc,
            form,
        })
    }
}

/// A copy of one key with its mode, and another.
fn pair(
    alloc: Global,
    first: &(Key, Mode),
    second: (Key, Mode),
) -> Result<Vec<(Key, Mode)>, NoMemory>
    ensures { IfOk result (λ both. both.items ≡ first.now ∷ second ∷ []) }
{
    let mut both = Vec::with_capacity(alloc, 2)?;
    both.push(first.copy(alloc)?)?;
    both.push(second)?;
    Ok(both)
}

ghost use Rattle.std.specs.Prelude.{◌≡◌, IfOk};
ghost use Rattle.dt_text.specs.Texts.{IsKey};

use dt_access::{TxnId, Writes};
use dt_text::{Key, NoMemory};
use std::alloc::Global;
use std::marker::Model;

/// What an executed transaction changes.
#[derive(Drop)]
pub struct Effect {
    /// The new values, or none, of keys.
    pub writes: Writes,
    /// A unit's new home, and the mover.
    pub moved: Option<(UnitName, u8, TxnId)>,
}

/// The name of a unit, in bytes of its own: a table takes them over without memory. Contracts see it as the key that it is.
#[derive(Drop)]
pub struct UnitName {
    bytes: Vec<u8>,
}

impl Model for UnitName {
    ghost use Rattle.std.specs.Prelude.{List, ℕ};
    ghost use Rattle.dt_text.specs.Texts.{IsKey};

    ghost Value = { List ℕ };

    ghost view = { λ u. u.bytes.items };

    ghost invariant = { λ u. IsKey u.bytes.items };
}

impl UnitName {
    /// The unit of this name.
    pub fn of(alloc: Global, key: &Key) -> Result<Self, NoMemory>
        ensures { IfOk result (λ unit. unit ≡ key.now) }
    {
        Ok(UnitName {
            bytes: Vec::from_slice(alloc, key.bytes())?,
        })
    }

    /// Its name.
    pub fn bytes(&self) -> &[u8]
        ensures { result.now ≡ self.now }
    {
        self.bytes.as_slice()
    }

    /// Gives the bytes of its name. Takes no memory.
    pub fn into_bytes(self) -> Vec<u8>
        ensures same { result.items ≡ self }
        ensures key { IsKey self }
    {
        let UnitName { bytes } = self;
        bytes
    }
}

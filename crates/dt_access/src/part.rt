ghost use Rattle.std.specs.Prelude.{◌≡◌, IfOk};

use crate::homes::Homes;
use crate::id::TxnId;
use crate::keys::Keys;
use dt_text::NoMemory;
use std::alloc::Global;

/// The part of a transaction that one home orders: its keys that are at home there. Each part has the transaction's rank,
/// from 0 (first) to 9, and all its homes.
#[derive(Debug, Drop)]
pub struct Part {
    pub id: TxnId,
    pub rank: u8,
    pub home: u8,
    pub keys: Keys,
    pub homes: Homes,
}

impl Part {
    /// An equal part.
    pub fn copy(&self, alloc: Global) -> Result<Self, NoMemory>
        ensures { IfOk result (λ copied. copied ≡ self.now) }
    {
        Ok(Part {
            id: self.id,
            rank: self.rank,
            home: self.home,
            keys: self.keys.copy(alloc)?,
            homes: self.homes.copy(alloc)?,
        })
    }
}

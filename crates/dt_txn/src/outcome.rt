ghost use Rattle.std.specs.Prelude.{◌≡◌, IfOk};

use dt_access::{TryCopy, TxnId};
use dt_eval::{Cause, Values};
use dt_text::{Common, Key, Listed, NoMemory, Value};
use std::alloc::Global;

/// What a transaction came to.
#[derive(Drop)]
pub enum Outcome {
    /// It gave these values.
    Gave(Values),
    /// Its procedure aborted, and it changed nothing.
    Aborted(Cause),
    /// A unit was moved since the transaction was annotated, so it changed nothing: the unit, the number of moves that
    /// it was annotated with, and the transaction that made the next one. The unit is in common to copies of the outcome, so
    /// that outcomes, most of which are not stale, are small.
    Stale {
        key: Common<Key>,
        had: u32,
        by: TxnId,
    },
}

impl Outcome {
    /// An equal outcome.
    pub fn copy(&self, alloc: Global) -> Result<Self, NoMemory>
        ensures { IfOk result (λ copied. copied ≡ self.now) }
    {
        match self {
            Outcome::Gave(values) => Ok(Outcome::Gave(values.copy(alloc)?)),
            Outcome::Aborted(cause) => Ok(Outcome::Aborted(cause.copy()?)),
            Outcome::Stale { key, had, by } => Ok(Outcome::Stale {
                key: key.copy()?,
                had: *had,
                by: *by,
            }),
        }
    }
}

/// What a transaction sees of one key that it uses.
#[derive(Drop)]
pub struct Seen {
    /// The key's unit.
    pub unit: Key,
    /// The key's value, or none.
    pub value: Option<Value>,
    /// How often the unit was moved.
    pub counter: u32,
    /// Who made the move that follows the annotated ones, if there is one.
    pub mover: Option<TxnId>,
}

impl TryCopy for Seen {
    fn copy(&self, alloc: Global) -> Result<Self, NoMemory> {
        Ok(Seen {
            unit: self.unit.copy(alloc)?,
            value: self.value.copy(alloc)?,
            counter: self.counter,
            mover: self.mover,
        })
    }
}

/// What a transaction sees, in the order of its access list.
pub type Seens = Listed<Seen>;

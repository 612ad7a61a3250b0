ghost use Rattle.std.specs.Prelude.{◌≡◌, IfOk};

use crate::accesses::Accesses;
use dt_access::{Part, TryCopy, TxnId};
use dt_eval::Args;
use dt_text::{Common, Key, Listed, NoMemory};
use std::alloc::Global;

/// What a transaction is to do.
#[derive(Drop)]
pub enum Body {
    /// Calls the procedure of this number.
    Call(u32, Args),
    /// Moves the unit of this key to a home.
    Move(Key, u8),
}

impl Body {
    /// An equal body.
    pub fn copy(&self, alloc: Global) -> Result<Self, NoMemory>
        ensures { IfOk result (λ copied. copied ≡ self.now) }
    {
        match self {
            Body::Call(proc, args) => Ok(Body::Call(*proc, args.copy(alloc)?)),
            Body::Move(key, target) => Ok(Body::Move(key.copy(alloc)?, *target)),
        }
    }
}

/// One attempt of a call or of a move.
#[derive(Drop)]
pub struct Txn {
    pub id: TxnId,
    /// From 0 to 9. Of transactions that are deadlocked with each other, the one of the lesser rank goes first.
    pub rank: u8,
    pub body: Body,
    /// The keys that it uses, in ascending order, with what the submitting region knew of them.
    pub access: Accesses,
}

impl Txn {
    /// An equal transaction.
    pub fn copy(&self, alloc: Global) -> Result<Self, NoMemory>
        ensures { IfOk result (λ copied. copied ≡ self.now) }
    {
        Ok(Txn {
            id: self.id,
            rank: self.rank,
            body: self.body.copy(alloc)?,
            access: self.access.copy(alloc)?,
        })
    }
}

/// Transactions, which whoever holds them has in common.
pub type Txns = Listed<Common<Txn>>;

/// What one region sends another of its log: a part, with the transaction that it is of. Both are made once, and are in
/// common to all logs, regions and packets that have them.
#[derive(Drop)]
pub struct Entry {
    pub part: Common<Part>,
    pub txn: Common<Txn>,
}

impl Entry {
    /// An equal entry. Takes no memory.
    pub fn copy(&self) -> Result<Self, NoMemory>
        ensures { IfOk result (λ copied. copied ≡ self.now) }
    {
        Ok(Entry {
            part: self.part.copy()?,
            txn: self.txn.copy()?,
        })
    }
}

impl TryCopy for Entry {
    fn copy(&self, _alloc: Global) -> Result<Self, NoMemory> {
        Entry::copy(self)
    }
}

/// A stretch of a log, as it is sent.
pub type Entries = Listed<Entry>;

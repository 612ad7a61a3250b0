ghost use Rattle.std.specs.Prelude.{◌≡◌, IfOk};

use dt_access::TryCopy;
use dt_text::NoMemory;
use dt_txn::{Entries, Txns};
use std::alloc::Global;

/// What one region sends another in one turn.
#[derive(Drop)]
pub struct Packet {
    /// The region that sends it.
    pub source: u8,
    /// The region that it is for.
    pub target: u8,
    /// The stamp of the newest event of the source, or 0 where it has none.
    pub stamp: u64,
    /// How many requests the source had made of the target before the first of these.
    pub asked_at: u32,
    /// Requests of the source, in the order in which they were made: transactions of which the target is to place its part.
    pub asked: Txns,
    /// The place of the first of these entries in the log of the source.
    pub log_at: u32,
    /// Entries of the log of the source, in its order.
    pub entries: Entries,
    /// How many requests of the target the source has placed.
    pub took: u32,
    /// How much of the target's log the source has received.
    pub received: u32,
}

impl Packet {
    /// An equal packet.
    pub fn copy(&self, alloc: Global) -> Result<Self, NoMemory>
        ensures { IfOk result (λ copied. copied ≡ self.now) }
    {
        Ok(Packet {
            source: self.source,
            target: self.target,
            stamp: self.stamp,
            asked_at: self.asked_at,
            asked: copy_requests(alloc, &self.asked)?,
            log_at: self.log_at,
            entries: self.entries.copy(alloc)?,
            took: self.took,
            received: self.received,
        })
    }
}

// Equal requests.
fn copy_requests(alloc: Global, asked: &Txns) -> Result<Txns, NoMemory>
    ensures { IfOk result (λ copied. copied ≡ asked.now) }
{
    let mut copied = Vec::with_capacity(alloc, asked.len())?;
    for txn in asked.as_slice() {
        copied.push(txn.copy()?)?;
    }
    Ok(Txns::from_vec(copied))
}

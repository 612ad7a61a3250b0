ghost use Rattle.std.specs.Prelude.{◌≡◌, ◌+◌, ◌<◌, ◌≤◌, [], List, length, OnOk};
ghost use Rattle.std.specs.Option.{option_copied};
ghost use Rattle.dt_lists.specs.Lists.{Has};
ghost use Rattle.dt_txn.specs.declared.txn.Txn.{Txn};
ghost use Rattle.dt_region.specs.Region.{find_txn};
ghost use Rattle.dt_region.specs.Rules.{keep};
ghost use Rattle.dt_region.specs.Sound.{AreCounted};

use crate::by_id::ById;
use dt_access::TxnId;
use dt_text::{Common, NoMemory};
use dt_txn::Txn;
use std::alloc::Global;
use std::marker::Model;

/// Transactions by their ids, in the order in which they came. Each is in common with whoever else holds it.
///
/// Contracts see the list, and as `spare` how many more can be kept without memory.
#[derive(Drop)]
pub struct Foreign {
    txns: ById<Common<Txn>>,
}

impl Model for Foreign {
    ghost use Rattle.std.specs.Prelude.{map};
    ghost use Rattle.dt_region.specs.ForeignInner.{ForeignView, AreKeyed};

    ghost Value = { ForeignView };

    ghost view = { λ f. record { txns = map (λ e. e.1) f.txns.entries; spare = f.txns.spare } };

    ghost invariant = { λ f. AreKeyed f.txns.entries };
}

impl Foreign {
    /// None yet. Takes no memory.
    pub fn new(alloc: Global) -> Self
        ensures { result.txns ≡ [] }
    {
        Foreign {
            txns: ById::new(alloc),
        }
    }

    /// The transaction of an id. None exactly where there is none.
    pub fn get(&self, id: TxnId) -> Option<&Common<Txn>>
        ensures { option_copied result ≡ find_txn self.now.txns id }
    {
        self.txns.get(id)
    }

    /// Makes room for n more in the list, where so many are expected.
    pub fn expect(&mut self, txns: usize) -> Result<(), NoMemory>
        ensures { self.new.txns ≡ self.old.txns }
    {
        self.txns.expect(txns)
    }

    /// Makes room for one more, that of this id.
    pub fn reserve_for(&mut self, alloc: Global, id: TxnId) -> Result<(), NoMemory>
        ensures same { self.new.txns ≡ self.old.txns }
        ensures room { OnOk result (1 ≤ self.new.spare) }
    {
        self.txns.reserve(1)?;
        self.txns.prepare(alloc, id)
    }

    /// Makes room for these.
    pub fn reserve_all(&mut self, alloc: Global, txns: &[Common<Txn>]) -> Result<(), NoMemory>
        ensures same { self.new.txns ≡ self.old.txns }
        ensures room { OnOk result (length txns.now ≤ self.new.spare) }
    {
        self.txns.reserve(txns.len())?;
        prepare_all(alloc, &mut self.txns, txns)
    }

    /// Keeps a transaction, unless it is of region `number`, which holds what it submitted, or there is one of its id.
    /// Takes no memory where there is room.
    pub fn keep(&mut self, number: u8, txn: Common<Txn>)
        requires { 0 < self.old.spare }
        ensures kept { (submitted : List Txn) → AreCounted number 1 submitted → (txn.id.region ≡ number → Has submitted txn) → self.new.txns ≡ keep submitted self.old.txns txn }
        ensures room { self.old.spare ≤ self.new.spare + 1 }
    {
        if txn.get().id.region != number {
            self.hold(txn);
        }
    }

    // Keeps a transaction, unless there is one of its id.
    fn hold(&mut self, txn: Common<Txn>)
        requires { 0 < self.old.spare }
        ensures held { self.new.txns ≡ keep [] self.old.txns txn }
        ensures room { self.old.spare ≤ self.new.spare + 1 }
    {
        let id = txn.get().id;
        if !self.txns.has(id) {
            self.txns.add(id, txn);
        }
    }
}

// Sees to it that these transactions will be found fast once they are kept.
fn prepare_all(
    alloc: Global,
    kept: &mut ById<Common<Txn>>,
    txns: &[Common<Txn>],
) -> Result<(), NoMemory>
    ensures { kept.new ≡ kept.old }
{
    for txn in txns {
        kept.prepare(alloc, txn.get().id)?;
    }
    Ok(())
}

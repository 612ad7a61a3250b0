ghost use Rattle.std.specs.Prelude.{◌≡◌, ◌+◌, ◌++◌, ◌<◌, ◌≤◌, ◌^◌, List, drop, length, map, set, vec_len, IfOk, OnOk, OnErr};
ghost use Rattle.dt_lists.specs.Lists.{AllIn, Has};
ghost use Rattle.dt_sched.specs.Views.{log_at};
ghost use Rattle.dt_sched.specs.Sched.{with_part};
ghost use Rattle.dt_txn.specs.declared.txn.Txn.{Txn};
ghost use Rattle.dt_region.specs.Rules.{keep_all};
ghost use Rattle.dt_region.specs.Sound.{AreCounted};

use crate::foreign::Foreign;
use dt_access::Part;
use dt_log::Log;
use dt_text::{Common, NoMemory};
use dt_txn::{Entry, Txn};
use std::alloc::Global;

/// The parts and the transactions of entries, each in the entries' order.
fn parts_and_txns(
    alloc: Global,
    entries: Vec<Entry>,
) -> Result<(Vec<Common<Part>>, Vec<Common<Txn>>), NoMemory>
    ensures parts { IfOk result (λ both. both.0.items ≡ map (λ e. e.part) entries.items) }
    ensures txns { IfOk result (λ both. both.1.items ≡ map (λ e. e.txn) entries.items) }
{
    let mut parts = Vec::with_capacity(alloc, entries.len())?;
    let mut txns = Vec::with_capacity(alloc, entries.len())?;
    for entry in entries {
        let Entry { part, txn } = entry;
        parts.push(part)?;
        txns.push(txn)?;
    }
    Ok((parts, txns))
}

/// The parts and the transactions of the entries past the first `known`, each in the entries' order.
pub fn parts_and_txns_past(
    alloc: Global,
    known: usize,
    mut entries: Vec<Entry>,
) -> Result<(Vec<Common<Part>>, Vec<Common<Txn>>), NoMemory>
    requires { known ≤ vec_len entries }
    ensures parts { IfOk result (λ both. both.0.items ≡ map (λ e. e.part) (drop known entries.items)) }
    ensures txns { IfOk result (λ both. both.1.items ≡ map (λ e. e.txn) (drop known entries.items)) }
{
    parts_and_txns(alloc, entries.split_off(known)?)
}

/// Makes room for n more parts in each log. Nothing else changes, whatever the answer.
pub fn reserve(logs: &mut [Log], parts: usize) -> Result<(), NoMemory>
    ensures { logs.new ≡ logs.old }
{
    for log in logs.iter_mut() {
        log.reserve(parts)?;
    }
    Ok(())
}

/// Places a part at the end of its home's log; after `NoMemory` the logs are as before.
pub fn place(logs: &mut Vec<Log>, part: Common<Part>) -> Result<(), NoMemory>
    requires home { part.home < vec_len logs.old }
    requires room { length (log_at logs.old.items part.home) + 1 < 2 ^ 32 }
    ensures ok { OnOk result (logs.new.items ≡ with_part logs.old.items part) }
    ensures err { OnErr result (logs.new.items ≡ logs.old.items) }
{
    let log = &mut logs[part.get().home as usize];
    log.push(part)
}

/// Adds parts at the end of a home's log; after `NoMemory` the logs are as before.
pub fn add(logs: &mut Vec<Log>, home: u8, parts: Vec<Common<Part>>) -> Result<(), NoMemory>
    requires home { home < vec_len logs.old }
    requires room { length (log_at logs.old.items home) + vec_len parts < 2 ^ 32 }
    ensures ok { OnOk result (logs.new.items ≡ set logs.old.items home (log_at logs.old.items home ++ parts.items)) }
    ensures err { OnErr result (logs.new.items ≡ logs.old.items) }
{
    let log = &mut logs[home as usize];
    let end = log.len();
    log.take(end, parts)?;
    Ok(())
}

/// Keeps transactions, each unless there is one of its id; what is of region `number` itself, that region submitted and
/// holds. Takes no memory where there is room.
pub fn keep_all(number: u8, foreign: &mut Foreign, txns: Vec<Common<Txn>>)
    requires room { vec_len txns ≤ foreign.old.spare }
    ensures { (submitted : List Txn) → AreCounted number 1 submitted → AllIn (λ txn. txn.id.region ≡ number → Has submitted txn) txns.items → foreign.new.txns ≡ keep_all submitted foreign.old.txns txns.items }
{
    for txn in txns {
        foreign.keep(number, txn);
    }
}

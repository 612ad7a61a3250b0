ghost use Rattle.std.specs.Prelude.{◌≡◌, IfOk, length, map};
ghost use Rattle.std.specs.Option.{option_copied};
ghost use Rattle.dt_eval.specs.Calls.{CallFits, call_keys, call_meaning};
ghost use Rattle.dt_txn.specs.Transaction.{CanRun, HasItsUses, keys_used};
ghost use Rattle.dt_txn.specs.Execution.{execution, see, seen_of, one, reads_of, result_of, stale_of, of_finish, no_effect};
ghost use Rattle.dt_txn.specs.ReadingInner.{AreReads};
ghost use Rattle.dt_txn.specs.declared.outcome.Outcome.TheVariants.{Stale};

use crate::called::called;
use crate::outcome::{Outcome, Seen, Seens};
use crate::txn::{Body, Txn};
use dt_access::{Access, TryCopy, TxnId, Writes, unit_bytes};
use dt_eval::{Finish, Reads, Values, run_owned};
use dt_proc::Procs;
use dt_table::{Effect, Table, UnitName};
use dt_text::{Common, Key, NoMemory, Value};
use std::alloc::Global;

/// What a transaction sees in a table, for each entry of its access list, in order.
pub fn see(alloc: Global, txn: &Txn, table: &Table) -> Result<Seens, NoMemory>
    ensures { IfOk result (λ seen. seen ≡ see txn.now table.now.state) }
{
    let mut seen = Seens::new(alloc);
    for entry in txn.access.as_slice() {
        let row = table.row(&entry.key, entry.counter);
        seen.push(Seen {
            unit: Key::new(alloc, unit_bytes(table.version(), &entry.key))?,
            value: copied(alloc, row.value)?,
            counter: row.counter,
            mover: row.mover,
        })?;
    }
    Ok(seen)
}

/// A copy of what is borrowed, if there is something.
fn copied(alloc: Global, value: Option<&Value>) -> Result<Option<Value>, NoMemory>
    ensures { IfOk result (λ copy. copy ≡ option_copied value.entry) }
{
    match value {
        Some(value) => Ok(Some(value.copy(alloc)?)),
        None => Ok(None),
    }
}

/// What a transaction comes to, by these procedures, on every table in which it sees this: its outcome, and the changes that
/// it makes.
pub fn execute_seen(
    alloc: Global,
    txn: &Txn,
    procs: &Procs,
    seen: &Seens,
) -> Result<(Outcome, Effect), NoMemory>
    requires body { CanRun procs.now txn.now.body }
    requires uses { HasItsUses procs.now txn.now }
    requires seen { length seen.now ≡ length txn.now.access }
    ensures { IfOk result (λ r. r ≡ execution procs.now txn.now seen.now) }
{
    let access = txn.access.as_slice();
    if let Some(outcome) = stale(alloc, access, seen.as_slice())? {
        return Ok((outcome, no_effect(alloc)));
    }
    let reads = reads(alloc, access, seen.as_slice())?;
    result_of(alloc, txn, procs, reads)
}

/// What a transaction comes to on a table, by these procedures: its outcome, and the changes that it makes.
pub fn execute(
    alloc: Global,
    txn: &Txn,
    procs: &Procs,
    table: &Table,
) -> Result<(Outcome, Effect), NoMemory>
    requires body { CanRun procs.now txn.now.body }
    requires uses { HasItsUses procs.now txn.now }
    ensures { IfOk result (λ r. r ≡ one procs.now txn.now table.now.state) }
{
    match read(alloc, txn.access.as_slice(), table)? {
        Ok(reads) => result_of(alloc, txn, procs, reads),
        Err(outcome) => Ok((outcome, no_effect(alloc))),
    }
}

/// The rows that a transaction with this access list reads in a table, or the outcome Stale of the first key whose unit was
/// moved since it was annotated, if there is one.
fn read(alloc: Global, access: &[Access], table: &Table) -> Result<Result<Reads, Outcome>, NoMemory>
    ensures { IfOk result (AreReads access.now (map (seen_of table.now.state) access.now)) }
{
    let mut reads = Vec::with_capacity(alloc, access.len())?;
    for entry in access {
        let row = table.row(&entry.key, entry.counter);
        if let Some(by) = row.mover {
            let unit = Key::new(alloc, unit_bytes(table.version(), &entry.key))?;
            return Ok(Err(stale_unit(alloc, unit, entry.counter, by)?));
        }
        reads.push((entry.key.copy(alloc)?, copied(alloc, row.value)?))?;
    }
    Ok(Ok(Reads::from_vec(reads)))
}

/// No changes.
fn no_effect(alloc: Global) -> Effect
    ensures { result ≡ no_effect }
{
    Effect {
        writes: Writes::new(alloc),
        moved: None,
    }
}

/// The outcome Stale of the first key whose unit was moved since it was annotated, if there is one.
fn stale(alloc: Global, access: &[Access], seen: &[Seen]) -> Result<Option<Outcome>, NoMemory>
    requires { length seen.now ≡ length access.now }
    ensures { IfOk result (λ stale. stale ≡ stale_of access.now seen.now) }
{
    for (place, entry) in access.iter().enumerate() {
        if let Some(by) = seen[place].mover {
            let unit = seen[place].unit.copy(alloc)?;
            return Ok(Some(stale_unit(alloc, unit, entry.counter, by)?));
        }
    }
    Ok(None)
}

/// The outcome Stale of a unit that was annotated with `had` moves; `by` made the next one.
fn stale_unit(alloc: Global, unit: Key, had: u32, by: TxnId) -> Result<Outcome, NoMemory>
    ensures { IfOk result (λ outcome. outcome ≡ Stale unit had by) }
{
    Ok(Outcome::Stale {
        key: Common::new(alloc, unit)?,
        had,
        by,
    })
}

/// The rows that a transaction reads, from what it saw.
fn reads(alloc: Global, access: &[Access], seen: &[Seen]) -> Result<Reads, NoMemory>
    requires { length seen.now ≡ length access.now }
    ensures { IfOk result (λ reads. reads ≡ reads_of access.now seen.now) }
{
    let mut reads = Vec::with_capacity(alloc, access.len())?;
    for (place, entry) in access.iter().enumerate() {
        reads.push((entry.key.copy(alloc)?, seen[place].value.copy(alloc)?))?;
    }
    Ok(Reads::from_vec(reads))
}

/// What the body of a transaction gives where nothing is stale.
fn result_of(
    alloc: Global,
    txn: &Txn,
    procs: &Procs,
    reads: Reads,
) -> Result<(Outcome, Effect), NoMemory>
    requires body { CanRun procs.now txn.now.body }
    requires reads { map (λ read. read.0) reads ≡ keys_used procs.now txn.now.body }
    ensures { IfOk result (λ r. r ≡ result_of procs.now txn.now.id txn.now.body reads) }
{
    match &txn.body {
        Body::Call(number, args) => call(alloc, procs, *number, args.as_slice(), reads),
        Body::Move(key, target) => Ok((
            Outcome::Gave(Values::new(alloc)),
            Effect {
                writes: Writes::new(alloc),
                moved: Some((UnitName::of(alloc, key)?, *target, txn.id)),
            },
        )),
    }
}

/// What a call gives where nothing is stale.
fn call(
    alloc: Global,
    procs: &Procs,
    number: u32,
    args: &[Value],
    reads: Reads,
) -> Result<(Outcome, Effect), NoMemory>
    requires fits { CallFits procs.now number args.now }
    requires reads { map (λ read. read.0) reads ≡ map (λ used. used.0) (call_keys procs.now number args.now) }
    ensures { IfOk result (λ r. r ≡ of_finish (call_meaning procs.now number args.now reads)) }
{
    let finish = run_owned(alloc, called(procs, number, args), args, reads)?;
    Ok(finished(alloc, finish))
}

/// How a call's run ends, as an outcome and an effect.
fn finished(alloc: Global, finish: Finish) -> (Outcome, Effect)
    ensures { result ≡ of_finish finish }
{
    match finish {
        Finish::Gave(values, writes) => (
            Outcome::Gave(values),
            Effect {
                writes,
                moved: None,
            },
        ),
        Finish::Aborted(cause) => (Outcome::Aborted(cause), no_effect(alloc)),
    }
}

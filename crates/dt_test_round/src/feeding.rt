//! How parts come to a region, one after another: those of its own log it places itself, the others are delivered.
ghost use Rattle.std.specs.Prelude.{◌≡◌, ◌+◌, ◌<◌, ◌≤◌, ◌↔◌, ◌∷◌, [], false, length, IsTrue, IfOk, OnOk};
ghost use Rattle.dt_lists.specs.Lists.{Has};
ghost use Rattle.dt_sched.specs.Views.{HasPart, log_at};
ghost use Rattle.dt_txn.specs.Transaction.{IsValid, homes_of, part_of};
ghost use Rattle.dt_region.specs.Conditions.{Agrees, HoldsValid};
ghost use Rattle.dt_test_round.specs.FedRegion.{WasFed};

use crate::calls::{Call, call_of};
use dt_access::{Part, TxnId};
use dt_log::{Log, Taken};
use dt_proc::Procs;
use dt_region::Region;
use dt_sched::Scheduler;
use dt_test_texts::{are_below, has_home};
use dt_text::Common;
use dt_txn::{Body, Entry, Txn, annotate, homes, part_at};
use std::alloc::Global;
use std::test::Fail;

/// A part: its home, the sequence number and the region of its transaction, and the call that this makes.
pub type Row<'a> = (u8, u32, u8, Call<'a>);

fn is_of(part: &Part, id: TxnId) -> bool
    ensures { IsTrue result ↔ (part.now.id ≡ id) }
{
    part.id == id
}

fn has_part(log: &Log, id: TxnId) -> bool
    ensures { result ≡ false → ¬ (HasPart log.now id) }
{
    for place in 0..log.len() {
        if let Some(part) = log.get(place) {
            if is_of(part, id) {
                return true;
            }
        }
    }
    false
}

/// The transaction of an id that makes a call, by the region's table.
fn txn_of<S: Scheduler>(
    alloc: Global,
    region: &Region<S>,
    procs: &Procs,
    row: &Row,
) -> Result<Txn, Fail>
    ensures valid { IfOk result (IsValid procs.now region.now.state.here.table.version region.now.state.regions) }
    ensures id { IfOk result (λ txn. txn.id ≡ record { seq = row.now.1; region = row.now.2 }) }
{
    let (_, seq, by, call) = *row;
    let (number, arguments) = call_of(alloc, procs, call)?;
    let body = Body::Call(number, arguments);
    let txn = annotate(
        alloc,
        TxnId { seq, region: by },
        5,
        body,
        procs,
        region.table(),
    )?;
    if !are_below(homes(alloc, &txn)?.as_slice(), region.regions() as usize) {
        return Err(Fail::from("the homes are regions"));
    }
    Ok(txn)
}

/// The transaction of a part: the one that the region holds, or else a new one of another region.
fn held_or_new<S: Scheduler>(
    alloc: Global,
    region: &Region<S>,
    procs: &Procs,
    row: &Row,
) -> Result<Txn, Fail>
    requires { HoldsValid procs.now region.now.state }
    ensures valid { IfOk result (IsValid procs.now region.now.state.here.table.version region.now.state.regions) }
    ensures agrees { IfOk result (Agrees region.now.state) }
{
    let (_, seq, by, _) = *row;
    let number = region.number();
    if let Some(txn) = region.txn(TxnId { seq, region: by }) {
        return Ok(txn.copy(alloc)?);
    }
    if by == number {
        return Err(Fail::from("a region submits its own"));
    }
    txn_of(alloc, region, procs, row)
}

/// Whether the log of a home of a transaction lacks its part.
fn is_new<S: Scheduler>(alloc: Global, region: &Region<S>, txn: &Txn, home: u8) -> bool
    requires { home < region.now.state.regions }
    ensures home { IsTrue result → Has (homes_of txn.now) home }
    ensures fresh { IsTrue result → ¬ (HasPart (log_at region.now.state.logs home) txn.now.id) }
{
    match homes(alloc, txn) {
        Ok(homes) => has_home(homes.as_slice(), home) && !has_part(region.log(home), txn.id),
        Err(_) => false,
    }
}

/// The transaction of a part that the region may be given.
pub fn next<S: Scheduler>(
    alloc: Global,
    region: &Region<S>,
    procs: &Procs,
    row: &Row,
) -> Result<Txn, Fail>
    requires holds { HoldsValid procs.now region.now.state }
    requires home { row.now.0 < region.now.state.regions }
    ensures valid { IfOk result (IsValid procs.now region.now.state.here.table.version region.now.state.regions) }
    ensures agrees { IfOk result (Agrees region.now.state) }
    ensures home { IfOk result (λ txn. Has (homes_of txn) row.now.0) }
    ensures fresh { IfOk result (λ txn. ¬ (HasPart (log_at region.now.state.logs row.now.0) txn.id)) }
{
    let txn = held_or_new(alloc, region, procs, row)?;
    if is_new(alloc, region, &txn, row.0) {
        return Ok(txn);
    }
    Err(Fail::from("a part comes once, at a home"))
}

/// The entry of a transaction at a home.
fn entry_at(alloc: Global, txn: Txn, home: u8) -> Result<Vec<Entry>, Fail>
    ensures { IfOk result (λ entries. entries.items ≡ record { part = part_of txn home; txn = txn } ∷ []) }
{
    let part = Common::new(alloc, part_at(alloc, &txn, home)?)?;
    let txn = Common::new(alloc, txn)?;
    Ok(vec![in alloc; Entry { part, txn }]?)
}

/// Delivers a part to a region, which has made at most n events before.
fn deliver<S: Scheduler>(
    alloc: Global,
    region: &mut Region<S>,
    procs: &Procs,
    count: usize,
    row: &Row,
) -> Result<(), Fail>
    requires few { count < 1000 }
    requires fed { WasFed procs.now count region.old }
    ensures { OnOk result (WasFed procs.now (count + 1) region.new) }
{
    let home = row.0;
    if home == region.number() || home >= region.regions() {
        return Err(Fail::from("the home is another region"));
    }
    let txn = next(alloc, region, procs, row)?;
    let place = region.log(home).len();
    let entries = entry_at(alloc, txn, home)?;
    match region.deliver(alloc, home, place, place, entries)? {
        Taken::New(_) => Ok(()),
        _ => Err(Fail::from("the part is new")),
    }
}

/// A region, which has made at most n events before, places a part in its own log, as the next request of the transaction's region.
fn place<S: Scheduler>(
    alloc: Global,
    region: &mut Region<S>,
    procs: &Procs,
    count: usize,
    row: &Row,
) -> Result<(), Fail>
    requires few { count < 1000 }
    requires fed { WasFed procs.now count region.old }
    ensures { OnOk result (WasFed procs.now (count + 1) region.new) }
{
    let (home, _, by, _) = *row;
    if home != region.number() || by >= region.regions() {
        return Err(Fail::from("the home is the region"));
    }
    let txn = next(alloc, region, procs, row)?;
    let number = region.taken(by);
    if !region.append(alloc, by, number, &txn)? {
        return Err(Fail::from("the request is the next one"));
    }
    Ok(())
}

/// Parts come to a region that has made at most n events before.
pub fn feed_all<S: Scheduler>(
    alloc: Global,
    region: &mut Region<S>,
    procs: &Procs,
    before: usize,
    rows: &[Row],
) -> Result<(), Fail>
    requires few { before ≤ 100 }
    requires fed { WasFed procs.now before region.old }
    ensures few { OnOk result (before + length rows.now < 1000) }
    ensures fed { OnOk result (WasFed procs.now (before + length rows.now) region.new) }
{
    if rows.len() > 800 {
        return Err(Fail::from("a test has few parts"));
    }
    for (count, row) in rows.iter().enumerate() {
        if row.0 == region.number() {
            place(alloc, region, procs, before + count, row)?;
        } else {
            deliver(alloc, region, procs, before + count, row)?;
        }
    }
    Ok(())
}

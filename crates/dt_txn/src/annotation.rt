ghost use Rattle.std.specs.Prelude.{◌≡◌, ◌≤◌, IfOk, map};
ghost use Rattle.dt_access.specs.Granules.{mode_of_move};
ghost use Rattle.dt_eval.specs.Calls.{CallFits, call_keys};
ghost use Rattle.dt_txn.specs.Transaction.{CanRun, annotate, annotated, used_of, uses_of};

use crate::accesses::Accesses;
use crate::called::called;
use crate::txn::{Body, Txn};
use dt_access::{Access, Keys, Mode, TxnId};
use dt_eval::{KeysError, keys_of};
use dt_proc::Procs;
use dt_table::Table;
use dt_text::{NoMemory, Value};
use std::alloc::Global;

/// The transaction of this id and rank for a body, as a region with these procedures and this table submits it: each of its
/// keys has the home and the number of moves that the table gives it.
#[tactic(auto, using(crate::proofs::PartKeys::annotated_uses))]
pub fn annotate(
    alloc: Global,
    id: TxnId,
    rank: u8,
    body: Body,
    procs: &Procs,
    table: &Table,
) -> Result<Txn, NoMemory>
    requires body { CanRun procs.now body }
    requires rank { rank ≤ 9 }
    ensures annotated { IfOk result (λ txn. txn ≡ annotate procs.now id rank body table.now.state) }
    ensures uses { IfOk result (λ txn. map used_of txn.access ≡ uses_of procs.now table.now.state.version body) }
{
    let access = annotated(alloc, &body, procs, table)?;
    Ok(Txn {
        id,
        rank,
        body,
        access,
    })
}

/// The access list of a body by this table.
fn annotated(alloc: Global, body: &Body, procs: &Procs, table: &Table) -> Result<Accesses, NoMemory>
    requires { CanRun procs.now body.now }
    ensures { IfOk result (λ access. access ≡ map (annotated table.now.state) (uses_of procs.now table.now.state.version body.now)) }
{
    let uses = uses(alloc, body, procs, table.version())?;
    let mut access = Accesses::new(alloc);
    for (key, mode) in uses.as_slice() {
        let key = table.hinted(key.copy(alloc)?);
        let mastership = table.mastership(&key);
        access.push(Access {
            key,
            mode: *mode,
            home: mastership.home,
            counter: mastership.counter,
        })?;
    }
    Ok(access)
}

/// The keys that a body uses in this version, in ascending order, each with its mode.
fn uses(alloc: Global, body: &Body, procs: &Procs, version: u8) -> Result<Keys, NoMemory>
    requires { CanRun procs.now body.now }
    ensures { IfOk result (λ keys. keys ≡ uses_of procs.now version body.now) }
{
    match body {
        Body::Call(number, args) => call_keys(alloc, procs, *number, args.as_slice()),
        Body::Move(key, _) => {
            let key = key.copy(alloc)?;
            Ok(Keys::one(alloc, (key, mode_of_move(version))))
        }
    }
}

/// How a move uses the key that it moves.
fn mode_of_move(version: u8) -> Mode
    ensures { result ≡ mode_of_move version }
{
    if version == 2 {
        Mode::Whole
    } else {
        Mode::Write
    }
}

/// The keys that a call uses, in ascending order, each with its mode.
fn call_keys(alloc: Global, procs: &Procs, number: u32, args: &[Value]) -> Result<Keys, NoMemory>
    requires { CallFits procs.now number args.now }
    ensures { IfOk result (λ keys. keys ≡ call_keys procs.now number args.now) }
{
    match keys_of(alloc, called(procs, number, args), args) {
        Ok(keys) => Ok(keys),
        Err(KeysError::NoMemory) => Err(NoMemory),
        Err(KeysError::BadKey(_)) => unreachable!(),
    }
}

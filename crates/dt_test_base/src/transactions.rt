//! Transactions that move a key: their homes and parts, and what they come to.
//!
//! In version 1 a key is moved alone, in version 2 with all keys of its granule.
ghost use Rattle.std.specs.Prelude.{IfOk};
ghost use Rattle.dt_txn.specs.Transaction.{CanRun, HasItsUses};

use crate::rows::{move_to, opened, put_option};
use dt_access::{Mode, Part, TxnId, put_id};
use dt_proc::{Procs, builtin_procs};
use dt_table::{Effect, Table};
use dt_test_texts::{key_of, put_all, put_number, wrong};
use dt_text::{Key, NoMemory};
use dt_txn::{
    Body, Outcome, Seen, Txn, annotate, execute, execute_seen, homes, part_at, parts, see,
};
use std::alloc::Global;
use std::mem::forget;
use std::test::Fail;

/// The id of the transaction that a test is about.
const ID: TxnId = TxnId { seq: 2, region: 0 };

/// The id of a transaction before it.
const MOVER: TxnId = TxnId { seq: 1, region: 1 };

/// The transaction of rank 3 that moves a key to a region, by this table.
fn a_move(alloc: Global, procs: &Procs, table: &Table, key: &[u8], target: u8) -> Result<Txn, Fail>
    ensures body { IfOk result (λ txn. CanRun procs.now txn.body) }
    ensures uses { IfOk result (λ txn. HasItsUses procs.now txn) }
{
    let body = Body::Move(key_of(alloc, key)?, target);
    Ok(annotate(alloc, ID, 3, body, procs, table)?)
}

/// A letter for each mode.
fn letter(mode: Mode) -> u8 {
    match mode {
        Mode::Read => b'r',
        Mode::Write => b'w',
        Mode::Whole => b'W',
    }
}

/// Adds keys with their modes.
fn put_keys(out: &mut Vec<u8>, keys: &[(Key, Mode)]) -> Result<(), NoMemory> {
    out.push(b':')?;
    for (key, mode) in keys {
        out.push(letter(*mode))?;
        out.extend_from_slice(key.bytes())?;
    }
    Ok(())
}

/// Adds homes, each behind a few bytes.
fn put_homes(
    alloc: Global,
    out: &mut Vec<u8>,
    before: &[u8],
    homes: &[u8],
) -> Result<(), NoMemory> {
    for home in homes {
        put_number(alloc, out, before, u64::from(*home))?;
    }
    Ok(())
}

/// Adds a part: its home, its rank, its keys with their modes, and all homes.
fn put_part(alloc: Global, out: &mut Vec<u8>, part: &Part) -> Result<(), NoMemory> {
    put_number(alloc, out, b" ", u64::from(part.home))?;
    put_number(alloc, out, b"^", u64::from(part.rank))?;
    put_keys(out, part.keys.as_slice())?;
    put_homes(alloc, out, b"@", part.homes.as_slice())
}

/// Adds the homes of a transaction.
fn put_homes_of(alloc: Global, out: &mut Vec<u8>, txn: &Txn) -> Result<(), NoMemory> {
    put_homes(alloc, out, b" ", homes(alloc, txn)?.as_slice())
}

/// Adds the parts of a transaction.
fn put_parts_of(alloc: Global, out: &mut Vec<u8>, txn: &Txn) -> Result<(), NoMemory> {
    for part in parts(alloc, txn)?.as_slice() {
        put_part(alloc, out, part)?;
    }
    Ok(())
}

/// The homes of a transaction, its parts, and its part at a home, in words.
fn parts_told(alloc: Global, txn: &Txn, home: u8) -> Result<Vec<u8>, Fail> {
    let mut out = Vec::new(alloc);
    put_homes_of(alloc, &mut out, txn)?;
    put_parts_of(alloc, &mut out, txn)?;
    put_part(alloc, &mut out, &part_at(alloc, txn, home)?)?;
    Ok(out)
}

/// The same of a copy.
fn parts_of_copy(alloc: Global, txn: &Txn, home: u8) -> Result<Vec<u8>, Fail> {
    let copy = txn.copy(alloc)?;
    let told = parts_told(alloc, &copy, home);
    forget(copy);
    told
}

/// Adds a word, a key, a number and an id.
fn put_move(
    alloc: Global,
    out: &mut Vec<u8>,
    word: &[u8],
    key: &[u8],
    number: u64,
    by: TxnId,
) -> Result<(), NoMemory> {
    put_all(out, &[word, key])?;
    put_number(alloc, out, b" ", number)?;
    out.push(b' ')?;
    put_id(alloc, out, by)
}

/// Adds an outcome.
fn put_outcome(alloc: Global, out: &mut Vec<u8>, outcome: &Outcome) -> Result<(), NoMemory> {
    match outcome {
        Outcome::Gave(values) => put_number(alloc, out, b"gave ", values.len() as u64),
        Outcome::Aborted(_) => put_all(out, &[b"aborted"]),
        Outcome::Stale { key, had, by } => {
            put_move(
                alloc,
                out,
                b"stale ",
                key.get().bytes(),
                u64::from(*had),
                *by,
            )
        }
    }
}

/// Adds what changes.
fn put_effect(alloc: Global, out: &mut Vec<u8>, effect: &Effect) -> Result<(), NoMemory> {
    put_number(
        alloc,
        out,
        b", writes ",
        effect.writes.as_slice().len() as u64,
    )?;
    match &effect.moved {
        Some((key, target, by)) => {
            put_move(
                alloc,
                out,
                b", moves ",
                key.bytes(),
                u64::from(*target),
                *by,
            )
        }
        None => Ok(()),
    }
}

/// An outcome, of which a copy is made first, and what changes by it, in words.
fn outcome_told(alloc: Global, outcome: &Outcome, effect: &Effect) -> Result<Vec<u8>, Fail> {
    let copy = outcome.copy(alloc)?;
    let mut out = Vec::new(alloc);
    put_outcome(alloc, &mut out, &copy)?;
    put_effect(alloc, &mut out, effect)?;
    Ok(out)
}

/// Adds a row as it is seen: the unit of its key, its value, how often the unit was moved, and who made the next move.
fn put_seen(alloc: Global, out: &mut Vec<u8>, row: &Seen) -> Result<(), NoMemory> {
    put_all(out, &[row.unit.bytes(), b" "])?;
    put_option(alloc, out, row.value.as_ref())?;
    put_number(alloc, out, b" ", u64::from(row.counter))?;
    out.push(b' ')?;
    if let Some(mover) = row.mover {
        put_id(alloc, out, mover)?;
    }
    Ok(())
}

/// What a transaction sees, in words.
fn seen_told(alloc: Global, txn: &Txn, table: &Table) -> Result<Vec<u8>, Fail> {
    let mut out = Vec::new(alloc);
    for row in see(alloc, txn, table)?.as_slice() {
        put_seen(alloc, &mut out, row)?;
    }
    Ok(out)
}

/// What a transaction comes to on a table.
fn executed(alloc: Global, txn: &Txn, procs: &Procs, table: &Table) -> Result<Vec<u8>, Fail>
    requires body { CanRun procs.now txn.now.body }
    requires uses { HasItsUses procs.now txn.now }
{
    let (outcome, effect) = execute(alloc, txn, procs, table)?;
    let told = outcome_told(alloc, &outcome, &effect);
    forget((outcome, effect));
    told
}

/// What it comes to from what it sees there.
fn executed_seen(alloc: Global, txn: &Txn, procs: &Procs, table: &Table) -> Result<Vec<u8>, Fail>
    requires body { CanRun procs.now txn.now.body }
    requires uses { HasItsUses procs.now txn.now }
{
    let seen = see(alloc, txn, table)?;
    if seen.len() != txn.access.as_slice().len() {
        return Err(Fail::from("each row is seen"));
    }
    let (outcome, effect) = execute_seen(alloc, txn, procs, &seen)?;
    let told = outcome_told(alloc, &outcome, &effect);
    forget((outcome, effect));
    told
}

/// What a transaction sees in a table, and what it comes to there; from what it sees it comes to the same.
fn run(alloc: Global, txn: &Txn, procs: &Procs, table: &Table) -> Result<Vec<u8>, Fail>
    requires body { CanRun procs.now txn.now.body }
    requires uses { HasItsUses procs.now txn.now }
{
    let executed = executed(alloc, txn, procs, table)?;
    if executed_seen(alloc, txn, procs, table)? != executed {
        return Err(Fail::from("it comes to the same"));
    }
    let mut out = seen_told(alloc, txn, table)?;
    put_all(&mut out, &[b": ", executed.as_slice()])?;
    Ok(out)
}

/// The key `b` is moved to region 1.
fn move_b(alloc: Global, table: &mut Table) -> Result<(), Fail> {
    move_to(table, alloc, &key_of(alloc, b"b")?, 1, MOVER)
}

/// What is asked of a move: its homes and its parts, or what it sees and comes to, before or after the key `b` was moved to region 1.
#[derive(Clone, Copy)]
enum Asked {
    Parts,
    Run,
    RunAfterMove,
}

/// The answer for a transaction of a move to this region.
fn answer(
    alloc: Global,
    txn: &Txn,
    procs: &Procs,
    table: &mut Table,
    target: u8,
    asked: Asked,
) -> Result<Vec<u8>, Fail>
    requires body { CanRun procs.now txn.now.body }
    requires uses { HasItsUses procs.now txn.now }
{
    match asked {
        Asked::Parts => parts_of_copy(alloc, txn, target),
        Asked::Run => run(alloc, txn, procs, table),
        Asked::RunAfterMove => {
            move_b(alloc, table)?;
            run(alloc, txn, procs, table)
        }
    }
}

/// A version, a key, the region that it is moved to, what is asked of the move, and what is answered.
type Row = (u8, &'static [u8], u8, Asked, &'static [u8]);

/// The answer for a move that was annotated by a table before any other. The transaction is left to the end of the process, as the
/// table is.
fn answer_on(alloc: Global, procs: &Procs, table: &mut Table, row: &Row) -> Result<Vec<u8>, Fail> {
    let (_, key, target, asked, _) = *row;
    let txn = a_move(alloc, procs, table, key, target)?;
    let told = answer(alloc, &txn, procs, table, target, asked);
    forget(txn);
    told
}

/// Whether a row is answered as it says.
fn is_answered(alloc: Global, procs: &Procs, row: &Row) -> Result<bool, Fail> {
    let (version, _, _, _, want) = *row;
    let mut table = opened(alloc, version)?;
    let told = answer_on(alloc, procs, &mut table, row);
    forget(table);
    Ok(told?.as_slice() == want)
}

const ROWS: &[Row] = &[
    // A move has a part with its key at each of its homes.
    (
        1,
        b"b",
        0,
        Asked::Parts,
        b" 0 2 0^3:wb@0@2 2^3:wb@0@2 0^3:wb@0@2",
    ),
    (
        1,
        b"a",
        2,
        Asked::Parts,
        b" 1 2 1^3:wa@1@2 2^3:wa@1@2 2^3:wa@1@2",
    ),
    (1, b"b", 2, Asked::Parts, b" 2 2^3:wb@2 2^3:wb@2"),
    (
        2,
        b"b",
        0,
        Asked::Parts,
        b" 0 2 0^3:Wb@0@2 2^3:Wb@0@2 0^3:Wb@0@2",
    ),
    // A move is stale after another of its unit.
    (
        1,
        b"b",
        0,
        Asked::Run,
        b"b 7 0 : gave 0, writes 0, moves b 0 2.0",
    ),
    (
        1,
        b"b",
        0,
        Asked::RunAfterMove,
        b"b 7 1 1.1: stale b 0 1.1, writes 0",
    ),
    (
        1,
        b"b/1",
        0,
        Asked::RunAfterMove,
        b"b/1 none 0 : gave 0, writes 0, moves b/1 0 2.0",
    ),
    (
        2,
        b"b",
        0,
        Asked::RunAfterMove,
        b"b 7 1 1.1: stale b 0 1.1, writes 0",
    ),
    // The unit is named, which need not be the key.
    (
        2,
        b"b/1",
        0,
        Asked::RunAfterMove,
        b"b none 1 1.1: stale b 0 1.1, writes 0",
    ),
    (
        2,
        b"b-1",
        0,
        Asked::RunAfterMove,
        b"b-1 none 0 : gave 0, writes 0, moves b-1 0 2.0",
    ),
];

/// Fails at the first row that is answered in another way.
fn check(alloc: Global, procs: &Procs) -> Result<(), Fail> {
    for (row, asked) in ROWS.iter().enumerate() {
        if !is_answered(alloc, procs, asked)? {
            return Err(wrong(row));
        }
    }
    Ok(())
}

/// The same with the built-in procedures, which are left to the end of the process, too.
fn check_by_builtin(alloc: Global) -> Result<(), Fail> {
    let procs = builtin_procs(alloc)?;
    let checked = check(alloc, &procs);
    forget(procs);
    checked
}

#[test]
fn a_move_has_parts_at_its_homes_and_is_stale_after_another(rt: HostRuntime) -> Result<(), Fail> {
    check_by_builtin(rt.alloc())
}

//! Rows: their values, homes and moves after changes, and which of them are shown.

use dt_access::{TxnId, Writes, is_unit};
use dt_table::{Effect, Shown, Table, UnitName};
use dt_test_texts::{key_of, put_all, put_number, wrong};
use dt_text::{Key, NoMemory, Value, put_value};
use std::alloc::Global;
use std::mem::forget;
use std::test::Fail;

/// What is done to a key.
#[derive(Clone, Copy)]
enum Change {
    /// It gets this number.
    Put(i64),
    /// It gets none.
    Clear,
    /// It is moved to a home, by the transaction of this number in region 0.
    Move(u8, u32),
}

/// A table of three regions in this version, with a row `b` that has 7, and a home for `ab`.
pub(crate) fn opened(alloc: Global, version: u8) -> Result<Table, Fail> {
    let homes = [(key_of(alloc, b"ab")?, 0)];
    let rows = [(key_of(alloc, b"b")?, Value::Int(7))];
    Ok(Table::new(alloc, version, 3, homes.as_slice(), rows.as_slice())?)
}

/// Gives a key a value or none.
fn put(table: &mut Table, alloc: Global, key: Key, value: Option<Value>) -> Result<(), Fail> {
    let mut writes = Writes::new(alloc);
    writes.push((key, value))?;
    table.reserve(1)?;
    table.apply(Effect {
        writes,
        moved: None,
    });
    Ok(())
}

/// Moves a unit, by this transaction.
pub(crate) fn move_to(
    table: &mut Table,
    alloc: Global,
    key: &Key,
    target: u8,
    by: TxnId,
) -> Result<(), Fail> {
    if !is_unit(table.version(), key) {
        return Err(Fail::from("a unit is moved"));
    }
    if table.mastership(key).counter > 1000 {
        return Err(Fail::from("a unit has few moves"));
    }
    table.reserve(1)?;
    table.apply(Effect {
        writes: Writes::new(alloc),
        moved: Some((UnitName::of(alloc, key)?, target, by)),
    });
    Ok(())
}

/// Makes a change of a key.
fn make(table: &mut Table, alloc: Global, key: &[u8], change: Change) -> Result<(), Fail> {
    let key = key_of(alloc, key)?;
    match change {
        Change::Put(number) => put(table, alloc, key, Some(Value::Int(number))),
        Change::Clear => put(table, alloc, key, None),
        Change::Move(target, seq) => move_to(table, alloc, &key, target, TxnId { seq, region: 0 }),
    }
}

/// Adds a value, or `none`.
pub(crate) fn put_option(
    alloc: Global,
    out: &mut Vec<u8>,
    value: Option<&Value>,
) -> Result<(), NoMemory> {
    match value {
        Some(value) => put_value(alloc, out, value)?,
        None => out.extend_from_slice(b"none")?,
    }
    Ok(())
}

/// Adds who made a move, or `-`.
fn put_mover(alloc: Global, out: &mut Vec<u8>, mover: Option<TxnId>) -> Result<(), NoMemory> {
    match mover {
        Some(mover) => put_number(alloc, out, b" ", u64::from(mover.seq)),
        None => put_all(out, &[b" -"]),
    }
}

/// A key in words: its value, its home, how often it was moved, and by whom, from move 0 to the one that is not there yet.
fn put_row(alloc: Global, out: &mut Vec<u8>, table: &Table, key: &Key) -> Result<(), NoMemory> {
    put_option(alloc, out, table.get(key))?;
    let mastership = table.mastership(key);
    put_number(alloc, out, b"@", u64::from(mastership.home))?;
    for number in 0..mastership.counter.saturating_add(2) {
        put_mover(alloc, out, table.mover(key, number))?;
    }
    Ok(())
}

/// A row that is shown, in words.
fn put_shown_row(alloc: Global, out: &mut Vec<u8>, row: &Shown) -> Result<(), NoMemory> {
    put_all(out, &[b"; ", row.key.bytes(), b"="])?;
    put_option(alloc, out, row.value.as_ref())?;
    put_number(alloc, out, b"@", u64::from(row.home))?;
    put_number(alloc, out, b"*", u64::from(row.moves))
}

/// The rows that a table shows, in words.
fn put_shown(alloc: Global, out: &mut Vec<u8>, table: &Table) -> Result<(), NoMemory> {
    for row in table.shown(alloc)?.as_slice() {
        put_shown_row(alloc, out, row)?;
    }
    Ok(())
}

/// What a key has, and what a table shows.
fn seen(alloc: Global, table: &Table, key: &[u8]) -> Result<Vec<u8>, Fail> {
    let mut out = Vec::new(alloc);
    put_row(alloc, &mut out, table, &key_of(alloc, key)?)?;
    put_shown(alloc, &mut out, table)?;
    Ok(out)
}

/// Keys, and what is done to each.
type Changes<'a> = &'a [(&'a [u8], Change)];

/// Makes these changes, and tells what a key has then, and what the table shows.
fn seen_after(
    alloc: Global,
    table: &mut Table,
    changes: Changes,
    key: &[u8],
) -> Result<Vec<u8>, Fail> {
    for (changed, how) in changes {
        make(table, alloc, changed, *how)?;
    }
    seen(alloc, table, key)
}

/// What a key has, and what a table of this version shows, after these changes. The table is left to the end of the process: that it
/// may be dropped would be proved again in each function that owns one.
fn told(alloc: Global, version: u8, changes: Changes, key: &[u8]) -> Result<Vec<u8>, Fail> {
    let mut table = opened(alloc, version)?;
    let told = seen_after(alloc, &mut table, changes, key);
    forget(table);
    told
}

/// A version, changes, a key, and what is reported of them.
const ROWS: &[(u8, Changes<'static>, &[u8], &[u8])] = &[
    // A key has its listed home, or its first byte modulo the regions.
    (1, &[], b"ab", b"none@0 - -; b=7@2*0"),
    (1, &[], b"ac", b"none@1 - -; b=7@2*0"),
    (1, &[], b"ba", b"none@2 - -; b=7@2*0"),
    (1, &[], b"cb", b"none@0 - -; b=7@2*0"),
    // And the value that was listed or written last.
    (1, &[], b"b", b"7@2 - -; b=7@2*0"),
    (1, &[(b"b", Change::Put(8))], b"b", b"8@2 - -; b=8@2*0"),
    (
        1,
        &[(b"b", Change::Put(8)), (b"b", Change::Clear)],
        b"b",
        b"none@2 - -",
    ),
    // Each move has its mover, past a move of another key and a write.
    (
        1,
        &[
            (b"c", Change::Move(1, 4)),
            (b"d", Change::Move(2, 5)),
            (b"c", Change::Clear),
            (b"c", Change::Move(1, 6)),
        ],
        b"c",
        b"none@1 - 4 6 -; b=7@2*0; c=none@1*2; d=none@2*1",
    ),
    // Shown is each key with a value or a move, in byte order.
    (
        1,
        &[
            (b"z", Change::Clear),
            (b"a/", Change::Put(5)),
            (b"a.", Change::Put(6)),
            (b"a", Change::Move(0, 3)),
        ],
        b"z",
        b"none@2 - -; a=none@0*1; a.=6@1*0; a/=5@1*0; b=7@2*0",
    ),
    (
        1,
        &[(b"b", Change::Move(2, 9)), (b"b", Change::Clear)],
        b"b",
        b"none@2 - 9 -; b=none@2*1",
    ),
    // In version 1 a move of `b` leaves `b/1` where it is.
    (
        1,
        &[(b"b/1", Change::Put(1)), (b"b", Change::Move(1, 9))],
        b"b/1",
        b"1@2 - -; b=7@1*1; b/1=1@2*0",
    ),
    // In version 2 it takes `b/1` along, and also a key that is written later, or never.
    (
        2,
        &[(b"b/1", Change::Put(1)), (b"b", Change::Move(1, 9))],
        b"b/1",
        b"1@1 - 9 -; b=7@1*1; b/1=1@1*1",
    ),
    (
        2,
        &[(b"b", Change::Move(1, 9)), (b"b/x/y", Change::Put(3))],
        b"b/2",
        b"none@1 - 9 -; b=7@1*1; b/x/y=3@1*1",
    ),
    // But not `b-1` or `b.`, which stand between `b` and `b/` in byte order.
    (
        2,
        &[(b"b-1", Change::Put(2)), (b"b", Change::Move(1, 9))],
        b"b-1",
        b"2@2 - -; b=7@1*1; b-1=2@2*0",
    ),
    // A unit that was moved is shown once, where it stands among the keys.
    (
        2,
        &[
            (b"c/1", Change::Put(4)),
            (b"c", Change::Move(2, 5)),
            (b"c", Change::Move(1, 6)),
        ],
        b"c/1",
        b"4@1 - 5 6 -; b=7@2*0; c=none@1*2; c/1=4@1*2",
    ),
    // A listed home is that of all keys of its unit.
    (
        2,
        &[(b"ab/1", Change::Put(1))],
        b"ab/2",
        b"none@0 - -; ab/1=1@0*0; b=7@2*0",
    ),
];

/// Fails at the first row that has something else than the changes gave it.
fn check(alloc: Global) -> Result<(), Fail> {
    for (row, (version, changes, key, want)) in ROWS.iter().enumerate() {
        if told(alloc, *version, changes, key)?.as_slice() != *want {
            return Err(wrong(row));
        }
    }
    Ok(())
}

#[test]
fn rows_have_what_changes_and_moves_of_their_units_gave_them(rt: HostRuntime) -> Result<(), Fail> {
    check(rt.alloc())
}

/// Moves a key n times, each with a write of another key, and tells what it has then, and what the table shows.
fn seen_after_moves(alloc: Global, table: &mut Table, count: u32) -> Result<Vec<u8>, Fail> {
    for number in 0..count {
        let key = format!(in alloc; "k{number}")?;
        make(table, alloc, key.as_bytes(), Change::Put(1))?;
        make(table, alloc, b"m", Change::Move(1, 7))?;
    }
    seen(alloc, table, b"m")
}

/// How much is reported of a key after n moves of it.
fn length_of_many(alloc: Global, count: u32) -> Result<usize, Fail> {
    let mut table = opened(alloc, 1)?;
    let told = seen_after_moves(alloc, &mut table, count);
    forget(table);
    Ok(told?.len())
}

/// Numbers of moves, and how much is reported.
const LENGTHS: &[(u32, usize)] = &[(1, 43), (255, 3493), (256, 3507), (257, 3521), (600, 8323)];

/// Fails at the first number of moves of which less or more is reported.
fn check_lengths(alloc: Global) -> Result<(), Fail> {
    for (row, (count, want)) in LENGTHS.iter().enumerate() {
        if length_of_many(alloc, *count)? != *want {
            return Err(wrong(row));
        }
    }
    Ok(())
}

#[test]
fn a_table_has_hundreds_of_rows_and_moves(rt: HostRuntime) -> Result<(), Fail> {
    check_lengths(rt.alloc())
}

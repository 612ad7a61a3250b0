//! What a region came to, as a text that is the same whatever the order of its steps was.

use crate::feeding::Row;
use dt_access::{TxnId, put_id};
use dt_eval::Values;
use dt_events::{Event, put_event};
use dt_region::Region;
use dt_sched::Scheduler;
use dt_table::{Shown, Table};
use dt_text::put_value;
use dt_txn::Outcome;
use std::alloc::Global;
use std::test::Fail;

/// Appends what was given.
fn put_values(alloc: Global, told: &mut Vec<u8>, values: &Values) -> Result<(), Fail> {
    for value in values.as_slice() {
        told.push(b' ')?;
        if let Some(value) = value {
            put_value(alloc, told, value)?;
        }
    }
    Ok(())
}

/// Appends the id of a transaction and the values that it gave.
fn put_outcome<S: Scheduler>(
    alloc: Global,
    told: &mut Vec<u8>,
    region: &Region<S>,
    id: TxnId,
) -> Result<(), Fail> {
    put_id(alloc, told, id)?;
    match region.outcome(id) {
        Some(Outcome::Gave(values)) => put_values(alloc, told, values),
        _ => Err(Fail::from("it gave values")),
    }
}

/// Appends a row of the table.
fn put_row(alloc: Global, told: &mut Vec<u8>, row: &Shown) -> Result<(), Fail> {
    told.push(b' ')?;
    told.extend_from_slice(row.key.bytes())?;
    told.push(b' ')?;
    if let Some(value) = &row.value {
        put_value(alloc, told, value)?;
    }
    Ok(())
}

/// The text of an event.
fn line_of(alloc: Global, event: &Event) -> Result<Vec<u8>, Fail> {
    let mut line = Vec::new(alloc);
    put_event(alloc, &mut line, event)?;
    Ok(line)
}

/// Adds the texts of a region's events, without their stamps.
fn add_lines<S: Scheduler>(
    alloc: Global,
    lines: &mut Vec<Vec<u8>>,
    region: &Region<S>,
) -> Result<(), Fail> {
    for kept in region.events() {
        lines.push(line_of(alloc, &kept.event)?)?;
    }
    Ok(())
}

/// Appends texts, one after the other.
fn put_lines(told: &mut Vec<u8>, lines: &[Vec<u8>]) -> Result<(), Fail> {
    for line in lines {
        told.extend_from_slice(line.as_slice())?;
    }
    Ok(())
}

/// Appends the events of a region without their stamps, in the order of their texts.
fn put_sorted<S: Scheduler>(
    alloc: Global,
    told: &mut Vec<u8>,
    region: &Region<S>,
) -> Result<(), Fail> {
    let mut lines = Vec::new(alloc);
    add_lines(alloc, &mut lines, region)?;
    lines.sort()?;
    put_lines(told, lines.as_slice())
}

/// Appends the outcome of the transaction of each of these parts.
fn put_each<S: Scheduler>(
    alloc: Global,
    told: &mut Vec<u8>,
    region: &Region<S>,
    rows: &[Row],
) -> Result<(), Fail> {
    for (_, seq, by, _) in rows {
        let id = TxnId {
            seq: *seq,
            region: *by,
        };
        put_outcome(alloc, told, region, id)?;
    }
    Ok(())
}

/// Appends rows of the table.
fn put_rows(alloc: Global, told: &mut Vec<u8>, rows: &[Shown]) -> Result<(), Fail> {
    for row in rows {
        put_row(alloc, told, row)?;
    }
    Ok(())
}

/// Appends the table.
fn put_table(alloc: Global, told: &mut Vec<u8>, table: &Table) -> Result<(), Fail> {
    let shown = table.shown(alloc)?;
    put_rows(alloc, told, shown.as_slice())
}

/// Appends the outcome of the transaction of each of these parts, the table, and the events in the order of their texts.
pub fn put_outcomes<S: Scheduler>(
    alloc: Global,
    told: &mut Vec<u8>,
    region: &Region<S>,
    rows: &[Row],
) -> Result<(), Fail> {
    put_each(alloc, told, region, rows)?;
    put_table(alloc, told, region.table())?;
    put_sorted(alloc, told, region)
}

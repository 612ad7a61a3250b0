ghost use Rattle.std.specs.Prelude.{◌≡◌, ◌++◌, [], IfOk, OnOk};
ghost use Rattle.dt_lists.specs.Lists.{AllIn};
ghost use Rattle.dt_table.specs.Table.{shown, shown_at};
ghost use Rattle.dt_report.specs.Printable.{IsPrintableRow};
ghost use Rattle.dt_report.specs.ShownTables.{all_shown};
ghost use Rattle.dt_report.specs.Report.{events_text, order_text, replies_text, report_text, row_line, table_text, tables_text};

use crate::lines::{put_ran, put_reply, put_row};
use crate::printable::row_is_printable;
use crate::report::{Ran, Reply, Report};
use dt_events::{Event, put_event, put_number};
use dt_table::{Shown, ShownList, Table};
use dt_text::{Key, NoMemory};
use std::alloc::Global;

/// How long a report is for each of its events, roughly.
const BYTES_OF_AN_EVENT: usize = 28;

/// The text of a report, in sections of lines, each ended by the byte 0x0A.
///
/// First `replies` and a line for each answer, then `order` and a line for each executed attempt, then for each region its
/// number and a line for each row that it shows, and at last `events` and a line for each event. The only error is running
/// out of memory.
pub fn print(alloc: Global, report: &Report) -> Result<Vec<u8>, NoMemory>
    ensures { IfOk result (λ text. text.items ≡ report_text report.now) }
{
    let mut text = Vec::new(alloc);
    put_replies(alloc, &mut text, report.replies.as_slice())?;
    put_order(alloc, &mut text, report.order.as_slice())?;
    put_tables(alloc, &mut text, report.tables.as_slice())?;
    put_events(alloc, &mut text, report.events.as_slice())?;
    Ok(text)
}

/// The first line of a report, in a text that has room for about as much as most reports of so many events have, so that it is
/// moved as seldom as may be while it grows. The only error is running out of memory.
pub fn begin_text(alloc: Global, events: usize) -> Result<Vec<u8>, NoMemory>
    ensures { IfOk result (λ text. text.items ≡ replies_text []) }
{
    let room = events.saturating_mul(BYTES_OF_AN_EVENT);
    let mut text = Vec::with_capacity(alloc, room)?;
    begin_replies(&mut text)?;
    Ok(text)
}

/// Appends the section of the answers.
fn put_replies(alloc: Global, out: &mut Vec<u8>, replies: &[Reply]) -> Result<(), NoMemory>
    ensures { OnOk result (out.new.items ≡ out.old.items ++ replies_text replies.now) }
{
    begin_replies(out)?;
    for reply in replies {
        put_reply(alloc, out, &reply.session, reply.call, &reply.outcome)?;
    }
    Ok(())
}

/// Appends the line before the answers.
fn begin_replies(out: &mut Vec<u8>) -> Result<(), NoMemory>
    ensures { OnOk result (out.new.items ≡ out.old.items ++ replies_text []) }
{
    out.extend_from_slice(b"replies\n")?;
    Ok(())
}

/// Appends the section of the executed attempts.
fn put_order(alloc: Global, out: &mut Vec<u8>, order: &[Ran]) -> Result<(), NoMemory>
    ensures { OnOk result (out.new.items ≡ out.old.items ++ order_text order.now) }
{
    begin_order(out)?;
    for ran in order {
        put_ran(
            alloc,
            out,
            ran.id,
            &ran.session,
            ran.call,
            ran.attempt,
            &ran.outcome,
        )?;
    }
    Ok(())
}

/// Appends the line before the executed attempts.
pub fn begin_order(out: &mut Vec<u8>) -> Result<(), NoMemory>
    ensures { OnOk result (out.new.items ≡ out.old.items ++ order_text []) }
{
    out.extend_from_slice(b"order\n")?;
    Ok(())
}

/// Appends the section of each region's rows, as they are listed.
fn put_tables(alloc: Global, out: &mut Vec<u8>, tables: &[ShownList]) -> Result<(), NoMemory>
    ensures { OnOk result (out.new.items ≡ out.old.items ++ tables_text 0 tables.now) }
{
    for (region, rows) in tables.iter().enumerate() {
        put_table(alloc, out, region as u64, rows.as_slice())?;
    }
    Ok(())
}

/// Appends the section of a region's rows.
fn put_table(alloc: Global, out: &mut Vec<u8>, region: u64, rows: &[Shown]) -> Result<(), NoMemory>
    ensures { OnOk result (out.new.items ≡ out.old.items ++ table_text region rows.now) }
{
    put_head(alloc, out, region)?;
    for row in rows {
        put_row(alloc, out, row)?;
    }
    Ok(())
}

/// Appends the section of what each region's table shows. One row is written at a time, so that no list is made of what the tables
/// show.
pub fn put_all_shown(alloc: Global, out: &mut Vec<u8>, tables: &[&Table]) -> Result<(), NoMemory>
    ensures text { OnOk result (out.new.items ≡ out.old.items ++ tables_text 0 (all_shown tables.now)) }
    ensures printable { OnOk result (AllIn (AllIn IsPrintableRow) (all_shown tables.now)) }
{
    for (region, table) in tables.iter().enumerate() {
        put_shown(alloc, out, region as u64, *table)?;
    }
    Ok(())
}

/// Appends the section of what a region's table shows, of which no list is made.
fn put_shown(alloc: Global, out: &mut Vec<u8>, region: u64, table: &Table) -> Result<(), NoMemory>
    ensures text { OnOk result (out.new.items ≡ out.old.items ++ table_text region (shown table.now.state)) }
    ensures printable { OnOk result (AllIn IsPrintableRow (shown table.now.state)) }
{
    put_head(alloc, out, region)?;
    for key in table.shown_keys(alloc)? {
        put_shown_row(alloc, out, table, key)?;
    }
    Ok(())
}

/// Appends the line of a key, as a region's table shows it.
fn put_shown_row(alloc: Global, out: &mut Vec<u8>, table: &Table, key: Key) -> Result<(), NoMemory>
    ensures text { OnOk result (out.new.items ≡ out.old.items ++ row_line (shown_at table.now.state key)) }
    ensures printable { OnOk result (IsPrintableRow (shown_at table.now.state key)) }
{
    let row = table.shown_at(alloc, key)?;
    row_is_printable(&row);
    put_row(alloc, out, &row)
}

/// Appends the line before the rows of a region.
fn put_head(alloc: Global, out: &mut Vec<u8>, region: u64) -> Result<(), NoMemory>
    ensures { OnOk result (out.new.items ≡ out.old.items ++ table_text region []) }
{
    out.extend_from_slice(b"table")?;
    put_number(alloc, out, region)?;
    out.push(b'\n')?;
    Ok(())
}

/// Appends the section of the events, which is the last.
pub fn put_events(alloc: Global, out: &mut Vec<u8>, events: &[Event]) -> Result<(), NoMemory>
    ensures { OnOk result (out.new.items ≡ out.old.items ++ events_text events.now) }
{
    out.extend_from_slice(b"events\n")?;
    for event in events {
        put_event(alloc, out, event)?;
    }
    Ok(())
}

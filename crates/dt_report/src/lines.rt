ghost use Rattle.std.specs.Prelude.{◌≡◌, ◌++◌, OnOk};
ghost use Rattle.dt_report.specs.Printable.{IsPrintableRan, IsPrintableReply};
ghost use Rattle.dt_report.specs.Report.{ran_line, reply_line, row_line};

use crate::printable::{ran_is_printable, reply_is_printable};
use crate::words::{put_outcome, put_value_word, put_word};
use dt_access::{TxnId, put_id};
use dt_events::put_number;
use dt_table::Shown;
use dt_text::{Name, NoMemory};
use dt_txn::Outcome;
use std::alloc::Global;

/// Appends the line of a reply to a session. It is printable, by the types of its parts.
pub fn put_reply(
    alloc: Global,
    out: &mut Vec<u8>,
    session: &Name,
    call: u32,
    outcome: &Outcome,
) -> Result<(), NoMemory>
    ensures line { OnOk result (out.new.items ≡ out.old.items
        ++ reply_line (record { session = session.now; call = call; outcome = outcome.now })) }
    ensures printable { IsPrintableReply (record { session = session.now; call = call; outcome = outcome.now }) }
{
    reply_is_printable(session, call, outcome);
    out.extend_from_slice(b"reply")?;
    put_word(out, session.bytes())?;
    put_number(alloc, out, u64::from(call))?;
    put_outcome(alloc, out, outcome)?;
    out.push(b'\n')?;
    Ok(())
}

/// Appends the line of an executed attempt of a session's call. It is printable, by the types of its parts.
pub fn put_ran(
    alloc: Global,
    out: &mut Vec<u8>,
    id: TxnId,
    session: &Name,
    call: u32,
    attempt: u32,
    outcome: &Outcome,
) -> Result<(), NoMemory>
    ensures line { OnOk result (out.new.items ≡ out.old.items
        ++ ran_line (record { id = id; session = session.now; call = call; attempt = attempt; outcome = outcome.now })) }
    ensures printable { IsPrintableRan (record { id = id; session = session.now; call = call; attempt = attempt; outcome = outcome.now }) }
{
    ran_is_printable(id, session, call, attempt, outcome);
    put_id(alloc, out, id)?;
    put_word(out, session.bytes())?;
    put_number(alloc, out, u64::from(call))?;
    put_number(alloc, out, u64::from(attempt))?;
    put_outcome(alloc, out, outcome)?;
    out.push(b'\n')?;
    Ok(())
}

/// Appends the line of a row.
pub(crate) fn put_row(alloc: Global, out: &mut Vec<u8>, row: &Shown) -> Result<(), NoMemory>
    ensures { OnOk result (out.new.items ≡ out.old.items ++ row_line row.now) }
{
    out.extend_from_slice(row.key.bytes())?;
    put_word(out, b"=")?;
    put_value_word(alloc, out, &row.value)?;
    put_word(out, b"home")?;
    put_number(alloc, out, u64::from(row.home))?;
    put_word(out, b"moves")?;
    put_number(alloc, out, u64::from(row.moves))?;
    out.push(b'\n')?;
    Ok(())
}

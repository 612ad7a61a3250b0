ghost use Rattle.std.specs.Prelude.{◌≡◌, ◌∷◌, ◌++◌, [], length, map, take, OnOk, OnErr};
ghost use Rattle.std.specs.Fmt.{decimal};
ghost use Rattle.std.specs.List.{join_with_byte};
ghost use Rattle.dt_text.specs.Words.{spaced};
ghost use Rattle.dt_access.specs.Ids.{id_text};
ghost use Rattle.dt_events.specs.Events.{event_line, event_text};
ghost use Rattle.dt_events.specs.ReadingInner.{Keeps};

use crate::event::Event;
use dt_access::{TxnId, put_id};
use dt_text::{Name, NoMemory, put_u64};
use std::alloc::Global;

/// Appends the line of an event, with its end; after `NoMemory` the bytes are as before.
pub fn put_event(alloc: Global, out: &mut Vec<u8>, event: &Event) -> Result<(), NoMemory>
    ensures added { OnOk result (out.new.items ≡ out.old.items ++ event_line event.now) }
    ensures same { OnErr result (out.new.items ≡ out.old.items) }
{
    let before = out.len();
    match put_line(alloc, &mut *out, event) {
        Ok(()) => Ok(()),
        Err(error) => {
            out.truncate(before);
            Err(error)
        }
    }
}

/// Appends the line of an event, with its end; after `NoMemory` the bytes begin as before.
fn put_line(alloc: Global, out: &mut Vec<u8>, event: &Event) -> Result<(), NoMemory>
    ensures added { OnOk result (out.new.items ≡ out.old.items ++ event_line event.now) }
    ensures kept { OnErr result (Keeps out.old.items out.new.items) }
{
    put_text(alloc, &mut *out, event)?;
    out.push(b'\n')?;
    Ok(())
}

/// Appends the text of an event.
fn put_text(alloc: Global, out: &mut Vec<u8>, event: &Event) -> Result<(), NoMemory>
    ensures added { OnOk result (out.new.items ≡ out.old.items ++ event_text event.now) }
    ensures kept { OnErr result (Keeps out.old.items out.new.items) }
{
    match event {
        Event::Submit { region, session } => put_session(alloc, out, b"submit", *region, session),
        Event::Append {
            home,
            source,
            number,
        } => put_append(alloc, out, *home, *source, *number),
        Event::Deliver {
            region,
            home,
            first,
            last,
        } => put_deliver(alloc, out, *region, *home, *first, *last),
        Event::Insert { region, home } => put_insert(alloc, out, *region, *home),
        Event::Resolve { region, ids } => put_ids(
            alloc,
            out,
            b"resolve",
            *region,
            ids.get().as_slice(),
        ),
        Event::Execute { region, id } => put_execute(alloc, out, *region, *id),
        Event::Answer { region, session } => put_session(alloc, out, b"answer", *region, session),
    }
}

fn put_append(
    alloc: Global,
    out: &mut Vec<u8>,
    home: u8,
    source: u8,
    number: u32,
) -> Result<(), NoMemory>
    ensures added { OnOk result (out.new.items ≡ out.old.items ++ event_text (Event.Append home source number)) }
    ensures kept { OnErr result (Keeps out.old.items out.new.items) }
{
    if home < 10 && source < 10 {
        // As nearly all regions are: so many bytes are best appended at once.
        let (home, source) = (b'0' + home, b'0' + source);
        out.extend_from_slice(&[b'a', b'p', b'p', b'e', b'n', b'd', b' ', home, b' ', source])?;
        return put_number(alloc, out, u64::from(number));
    }
    put_begin(alloc, &mut *out, b"append", home)?;
    put_number(alloc, &mut *out, u64::from(source))?;
    put_number(alloc, &mut *out, u64::from(number))
}

fn put_deliver(
    alloc: Global,
    out: &mut Vec<u8>,
    region: u8,
    home: u8,
    first: u32,
    last: u32,
) -> Result<(), NoMemory>
    ensures added { OnOk result (out.new.items ≡ out.old.items ++ event_text (Event.Deliver region home first last)) }
    ensures kept { OnErr result (Keeps out.old.items out.new.items) }
{
    put_begin(alloc, &mut *out, b"deliver", region)?;
    put_number(alloc, &mut *out, u64::from(home))?;
    put_number(alloc, &mut *out, u64::from(first))?;
    put_number(alloc, &mut *out, u64::from(last))
}

fn put_insert(alloc: Global, out: &mut Vec<u8>, region: u8, home: u8) -> Result<(), NoMemory>
    ensures added { OnOk result (out.new.items ≡ out.old.items ++ event_text (Event.Insert region home)) }
    ensures kept { OnErr result (Keeps out.old.items out.new.items) }
{
    if region < 10 && home < 10 {
        let (region, home) = (b'0' + region, b'0' + home);
        out.extend_from_slice(&[b'i', b'n', b's', b'e', b'r', b't', b' ', region, b' ', home])?;
        return Ok(());
    }
    put_begin(alloc, &mut *out, b"insert", region)?;
    put_number(alloc, &mut *out, u64::from(home))
}

fn put_execute(alloc: Global, out: &mut Vec<u8>, region: u8, id: TxnId) -> Result<(), NoMemory>
    ensures added { OnOk result (out.new.items ≡ out.old.items ++ event_text (Event.Execute region id)) }
    ensures kept { OnErr result (Keeps out.old.items out.new.items) }
{
    if region < 10 {
        let region = b'0' + region;
        out.extend_from_slice(&[b'e', b'x', b'e', b'c', b'u', b't', b'e', b' ', region, b' '])?;
        return put_id(alloc, out, id);
    }
    put_ids(alloc, out, b"execute", region, &[id])
}

/// Appends the text of an event with a session.
fn put_session(
    alloc: Global,
    out: &mut Vec<u8>,
    kind: &[u8],
    region: u8,
    session: &Name,
) -> Result<(), NoMemory>
    ensures added { OnOk result (out.new.items ≡ out.old.items
        ++ join_with_byte 32 (kind.now ∷ decimal region ∷ session.now ∷ [])) }
    ensures kept { OnErr result (Keeps out.old.items out.new.items) }
{
    put_begin(alloc, &mut *out, kind, region)?;
    out.push(b' ')?;
    out.extend_from_slice(session.bytes())?;
    Ok(())
}

/// Appends the text of an event with ids.
fn put_ids(
    alloc: Global,
    out: &mut Vec<u8>,
    kind: &[u8],
    region: u8,
    ids: &[TxnId],
) -> Result<(), NoMemory>
    ensures added { OnOk result (out.new.items ≡ out.old.items
        ++ join_with_byte 32 (kind.now ∷ decimal region ∷ map id_text ids.now)) }
    ensures kept { OnErr result (Keeps out.old.items out.new.items) }
{
    put_begin(alloc, &mut *out, kind, region)?;
    for id in ids {
        put_next_id(alloc, &mut *out, *id)?;
    }
    Ok(())
}

/// Appends a space and an id.
fn put_next_id(alloc: Global, out: &mut Vec<u8>, id: TxnId) -> Result<(), NoMemory>
    ensures added { OnOk result (out.new.items ≡ out.old.items ++ 32 ∷ id_text id) }
    ensures kept { OnErr result (Keeps out.old.items out.new.items) }
{
    out.push(b' ')?;
    put_id(alloc, out, id)
}

/// Appends the first two words of an event: its kind and its region.
fn put_begin(alloc: Global, out: &mut Vec<u8>, kind: &[u8], region: u8) -> Result<(), NoMemory>
    ensures added { OnOk result (out.new.items ≡ out.old.items ++ kind.now ++ 32 ∷ decimal region) }
    ensures kept { OnErr result (Keeps out.old.items out.new.items) }
{
    out.extend_from_slice(kind)?;
    put_number(alloc, out, u64::from(region))
}

/// Appends a space and a number; after `NoMemory` the bytes begin as before.
pub fn put_number(alloc: Global, out: &mut Vec<u8>, number: u64) -> Result<(), NoMemory>
    ensures added { OnOk result (out.new.items ≡ out.old.items ++ spaced (decimal number ∷ [])) }
    ensures kept { OnErr result (take (length out.old.items) out.new.items ≡ out.old.items) }
{
    out.push(b' ')?;
    if number < 10 {
        // As nearly all regions, and numbers of moves and attempts, are.
        out.push(b'0' + number as u8)?;
        return Ok(());
    }
    put_u64(alloc, out, number)
}

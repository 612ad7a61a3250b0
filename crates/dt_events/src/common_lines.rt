//! Lines as events are mostly printed: with one space between words, and of regions below 10. They are read at once, without a
//! list of their words.

ghost use Rattle.std.specs.Prelude.{◌≡◌, ◌<◌, ◌^◌, ◌+◌, ◌∷◌, ◌++◌, [], length, codes, IfOk, IfSome};
ghost use Rattle.dt_events.specs.Events.{IsEventLine};

use crate::event::Event;
use crate::recent_names::RecentNames;
use dt_access::read_id;
use dt_text::{NoMemory, read_u32};
use std::alloc::Global;

/// The event of a line of one of the commonest kinds. A line without an answer may be an event too.
pub(crate) fn common_event(
    alloc: Global,
    line: &[u8],
    names: &mut RecentNames,
) -> Result<Option<Event>, NoMemory>
    requires { length line.now < 2 ^ 32 }
    ensures { IfOk result (λ event. IfSome event (IsEventLine line.now)) }
{
    match line {
        [b'i', ..] => Ok(insert(line)),
        [b'e', ..] => Ok(execute(line)),
        [b'a', b'p', ..] => Ok(append(line)),
        [b's', ..] => submit(alloc, line, names),
        [b'a', ..] => answer(alloc, line, names),
        _ => Ok(None),
    }
}

fn insert(line: &[u8]) -> Option<Event>
    ensures { IfSome result (IsEventLine line.now) }
{
    let (region, home) = region_first(after_insert(line)?)?;
    let home = only_digit(home)?;
    Some(Event::Insert { region, home })
}

fn execute(line: &[u8]) -> Option<Event>
    requires { length line.now < 2 ^ 32 }
    ensures { IfSome result (IsEventLine line.now) }
{
    let (region, id) = region_first(after_execute(line)?)?;
    let id = read_id(id)?;
    Some(Event::Execute { region, id })
}

fn append(line: &[u8]) -> Option<Event>
    requires { length line.now < 2 ^ 32 }
    ensures { IfSome result (IsEventLine line.now) }
{
    let (home, arguments) = region_first(after_append(line)?)?;
    let (source, number) = region_first(arguments)?;
    let number = read_u32(number)?;
    Some(Event::Append {
        home,
        source,
        number,
    })
}

fn submit(alloc: Global, line: &[u8], names: &mut RecentNames) -> Result<Option<Event>, NoMemory>
    requires { length line.now < 2 ^ 32 }
    ensures { IfOk result (λ event. IfSome event (IsEventLine line.now)) }
{
    let Some(arguments) = after_submit(line) else {
        return Ok(None);
    };
    let Some((region, session)) = region_first(arguments) else {
        return Ok(None);
    };
    let Some(session) = names.read(alloc, session)? else {
        return Ok(None);
    };
    Ok(Some(Event::Submit { region, session }))
}

fn answer(alloc: Global, line: &[u8], names: &mut RecentNames) -> Result<Option<Event>, NoMemory>
    requires { length line.now < 2 ^ 32 }
    ensures { IfOk result (λ event. IfSome event (IsEventLine line.now)) }
{
    let Some(arguments) = after_answer(line) else {
        return Ok(None);
    };
    let Some((region, session)) = region_first(arguments) else {
        return Ok(None);
    };
    let Some(session) = names.read(alloc, session)? else {
        return Ok(None);
    };
    Ok(Some(Event::Answer { region, session }))
}

/// What follows the kind of an insertion.
fn after_insert(line: &[u8]) -> Option<&[u8]>
    ensures { IfSome result (λ rest. line.now ≡ codes "insert " ++ rest.now) }
{
    let [b'i', b'n', b's', b'e', b'r', b't', b' ', rest @ ..] = line else {
        return None;
    };
    Some(rest)
}

/// What follows the kind of an execution.
fn after_execute(line: &[u8]) -> Option<&[u8]>
    ensures { IfSome result (λ rest. line.now ≡ codes "execute " ++ rest.now) }
{
    let [b'e', b'x', b'e', b'c', b'u', b't', b'e', b' ', rest @ ..] = line else {
        return None;
    };
    Some(rest)
}

/// What follows the kind of the taking of a request.
fn after_append(line: &[u8]) -> Option<&[u8]>
    ensures { IfSome result (λ rest. line.now ≡ codes "append " ++ rest.now) }
{
    let [b'a', b'p', b'p', b'e', b'n', b'd', b' ', rest @ ..] = line else {
        return None;
    };
    Some(rest)
}

/// What follows the kind of a submission.
fn after_submit(line: &[u8]) -> Option<&[u8]>
    ensures { IfSome result (λ rest. line.now ≡ codes "submit " ++ rest.now) }
{
    let [b's', b'u', b'b', b'm', b'i', b't', b' ', rest @ ..] = line else {
        return None;
    };
    Some(rest)
}

/// What follows the kind of an answer.
fn after_answer(line: &[u8]) -> Option<&[u8]>
    ensures { IfSome result (λ rest. line.now ≡ codes "answer " ++ rest.now) }
{
    let [b'a', b'n', b's', b'w', b'e', b'r', b' ', rest @ ..] = line else {
        return None;
    };
    Some(rest)
}

/// The region that bytes begin with, and what follows it behind a space.
fn region_first(bytes: &[u8]) -> Option<(u8, &[u8])>
    ensures { IfSome result (λ found. (found.0 < 10) × (bytes.now ≡ (48 + found.0) ∷ 32 ∷ found.1.now)) }
{
    let [region, b' ', rest @ ..] = bytes else {
        return None;
    };
    Some((digit(*region)?, rest))
}

/// The number of the digit that the bytes are.
fn only_digit(bytes: &[u8]) -> Option<u8>
    ensures { IfSome result (λ number. (number < 10) × (bytes.now ≡ (48 + number) ∷ [])) }
{
    let [byte] = bytes else {
        return None;
    };
    digit(*byte)
}

/// The number of a digit.
fn digit(byte: u8) -> Option<u8>
    ensures { IfSome result (λ number. (number < 10) × (byte ≡ 48 + number)) }
{
    if byte.is_ascii_digit() {
        Some(byte - b'0')
    } else {
        None
    }
}

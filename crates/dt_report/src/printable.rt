//! What the parts of a report are by their types: one has to know it to read the report's text. Contracts see a name, a key and a
//! text as bytes, so whoever wants to know which bytes they may have looks at them. The functions do nothing else.
ghost use Rattle.std.specs.Prelude.{◌<◌, ◌^◌, FitsSigned};
ghost use Rattle.std.specs.Int.{w64};
ghost use Rattle.dt_lists.specs.Lists.{AllIn};
ghost use Rattle.dt_events.specs.Events.{IsWritten};
ghost use Rattle.dt_report.specs.Printable.{HasCountedIds, IsPrintableCause, IsPrintableOutcome, IsPrintableRan, IsPrintableReply, IsPrintableRow, IsSmallId, MayBePrinted};

use dt_access::TxnId;
use dt_eval::Cause;
use dt_events::Event;
use dt_table::Shown;
use dt_text::{Name, Value};
use dt_txn::Outcome;

/// A reply of these parts is printable.
pub(crate) fn reply_is_printable(session: &Name, call: u32, outcome: &Outcome)
    ensures { IsPrintableReply (record { session = session.now; call = call; outcome = outcome.now }) }
{
    session.bytes();
    has_32_bits(call);
    outcome_is_printable(outcome);
}

/// An executed attempt of these parts is printable.
pub(crate) fn ran_is_printable(
    id: TxnId,
    session: &Name,
    call: u32,
    attempt: u32,
    outcome: &Outcome,
)
    ensures { IsPrintableRan (record { id = id; session = session.now; call = call; attempt = attempt; outcome = outcome.now }) }
{
    id_is_small(id);
    session.bytes();
    has_32_bits(call);
    has_32_bits(attempt);
    outcome_is_printable(outcome);
}

/// Each row is printable.
pub(crate) fn row_is_printable(row: &Shown)
    ensures { IsPrintableRow row.now }
{
    row.key.bytes();
    value_may_be_printed(&row.value);
    has_8_bits(row.home);
    has_32_bits(row.moves);
}

/// Events whose ids are counted are such as a line can have.
pub fn events_are_written(events: &[Event])
    requires { AllIn HasCountedIds events.now }
    ensures { AllIn IsWritten events.now }
{
    for event in events {
        event_is_written(event);
    }
}

/// An event whose ids are counted is such as a line can have.
fn event_is_written(event: &Event)
    ensures { HasCountedIds event.now → IsWritten event.now }
{
    match event {
        Event::Submit { region, session } => {
            has_8_bits(*region);
            session.bytes();
        }
        Event::Append {
            home,
            source,
            number,
        } => {
            have_8_bits(*home, *source);
            has_32_bits(*number);
        }
        Event::Deliver {
            region,
            home,
            first,
            last,
        } => {
            have_8_bits(*region, *home);
            have_32_bits(*first, *last);
        }
        Event::Insert { region, home } => have_8_bits(*region, *home),
        Event::Resolve { region, ids } => {
            has_8_bits(*region);
            ids_are_small(ids.get().as_slice());
        }
        Event::Execute { region, id } => {
            has_8_bits(*region);
            id_is_small(*id);
        }
        Event::Answer { region, session } => {
            has_8_bits(*region);
            session.bytes();
        }
    }
}

/// An outcome is printable.
fn outcome_is_printable(outcome: &Outcome)
    ensures { IsPrintableOutcome outcome.now }
{
    match outcome {
        Outcome::Gave(values) => values_may_be_printed(values.as_slice()),
        Outcome::Aborted(cause) => cause_is_printable(cause),
        Outcome::Stale { key, had, by } => {
            key.get().bytes();
            has_32_bits(*had);
            id_is_small(*by);
        }
    }
}

/// Each of the values that there are is printable.
fn values_may_be_printed(values: &[Option<Value>])
    ensures { AllIn MayBePrinted values.now }
{
    for value in values {
        value_may_be_printed(value);
    }
}

/// A value is printable, if there is one.
fn value_may_be_printed(value: &Option<Value>)
    ensures { MayBePrinted value.now }
{
    match value {
        Some(Value::Int(number)) => has_64_bits_and_a_sign(*number),
        Some(Value::Text(text)) => {
            text.bytes();
        }
        None => {}
    }
}

/// The cause of an abort is printable.
fn cause_is_printable(cause: &Cause)
    ensures { IsPrintableCause cause.now }
{
    if let Cause::Word(text) = cause {
        text.get().bytes();
    }
}

fn ids_are_small(ids: &[TxnId])
    ensures { AllIn IsSmallId ids.now }
{
    for id in ids {
        id_is_small(*id);
    }
}

fn id_is_small(id: TxnId)
    ensures { IsSmallId id }
{
    has_32_bits(id.seq);
    has_8_bits(id.region);
}

fn has_8_bits(_number: u8)
    ensures { _number < 2 ^ 8 }
{}

fn have_8_bits(first: u8, second: u8)
    ensures first { first < 2 ^ 8 }
    ensures second { second < 2 ^ 8 }
{
    has_8_bits(first);
    has_8_bits(second);
}

fn has_32_bits(_number: u32)
    ensures { _number < 2 ^ 32 }
{}

fn have_32_bits(first: u32, second: u32)
    ensures first { first < 2 ^ 32 }
    ensures second { second < 2 ^ 32 }
{
    has_32_bits(first);
    has_32_bits(second);
}

fn has_64_bits_and_a_sign(_number: i64)
    ensures { FitsSigned w64 _number }
{}

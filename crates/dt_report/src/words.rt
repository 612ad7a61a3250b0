ghost use Rattle.std.specs.Prelude.{◌≡◌, ◌++◌, ◌∷◌, [], OnOk, map, codes};
ghost use Rattle.std.specs.Fmt.{decimal};
ghost use Rattle.dt_access.specs.Ids.{id_text};
ghost use Rattle.dt_report.specs.Report.{cause_word, outcome_words, value_word};
ghost use Rattle.dt_text.specs.Words.{spaced};

use dt_access::{TxnId, put_id};
use dt_eval::Cause;
use dt_events::put_number;
use dt_text::{Key, NoMemory, Value, put_text, put_value};
use dt_txn::Outcome;
use std::alloc::Global;

/// Appends a space and a word.
pub(crate) fn put_word(out: &mut Vec<u8>, word: &[u8]) -> Result<(), NoMemory>
    ensures { OnOk result (out.new.items ≡ out.old.items ++ spaced (word.now ∷ [])) }
{
    out.push(b' ')?;
    out.extend_from_slice(word)?;
    Ok(())
}

/// Appends a space and a value, or `none`.
pub(crate) fn put_value_word(
    alloc: Global,
    out: &mut Vec<u8>,
    value: &Option<Value>,
) -> Result<(), NoMemory>
    ensures { OnOk result (out.new.items ≡ out.old.items ++ spaced (value_word value.now ∷ [])) }
{
    out.push(b' ')?;
    match value {
        Some(value) => put_value(alloc, out, value),
        None => {
            out.extend_from_slice(b"none")?;
            Ok(())
        }
    }
}

/// Appends the words of an outcome, each after a space.
pub(crate) fn put_outcome(
    alloc: Global,
    out: &mut Vec<u8>,
    outcome: &Outcome,
) -> Result<(), NoMemory>
    ensures { OnOk result (out.new.items ≡ out.old.items ++ spaced (outcome_words outcome.now)) }
{
    match outcome {
        Outcome::Gave(values) => put_done(alloc, out, values.as_slice()),
        Outcome::Aborted(cause) => put_abort(alloc, out, cause),
        Outcome::Stale { key, had, by } => put_stale(alloc, out, key.get(), *had, *by),
    }
}

/// Appends the words of a result with these values.
fn put_done(alloc: Global, out: &mut Vec<u8>, values: &[Option<Value>]) -> Result<(), NoMemory>
    ensures { OnOk result (out.new.items ≡ out.old.items ++ spaced (codes "done" ∷ map value_word values.now)) }
{
    put_word(out, b"done")?;
    for value in values {
        put_value_word(alloc, out, value)?;
    }
    Ok(())
}

/// Appends the words of an abort by this cause.
fn put_abort(alloc: Global, out: &mut Vec<u8>, cause: &Cause) -> Result<(), NoMemory>
    ensures { OnOk result (out.new.items ≡ out.old.items ++ spaced (codes "abort" ∷ cause_word cause.now ∷ [])) }
{
    put_word(out, b"abort")?;
    match cause {
        Cause::Word(text) => {
            out.push(b' ')?;
            put_text(alloc, out, text.get())
        }
        Cause::Overflow => put_word(out, b"overflow"),
        Cause::Zero => put_word(out, b"zero"),
        Cause::Kind => put_word(out, b"kind"),
        Cause::Long => put_word(out, b"long"),
    }
}

/// Appends the words of a stale outcome: the unit that was moved, how many moves of it were known, and the mover.
fn put_stale(
    alloc: Global,
    out: &mut Vec<u8>,
    key: &Key,
    had: u32,
    by: TxnId,
) -> Result<(), NoMemory>
    ensures { OnOk result (out.new.items ≡ out.old.items
        ++ spaced (codes "stale" ∷ key.now ∷ codes "had" ∷ decimal had ∷ codes "by" ∷ id_text by ∷ [])) }
{
    put_word(out, b"stale")?;
    put_word(out, key.bytes())?;
    put_word(out, b"had")?;
    put_number(alloc, out, u64::from(had))?;
    put_word(out, b"by")?;
    out.push(b' ')?;
    put_id(alloc, out, by)
}

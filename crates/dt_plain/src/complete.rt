ghost use Rattle.std.specs.Prelude.{◌↔◌, IsTrue};
ghost use Rattle.dt_lists.specs.Lists.{AnyIn, AllIn};
ghost use Rattle.dt_sched.specs.Views.{HasPart, log_at, IsComplete};
ghost use Rattle.dt_plain.specs.SurroundingsInner.{ShowsComplete};

use dt_access::{Part, TxnId};
use dt_text::Listed;

/// Whether a part of the transaction is in the log.
pub fn has_part(log: &[Part], id: TxnId) -> bool
    ensures { IsTrue result ↔ HasPart log.now id }
{
    for part in log {
        if part.id == id {
            return true;
        }
    }
    false
}

/// Whether a part of the transaction is in the log of the home.
pub fn is_at(logs: &[Listed<Part>], home: u8, id: TxnId) -> bool
    ensures { IsTrue result ↔ HasPart (log_at logs.now home) id }
{
    match logs.get(home as usize) {
        Some(log) => has_part(log.as_slice(), id),
        None => false,
    }
}

/// Whether a part of the transaction is in the log of each of the homes.
fn is_at_all(logs: &[Listed<Part>], homes: &[u8], id: TxnId) -> bool
    ensures { IsTrue result ↔ AllIn (λ home. HasPart (log_at logs.now home) id) homes.now }
{
    for home in homes {
        if !is_at(logs, *home, id) {
            return false;
        }
    }
    true
}

/// Whether the part is one of the transaction, and each home that it names has a part of it.
fn shows_complete(logs: &[Listed<Part>], part: &Part, id: TxnId) -> bool
    ensures { IsTrue result ↔ ShowsComplete logs.now id part.now }
{
    part.id == id && is_at_all(logs, part.homes.as_slice(), id)
}

/// Whether some part in the log shows that the transaction is complete.
fn log_shows_complete(logs: &[Listed<Part>], log: &[Part], id: TxnId) -> bool
    ensures { IsTrue result ↔ AnyIn (ShowsComplete logs.now id) log.now }
{
    for part in log {
        if shows_complete(logs, part, id) {
            return true;
        }
    }
    false
}

/// Whether the transaction is complete: it has a part in the logs, and a part at each of its homes.
pub fn is_complete(logs: &[Listed<Part>], id: TxnId) -> bool
    ensures { IsTrue result ↔ IsComplete logs.now id }
{
    for log in logs {
        if log_shows_complete(logs, log.as_slice(), id) {
            return true;
        }
    }
    false
}

/// Whether each of the transactions is complete.
pub fn are_complete(logs: &[Listed<Part>], ids: &[TxnId]) -> bool
    ensures { IsTrue result ↔ AllIn (IsComplete logs.now) ids.now }
{
    for id in ids {
        if !is_complete(logs, *id) {
            return false;
        }
    }
    true
}

ghost use Rattle.std.specs.Prelude.{◌≡◌, ◌↔◌, IsTrue};
ghost use Rattle.dt_sched.specs.Views.{IsSooner, rank_of};
ghost use Rattle.dt_plain.specs.RanksInner.{first_rank};

use dt_access::{Part, TxnId};
use dt_text::Listed;

/// The rank of the first part of the transaction in the log, if it has one there.
fn first_rank(log: &[Part], id: TxnId) -> Option<u8>
    ensures { result ≡ first_rank log.now id }
{
    for part in log {
        if part.id == id {
            return Some(part.rank);
        }
    }
    None
}

/// The rank of the transaction: that of its parts, or 0 where it has none.
fn rank_of(logs: &[Listed<Part>], id: TxnId) -> u8
    ensures { result ≡ rank_of logs.now id }
{
    for log in logs {
        if let Some(rank) = first_rank(log.as_slice(), id) {
            return rank;
        }
    }
    0
}

/// Whether the one transaction is sooner than the other: by rank, then by id.
pub fn is_sooner(logs: &[Listed<Part>], left: TxnId, right: TxnId) -> bool
    ensures { IsTrue result ↔ IsSooner logs.now left right }
{
    let left_rank = rank_of(logs, left);
    let right_rank = rank_of(logs, right);
    left_rank < right_rank || left_rank == right_rank && left.before(&right)
}

//! Whether a part may be inserted after those that were.
ghost use Rattle.std.specs.Prelude.{◌≡◌, ◌↔◌, IsTrue};
ghost use Rattle.dt_lists.specs.Lists.{AllIn};
ghost use Rattle.dt_sched.specs.Sched.{CanInsert};
ghost use Rattle.dt_test_graph.specs.PartConditions.{IsAlike, IsShort};

use dt_access::Part;
use dt_plain::is_at;
use dt_test_texts::{are_below, has_home};
use dt_text::Listed;

fn same_homes(left: &[u8], right: &[u8]) -> bool
    ensures { IsTrue result ↔ (left.now ≡ right.now) }
{
    left == right
}

fn is_alike(part: &Part, other: &Part) -> bool
    ensures { IsTrue result ↔ IsAlike part.now other.now }
{
    other.id != part.id
        || same_homes(other.homes.as_slice(), part.homes.as_slice()) && other.rank == part.rank
}

fn log_is_alike(log: &[Part], part: &Part) -> bool
    ensures { IsTrue result ↔ AllIn (IsAlike part.now) log.now }
{
    for other in log {
        if !is_alike(part, other) {
            return false;
        }
    }
    true
}

fn are_alike(logs: &[Listed<Part>], part: &Part) -> bool
    ensures { IsTrue result ↔ AllIn (AllIn (IsAlike part.now)) logs.now }
{
    for log in logs {
        if !log_is_alike(log.as_slice(), part) {
            return false;
        }
    }
    true
}

fn are_short(logs: &[Listed<Part>]) -> bool
    ensures { IsTrue result ↔ AllIn IsShort logs.now }
{
    for log in logs {
        if log.len() >= 100 {
            return false;
        }
    }
    true
}

/// Whether the part may be inserted, where the logs are short and few.
pub fn fits(logs: &[Listed<Part>], part: &Part) -> bool
    ensures { IsTrue result → CanInsert logs.now part.now }
{
    if !has_home(part.homes.as_slice(), part.home) {
        return false;
    }
    if !are_below(part.homes.as_slice(), logs.len()) {
        return false;
    }
    if is_at(logs, part.home, part.id) {
        return false;
    }
    if logs.len() >= 100 || !are_short(logs) {
        return false;
    }
    are_alike(logs, part)
}

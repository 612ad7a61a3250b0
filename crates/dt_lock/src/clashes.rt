ghost use Rattle.std.specs.Prelude.{◌≡◌, map};
ghost use Rattle.std.specs.List.{list_any};
ghost use Rattle.dt_access.specs.Clash.{clash, granules_clash, rows_clash, uses_clash};
ghost use Rattle.dt_txn.specs.Transaction.{used_of};

use dt_access::{Access, granule_bytes};

/// Whether two access lists clash.
pub fn clash(left: &[Access], right: &[Access]) -> bool
    ensures { result ≡ clash (map used_of left.now) (map used_of right.now) }
{
    for entry in left {
        if clashes_with_some(entry, right) {
            return true;
        }
    }
    false
}

/// Whether an entry clashes with some entry of a list.
fn clashes_with_some(entry: &Access, others: &[Access]) -> bool
    ensures { result ≡ list_any (uses_clash (used_of entry.now)) (map used_of others.now) }
{
    for other in others {
        if rows_clash(entry, other) || granules_clash(entry, other) {
            return true;
        }
    }
    false
}

/// Whether two entries are of one row, and one of them may change it.
fn rows_clash(left: &Access, right: &Access) -> bool
    ensures { result ≡ rows_clash (used_of left.now) (used_of right.now) }
{
    left.key == right.key && (left.mode.may_change() || right.mode.may_change())
}

/// Whether two entries are of one granule, and one of them takes it as a whole.
fn granules_clash(left: &Access, right: &Access) -> bool
    ensures { result ≡ granules_clash (used_of left.now) (used_of right.now) }
{
    granule_bytes(left.key.bytes()) == granule_bytes(right.key.bytes())
        && (left.mode.is_whole() || right.mode.is_whole())
}

ghost use Rattle.std.specs.Prelude.{◌≡◌, ◌≤◌, [], ◌∷◌, ◌++◌, length};
ghost use Rattle.dt_access.specs.Clash.{clash};
ghost use Rattle.dt_access.specs.ClashSearchInner.{EndsAt, begins_with, has_granule, is_below, meet_on_row, takes_from};
ghost use Rattle.dt_access.specs.Orders.{HasAscendingKeys};

use crate::access::Mode;
use crate::granules::granule_bytes;
use crate::part::Part;
use dt_text::Key;
use std::cmp::Ordering;

/// Whether two parts clash: they use one row, and at least one of them does more than read it, or one of them takes a
/// granule as a whole of which the other uses a key. Takes no memory, and for n keys in both at most n log n steps.
pub fn clash(left: &Part, right: &Part) -> bool
    ensures { result ≡ clash left.now.keys right.now.keys }
{
    let left = left.keys.as_slice();
    let right = right.keys.as_slice();
    meet_on_row(left, right) || takes_from(left, right) || takes_from(right, left)
}

/// Whether two ascending lists of keys clash on a row, found by going along both.
fn meet_on_row(mut left: &[(Key, Mode)], mut right: &[(Key, Mode)]) -> bool
    requires left_ascends { HasAscendingKeys left.now }
    requires right_ascends { HasAscendingKeys right.now }
    ensures { result ≡ meet_on_row left.now right.now }
{
    while let Some(((left_key, left_mode), left_rest)) = left.split_first() {
        let Some(((right_key, right_mode), right_rest)) = right.split_first() else {
            return false;
        };
        match left_key.cmp(right_key) {
            Ordering::Less => left = left_rest,
            Ordering::Greater => right = right_rest,
            Ordering::Equal => {
                if left_mode.may_change() || right_mode.may_change() {
                    return true;
                }
                left = left_rest;
                right = right_rest;
            }
        }
    }
    false
}

/// Whether some entry of the one list takes a granule as a whole of which the other, ascending list has a key.
fn takes_from(takers: &[(Key, Mode)], keys: &[(Key, Mode)]) -> bool
    requires { HasAscendingKeys keys.now }
    ensures { result ≡ takes_from takers.now keys.now }
{
    for (key, mode) in takers {
        if mode.is_whole() && has_granule(keys, granule_bytes(key.bytes())) {
            return true;
        }
    }
    false
}

/// Whether an ascending list has a key of the granule. Such a key is the granule itself, or begins with it and a `/`; the
/// latter stand side by side, but other keys may stand between them and the granule itself, as `b-1` between `b` and
/// `b/1`. So each of the two is searched for, by halving.
fn has_granule(keys: &[(Key, Mode)], granule: &[u8]) -> bool
    requires { HasAscendingKeys keys.now }
    ensures { result ≡ has_granule keys.now granule.now }
{
    let itself = place_of(keys, granule);
    let rows = place_of_rows(keys, granule);
    begins_with(&keys[itself..], granule) || begins_with(&keys[rows..], granule)
}

/// The place of the first key that is not less than the granule, or the number of keys.
fn place_of(keys: &[(Key, Mode)], granule: &[u8]) -> usize
    requires { HasAscendingKeys keys.now }
    ensures within { result ≤ length keys.now }
    ensures first { EndsAt granule.now keys.now result }
{
    keys.partition_point(|entry| entry.0.bytes().cmp(granule).is_lt())
}

/// The place of the first key that is not less than those that begin with the granule and a `/`, or the number of keys.
fn place_of_rows(keys: &[(Key, Mode)], granule: &[u8]) -> usize
    requires { HasAscendingKeys keys.now }
    ensures within { result ≤ length keys.now }
    ensures first { EndsAt (granule.now ++ 47 ∷ []) keys.now result }
{
    keys.partition_point(|entry| is_before_rows(entry, granule))
}

/// Whether the first key of a list is of the granule.
fn begins_with(keys: &[(Key, Mode)], granule: &[u8]) -> bool
    ensures { result ≡ begins_with keys.now granule.now }
{
    match keys.first() {
        Some((key, _)) => granule_bytes(key.bytes()) == granule,
        None => false,
    }
}

/// Whether a key is less than all keys that begin with the granule and a `/`.
fn is_before_rows(entry: &(Key, Mode), granule: &[u8]) -> bool
    ensures { result ≡ is_below entry.now.0 (granule.now ++ 47 ∷ []) }
{
    let key = entry.0.bytes();
    match key.strip_prefix(granule) {
        Some(rest) => rest.cmp(b"/".as_slice()).is_lt(),
        None => key.cmp(granule).is_lt(),
    }
}

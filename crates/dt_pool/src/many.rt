ghost use Rattle.std.specs.Prelude.{◌≡◌, ◌<◌, ◌≤◌, ◌+◌, ℕ, All, Some, length, slice_get, slice_index_or, vec_capacity, vec_len};

use crate::helper::Helper;
use crate::lending::Lending;
use crate::link::Link;
use std::alloc::Global;
use std::sync::Wait;

/// Links for so many helpers, or for as many as there is memory for.
pub fn links<X>(alloc: Global, most: usize) -> Vec<Link<X>>
    ensures { vec_len result ≤ most }
{
    let mut links = Vec::new(alloc);
    while links.len() < most {
        let Ok(link) = Link::new(alloc) else {
            return links;
        };
        if links.push(link).is_err() {
            return links;
        }
    }
    links
}

/// Lends the last items of a list, one to each helper, in order. The list keeps the room that they leave.
pub fn lend_last<X: Drop, N: Lending<X>, R: Wait>(
    rt: &R,
    items: &mut Vec<X>,
    helpers: &mut [Helper<X, N>],
)
    requires many { length helpers.old ≤ vec_len items.old }
    requires can { All N.can items.old.items }
    ensures len { vec_len items.new + length helpers.new ≡ vec_len items.old }
    ensures helpers { length helpers.new ≡ length helpers.old }
    ensures room { vec_capacity items.new ≡ vec_capacity items.old }
    ensures front { (k : ℕ) (d : X) → k < vec_len items.new → slice_index_or items.new.items k d ≡ slice_index_or items.old.items k d }
    ensures lent { (k : ℕ) (d : X) → k < length helpers.new → slice_get helpers.new k ≡ Some (Some (slice_index_or items.old.items (vec_len items.new + k) d)) }
{
    let mut place = helpers.len();
    while place > 0 {
        place -= 1;
        match items.pop() {
            Some(item) => helpers[place].lend(rt, item),
            None => unreachable!(),
        }
    }
}

/// Takes back what was lent to each helper, and puts it behind the list, which has room for it.
pub fn take_back<X: Drop, N: Lending<X>, R: Wait>(
    rt: &R,
    items: &mut Vec<X>,
    helpers: &mut [Helper<X, N>],
)
    requires room { vec_len items.old + length helpers.old ≤ vec_capacity items.old }
    ensures len { vec_len items.new ≡ vec_len items.old + length helpers.old }
    ensures front { (k : ℕ) (d : X) → k < vec_len items.old → slice_index_or items.new.items k d ≡ slice_index_or items.old.items k d }
    ensures back { (k : ℕ) (d old : X) → k < length helpers.old → slice_get helpers.old k ≡ Some (Some old) → N.goes old (slice_index_or items.new.items (vec_len items.old + k) d) }
{
    for place in 0..helpers.len() {
        let item = helpers[place].take_back(rt);
        if items.push(item).is_err() {
            unreachable!();
        }
    }
}

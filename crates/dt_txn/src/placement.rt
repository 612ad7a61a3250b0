ghost use Rattle.std.specs.Prelude.{◌≡◌, ◌==◌, ◌≤◌, insert, IfSome, IfNone, nat_lt, IfOk, OnOk, OnErr, map, length};
ghost use Rattle.std.specs.List.{prefix_len};
ghost use Rattle.dt_txn.specs.Accesses.{AreAscendingAccesses};
ghost use Rattle.dt_txn.specs.Transaction.{homes_of, part_of, parts_of, set_of, with_number, targets_of, entries_at, used_of};

use crate::txn::{Body, Txn};
use dt_access::{Access, Homes, Keys, Part};
use dt_text::NoMemory;
use smallvec::SmallVec;
use std::alloc::Global;

/// A set of homes while it is gathered. One of a few takes no memory.
type HomeSet = SmallVec<u8, 8>;

/// The homes of a transaction, in ascending order: those of its keys, and for a move also its target.
pub fn homes(alloc: Global, txn: &Txn) -> Result<Homes, NoMemory>
    ensures { IfOk result (λ homes. homes ≡ homes_of txn.now) }
{
    let mut homes = targets(alloc, &txn.body)?;
    let access = txn.access.as_slice();
    let mut place = access.len();
    while place > 0 {
        place -= 1;
        add_home(&mut homes, access[place].home)?;
    }
    Homes::from_slice(alloc, homes.as_slice())
}

/// Where a move leads, if the body is one.
fn targets(alloc: Global, body: &Body) -> Result<HomeSet, NoMemory>
    ensures { IfOk result (λ targets. targets.items ≡ set_of (targets_of body.now)) }
{
    match body {
        Body::Call(_, _) => Ok(HomeSet::new(alloc)),
        Body::Move(_, target) => Ok(HomeSet::from_slice(alloc, &[*target])?),
    }
}

/// Adds a home to a set of homes that stand in ascending order.
fn add_home(homes: &mut HomeSet, home: u8) -> Result<(), NoMemory>
    ensures ok { OnOk result (homes.new.items ≡ with_number home homes.old.items) }
    ensures err { OnErr result (homes.new.items ≡ homes.old.items) }
{
    if let Some(place) = free_place(homes.as_slice(), home) {
        homes.insert(place, home)?;
    }
    Ok(())
}

/// Where a home goes into a set of homes that stand in ascending order; `None` where it is there already.
fn free_place(homes: &[u8], home: u8) -> Option<usize>
    ensures within { IfSome result (λ place. place ≤ length homes.now) }
    ensures place { IfSome result (λ place. insert homes.now place home ≡ with_number home homes.now) }
    ensures there { IfNone result (homes.now ≡ with_number home homes.now) }
{
    let place = place_of(homes, home);
    if place < homes.len() && homes[place] == home {
        return None;
    }
    Some(place)
}

/// The place of the first home that is not below this one, or their number.
fn place_of(homes: &[u8], home: u8) -> usize
    ensures within { result ≤ length homes.now }
    ensures first { result ≡ prefix_len (λ other. nat_lt other home) homes.now }
{
    homes.iter().take_while(|other| **other < home).count()
}

/// The keys with their modes of the part that a transaction with this body and access list has at a home.
fn keys_at(alloc: Global, body: &Body, home: u8, access: &[Access]) -> Result<Keys, NoMemory>
    requires { AreAscendingAccesses access.now }
    ensures { IfOk result (λ keys. keys ≡ map used_of (entries_at body.now home access.now)) }
{
    let is_move = matches!(body, Body::Move(_, _));
    let mut keys = Keys::new(alloc);
    for entry in access {
        if is_move || entry.home == home {
            keys.push((entry.key.copy(alloc)?, entry.mode))?;
        }
    }
    Ok(keys)
}

/// The part of a transaction at a home.
pub fn part_at(alloc: Global, txn: &Txn, home: u8) -> Result<Part, NoMemory>
    ensures { IfOk result (λ part. part ≡ part_of txn.now home) }
{
    part_with(alloc, txn, home, homes(alloc, txn)?)
}

/// The part of a transaction at a home, where `homes` are those of the transaction.
fn part_with(alloc: Global, txn: &Txn, home: u8, homes: Homes) -> Result<Part, NoMemory>
    requires { homes ≡ homes_of txn.now }
    ensures { IfOk result (λ part. part ≡ part_of txn.now home) }
{
    Ok(Part {
        id: txn.id,
        rank: txn.rank,
        home,
        keys: keys_at(alloc, &txn.body, home, txn.access.as_slice())?,
        homes,
    })
}

/// The parts of a transaction, one for each home, in ascending order of homes.
pub fn parts(alloc: Global, txn: &Txn) -> Result<Vec<Part>, NoMemory>
    ensures { IfOk result (λ parts. parts.items ≡ parts_of txn.now) }
{
    let homes = homes(alloc, txn)?;
    let mut parts = Vec::with_capacity(alloc, homes.as_slice().len())?;
    for home in homes.as_slice() {
        parts.push(part_with(alloc, txn, *home, homes.copy(alloc)?)?)?;
    }
    Ok(parts)
}

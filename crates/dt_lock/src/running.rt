ghost use Rattle.std.specs.Prelude.{◌≡◌, ◌↔◌, ◌<◌, [], ◌∷◌, ◌++◌, vec_len, vec_capacity, IsTrue};
ghost use Rattle.dt_lists.specs.Lists.{Has};
ghost use Rattle.dt_lock.specs.Held.{without_claim};

use dt_access::TxnId;
use dt_txn::{Seen, Seens};

/// A claim that is running, as the lock notes it: whose it is, and what its transaction saw.
#[derive(Drop)]
pub struct Running {
    pub id: TxnId,
    pub seen: Seens,
}

/// Whether a claim of this id, whose transaction saw just this, is running.
pub fn is_running(running: &[Running], id: TxnId, seen: &Seens) -> bool
    ensures { IsTrue result ↔ Has running.now (record { id = id; seen = seen.now }) }
{
    for one in running {
        if one.id == id && saw_alike(one.seen.as_slice(), seen.as_slice()) {
            return true;
        }
    }
    false
}

/// Takes off what is running of an id.
pub fn take_off(running: &mut Vec<Running>, id: TxnId)
    ensures { running.new.items ≡ without_claim id running.old.items }
{
    running.retain(|one| one.id != id);
}

/// Notes one more that is running, as the last one. Takes no memory where there is room.
pub fn note(running: &mut Vec<Running>, one: Running)
    requires { vec_len running.old < vec_capacity running.old }
    ensures { running.new.items ≡ running.old.items ++ one ∷ [] }
{
    match running.push(one) {
        Ok(()) => (),
        Err(_) => unreachable!(),
    }
}

// Whether two transactions saw the same.
fn saw_alike(left: &[Seen], right: &[Seen]) -> bool
    ensures { IsTrue result ↔ (left.now ≡ right.now) }
{
    left.len() == right.len() && left.iter().zip(right).all(|(one, other)| alike(one, other))
}

// Whether the same was seen at two entries.
fn alike(left: &Seen, right: &Seen) -> bool
    ensures { IsTrue result ↔ (left.now ≡ right.now) }
{
    left.unit == right.unit
        && left.value == right.value
        && left.counter == right.counter
        && left.mover == right.mover
}

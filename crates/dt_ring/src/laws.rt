//! What holds of all rings. A law is the contract of a function that does nothing, or what the body of one needs of a type.
ghost use Rattle.dt_ring.specs.Rings.{EndsStayEnds};

use crate::ends::{RingIn, RingOut};

/// The two ends of a ring stay so, whatever is put and taken while they are apart.
pub fn ends_stay_ends()
    ensures { EndsStayEnds }
{}

/// Each end of a ring may be moved to a thread of its own.
pub fn ends_may_move() {
    may_move::<RingOut>();
    may_move::<RingIn>();
}

/// Can be called for a type whose values may be moved to another thread, and does nothing.
fn may_move<T: Send>() {}

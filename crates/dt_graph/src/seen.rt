ghost use Rattle.std.specs.Prelude.{◌≡◌};
ghost use Rattle.std.specs.Borrow.{ftrue};
ghost use Rattle.dt_sched.specs.Sched.{Sched, nothing_yet};

use dt_access::{Part, TxnId};
use std::marker::Model;

/// What was inserted, resolved and done, for contracts to see. It has no bytes, and its methods do nothing at run time. The
/// model below says that it owns no memory; a type that has such a value needs one.
#[derive(Drop)]
pub struct Seen {
    pub ghost sched: { Sched },
}

impl Model for Seen {
    ghost also_owns = { λ _. ftrue };
}

/// A change of a scheduler.
#[derive(Clone, Copy, Drop)]
pub enum Change<'a> {
    Inserted(&'a Part),
    Resolved(&'a [TxnId]),
    Finished(TxnId),
}

impl Seen {
    ghost use Rattle.dt_graph.specs.SeenInner.{after_change};

    /// Nothing yet, of n regions.
    #[inline(always)]
    pub fn nothing(_regions: u8) -> Seen
        ensures { result.sched ≡ nothing_yet _regions }
    {
        Seen {}
    }

    /// What is seen after a change.
    #[inline(always)]
    pub fn after(&self, _change: &Change<'_>) -> Seen
        ensures { result.sched ≡ after_change self.now.sched _change.now }
    {
        Seen {}
    }
}

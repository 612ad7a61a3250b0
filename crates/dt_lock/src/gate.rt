use dt_access::TxnId;

/// What a worker passes between its work and its commit, outside the lock. It changes nothing that a contract sees; a test
/// sees by one how many workers are at work at once.
pub trait Gate: Sync {
    /// Called with the id of what was computed, before it is committed.
    fn between(&self, id: TxnId);

    /// Whether it may hold one worker until another comes. Then a round takes every call for a long one, so that each has a
    /// worker of its own, as far as there are workers.
    fn holds(&self) -> bool {
        true
    }
}

/// The gate that lets everyone pass.
#[derive(Clone, Copy, Debug)]
pub struct NoGate;

impl Gate for NoGate {
    fn between(&self, _id: TxnId) {}

    fn holds(&self) -> bool {
        false
    }
}

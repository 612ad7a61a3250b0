use dt_access::TxnId;
use dt_lock::Gate;
use std::sync::atomic::{AtomicU64, Ordering};

/// A gate at which the worker that comes first waits, for some time, for another one.
///
/// It notes how many workers passed, the numbers of their ids added up, and whether the first one met no other.
#[derive(Drop)]
pub struct Meeting {
    begun: AtomicU64,
    ids: AtomicU64,
    alone: AtomicU64,
}

impl Meeting {
    /// A gate that nobody has come to.
    pub fn new() -> Self {
        Meeting {
            begun: AtomicU64::new(0),
            ids: AtomicU64::new(0),
            alone: AtomicU64::new(0),
        }
    }

    /// Whether just the first two ids of a region passed, at once.
    pub fn has_seen_two(&self) -> bool {
        self.begun.load(Ordering::SeqCst) == 2
            && self.ids.load(Ordering::SeqCst) == 3
            && self.alone.load(Ordering::SeqCst) == 0
    }
}

// How often the first worker looks for a second one.
const LOOKS: u64 = 100000000;

impl Gate for Meeting {
    fn between(&self, id: TxnId) {
        self.ids.fetch_add(u64::from(id.seq), Ordering::SeqCst);
        if self.begun.fetch_add(1, Ordering::SeqCst) > 0 {
            return;
        }
        for _look in 0..LOOKS {
            if self.begun.load(Ordering::SeqCst) > 1 {
                return;
            }
        }
        self.alone.fetch_add(1, Ordering::SeqCst);
    }
}

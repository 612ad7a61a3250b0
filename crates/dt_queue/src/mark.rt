ghost use Rattle.std.specs.Prelude.{◌≡◌, if◌then◌else◌, Some, None};
ghost use Rattle.dt_queue.specs.LanesInner.{is_between};

use smallvec::SmallVec;

/// What a lane has of an entry: the number of its push, counted from 1, its slot, and the vertex that wants it.
#[derive(Clone, Copy, Default)]
pub struct Mark {
    pub number: u64,
    pub slot: usize,
    pub vertex: u32,
}

impl Mark {
    /// No entry's: its number is 0.
    pub fn none() -> Self
        ensures { result.number ≡ 0 }
    {
        Mark {
            number: 0,
            slot: 0,
            vertex: 0,
        }
    }

    /// The mark, if its number lies between the two.
    pub fn between(self, low: u64, high: u64) -> Option<Mark>
        ensures { result ≡ (if is_between low high self then Some self else None) }
    {
        if low < self.number && self.number < high {
            Some(self)
        } else {
            None
        }
    }
}

/// Marks that are found, of which up to two lie in the list itself: so most searches take no memory.
pub type Marks = SmallVec<Mark, 2>;

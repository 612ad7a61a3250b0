ghost use Rattle.std.specs.Prelude.{◌≡◌, ◌<◌, ◌≤◌, ◌==◌, [], ◌∷◌, ◌++◌, get_or, map, not, OnOk, OnErr};
ghost use Rattle.std.specs.List.{filter};
ghost use Rattle.dt_lists.specs.Lists.{AllIn};
ghost use Rattle.dt_queue.specs.LanesInner.{ChangesLane, IsFirstBetween, IsLastBetween, SameLanes};
ghost use Rattle.dt_queue.specs.NumbersInner.{IsGap, renumbered};

use crate::flags::{is_up, lower, raise};
use crate::lane::Lane;
use crate::lanes::{first_between, has_none, last_between, push_mark, remove_mark, renumber_mark};
use crate::mark::Mark;
use dt_text::NoMemory;
use std::alloc::Global;
use std::marker::Model;

/// Of each granule, by its number, the lane of those that wait to take it whole. Each push asks for the last of them, and at most
/// granules nothing waits so. Hence a flag tells of each granule whether something may wait there, and the lane is looked at only
/// where it is up: the flags of 64 granules lie in one line of the processor's cache, and of lanes not even two have room there.
#[derive(Drop)]
pub struct Wholes {
    lanes: Vec<Lane>,
    flags: Vec<bool>,
}

impl Model for Wholes {
    ghost use Rattle.std.specs.Prelude.{List};
    ghost use Rattle.dt_queue.specs.declared.mark.Mark.{Mark};
    ghost use Rattle.dt_queue.specs.WholesInner.{AreFlagsUp};

    ghost Value = { List (List Mark) };

    ghost view = { λ w. w.lanes.items };

    ghost invariant = { λ w. AreFlagsUp w.lanes.items w.flags.items };
}

impl Wholes {
    /// Nothing waits to take a granule whole. Takes no memory.
    pub fn new(alloc: Global) -> Self
        ensures { result ≡ [] }
    {
        Wholes {
            lanes: Vec::new(alloc),
            flags: Vec::new(alloc),
        }
    }

    /// Adds a mark at the back of the lane of a granule; after `NoMemory` each lane has the marks that it had.
    pub fn push(&mut self, alloc: Global, granule: usize, mark: Mark) -> Result<(), NoMemory>
        requires positive { 0 < mark.number }
        requires last { AllIn (λ m. m.number < mark.number) (get_or self.old granule []) }
        ensures added { OnOk result (ChangesLane self.old granule (get_or self.old granule [] ++ mark ∷ []) self.new) }
        ensures same { OnErr result (SameLanes self.old self.new) }
    {
        raise(&mut self.flags, granule)?;
        push_mark(alloc, &mut self.lanes, granule, mark)
    }

    /// Takes the mark of a number out of the lane of a granule, and its flag down where no mark is left. Takes no memory.
    pub fn remove(&mut self, granule: usize, number: u64)
        ensures { ChangesLane self.old granule (filter (λ m. not (m.number == number)) (get_or self.old granule [])) self.new }
    {
        remove_mark(&mut self.lanes, granule, number);
        if has_none(self.lanes.as_slice(), granule) {
            lower(&mut self.flags, granule);
        }
    }

    /// Gives the mark of a number of the lane of a granule a lesser number; no other of its marks lies between. Takes no memory.
    pub fn renumber(&mut self, granule: usize, number: u64, new: u64)
        requires positive { 0 < new }
        requires lesser { new ≤ number }
        requires gap { AllIn (IsGap number new) (get_or self.old granule []) }
        ensures { ChangesLane self.old granule (map (renumbered number new) (get_or self.old granule [])) self.new }
    {
        renumber_mark(&mut self.lanes, granule, number, new);
    }

    /// The last mark of the lane of a granule with a number between the two.
    #[inline(always)]
    pub fn last_between(&self, granule: usize, low: u64, high: u64) -> Option<Mark>
        ensures { IsLastBetween low high (get_or self.now granule []) result }
    {
        if is_up(self.flags.as_slice(), granule) {
            last_between(self.lanes.as_slice(), granule, low, high)
        } else {
            None
        }
    }

    /// The first mark of the lane of a granule with a number between the two.
    #[inline(always)]
    pub fn first_between(&self, granule: usize, low: u64, high: u64) -> Option<Mark>
        ensures { IsFirstBetween low high (get_or self.now granule []) result }
    {
        if is_up(self.flags.as_slice(), granule) {
            first_between(self.lanes.as_slice(), granule, low, high)
        } else {
            None
        }
    }
}

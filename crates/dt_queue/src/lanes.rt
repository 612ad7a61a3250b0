ghost use Rattle.std.specs.Prelude.{◌≡◌, ◌<◌, ◌≤◌, ◌==◌, [], ◌∷◌, ◌++◌, get_or, length, map, not, OnOk, OnErr};
ghost use Rattle.std.specs.List.{filter};
ghost use Rattle.dt_lists.specs.Lists.{AllIn};
ghost use Rattle.dt_queue.specs.LanesInner.{ChangesLane, IsFirstBetween, IsLastBetween, SameLanes};
ghost use Rattle.dt_queue.specs.NumbersInner.{IsGap, renumbered};

use crate::lane::Lane;
use crate::mark::Mark;
use dt_text::NoMemory;
use std::alloc::Global;

/// Adds a mark at the back of the lane at a place; after `NoMemory` each lane has the marks that it had.
#[inline(always)]
pub fn push_mark(
    alloc: Global,
    lanes: &mut Vec<Lane>,
    place: usize,
    mark: Mark,
) -> Result<(), NoMemory>
    requires positive { 0 < mark.number }
    requires last { AllIn (λ m. m.number < mark.number) (get_or lanes.old.items place []) }
    ensures added { OnOk result (ChangesLane lanes.old.items place (get_or lanes.old.items place [] ++ mark ∷ []) lanes.new.items) }
    ensures same { OnErr result (SameLanes lanes.old.items lanes.new.items) }
{
    while lanes.len() <= place {
        lanes.push(Lane::new())?;
    }
    lanes[place].push(alloc, mark)
}

/// Takes the mark of a number out of the lane at a place. Takes no memory.
pub fn remove_mark(lanes: &mut Vec<Lane>, place: usize, number: u64)
    ensures { ChangesLane lanes.old.items place (filter (λ m. not (m.number == number)) (get_or lanes.old.items place [])) lanes.new.items }
{
    if place < lanes.len() {
        lanes[place].remove(number);
    }
}

/// Gives the mark of a number of the lane at a place a lesser number; no other of its marks lies between. Takes no memory.
pub fn renumber_mark(lanes: &mut Vec<Lane>, place: usize, number: u64, new: u64)
    requires positive { 0 < new }
    requires lesser { new ≤ number }
    requires gap { AllIn (IsGap number new) (get_or lanes.old.items place []) }
    ensures { ChangesLane lanes.old.items place (map (renumbered number new) (get_or lanes.old.items place [])) lanes.new.items }
{
    if place < lanes.len() {
        lanes[place].renumber(number, new);
    }
}

/// Whether the lane at a place has no mark.
pub fn has_none(lanes: &[Lane], place: usize) -> bool
    ensures { result ≡ (length (get_or lanes.now place []) == 0) }
{
    match lanes.get(place) {
        Some(lane) => lane.is_empty(),
        None => true,
    }
}

/// The last mark of the lane at a place with a number between the two.
#[inline(always)]
pub fn last_between(lanes: &[Lane], place: usize, low: u64, high: u64) -> Option<Mark>
    ensures { IsLastBetween low high (get_or lanes.now place []) result }
{
    lanes.get(place)?.last_between(low, high)
}

/// The first mark of the lane at a place with a number between the two.
#[inline(always)]
pub fn first_between(lanes: &[Lane], place: usize, low: u64, high: u64) -> Option<Mark>
    ensures { IsFirstBetween low high (get_or lanes.now place []) result }
{
    lanes.get(place)?.first_between(low, high)
}

ghost use Rattle.std.specs.Prelude.{◌≡◌, ◌≢◌, ◌⊎◌, [], ℕ, Some, IsFalse, IsTrue, get_or};
ghost use Rattle.dt_lists.specs.Place.{place_before};

use dt_text::NoMemory;
use std::alloc::Global;
use std::marker::Model;

/// How far past the end of its list a number may stand so that the list is made longer for it.
const REACH: usize = 1024;

/// The places of the ids of one region, by their numbers: 0 stands for none, and n + 1 for the place n. The numbers past the end
/// have none.
#[derive(Drop)]
pub struct Places {
    kept: Vec<u32>,
}

impl Model for Places {
    ghost use Rattle.std.specs.Prelude.{List, ℕ};

    ghost Value = { List ℕ };

    ghost view = { λ p. p.kept.items };
}

impl Places {
    /// No number has a place. Takes no memory.
    pub fn new(alloc: Global) -> Self
        ensures { result ≡ [] }
    {
        Places {
            kept: Vec::new(alloc),
        }
    }

    /// The place of a number, if it has one.
    pub fn get(&self, number: u32) -> Option<usize>
        ensures { result ≡ place_before (get_or self.now number 0) }
    {
        let kept = self.kept.as_slice().get(number as usize)?;
        let place = kept.checked_sub(1)?;
        Some(place as usize)
    }

    /// Makes the list long enough for a number, unless that is far beyond its end. Each number keeps its place, also after
    /// `NoMemory`.
    pub fn reach(&mut self, number: u32) -> Result<(), NoMemory>
        ensures { (other : ℕ) → get_or self.new other 0 ≡ get_or self.old other 0 }
    {
        let number = number as usize;
        let end = self.kept.len();
        if number < end || REACH < number - end {
            return Ok(());
        }
        self.kept.resize(number + 1, 0)?;
        Ok(())
    }

    /// Gives a number this place, if the list is long enough and the place fits, and says whether that is so; else the number
    /// has none. Takes no memory.
    pub fn put(&mut self, number: u32, place: usize) -> bool
        ensures put { IsTrue result → place_before (get_or self.new number 0) ≡ Some place }
        ensures none { IsFalse result → get_or self.new number 0 ≡ 0 }
        ensures others { (other : ℕ) → other ≢ number → get_or self.new other 0 ≡ get_or self.old other 0 }
    {
        if number as usize >= self.kept.len() {
            return false;
        }
        let kept = kept_for(place);
        self.kept[number as usize] = kept;
        kept != 0
    }
}

/// What stands for a place, or 0 if the place does not fit.
fn kept_for(place: usize) -> u32
    ensures { (result ≡ 0) ⊎ (place_before result ≡ Some place) }
{
    if place < u32::MAX as usize {
        place as u32 + 1
    } else {
        0
    }
}

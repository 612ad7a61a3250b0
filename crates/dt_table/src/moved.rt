//! Guesses where the moved units of a table stand, so that few are looked up by hashing, and most that never moved not at all.
ghost use Rattle.std.specs.Prelude.{◌≡◌, ◌<◌, ℕ, IsSome, OnErr};
ghost use Rattle.dt_table.specs.MovedPlacesInner.{unit_number, IsNoted};

use dt_text::NoMemory;
use std::alloc::Global;
use std::marker::Model;

/// How many numbers the units have.
const NUMBERS: usize = 16_384;

/// A list of the places at which units stand. Each unit has a number, by its bytes, and may share it with others. Where none of
/// a number was noted, the unit is not among those that were. Else it may stand at the place that was noted last, or elsewhere.
///
/// Contracts see the list.
#[derive(Drop)]
pub struct MovedPlaces {
    /// For each number one more than the place that was noted last, or 0. Before the list is made it is empty, and any unit
    /// may stand anywhere.
    after: Vec<u32>,
}

impl Model for MovedPlaces {
    ghost use Rattle.std.specs.Prelude.{List, ℕ};

    ghost Value = { List ℕ };

    ghost view = { λ m. m.after.items };
}

impl MovedPlaces {
    /// No list yet, and no memory.
    pub fn new(alloc: Global) -> Self {
        MovedPlaces {
            after: Vec::new(alloc),
        }
    }

    /// Whether the list is made.
    pub fn is_made(&self) -> bool {
        !self.after.is_empty()
    }

    /// Makes the list, in which no unit is noted.
    pub fn make(&mut self) -> Result<(), NoMemory>
        ensures { OnErr result (self.new ≡ self.old) }
    {
        self.after.resize(NUMBERS, 0)?;
        Ok(())
    }

    /// A place at which a unit of this number may stand. None only if no unit of this number was noted.
    pub fn guess(&self, number: usize) -> Option<usize>
        ensures { IsNoted self.now number → IsSome result }
    {
        match self.after.get(number) {
            Some(after) => (*after as usize).checked_sub(1),
            None => Some(0),
        }
    }

    /// Notes at which place a unit of this number stands, if the list is made. Takes no memory.
    pub fn note(&mut self, number: usize, place: usize)
        ensures number { IsNoted self.new number }
        ensures others { (other : ℕ) → IsNoted self.old other → IsNoted self.new other }
    {
        if number < self.after.len() {
            self.after[number] = u32::try_from(place).unwrap_or(0).saturating_add(1);
        }
    }
}

/// The number of the unit of these bytes.
pub fn number_of(unit: &[u8]) -> usize
    ensures { result ≡ unit_number unit.now }
{
    let mut number = 0;
    for byte in unit {
        number = (number * 31 + *byte as usize) % NUMBERS;
    }
    number
}

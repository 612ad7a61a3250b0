ghost use Rattle.std.specs.Prelude.{◌≡◌, ◌<◌, ◌^◌, length, IfOk, MatchOption};
ghost use Rattle.dt_text.specs.Texts.{IsName};

use dt_text::{Name, NoMemory, are_same};
use std::alloc::Global;

/// How many names are kept at most.
const PLACES: usize = 1024;

/// Names that were read of late, each at the place that its bytes give. The same name again is had in common with the one
/// before, and takes no memory.
#[derive(Drop)]
pub(crate) struct RecentNames {
    places: Vec<Option<Name>>,
}

impl RecentNames {
    /// Before any name was read.
    pub(crate) fn new(alloc: Global) -> Result<Self, NoMemory> {
        let mut places = Vec::with_capacity(alloc, PLACES)?;
        for _place in 0..PLACES {
            places.push(None)?;
        }
        Ok(RecentNames { places })
    }

    /// Reads a name.
    pub(crate) fn read(&mut self, alloc: Global, word: &[u8]) -> Result<Option<Name>, NoMemory>
        requires { length word.now < 2 ^ 32 }
        ensures { IfOk result (λ name. MatchOption name (¬ IsName word.now) (λ n. IsName n × (n ≡ word.now))) }
    {
        let place = place_of(word);
        if let Some(Some(known)) = self.places.get(place) {
            if are_same(known.bytes(), word) {
                return Ok(Some(known.copy(alloc)?));
            }
        }
        let Some(name) = read_name(alloc, word)? else {
            return Ok(None);
        };
        self.keep(place, name.copy(alloc)?);
        Ok(Some(name))
    }

    /// Keeps a name at a place, instead of the one there.
    fn keep(&mut self, place: usize, name: Name) {
        if let Some(kept) = self.places.get_mut(place) {
            *kept = Some(name);
        }
    }
}

/// The place of a name with these bytes. Names that differ in a byte seldom have the same.
fn place_of(bytes: &[u8]) -> usize {
    let mut spread: usize = 0;
    for byte in bytes {
        spread = spread.wrapping_mul(31).wrapping_add(usize::from(*byte));
    }
    spread % PLACES
}

/// Reads a name of which nothing is known.
fn read_name(alloc: Global, word: &[u8]) -> Result<Option<Name>, NoMemory>
    requires { length word.now < 2 ^ 32 }
    ensures { IfOk result (λ name. MatchOption name (¬ IsName word.now) (λ n. IsName n × (n ≡ word.now))) }
{
    if !Name::is_name(word) {
        return Ok(None);
    }
    Ok(Some(Name::new(alloc, word)?))
}

use dt_text::NoMemory;
use std::alloc::Global;

/// From which number on a hint is not noted, so that a great one takes no room.
const MOST: usize = 65_536;

/// Where what is kept of a key was found last, by the hint of the key. What is given is a guess: whoever asks has to compare.
#[derive(Drop)]
pub struct Hints {
    /// For each hint one more than the place, or 0.
    after: Vec<u32>,
}

impl Hints {
    /// Before anything was found. Takes no memory.
    pub fn new(alloc: Global) -> Self {
        Hints {
            after: Vec::new(alloc),
        }
    }

    /// The guess for a hint, if there is one. Takes no memory.
    pub fn get(&self, hint: u32) -> Option<usize> {
        let after = *self.after.get(hint as usize)?;
        (after as usize).checked_sub(1)
    }

    /// Notes where something of a key with this hint was found. The hint 0 is that of keys without one.
    pub fn note(&mut self, hint: u32, place: usize) -> Result<(), NoMemory> {
        let hint = hint as usize;
        if hint == 0 || hint >= MOST {
            return Ok(());
        }
        let Some(after) = place.checked_add(1) else {
            return Ok(());
        };
        let Ok(after) = u32::try_from(after) else {
            return Ok(());
        };
        if self.after.len() <= hint {
            self.after.resize(hint + 1, 0)?;
        }
        self.after[hint] = after;
        Ok(())
    }
}

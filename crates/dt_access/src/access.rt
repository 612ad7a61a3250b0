ghost use Rattle.std.specs.Prelude.{◌≡◌, IfOk};
ghost use Rattle.dt_access.specs.Clash.{is_whole, may_change};

use crate::copies::TryCopy;
use dt_text::{Key, NoMemory};
use std::alloc::Global;

/// What a transaction does with a row: it reads it, it may also write it, or it takes the row's whole granule, as a move
/// does that takes along all rows of it.
#[derive(Clone, Copy, Debug, PartialEq, Eq)]
pub enum Mode {
    Read,
    Write,
    Whole,
}

impl Mode {
    /// Whether a use in this mode may change the row: its value, or its home by a move. Takes no memory.
    pub fn may_change(&self) -> bool
        ensures { result ≡ may_change self.now }
    {
        !matches!(self, Mode::Read)
    }

    /// Whether the mode takes all rows of the key's granule. Takes no memory.
    pub fn is_whole(&self) -> bool
        ensures { result ≡ is_whole self.now }
    {
        matches!(self, Mode::Whole)
    }
}

impl TryCopy for Mode {
    fn copy(&self, _alloc: Global) -> Result<Self, NoMemory> {
        Ok(*self)
    }
}

/// One row that a transaction uses, with the home and the number of moves that the submitting region knew.
#[derive(Debug, PartialEq, Eq, Drop)]
pub struct Access {
    pub key: Key,
    pub mode: Mode,
    pub home: u8,
    pub counter: u32,
}

impl Access {
    /// An equal entry.
    pub fn copy(&self, alloc: Global) -> Result<Self, NoMemory>
        ensures { IfOk result (λ copied. copied ≡ self.now) }
    {
        Ok(Access {
            key: self.key.copy(alloc)?,
            mode: self.mode,
            home: self.home,
            counter: self.counter,
        })
    }
}

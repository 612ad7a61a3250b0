use crate::no_memory::NoMemory;
use std::fmt;

/// Why bytes are no key or no name.
#[derive(Clone, Copy, Debug, PartialEq, Eq)]
pub enum KeyError {
    /// There is no byte.
    Empty,
    /// There are more bytes than a key or a name has.
    Long,
    /// The byte at this place, counted from 0, is not allowed, and each byte before it is.
    BadByte(u32),
    /// Memory ran out.
    NoMemory,
}

/// Why bytes are no text.
#[derive(Clone, Copy, Debug, PartialEq, Eq)]
pub enum StrError {
    /// There are more bytes than a text has.
    Long,
    /// The byte at this place, counted from 0, is not allowed, and each byte before it is.
    BadByte(u32),
    /// Memory ran out.
    NoMemory,
}

impl fmt::Display for KeyError {
    fn fmt<W: fmt::Write>(&self, f: &mut fmt::Formatter<W>) -> fmt::Result {
        match self {
            KeyError::Empty => write!(f, "no bytes"),
            KeyError::Long => write!(f, "too many bytes"),
            KeyError::BadByte(place) => write!(f, "bad byte at {place}"),
            KeyError::NoMemory => write!(f, "no memory"),
        }
    }
}

impl std::error::Error for KeyError {}

impl fmt::Display for StrError {
    fn fmt<W: fmt::Write>(&self, f: &mut fmt::Formatter<W>) -> fmt::Result {
        match self {
            StrError::Long => write!(f, "too many bytes"),
            StrError::BadByte(place) => write!(f, "bad byte at {place}"),
            StrError::NoMemory => write!(f, "no memory"),
        }
    }
}

impl std::error::Error for StrError {}

impl From<NoMemory> for KeyError {
    ghost use Rattle.std.specs.Prelude.{◌≡◌};
    ghost use Rattle.dt_text.specs.declared.errors.KeyError.TheVariants.{NoMemory};

    ghost from_gives = { λ _ e. e ≡ NoMemory };

    fn from(_error: NoMemory) -> Self {
        KeyError::NoMemory
    }
}

impl From<NoMemory> for StrError {
    ghost use Rattle.std.specs.Prelude.{◌≡◌};
    ghost use Rattle.dt_text.specs.declared.errors.StrError.TheVariants.{NoMemory};

    ghost from_gives = { λ _ e. e ≡ NoMemory };

    fn from(_error: NoMemory) -> Self {
        StrError::NoMemory
    }
}

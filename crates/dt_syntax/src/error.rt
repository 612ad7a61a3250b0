use dt_text::NoMemory;
use std::alloc::{AllocError, AllocFailed};
use thiserror::Error;

/// Why the first pass refuses a text: the place of the fault, in bytes from the text's front, or that
/// memory ran out.
#[derive(Clone, Copy, Debug, PartialEq, Eq, Error)]
pub enum SyntaxError {
    /// No procedures begin with the tokens up to this place, or no token is there.
    #[error("syntax at byte {0}")]
    Syntax(u32),
    /// What begins at this place is one too many.
    #[error("too many at byte {0}")]
    TooMany(u32),
    /// Memory ran out.
    #[error("no memory")]
    NoMemory,
}

impl From<NoMemory> for SyntaxError {
    ghost use Rattle.std.specs.Prelude.{◌≡◌};
    ghost use Rattle.dt_syntax.specs.declared.error.SyntaxError.TheVariants.{NoMemory};

    ghost from_gives = { λ _ e. e ≡ NoMemory };

    fn from(_error: NoMemory) -> Self {
        SyntaxError::NoMemory
    }
}

impl From<AllocError> for SyntaxError {
    ghost use Rattle.std.specs.Prelude.{◌≡◌};
    ghost use Rattle.dt_syntax.specs.declared.error.SyntaxError.TheVariants.{NoMemory};

    ghost from_gives = { λ _ e. e ≡ NoMemory };

    fn from(_error: AllocError) -> Self {
        SyntaxError::NoMemory
    }
}

impl<T: Drop> From<AllocFailed<T>> for SyntaxError {
    ghost use Rattle.std.specs.Prelude.{◌≡◌};
    ghost use Rattle.dt_syntax.specs.declared.error.SyntaxError.TheVariants.{NoMemory};

    ghost from_gives = { λ _ e. e ≡ NoMemory };

    fn from(_error: AllocFailed<T>) -> Self {
        SyntaxError::NoMemory
    }
}

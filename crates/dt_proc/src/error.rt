use dt_syntax::SyntaxError;
use dt_text::NoMemory;
use std::alloc::{AllocError, AllocFailed};
use thiserror::Error;

/// Why a text is no procedures: the place of the fault, in bytes from the text's front, or that memory ran out.
#[derive(Clone, Copy, Debug, PartialEq, Eq, Error)]
pub enum ProcError {
    /// No procedures begin with the tokens up to this place, or no token is there.
    #[error("syntax at byte {0}")]
    Syntax(u32),
    /// The name at this place is not visible there.
    #[error("unknown name at byte {0}")]
    Unknown(u32),
    /// The operator, word or name at this place does not fit what it stands with.
    #[error("wrong kind at byte {0}")]
    Kind(u32),
    /// The name at this place is visible there already.
    #[error("name used twice at byte {0}")]
    Twice(u32),
    /// What begins at this place is one too many.
    #[error("too many at byte {0}")]
    TooMany(u32),
    /// Memory ran out.
    #[error("no memory")]
    NoMemory,
}

impl From<NoMemory> for ProcError {
    ghost use Rattle.std.specs.Prelude.{◌≡◌};
    ghost use Rattle.dt_proc.specs.declared.error.ProcError.TheVariants.{NoMemory};

    ghost from_gives = { λ _ e. e ≡ NoMemory };

    fn from(_error: NoMemory) -> Self {
        ProcError::NoMemory
    }
}

impl From<AllocError> for ProcError {
    ghost use Rattle.std.specs.Prelude.{◌≡◌};
    ghost use Rattle.dt_proc.specs.declared.error.ProcError.TheVariants.{NoMemory};

    ghost from_gives = { λ _ e. e ≡ NoMemory };

    fn from(_error: AllocError) -> Self {
        ProcError::NoMemory
    }
}

impl<T: Drop> From<AllocFailed<T>> for ProcError {
    ghost use Rattle.std.specs.Prelude.{◌≡◌};
    ghost use Rattle.dt_proc.specs.declared.error.ProcError.TheVariants.{NoMemory};

    ghost from_gives = { λ _ e. e ≡ NoMemory };

    fn from(_error: AllocFailed<T>) -> Self {
        ProcError::NoMemory
    }
}

impl From<SyntaxError> for ProcError {
    ghost use Rattle.std.specs.Prelude.{◌≡◌};
    ghost use Rattle.dt_proc.specs.Outcome.{told_first};

    ghost from_gives = { λ s e. e ≡ told_first s };

    fn from(error: SyntaxError) -> Self {
        match error {
            SyntaxError::Syntax(place) => ProcError::Syntax(place),
            SyntaxError::TooMany(place) => ProcError::TooMany(place),
            SyntaxError::NoMemory => ProcError::NoMemory,
        }
    }
}

ghost use Rattle.std.specs.Prelude.{◌≡◌, ◌≢◌};

use std::alloc::AllocError;
use std::{fmt, io};

/// The device failed. Its count of faults shows that it did.
#[derive(Clone, Copy, Debug, PartialEq, Eq)]
pub struct Failed;

impl fmt::Display for Failed {
    fn fmt<W: fmt::Write>(&self, f: &mut fmt::Formatter<W>) -> fmt::Result {
        write!(f, "the device failed")
    }
}

impl std::error::Error for Failed {}

/// Why a file was not loaded.
#[derive(Clone, Copy, Debug, PartialEq, Eq)]
pub enum LoadError {
    /// The file is missing or could not be read; the folder's count of faults rose.
    Failed,
    /// The file is longer than the limit.
    TooLong,
    /// Memory ran out.
    NoMemory,
}

impl fmt::Display for LoadError {
    fn fmt<W: fmt::Write>(&self, f: &mut fmt::Formatter<W>) -> fmt::Result {
        match self {
            LoadError::Failed => write!(f, "the file could not be read"),
            LoadError::TooLong => write!(f, "the file is too long"),
            LoadError::NoMemory => write!(f, "no memory"),
        }
    }
}

impl std::error::Error for LoadError {}

impl From<AllocError> for LoadError {
    ghost use Rattle.dt_outside.specs.declared.failures.LoadError.{LoadError};

    ghost from_gives = { λ _ error. error ≡ LoadError.NoMemory };

    fn from(_error: AllocError) -> Self {
        LoadError::NoMemory
    }
}

impl From<io::Error> for LoadError {
    ghost use Rattle.std.specs.IoError.{error_kind};
    ghost use Rattle.std.specs.declared.io.ErrorKind.{ErrorKind};
    ghost use Rattle.dt_outside.specs.declared.failures.LoadError.{LoadError};

    // Running out of memory stays what it is; every other cause is a failure.
    ghost from_gives = { λ cause error.
        (error_kind cause ≡ ErrorKind.OutOfMemory → error ≡ LoadError.NoMemory)
        × (error_kind cause ≢ ErrorKind.OutOfMemory → error ≡ LoadError.Failed) };

    fn from(error: io::Error) -> Self {
        match error.kind() {
            io::ErrorKind::OutOfMemory => LoadError::NoMemory,
            _ => LoadError::Failed,
        }
    }
}

ghost use Rattle.std.specs.Prelude.{◌≡◌};

use dt_text::NoMemory;
use std::alloc::AllocFailed;
use std::fmt;

/// What is wrong with a line of a workload file.
#[derive(Clone, Copy, Debug, PartialEq, Eq)]
pub enum WorkloadCause {
    /// The file has more than 16 MiB.
    TooLong,
    /// The line has none of the forms.
    Form,
    /// The word is no name of a session.
    Name,
    /// Another session has the name.
    Twice,
    /// The number is not below the number of regions.
    Region,
    /// It is one session of a region, or one call or move, too many.
    TooMany,
    /// No session comes before.
    NoSession,
    /// No procedure has the name.
    Proc,
    /// The arguments are not those of the procedure.
    Args,
    /// A word, or what a key expression gives, is no key.
    Key,
}

impl WorkloadCause {
    ghost use Rattle.dt_workload.specs.CauseTexts.{workload_text};

    /// The cause in words. Takes no memory.
    pub fn text(self) -> &'static str
        ensures { result.now ≡ workload_text self }
    {
        match self {
            WorkloadCause::TooLong => "too long",
            WorkloadCause::Form => "no line of a workload",
            WorkloadCause::Name => "no name",
            WorkloadCause::Twice => "name used twice",
            WorkloadCause::Region => "no region",
            WorkloadCause::TooMany => "too many",
            WorkloadCause::NoSession => "no session",
            WorkloadCause::Proc => "unknown procedure",
            WorkloadCause::Args => "wrong arguments",
            WorkloadCause::Key => "no key",
        }
    }
}

impl fmt::Display for WorkloadCause {
    fn fmt<W: fmt::Write>(&self, f: &mut fmt::Formatter<W>) -> fmt::Result {
        f.write_str(self.text())
    }
}

/// Why a file is no workload.
#[derive(Clone, Copy, Debug, PartialEq, Eq)]
pub enum WorkloadError {
    /// The line with this number, counted from 1, is the first that is at fault, by this cause.
    Fault(u32, WorkloadCause),
    /// Memory ran out.
    NoMemory,
}

impl fmt::Display for WorkloadError {
    fn fmt<W: fmt::Write>(&self, f: &mut fmt::Formatter<W>) -> fmt::Result {
        match self {
            WorkloadError::Fault(line, cause) => write!(f, "line {line}: {cause}"),
            WorkloadError::NoMemory => write!(f, "no memory"),
        }
    }
}

impl std::error::Error for WorkloadError {}

impl From<NoMemory> for WorkloadError {
    ghost use Rattle.std.specs.Prelude.{◌≡◌};
    ghost use Rattle.dt_workload.specs.declared.error.WorkloadError.TheVariants.{NoMemory as OutOfMemory};

    ghost from_gives = { λ _ e. e ≡ OutOfMemory };

    fn from(_error: NoMemory) -> Self {
        WorkloadError::NoMemory
    }
}

/// Why a line cannot continue a workload.
#[derive(Clone, Copy)]
pub(crate) enum Refusal {
    /// The line is at fault.
    Cause(WorkloadCause),
    /// Memory ran out.
    NoMemory,
}

impl From<NoMemory> for Refusal {
    ghost use Rattle.std.specs.Prelude.{◌≡◌};
    ghost use Rattle.dt_workload.specs.declared.error.Refusal.TheVariants.{NoMemory as OutOfMemory};

    ghost from_gives = { λ _ e. e ≡ OutOfMemory };

    fn from(_error: NoMemory) -> Self {
        Refusal::NoMemory
    }
}

impl<T: Drop> From<AllocFailed<T>> for Refusal {
    ghost use Rattle.std.specs.Prelude.{◌≡◌};
    ghost use Rattle.dt_workload.specs.declared.error.Refusal.TheVariants.{NoMemory as OutOfMemory};

    ghost from_gives = { λ _ e. e ≡ OutOfMemory };

    fn from(_error: AllocFailed<T>) -> Self {
        Refusal::NoMemory
    }
}

ghost use Rattle.std.specs.Prelude.{◌≡◌, IfOk};

use dt_text::{NoMemory, is_visible};
use std::alloc::{AllocError, AllocFailed, Global};
use std::fmt;
use std::marker::Model;

/// The name of an entry, as the file gives it. Contracts see its bytes.
#[derive(Debug, Drop)]
pub struct Label {
    bytes: Vec<u8>,
}

impl Model for Label {
    ghost use Rattle.std.specs.Prelude.{ℕ, List};

    ghost Value = { List ℕ };

    ghost view = { λ l. l.bytes.items };
}

impl Label {
    /// The label of these bytes.
    pub(crate) fn new(alloc: Global, bytes: &[u8]) -> Result<Self, NoMemory>
        ensures { IfOk result (λ label. label ≡ bytes.now) }
    {
        Ok(Label {
            bytes: Vec::from_slice(alloc, bytes)?,
        })
    }

    /// The bytes of the name.
    pub fn bytes(&self) -> &[u8]
        ensures { result.now ≡ self.now }
    {
        self.bytes.as_slice()
    }
}

impl fmt::Display for Label {
    /// Writes the name, in which every byte that is not a visible ASCII character becomes `?`.
    fn fmt<W: fmt::Write>(&self, f: &mut fmt::Formatter<W>) -> fmt::Result {
        for byte in self.bytes() {
            let shown = if is_visible(*byte) { *byte } else { b'?' };
            f.write_char(char::from(shown))?;
        }
        Ok(())
    }
}

/// Where a cluster file is at fault.
#[derive(Debug, Drop)]
pub enum ClusterPlace {
    /// The file as a whole.
    Whole,
    /// The entry of this name at the top.
    Entry(Label),
    /// The entry of this name in `homes`.
    Home(Label),
    /// The entry of this name in `rows`.
    Row(Label),
    /// This byte of the procedures' text, counted from 0.
    Procs(u32),
}

impl fmt::Display for ClusterPlace {
    fn fmt<W: fmt::Write>(&self, f: &mut fmt::Formatter<W>) -> fmt::Result {
        match self {
            ClusterPlace::Whole => write!(f, "file"),
            ClusterPlace::Entry(name) => write!(f, "{name}"),
            ClusterPlace::Home(name) => write!(f, "homes.{name}"),
            ClusterPlace::Row(name) => write!(f, "rows.{name}"),
            ClusterPlace::Procs(at) => write!(f, "procs byte {at}"),
        }
    }
}

/// What is wrong at a place of a cluster file.
#[derive(Clone, Copy, Debug, PartialEq, Eq)]
pub enum ClusterCause {
    /// The file has more than 16 MiB.
    TooLong,
    /// The bytes are no document of TOML.
    NotToml,
    /// No entry has this name.
    Unknown,
    /// The entry has to be there.
    Missing,
    /// The value is of another kind.
    Kind,
    /// The number is not one that is allowed.
    Range,
    /// The name is no key.
    BadKey,
    /// The string is too long for a text, or has a byte that no text has.
    BadText,
    /// No procedures begin so.
    Syntax,
    /// The name is not visible there.
    UnknownName,
    /// The name is taken.
    Twice,
    /// It is one too many.
    TooMany,
}

impl ClusterCause {
    ghost use Rattle.dt_cluster_file.specs.CauseTexts.{cluster_text};

    /// The cause in words. Takes no memory.
    pub fn text(self) -> &'static str
        ensures { result.now ≡ cluster_text self }
    {
        match self {
            ClusterCause::TooLong => "too long",
            ClusterCause::NotToml => "no toml",
            ClusterCause::Unknown => "unknown entry",
            ClusterCause::Missing => "missing",
            ClusterCause::Kind => "wrong kind",
            ClusterCause::Range => "out of range",
            ClusterCause::BadKey => "no key",
            ClusterCause::BadText => "no text",
            ClusterCause::Syntax => "syntax",
            ClusterCause::UnknownName => "unknown name",
            ClusterCause::Twice => "name used twice",
            ClusterCause::TooMany => "too many",
        }
    }
}

impl fmt::Display for ClusterCause {
    fn fmt<W: fmt::Write>(&self, f: &mut fmt::Formatter<W>) -> fmt::Result {
        f.write_str(self.text())
    }
}

/// The first fault of a cluster file.
#[derive(Debug, Drop)]
pub struct ClusterFault {
    pub place: ClusterPlace,
    pub cause: ClusterCause,
}

/// Why a file is no cluster.
#[derive(Debug, Drop)]
pub enum ClusterError {
    /// The first fault of the file.
    Fault(ClusterFault),
    /// Memory ran out.
    NoMemory,
}

impl fmt::Display for ClusterError {
    fn fmt<W: fmt::Write>(&self, f: &mut fmt::Formatter<W>) -> fmt::Result {
        match self {
            ClusterError::Fault(fault) => write!(f, "{}: {}", fault.place, fault.cause),
            ClusterError::NoMemory => write!(f, "no memory"),
        }
    }
}

impl std::error::Error for ClusterError {}

impl From<NoMemory> for ClusterError {
    ghost use Rattle.std.specs.Prelude.{◌≡◌};
    ghost use Rattle.dt_cluster_file.specs.declared.error.ClusterError.TheVariants.{NoMemory};

    ghost from_gives = { λ _ e. e ≡ NoMemory };

    fn from(_error: NoMemory) -> Self {
        ClusterError::NoMemory
    }
}

impl From<AllocError> for ClusterError {
    ghost use Rattle.std.specs.Prelude.{◌≡◌};
    ghost use Rattle.dt_cluster_file.specs.declared.error.ClusterError.TheVariants.{NoMemory};

    ghost from_gives = { λ _ e. e ≡ NoMemory };

    fn from(_error: AllocError) -> Self {
        ClusterError::NoMemory
    }
}

impl<T: Drop> From<AllocFailed<T>> for ClusterError {
    ghost use Rattle.std.specs.Prelude.{◌≡◌};
    ghost use Rattle.dt_cluster_file.specs.declared.error.ClusterError.TheVariants.{NoMemory};

    ghost from_gives = { λ _ e. e ≡ NoMemory };

    fn from(_error: AllocFailed<T>) -> Self {
        ClusterError::NoMemory
    }
}

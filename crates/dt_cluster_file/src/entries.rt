ghost use Rattle.std.specs.Prelude.{◌≡◌, option_map};
ghost use Rattle.toml.specs.Data.{get_member};
ghost use Rattle.toml.specs.View.{view, table_view};
ghost use Rattle.dt_cluster_file.specs.declared.error.ClusterPlace.TheVariants.{Entry, Home, Row};
ghost use Rattle.dt_cluster_file.specs.declared.error.ClusterError.TheVariants.{Fault};
ghost use Rattle.dt_cluster_file.specs.declared.error.ClusterFault.{ClusterFault};
ghost use Rattle.dt_cluster_file.specs.File.{TellsFault};

use crate::error::{ClusterCause, ClusterError, ClusterFault, ClusterPlace, Label};
use dt_text::NoMemory;
use std::alloc::Global;
use toml::{Table, Value};

/// The value at a name of a table.
pub(crate) fn value_at<'a>(table: &'a Table, name: &str) -> Option<&'a Value>
    ensures { option_map (λ v. view v.now) result ≡ get_member name.now (table_view table.now) }
{
    table.get(name)
}

/// A fault at a place, by this cause.
pub(crate) fn fault(place: ClusterPlace, cause: ClusterCause) -> ClusterError
    ensures { result ≡ Fault (record { place = place; cause = cause }) }
{
    ClusterError::Fault(ClusterFault { place, cause })
}

/// The fault of an entry at the top, by this cause.
pub(crate) fn entry_fault(alloc: Global, name: &str, cause: ClusterCause) -> ClusterError
    ensures { TellsFault (λ f. f ≡ record { place = Entry name.now; cause = cause }) result }
{
    named_fault(alloc, name, ClusterPlace::Entry, cause)
}

/// The fault of a listed home, by this cause.
pub(crate) fn home_fault(alloc: Global, name: &str, cause: ClusterCause) -> ClusterError
    ensures { TellsFault (λ f. f ≡ record { place = Home name.now; cause = cause }) result }
{
    named_fault(alloc, name, ClusterPlace::Home, cause)
}

/// The fault of a listed row, by this cause.
pub(crate) fn row_fault(alloc: Global, name: &str, cause: ClusterCause) -> ClusterError
    ensures { TellsFault (λ f. f ≡ record { place = Row name.now; cause = cause }) result }
{
    named_fault(alloc, name, ClusterPlace::Row, cause)
}

/// The fault at the place that `place` makes of a name, by this cause.
fn named_fault<F: FnOnce(Label) -> ClusterPlace>(
    alloc: Global,
    name: &str,
    place: F,
    cause: ClusterCause,
) -> ClusterError
    requires { F.IsAlwaysCallable place }
    ensures { TellsFault (λ f. F.post place name.now f.place × (f.cause ≡ cause)) result }
{
    match Label::new(alloc, name.as_bytes()) {
        Ok(label) => fault(place(label), cause),
        Err(NoMemory) => ClusterError::NoMemory,
    }
}

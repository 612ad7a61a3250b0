//! The reader of cluster files.

ghost use Rattle.std.specs.Prelude.{◌↔◌, ◌<◌, ◌^◌, length, IfOk, IfErr, IsTrue, Err};
ghost use Rattle.dt_lists.specs.Lists.{Has};
ghost use Rattle.toml.specs.View.{table_view};
ghost use Rattle.dt_proc.specs.Sound.{AreProcs};
ghost use Rattle.dt_cluster_file.specs.File.{AreKnown, IsUnknownFault, known_names, HasProcs, IsProcsFault, IsToldAs, IsClusterOf, IsFaultOf, IsCluster, IsClusterFault, TellsFault};
ghost use Rattle.dt_cluster_file.specs.ReaderInner.{HasShortProcs};
ghost use Rattle.dt_cluster.specs.Valid.{IsValidCluster};

use crate::entries::{entry_fault, fault, value_at};
use crate::error::{ClusterCause, ClusterError, ClusterPlace};
use crate::homes::read_homes;
use crate::numbers::read_numbers;
use crate::rows::read_rows;
use dt_cluster::Cluster;
use dt_proc::{ProcError, Procs, builtin_procs, read_procs};
use std::alloc::Global;
use toml::Table;

/// Reads a cluster file.
///
/// The answer is the cluster that the file is, or its first fault. The faults are tried in this order: the bytes are no
/// document of TOML; the first unknown name at the top; `regions`, `version`, `workers`, `tries`, `drop` and `repeat`;
/// `procs`; `homes`, and then each of its names; and `rows` in the same way. Names are taken in ascending byte order.
/// That a file is too long is reported by whoever loads it.
pub fn read_cluster(alloc: Global, bytes: &[u8]) -> Result<Cluster, ClusterError>
    requires short { length bytes.now < 2 ^ 32 }
    ensures cluster { IfOk result (IsCluster bytes.now) }
    ensures fault { IfErr result (TellsFault (IsClusterFault bytes.now)) }
    ensures valid { IfOk result IsValidCluster }
{
    match toml::table_from_slice(alloc, bytes) {
        Ok(top) => cluster_of(alloc, &top),
        Err(error) if error.is_memory() => Err(ClusterError::NoMemory),
        Err(_) => Err(fault(ClusterPlace::Whole, ClusterCause::NotToml)),
    }
}

/// The cluster that a document is.
fn cluster_of(alloc: Global, top: &Table) -> Result<Cluster, ClusterError>
    requires { HasShortProcs (table_view top.now) }
    ensures cluster { IfOk result (IsClusterOf (table_view top.now)) }
    ensures fault { IfErr result (TellsFault (IsFaultOf (table_view top.now))) }
    ensures valid { IfOk result IsValidCluster }
{
    only_known(alloc, top)?;
    let numbers = read_numbers(alloc, top)?;
    let procs = procs_of(alloc, top)?;
    let homes = read_homes(alloc, top, numbers.version, numbers.regions)?;
    let rows = read_rows(alloc, top)?;
    Ok(Cluster {
        version: numbers.version,
        regions: numbers.regions,
        workers: numbers.workers,
        tries: numbers.tries,
        drop: numbers.drop,
        repeat: numbers.repeat,
        procs,
        homes,
        rows,
    })
}

/// Refuses the first unknown name at the top, in byte order.
fn only_known(alloc: Global, top: &Table) -> Result<(), ClusterError>
    ensures ok { IfOk result (λ _. AreKnown (table_view top.now)) }
    ensures fault { IfErr result (TellsFault (IsUnknownFault (table_view top.now))) }
{
    for (name, _) in top.iter() {
        if !is_known(name.as_bytes()) {
            return Err(entry_fault(alloc, name.as_str(), ClusterCause::Unknown));
        }
    }
    Ok(())
}

/// The names that may stand at the top.
const KNOWN: &[&[u8]] = &[
    b"regions", b"version", b"workers", b"tries", b"drop", b"repeat", b"procs", b"homes", b"rows",
];

/// Whether a name may stand at the top.
fn is_known(name: &[u8]) -> bool
    ensures { IsTrue result ↔ Has known_names name.now }
{
    KNOWN.contains(&name)
}

/// The procedures of a cluster: those of its text, or the built-in ones.
fn procs_of(alloc: Global, top: &Table) -> Result<Procs, ClusterError>
    requires { HasShortProcs (table_view top.now) }
    ensures ok { IfOk result (HasProcs (table_view top.now)) }
    ensures fault { IfErr result (TellsFault (IsProcsFault (table_view top.now))) }
    ensures sound { IfOk result AreProcs }
{
    let Some(value) = value_at(top, "procs") else {
        return Ok(builtin_procs(alloc)?);
    };
    let Some(text) = value.as_str() else {
        return Err(entry_fault(alloc, "procs", ClusterCause::Kind));
    };
    match read_procs(alloc, text.as_bytes()) {
        Ok(procs) => Ok(procs),
        Err(error) => Err(refusal(error)),
    }
}

/// A fault in the procedures' text as one of the file.
fn refusal(error: ProcError) -> ClusterError
    ensures { TellsFault (IsToldAs error) result }
{
    match error {
        ProcError::Syntax(place) => fault(ClusterPlace::Procs(place), ClusterCause::Syntax),
        ProcError::Unknown(place) => fault(ClusterPlace::Procs(place), ClusterCause::UnknownName),
        ProcError::Kind(place) => fault(ClusterPlace::Procs(place), ClusterCause::Kind),
        ProcError::Twice(place) => fault(ClusterPlace::Procs(place), ClusterCause::Twice),
        ProcError::TooMany(place) => fault(ClusterPlace::Procs(place), ClusterCause::TooMany),
        ProcError::NoMemory => ClusterError::NoMemory,
    }
}

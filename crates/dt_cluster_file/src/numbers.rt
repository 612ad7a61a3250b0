ghost use Rattle.std.specs.Prelude.{IfOk, IfErr};
ghost use Rattle.toml.specs.View.{table_view};
ghost use Rattle.dt_cluster_file.specs.Numbers.{HasNumber, drop_entry, regions_entry, version_entry, within};
ghost use Rattle.dt_cluster_file.specs.File.{HasNumbers, IsNumberFault, TellsFault};
ghost use Rattle.dt_cluster_file.specs.ReaderInner.{IsEntryFault};

use crate::entries::{entry_fault, value_at};
use crate::error::{ClusterCause, ClusterError};
use std::alloc::Global;
use toml::Table;

/// The numbers of a cluster.
#[derive(Clone, Copy)]
pub(crate) struct Numbers {
    pub(crate) regions: u8,
    pub(crate) version: u8,
    pub(crate) workers: u32,
    pub(crate) tries: u32,
    pub(crate) drop: u32,
    pub(crate) repeat: u32,
}

/// Reads the numbers of a cluster, in the order in which their faults are reported.
pub(crate) fn read_numbers(alloc: Global, top: &Table) -> Result<Numbers, ClusterError>
    ensures ok { IfOk result (HasNumbers (table_view top.now)) }
    ensures fault { IfErr result (TellsFault (IsNumberFault (table_view top.now))) }
{
    Ok(Numbers {
        regions: read_regions(alloc, top)?,
        version: read_version(alloc, top)?,
        workers: number(alloc, top, "workers", 1, 16, Some(4))?,
        tries: number(alloc, top, "tries", 1, 8, Some(3))?,
        drop: read_drop(alloc, top)?,
        repeat: number(alloc, top, "repeat", 0, 1000, Some(0))?,
    })
}

/// The number of regions, which has to be there.
fn read_regions(alloc: Global, top: &Table) -> Result<u8, ClusterError>
    ensures ok { IfOk result (HasNumber (table_view top.now) regions_entry) }
    ensures fault { IfErr result (TellsFault (IsEntryFault (table_view top.now) regions_entry)) }
{
    let regions = number(alloc, top, "regions", 1, 8, None)?;
    Ok(regions as u8)
}

/// The version, 1 where none is there.
fn read_version(alloc: Global, top: &Table) -> Result<u8, ClusterError>
    ensures ok { IfOk result (HasNumber (table_view top.now) version_entry) }
    ensures fault { IfErr result (TellsFault (IsEntryFault (table_view top.now) version_entry)) }
{
    let version = number(alloc, top, "version", 1, 2, Some(1))?;
    Ok(version as u8)
}

/// Which packets are lost: none, or one in every n, but never each of them.
fn read_drop(alloc: Global, top: &Table) -> Result<u32, ClusterError>
    ensures ok { IfOk result (HasNumber (table_view top.now) drop_entry) }
    ensures fault { IfErr result (TellsFault (IsEntryFault (table_view top.now) drop_entry)) }
{
    let drop = number(alloc, top, "drop", 0, 1000, Some(0))?;
    if drop == 1 {
        return Err(entry_fault(alloc, "drop", ClusterCause::Range));
    }
    Ok(drop)
}

/// The number at an entry: an integer within the bounds, or what stands for it where it is absent.
fn number(
    alloc: Global,
    top: &Table,
    name: &str,
    least: u32,
    greatest: u32,
    absent: Option<u32>,
) -> Result<u32, ClusterError>
    ensures ok { IfOk result (HasNumber (table_view top.now)
        (record { name = name.now; allows = within least greatest; absent = absent })) }
    ensures fault { IfErr result (TellsFault (IsEntryFault (table_view top.now)
        (record { name = name.now; allows = within least greatest; absent = absent }))) }
{
    let Some(value) = value_at(top, name) else {
        return match absent {
            Some(number) => Ok(number),
            None => Err(entry_fault(alloc, name, ClusterCause::Missing)),
        };
    };
    let Some(number) = value.as_integer() else {
        return Err(entry_fault(alloc, name, ClusterCause::Kind));
    };
    match u32::try_from(number) {
        Ok(number) if least <= number && number <= greatest => Ok(number),
        _ => Err(entry_fault(alloc, name, ClusterCause::Range)),
    }
}

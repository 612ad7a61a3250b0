ghost use Rattle.std.specs.Prelude.{◌≡◌, ◌<◌, IfOk, IfErr, pos};
ghost use Rattle.toml.specs.Data.{integer};
ghost use Rattle.toml.specs.View.{view, table_view};
ghost use Rattle.dt_cluster_file.specs.Rows.{IsHome, IsBadHome, IsNoHome};
ghost use Rattle.dt_cluster_file.specs.File.{HasHomes, IsHomesFault, TellsFault};
ghost use Rattle.dt_cluster_file.specs.ReaderInner.{IsFaultAt, AreHomesOf, IsBadHomeOf};
ghost use Rattle.dt_cluster_file.specs.declared.error.ClusterPlace.TheVariants.{Home};

use crate::entries::{entry_fault, home_fault, value_at};
use crate::error::{ClusterCause, ClusterError};
use dt_access::is_unit;
use dt_cluster::HomeList;
use dt_text::{Key, Listed};
use std::alloc::Global;
use toml::{Table, Value};

/// Reads the homes that a cluster lists, by ascending keys.
pub(crate) fn read_homes(
    alloc: Global,
    top: &Table,
    version: u8,
    regions: u8,
) -> Result<HomeList, ClusterError>
    ensures ok { IfOk result (HasHomes (table_view top.now) version regions) }
    ensures fault { IfErr result (TellsFault (IsHomesFault (table_view top.now) version regions)) }
{
    let Some(value) = value_at(top, "homes") else {
        return Ok(Listed::new(alloc));
    };
    let Some(table) = value.as_table() else {
        return Err(entry_fault(alloc, "homes", ClusterCause::Kind));
    };
    homes_of(alloc, table, version, regions)
}

/// The homes that a table lists.
fn homes_of(
    alloc: Global,
    table: &Table,
    version: u8,
    regions: u8,
) -> Result<HomeList, ClusterError>
    ensures ok { IfOk result (AreHomesOf (table_view table.now) version regions) }
    ensures fault { IfErr result (TellsFault (IsBadHomeOf (table_view table.now) version regions)) }
{
    let mut homes = Vec::with_capacity(alloc, table.len())?;
    for (name, value) in table.iter() {
        homes.push(home(alloc, name.as_str(), value, version, regions)?)?;
    }
    Ok(Listed::from_vec(homes))
}

/// The home that an entry gives.
fn home(
    alloc: Global,
    name: &str,
    value: &Value,
    version: u8,
    regions: u8,
) -> Result<(Key, u8), ClusterError>
    ensures ok { IfOk result (IsHome version regions (name.now, view value.now)) }
    ensures fault { IfErr result (TellsFault (IsFaultAt (Home name.now) (IsBadHome version regions (name.now, view value.now)))) }
{
    if !Key::is_key(name.as_bytes()) {
        return Err(home_fault(alloc, name, ClusterCause::BadKey));
    }
    let key = Key::new(alloc, name.as_bytes())?;
    if !is_unit(version, &key) {
        return Err(home_fault(alloc, name, ClusterCause::BadKey));
    }
    match region(value, regions) {
        Ok(home) => Ok((key, home)),
        Err(cause) => Err(home_fault(alloc, name, cause)),
    }
}

/// The number of a region that a value is, or why it is none.
fn region(value: &Value, regions: u8) -> Result<u8, ClusterCause>
    ensures number { IfOk result (λ home. (view value.now ≡ integer (pos home)) × (home < regions)) }
    ensures cause { IfErr result (IsNoHome regions (view value.now)) }
{
    let Some(number) = value.as_integer() else {
        return Err(ClusterCause::Kind);
    };
    match u8::try_from(number) {
        Ok(home) if home < regions => Ok(home),
        _ => Err(ClusterCause::Range),
    }
}

ghost use Rattle.std.specs.Prelude.{IfOk, IfErr};
ghost use Rattle.toml.specs.Data.{string};
ghost use Rattle.toml.specs.View.{view, table_view};
ghost use Rattle.dt_cluster_file.specs.Rows.{IsRow, IsBadRow, IsNoValue, IsValue};
ghost use Rattle.dt_cluster_file.specs.File.{HasRows, IsRowsFault, TellsFault};
ghost use Rattle.dt_cluster_file.specs.ReaderInner.{IsFaultAt, AreRowsOf, IsBadRowOf};
ghost use Rattle.dt_cluster_file.specs.declared.error.ClusterPlace.TheVariants.{Row};

use crate::entries::{entry_fault, row_fault, value_at};
use crate::error::{ClusterCause, ClusterError};
use dt_cluster::RowList;
use dt_text::{Key, Listed, Str, Value};
use std::alloc::Global;
use toml::Table;

/// Reads the rows that a cluster lists, by ascending keys.
pub(crate) fn read_rows(alloc: Global, top: &Table) -> Result<RowList, ClusterError>
    ensures ok { IfOk result (HasRows (table_view top.now)) }
    ensures fault { IfErr result (TellsFault (IsRowsFault (table_view top.now))) }
{
    let Some(value) = value_at(top, "rows") else {
        return Ok(Listed::new(alloc));
    };
    let Some(table) = value.as_table() else {
        return Err(entry_fault(alloc, "rows", ClusterCause::Kind));
    };
    rows_of(alloc, table)
}

/// The rows that a table lists.
fn rows_of(alloc: Global, table: &Table) -> Result<RowList, ClusterError>
    ensures ok { IfOk result (AreRowsOf (table_view table.now)) }
    ensures fault { IfErr result (TellsFault (IsBadRowOf (table_view table.now))) }
{
    let mut rows = Vec::with_capacity(alloc, table.len())?;
    for (name, value) in table.iter() {
        rows.push(row(alloc, name.as_str(), value)?)?;
    }
    Ok(Listed::from_vec(rows))
}

/// The row that an entry gives.
fn row(alloc: Global, name: &str, value: &toml::Value) -> Result<(Key, Value), ClusterError>
    ensures ok { IfOk result (IsRow (name.now, view value.now)) }
    ensures fault { IfErr result (TellsFault (IsFaultAt (Row name.now) (IsBadRow (name.now, view value.now)))) }
{
    if !Key::is_key(name.as_bytes()) {
        return Err(row_fault(alloc, name, ClusterCause::BadKey));
    }
    let value = row_value(alloc, name, value)?;
    Ok((Key::new(alloc, name.as_bytes())?, value))
}

/// The value that an entry of `rows` gives.
fn row_value(alloc: Global, name: &str, value: &toml::Value) -> Result<Value, ClusterError>
    ensures ok { IfOk result (IsValue (view value.now)) }
    ensures fault { IfErr result (TellsFault (IsFaultAt (Row name.now) (IsNoValue (view value.now)))) }
{
    if let Some(number) = value.as_integer() {
        return Ok(Value::Int(number));
    }
    let Some(text) = value.as_str() else {
        return Err(row_fault(alloc, name, ClusterCause::Kind));
    };
    text_value(alloc, name, text)
}

/// The text that a string of `rows` gives.
fn text_value(alloc: Global, name: &str, text: &str) -> Result<Value, ClusterError>
    ensures ok { IfOk result (IsValue (string text.now)) }
    ensures fault { IfErr result (TellsFault (IsFaultAt (Row name.now) (IsNoValue (string text.now)))) }
{
    if !Str::is_str(text.as_bytes()) {
        return Err(row_fault(alloc, name, ClusterCause::BadText));
    }
    Ok(Value::Text(Str::new(alloc, text.as_bytes())?))
}

ghost use Rattle.std.specs.Prelude.{◌≡◌, IfOk};

use crate::cluster::{HomeList, RowList};
use dt_text::{Key, Listed, NoMemory, Value};
use std::alloc::Global;

/// Copies of keys with their homes, in order.
pub(crate) fn copy_homes(alloc: Global, homes: &[(Key, u8)]) -> Result<HomeList, NoMemory>
    ensures { IfOk result (λ copied. copied ≡ homes.now) }
{
    let mut copied = Vec::with_capacity(alloc, homes.len())?;
    for (key, home) in homes {
        copied.push((key.copy(alloc)?, *home))?;
    }
    Ok(Listed::from_vec(copied))
}

/// Copies of keys with their values, in order.
pub(crate) fn copy_rows(alloc: Global, rows: &[(Key, Value)]) -> Result<RowList, NoMemory>
    ensures { IfOk result (λ copied. copied ≡ rows.now) }
{
    let mut copied = Vec::with_capacity(alloc, rows.len())?;
    for (key, value) in rows {
        copied.push((key.copy(alloc)?, value.copy(alloc)?))?;
    }
    Ok(Listed::from_vec(copied))
}

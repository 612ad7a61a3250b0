ghost use Rattle.std.specs.Prelude.{◌≡◌, IfOk};
ghost use Rattle.dt_access.specs.Orders.{HasDistinctKeys};

use crate::homes::Homes;
use crate::rows::opening_values;
use dt_text::{Key, NoMemory, Value};
use indexmap::IndexMap;
use std::alloc::Global;
use std::marker::Model;
use std::sync::Arc;

/// What the tables of all regions have before any transaction. They share it, so that it is kept once.
///
/// Contracts see the `homes` that are listed for units and the `rows` that have a value.
#[derive(Drop)]
pub struct Opening {
    pub(crate) homes: Homes,
    pub(crate) rows: Arc<IndexMap<Key, Value>>,
}

impl Model for Opening {
    ghost use Rattle.dt_table.specs.Table.{OpeningView};
    ghost use Rattle.dt_table.specs.TableCode.{opening_view_code};

    ghost Value = { OpeningView };

    ghost coded = { opening_view_code };

    ghost view = { λ o. record { homes = o.homes; rows = o.rows.value.entries } };
}

impl Opening {
    /// These homes and these rows.
    pub fn new(alloc: Global, homes: &[(Key, u8)], rows: &[(Key, Value)]) -> Result<Self, NoMemory>
        requires homes { HasDistinctKeys homes.now }
        requires rows { HasDistinctKeys rows.now }
        ensures homes { IfOk result (λ made. made.homes ≡ homes.now) }
        ensures rows { IfOk result (λ made. made.rows ≡ rows.now) }
    {
        let opened = opening_values(alloc, rows)?;
        Ok(Opening {
            homes: Homes::new(alloc, homes)?,
            rows: Arc::new(alloc, opened)?,
        })
    }
}

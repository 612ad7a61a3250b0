//! The homes that a cluster lists for units. They never change, and the tables of several regions share them.
ghost use Rattle.std.specs.Prelude.{◌≡◌, ◌<◌, IfOk, length};
ghost use Rattle.dt_access.specs.Orders.{HasDistinctKeys};
ghost use Rattle.dt_table.specs.Table.{opening_home as opening_home_of};

use crate::units::{index_homes, opening_home};
use dt_text::{Key, NoMemory};
use indexmap::IndexMap;
use std::alloc::Global;
use std::marker::Model;
use std::sync::Arc;

/// Units with the homes that are listed for them. Contracts see these, in order.
#[derive(Drop)]
pub struct Homes {
    by_unit: Arc<IndexMap<Vec<u8>, u8>>,
}

impl Model for Homes {
    ghost use Rattle.std.specs.Prelude.{ℕ, List};
    ghost use Rattle.dt_access.specs.Clash.{Bytes};
    ghost use Rattle.dt_table.specs.StoredUnitInner.{by_bytes};

    ghost Value = { List (Bytes × ℕ) };

    ghost view = { λ h. by_bytes h.by_unit.value.entries };
}

impl Homes {
    /// These homes.
    pub fn new(alloc: Global, homes: &[(Key, u8)]) -> Result<Self, NoMemory>
        requires { HasDistinctKeys homes.now }
        ensures { IfOk result (λ made. made ≡ homes.now) }
    {
        let index = index_homes(alloc, homes)?;
        Ok(Homes {
            by_unit: Arc::new(alloc, index)?,
        })
    }

    /// The same homes, for another table.
    pub fn share(&self) -> Result<Self, NoMemory>
        ensures { IfOk result (λ shared. shared ≡ self.now) }
    {
        Ok(Homes {
            by_unit: Arc::try_clone(&self.by_unit)?,
        })
    }

    /// The home of a unit that was never moved.
    pub fn home_of(&self, regions: u8, unit: &[u8]) -> u8
        requires regions { 0 < regions }
        requires unit { 0 < length unit.now }
        ensures { result ≡ opening_home_of regions self.now unit.now }
    {
        opening_home(&self.by_unit, regions, unit)
    }
}

ghost use Rattle.std.specs.Prelude.{◌≡◌, ◌++◌, OnOk};
ghost use Rattle.std.specs.List.{IsDistinct};
ghost use Rattle.std.specs.Map.{keys_of};
ghost use Rattle.dt_access.specs.Clash.{same_key};
ghost use Rattle.dt_lists.specs.Lists.{AllIn};
ghost use Rattle.dt_text.specs.Texts.{IsKey};
ghost use Rattle.dt_table.specs.StoredUnitInner.{by_bytes, moved_without_value};

use crate::rows::Rows;
use crate::stored::StoredUnit;
use dt_text::{Key, Listed, NoMemory, Value};
use indexmap::IndexMap;
use std::alloc::Global;

/// A key as a report shows it.
#[derive(Drop)]
pub struct Shown {
    pub key: Key,
    pub value: Option<Value>,
    /// The present home.
    pub home: u8,
    /// How often its unit was moved.
    pub moves: u32,
}

/// Keys as a report shows them.
pub type ShownList = Listed<Shown>;

/// Adds the units that were moved and have no value as keys.
pub fn add_moved_units(
    alloc: Global,
    keys: &mut Vec<Key>,
    values: &Rows,
    units: &IndexMap<Vec<u8>, StoredUnit>,
) -> Result<(), NoMemory>
    requires { AllIn (λ e. IsKey e.0) (by_bytes units.now.entries) }
    ensures keys { OnOk result (keys.new.items ≡ keys.old.items ++ moved_without_value values.now.entries (by_bytes units.now.entries)) }
    ensures once { OnOk result (IsDistinct same_key (keys_of (by_bytes units.now.entries))) }
{
    for (unit, stored) in units {
        let key = Key::new(alloc, unit.as_slice())?;
        if stored.counter > 0 && !values.has_value(&key) {
            keys.push(key)?;
        }
    }
    Ok(())
}

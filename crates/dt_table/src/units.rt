//! Maps by units: each is looked up by a unit's bytes, which are the front of a key, so no look-up takes memory.
ghost use Rattle.std.specs.Prelude.{◌≡◌, ◌+◌, ◌<◌, ◌≤◌, IfOk, length};
ghost use Rattle.std.specs.Option.{option_copied};
ghost use Rattle.std.specs.Map.{lookup};
ghost use Rattle.indexmap.specs.IndexMap.{insert_entry, spare};
ghost use Rattle.dt_access.specs.Clash.{same_key};
ghost use Rattle.dt_access.specs.Orders.{HasDistinctKeys};
ghost use Rattle.dt_table.specs.MovedPlacesInner.{AreNoted};
ghost use Rattle.dt_table.specs.Table.{opening_home as opening_home_of};
ghost use Rattle.dt_table.specs.StoredUnitInner.{by_bytes, stored_of};

use crate::moved::{MovedPlaces, number_of};
use crate::stored::StoredUnit;
use dt_text::{Key, NoMemory, are_same};
use indexmap::IndexMap;
use std::alloc::Global;

/// The listed homes, by unit.
pub fn index_homes(alloc: Global, homes: &[(Key, u8)]) -> Result<IndexMap<Vec<u8>, u8>, NoMemory>
    requires { HasDistinctKeys homes.now }
    ensures { IfOk result (λ index. by_bytes index.entries ≡ homes.now) }
{
    let mut index = IndexMap::with_capacity(alloc, homes.len())?;
    for (unit, home) in homes {
        index.insert(Vec::from_slice(alloc, unit.bytes())?, *home)?;
    }
    Ok(index)
}

/// The home of a unit that was never moved.
pub fn opening_home(homes: &IndexMap<Vec<u8>, u8>, regions: u8, unit: &[u8]) -> u8
    requires regions { 0 < regions }
    requires unit { 0 < length unit.now }
    ensures { result ≡ opening_home_of regions (by_bytes homes.now.entries) unit.now }
{
    match listed_home(homes, unit) {
        Some(home) => *home,
        None => unit[0] % regions,
    }
}

/// The home that is listed for the unit of these bytes, if one is. Where none is listed at all, the bytes are not hashed.
#[tactic(auto, using(crate::proofs::ByBytes::none_of_none))]
fn listed_home<'a>(homes: &'a IndexMap<Vec<u8>, u8>, unit: &[u8]) -> Option<&'a u8>
    ensures { option_copied result ≡ lookup (same_key unit.now) (by_bytes homes.now.entries) }
{
    if homes.is_empty() {
        return None;
    }
    homes.get(unit)
}

/// The stored unit of these bytes, if it is stored. They are hashed only where another unit stands at the place that is guessed.
#[tactic(auto, using(crate::proofs::ByBytes::none_of_none))]
pub fn stored_unit<'a>(
    units: &'a IndexMap<Vec<u8>, StoredUnit>,
    moved: &MovedPlaces,
    unit: &[u8],
) -> Option<&'a StoredUnit>
    requires { AreNoted moved.now (by_bytes units.now.entries) }
    ensures { option_copied result ≡ lookup (same_key unit.now) (by_bytes units.now.entries) }
{
    if units.is_empty() {
        return None;
    }
    let Some(place) = moved.guess(number_of(unit)) else {
        return None;
    };
    if let Some((known, stored)) = units.get_index(place) {
        if are_same(known.as_slice(), unit) {
            return Some(stored);
        }
    }
    units.get(unit)
}

/// The stored unit of these bytes, or else a fresh one with this home.
pub fn stored_or_fresh(
    units: &IndexMap<Vec<u8>, StoredUnit>,
    moved: &MovedPlaces,
    unit: &[u8],
    home: u8,
) -> StoredUnit
    requires { AreNoted moved.now (by_bytes units.now.entries) }
    ensures { result ≡ stored_of (by_bytes units.now.entries) unit.now home }
{
    match stored_unit(units, moved, unit) {
        Some(stored) => *stored,
        None => StoredUnit {
            home,
            counter: 0,
            last: None,
        },
    }
}

/// Makes the list of places when units are stored for the first time, and notes them. Where there is no memory for it, it stays
/// unmade, which costs only time.
pub fn note_stored(units: &IndexMap<Vec<u8>, StoredUnit>, moved: &mut MovedPlaces)
    requires { AreNoted moved.old (by_bytes units.now.entries) }
    ensures { AreNoted moved.new (by_bytes units.now.entries) }
{
    if units.is_empty() || moved.is_made() || moved.make().is_err() {
        return;
    }
    for (place, (unit, _)) in units.iter().enumerate() {
        moved.note(number_of(unit.as_slice()), place);
    }
}

/// Puts a unit in its place and notes it, which takes no memory where there is room.
pub fn put_unit(
    units: &mut IndexMap<Vec<u8>, StoredUnit>,
    moved: &mut MovedPlaces,
    unit: Vec<u8>,
    stored: StoredUnit,
)
    requires room { 0 < spare units.old }
    requires noted { AreNoted moved.old (by_bytes units.old.entries) }
    ensures units { by_bytes units.new.entries ≡ insert_entry same_key (by_bytes units.old.entries) unit.items stored }
    ensures noted { AreNoted moved.new (by_bytes units.new.entries) }
    ensures room { spare units.old ≤ spare units.new + 1 }
{
    let number = number_of(unit.as_slice());
    match units.insert_full(unit, stored) {
        Ok((place, _)) => moved.note(number, place),
        Err(_) => unreachable!(),
    }
}

ghost use Rattle.std.specs.Prelude.{◌≡◌, ◌+◌, ◌^◌, ◌<◌, ◌≤◌, ◌↔◌, ℕ, IsOk, IsSome, IfOk, OnOk, map};
ghost use Rattle.std.specs.Option.{option_copied};
ghost use Rattle.dt_access.specs.Granules.{IsUnit};
ghost use Rattle.dt_access.specs.Orders.{HasDistinctKeys};
ghost use Rattle.dt_text.specs.Texts.{IsKey};
ghost use Rattle.dt_table.specs.Table.{value_of, home_of, counter_of, next_mover, written, moved, apply, opening, shown, shown_at, places_for, MovesUnit, HasPlaceFor};

use crate::effect::{Effect, UnitName};
use crate::homes::Homes;
use crate::moved::MovedPlaces;
use crate::opening::Opening;
use crate::rows::Rows;
use crate::shown::{Shown, ShownList, add_moved_units};
use crate::stored::{StoredMove, StoredUnit, mover_of, next_mover_of};
use crate::units::{note_stored, put_unit, stored_or_fresh, stored_unit};
use dt_access::{TxnId, unit_bytes};
use dt_text::{Key, NoMemory, Value};
use indexmap::IndexMap;
use std::alloc::Global;
use std::marker::Model;

/// Where a key is mastered.
#[derive(Clone, Copy, Debug, PartialEq, Eq)]
pub struct Mastership {
    /// The region that orders what touches the key.
    pub home: u8,
    /// How often the key's unit was moved.
    pub counter: u32,
}

/// What a table has of one key.
#[derive(Drop)]
pub struct TableRow<'a> {
    /// Its value, or none.
    pub value: Option<&'a Value>,
    /// How often its unit was moved.
    pub counter: u32,
    /// Who made the move that was asked for, if there is one.
    pub mover: Option<TxnId>,
}

/// The table of a region.
///
/// Contracts see its `state`, and as `spare` how many writes and moves it has room for, so that `apply` takes no memory.
#[derive(Drop)]
pub struct Table {
    version: u8,
    regions: u8,
    homes: Homes,
    values: Rows,
    units: IndexMap<Vec<u8>, StoredUnit>,
    /// The places of the stored units are noted here.
    noted: MovedPlaces,
    moves: Vec<StoredMove>,
}

impl Model for Table {
    ghost use Rattle.dt_table.specs.Table.{TableView};
    ghost use Rattle.dt_table.specs.TableCode.{table_view_code};

    ghost Value = { TableView };

    ghost coded = { table_view_code };

    ghost use Rattle.dt_table.specs.StoredMovesInner.{table_view, IsSoundTable};

    ghost view = { table_view };

    ghost invariant = { IsSoundTable };
}

impl Table {
    /// A table before any transaction, of a cluster of this version with n regions: these rows have these values,
    /// and no unit was moved. A unit that `homes` does not list has its first byte modulo `regions` as its home.
    pub fn new(
        alloc: Global,
        version: u8,
        regions: u8,
        homes: &[(Key, u8)],
        rows: &[(Key, Value)],
    ) -> Result<Self, NoMemory>
        requires regions { 0 < regions }
        requires homes { HasDistinctKeys homes.now }
        requires rows { HasDistinctKeys rows.now }
        ensures { IfOk result (λ table. table.state ≡ opening version regions homes.now rows.now) }
    {
        let first = Opening::new(alloc, homes, rows)?;
        Table::of(alloc, version, regions, &first)
    }

    /// A table before any transaction, as `new` makes it, with these homes and rows. It shares them with all other tables that
    /// are made so.
    pub fn of(alloc: Global, version: u8, regions: u8, first: &Opening) -> Result<Self, NoMemory>
        requires { 0 < regions }
        ensures { IfOk result (λ table. table.state ≡ opening version regions first.now.homes first.now.rows) }
    {
        Ok(Table {
            version,
            regions,
            homes: first.homes.share()?,
            values: Rows::of(alloc, &first.rows)?,
            units: IndexMap::new(alloc),
            noted: MovedPlaces::new(alloc),
            moves: Vec::new(alloc),
        })
    }

    /// The version of the cluster that the table is of.
    pub fn version(&self) -> u8
        ensures { result ≡ self.now.state.version }
    {
        self.version
    }

    /// The value of a key. None exactly where it has none.
    pub fn get(&self, key: &Key) -> Option<&Value>
        ensures { option_copied result ≡ value_of self.now.state key.now }
    {
        self.values.get(key)
    }

    /// The same key, with a hint by which what tables of the same opening keep of it is found soon. Contracts do not see hints.
    pub fn hinted(&self, key: Key) -> Key
        ensures { result ≡ key }
    {
        self.values.hinted(key)
    }

    /// The present home of a key, and how often its unit was moved.
    pub fn mastership(&self, key: &Key) -> Mastership
        ensures home { result.home ≡ home_of self.now.state key.now }
        ensures counter { result.counter ≡ counter_of self.now.state key.now }
    {
        let unit = unit_bytes(self.version, key);
        match stored_unit(&self.units, &self.noted, unit) {
            Some(stored) => Mastership {
                home: stored.home,
                counter: stored.counter,
            },
            None => Mastership {
                home: self.homes.home_of(self.regions, unit),
                counter: 0,
            },
        }
    }

    /// Who made the move `number` of a key's unit, counted from 1. None exactly where there is no such move.
    pub fn mover(&self, key: &Key, number: u32) -> Option<TxnId>
        ensures mover { (before : ℕ) → number ≡ before + 1 → result ≡ next_mover self.now.state key.now before }
        ensures some { IsSome result ↔ ((0 < number) × (number ≤ counter_of self.now.state key.now)) }
        ensures few { counter_of self.now.state key.now < 2 ^ 32 }
    {
        let stored = stored_unit(&self.units, &self.noted, unit_bytes(self.version, key))?;
        mover_of(&self.moves, stored, number)
    }

    /// What the table has of a key. The mover is that of the move of its unit which follows the first `had` ones.
    pub fn row(&self, key: &Key, had: u32) -> TableRow<'_>
        ensures value { option_copied result.value ≡ value_of self.now.state key.now }
        ensures counter { result.counter ≡ counter_of self.now.state key.now }
        ensures mover { result.mover ≡ next_mover self.now.state key.now had }
    {
        let value = self.get(key);
        match stored_unit(&self.units, &self.noted, unit_bytes(self.version, key)) {
            Some(stored) => TableRow {
                value,
                counter: stored.counter,
                mover: next_mover_of(&self.moves, stored, had),
            },
            None => TableRow {
                value,
                counter: 0,
                mover: None,
            },
        }
    }

    /// Makes room for n writes and moves, of any keys. Nothing else changes, whatever the answer.
    pub fn reserve(&mut self, places: usize) -> Result<(), NoMemory>
        ensures state { self.new.state ≡ self.old.state }
        ensures room { OnOk result (places ≤ self.new.spare) }
        ensures few { OnOk result (places < 2 ^ 63) }
        ensures spare { self.old.spare ≤ self.new.spare }
        ensures succeeds { places ≤ self.old.spare → IsOk result }
    {
        self.values.reserve(places)?;
        self.units.reserve(places)?;
        self.moves.reserve(places)?;
        note_stored(&self.units, &mut self.noted);
        Ok(())
    }

    /// Makes the changes of a transaction. Takes no memory. All other keys and units stay as they were. What it moves is
    /// a unit with fewer than 4,294,967,295 moves so far.
    pub fn apply(&mut self, effect: Effect)
        requires room { places_for effect ≤ self.old.spare }
        requires unit { MovesUnit self.old.state.version effect.moved }
        requires place { HasPlaceFor effect.moved self.old.state }
        ensures state { self.new.state ≡ apply effect self.old.state }
        ensures spare { self.old.spare ≤ self.new.spare + places_for effect }
    {
        let Effect { writes, moved } = effect;
        for (key, value) in writes.into_vec() {
            self.write(key, value);
        }
        if let Some((unit, target, by)) = moved {
            self.record_move(unit, target, by);
        }
    }

    /// The keys that a report shows, in ascending order: each that has a value or is a unit with a move.
    pub fn shown_keys(&self, alloc: Global) -> Result<Vec<Key>, NoMemory>
        ensures { IfOk result (λ keys. map (shown_at self.now.state) keys.items ≡ shown self.now.state) }
    {
        let mut keys = self.values.keys_with_value(alloc)?;
        add_moved_units(alloc, &mut keys, &self.values, &self.units)?;
        keys.sort()?;
        Ok(keys)
    }

    /// What a report shows: each key that has a value or is a unit with a move, in ascending order of keys.
    pub fn shown(&self, alloc: Global) -> Result<ShownList, NoMemory>
        ensures { IfOk result (λ list. list ≡ shown self.now.state) }
    {
        let keys = self.shown_keys(alloc)?;
        let mut list = ShownList::new(alloc);
        list.reserve(keys.len())?;
        for key in keys {
            list.push(self.shown_at(alloc, key)?)?;
        }
        Ok(list)
    }

    /// A key, as a report shows it.
    pub fn shown_at(&self, alloc: Global, key: Key) -> Result<Shown, NoMemory>
        ensures { IfOk result (λ shown. shown ≡ shown_at self.now.state key) }
    {
        let value = match self.get(&key) {
            Some(value) => Some(value.copy(alloc)?),
            None => None,
        };
        let Mastership { home, counter } = self.mastership(&key);
        Ok(Shown {
            key,
            value,
            home,
            moves: counter,
        })
    }

    // Gives a key its value or none.
    fn write(&mut self, key: Key, value: Option<Value>)
        requires { 0 < self.old.spare }
        ensures state { self.new.state ≡ written self.old.state key value }
        ensures spare { self.old.spare ≤ self.new.spare + 1 }
    {
        self.values.put(key, value);
    }

    // Moves a unit.
    fn record_move(&mut self, unit: UnitName, target: u8, by: TxnId)
        requires room { 0 < self.old.spare }
        requires key { IsKey unit }
        requires unit { IsUnit self.old.state.version unit }
        requires place { counter_of self.old.state unit + 1 < 2 ^ 32 }
        ensures state { self.new.state ≡ moved self.old.state unit target by }
        ensures spare { self.old.spare ≤ self.new.spare + 1 }
    {
        let bytes = unit.into_bytes();
        let before = stored_or_fresh(&self.units, &self.noted, bytes.as_slice(), target);
        let stored = StoredUnit {
            home: target,
            counter: before.counter + 1,
            last: Some(self.moves.len()),
        };
        put_unit(&mut self.units, &mut self.noted, bytes, stored);
        let added = StoredMove {
            target,
            by,
            before: before.last,
        };
        match self.moves.push(added) {
            Ok(()) => (),
            Err(_) => unreachable!(),
        }
    }
}

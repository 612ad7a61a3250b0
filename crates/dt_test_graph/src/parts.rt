//! Parts, as tests write them down.
use dt_access::{Homes, Keys, Mode, Part, TxnId};
use dt_test_texts::key_of;
use dt_text::Key;
use std::alloc::Global;
use std::test::Fail;

/// A part with one key: the sequence number and the region of its id, its rank, its home, the key with its mode, and the
/// least and the greatest of its homes.
pub type Row = (u32, u8, u8, u8, &'static [u8], Mode, u8, u8);

/// A key and its mode.
pub type Use = (&'static [u8], Mode);

/// A part with a second key, which counts where it is greater than the first one, and whether its transaction has all three
/// homes.
pub type Wide = (Row, Use, bool);

/// One or two keys with their modes: the second one counts where it is greater.
fn one_or_two(alloc: Global, first: (Key, Mode), second: (Key, Mode)) -> Result<Keys, Fail> {
    let ascend = first.0 < second.0;
    let mut keys = Keys::new(alloc);
    keys.push(first)?;
    if ascend {
        keys.push(second)?;
    }
    Ok(keys)
}

/// One or two keys: the second one counts where it is greater.
fn keys_of(alloc: Global, first: Use, second: Use) -> Result<Keys, Fail> {
    let key = key_of(alloc, first.0)?;
    let other = key_of(alloc, second.0)?;
    one_or_two(alloc, (key, first.1), (other, second.1))
}

/// All three homes.
fn all_homes(alloc: Global) -> Result<Homes, Fail> {
    let mut homes = Homes::new(alloc);
    homes.push(0)?;
    homes.push(1)?;
    homes.push(2)?;
    Ok(homes)
}

/// The least and the greatest home, or all three.
fn homes_of(alloc: Global, least: u8, greatest: u8, all: bool) -> Result<Homes, Fail> {
    if all {
        return all_homes(alloc);
    }
    let mut homes = Homes::new(alloc);
    homes.push(least)?;
    if least < greatest {
        homes.push(greatest)?;
    }
    Ok(homes)
}

/// The part.
pub fn part_of(alloc: Global, wide: &Wide) -> Result<Part, Fail> {
    let (row, second, all) = *wide;
    let (seq, region, rank, home, key, mode, least, greatest) = row;
    Ok(Part {
        id: TxnId { seq, region },
        rank,
        home,
        keys: keys_of(alloc, (key, mode), second)?,
        homes: homes_of(alloc, least, greatest, all)?,
    })
}

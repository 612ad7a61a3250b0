ghost use Rattle.std.specs.Prelude.{◌≡◌, ◌↔◌, ◌==◌, IsTrue, IfOk, position};
ghost use Rattle.dt_text.specs.Texts.{IsKey};
ghost use Rattle.dt_access.specs.Granules.{IsUnit, granule_of, unit_of};

use dt_text::{Key, NoMemory};
use std::alloc::Global;

/// The granule of a key: the key of which it is a row. That is what stands before its first `/` that has a byte before
/// it, or the whole key where there is none. So the granule of `ann/balance` and of `ann` is `ann`, that of `/x/y` is `/x`.
pub fn granule(alloc: Global, key: &Key) -> Result<Key, NoMemory>
    ensures { IfOk result (λ granule. granule ≡ granule_of key.now) }
{
    Key::new(alloc, granule_bytes(key.bytes()))
}

/// Whether a key is its own granule. Takes no memory.
pub fn is_granule(key: &Key) -> bool
    ensures { IsTrue result ↔ (granule_of key.now ≡ key.now) }
{
    granule_bytes(key.bytes()).len() == key.bytes().len()
}

/// Whether a key is a unit in a cluster of this version, so that it has a home and moves of its own. Takes no memory.
pub fn is_unit(version: u8, key: &Key) -> bool
    ensures { IsTrue result ↔ IsUnit version key.now }
{
    version != 2 || is_granule(key)
}

/// The bytes of a key's unit in a cluster of this version. Takes no memory.
pub fn unit_bytes(version: u8, key: &Key) -> &[u8]
    ensures same { result.now ≡ unit_of version key.now }
    ensures key { IsKey result.now }
{
    if version == 2 {
        granule_bytes(key.bytes())
    } else {
        key.bytes()
    }
}

/// The bytes of the granule of the key of these bytes. Takes no memory.
pub fn granule_bytes(key: &[u8]) -> &[u8]
    ensures { result.now ≡ granule_of key.now }
{
    let Some((_, rest)) = key.split_first() else {
        return key;
    };
    match slash_place(rest) {
        Some(place) => &key[..place + 1],
        None => key,
    }
}

/// The place of the first `/`, if there is one.
fn slash_place(bytes: &[u8]) -> Option<usize>
    ensures { result ≡ position (λ b. b == 47) bytes.now }
{
    bytes.iter().position(|byte| *byte == b'/')
}

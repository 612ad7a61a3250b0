//! Ids, granules, parts and lists of keys: their text, their copies, and which parts clash.
ghost use Rattle.std.specs.Prelude.{IsTrue};
ghost use Rattle.dt_lists.specs.Lists.{AllIn};
ghost use Rattle.dt_access.specs.Orders.{KeyBefore};

use dt_access::{
    Access, Homes, Ids, Keys, Mode, Part, TryCopy, TxnId, Writes, clash, granule, is_granule,
    put_id, read_id,
};
use dt_test_texts::{key_of, wrong};
use dt_text::{Key, Value};
use std::alloc::Global;
use std::cmp::Ordering;
use std::test::Fail;

/// Whether the key is greater than all of the keys.
fn is_above(keys: &[(Key, Mode)], key: &Key) -> bool
    ensures { IsTrue result → AllIn (λ e. KeyBefore e.0 key.now) keys.now }
{
    for entry in keys {
        if entry.0.cmp(key) != Ordering::Less {
            return false;
        }
    }
    true
}

/// Adds a key that is greater than those that are held.
fn add_key(keys: &mut Keys, key: Key, mode: Mode) -> Result<(), Fail> {
    if !is_above(keys.as_slice(), &key) {
        return Err(Fail::from("the keys of a part ascend"));
    }
    keys.push((key, mode))?;
    Ok(())
}

/// A key and how it is used.
type Use<'a> = (&'a [u8], Mode);

/// Keys that are used so, in ascending order.
fn keys_used(alloc: Global, uses: &[Use]) -> Result<Keys, Fail> {
    let mut keys = Keys::new(alloc);
    for (key, mode) in uses {
        add_key(&mut keys, key_of(alloc, key)?, *mode)?;
    }
    Ok(keys)
}

/// A list of one home.
fn one_home(alloc: Global, home: u8) -> Result<Homes, Fail> {
    let mut homes = Homes::new(alloc);
    homes.push(home)?;
    Ok(homes)
}

/// A part with these keys, at its only home, of the transaction of this number.
pub(crate) fn part_at(alloc: Global, seq: u32, home: u8, keys: Keys) -> Result<Part, Fail> {
    Ok(Part {
        id: TxnId { seq, region: 0 },
        rank: 5,
        home,
        keys,
        homes: one_home(alloc, home)?,
    })
}

/// A part that uses these keys so, in ascending order.
fn part_of(alloc: Global, uses: &[Use]) -> Result<Part, Fail> {
    part_at(alloc, 1, 1, keys_used(alloc, uses)?)
}

/// Whether parts that use keys so clash, and whether they do where they are given the other way round.
fn clashes(alloc: Global, left: &[Use], right: &[Use]) -> Result<(bool, bool), Fail> {
    let left = part_of(alloc, left)?;
    let right = part_of(alloc, right)?;
    Ok((clash(&left, &right.copy(alloc)?), clash(&right, &left)))
}

/// Uses of two parts, and whether these clash.
const CLASHES: &[(&[Use<'static>], &[Use<'static>], bool)] = &[
    // On one key, unless both read it.
    (&[(b"b", Mode::Read)], &[(b"b", Mode::Read)], false),
    (&[(b"b", Mode::Read)], &[(b"b", Mode::Write)], true),
    (&[(b"b", Mode::Write)], &[(b"b", Mode::Write)], true),
    (&[(b"b", Mode::Write)], &[(b"c", Mode::Write)], false),
    // On a granule that is taken as a whole, with each row of it.
    (&[(b"b", Mode::Whole)], &[(b"b", Mode::Read)], true),
    (&[(b"b", Mode::Whole)], &[(b"b", Mode::Whole)], true),
    (&[(b"b", Mode::Whole)], &[(b"b/1", Mode::Read)], true),
    (&[(b"b", Mode::Whole)], &[(b"b/1/x", Mode::Write)], true),
    (&[(b"b/1", Mode::Whole)], &[(b"b/2", Mode::Read)], true),
    (&[(b"b", Mode::Write)], &[(b"b/1", Mode::Write)], false),
    (&[(b"b/1", Mode::Write)], &[(b"b/2", Mode::Write)], false),
    // What only begins like the granule is no row of it.
    (&[(b"b", Mode::Whole)], &[(b"b-1", Mode::Write)], false),
    (&[(b"b", Mode::Whole)], &[(b"b.1", Mode::Write)], false),
    (&[(b"b", Mode::Whole)], &[(b"b0", Mode::Write)], false),
    (&[(b"b", Mode::Whole)], &[(b"bb/1", Mode::Write)], false),
    // The granule and its rows need not stand side by side.
    (
        &[(b"b", Mode::Whole)],
        &[(b"b-1", Mode::Write), (b"b/1", Mode::Read)],
        true,
    ),
    (
        &[(b"b-1", Mode::Whole)],
        &[
            (b"b", Mode::Write),
            (b"b-1", Mode::Read),
            (b"b/1", Mode::Write),
        ],
        true,
    ),
    (
        &[(b"b", Mode::Whole)],
        &[
            (b"a", Mode::Write),
            (b"b-1", Mode::Write),
            (b"b0", Mode::Write),
        ],
        false,
    ),
    (
        &[
            (b"a", Mode::Read),
            (b"b/1", Mode::Whole),
            (b"c", Mode::Read),
        ],
        &[
            (b"b", Mode::Read),
            (b"b-1", Mode::Read),
            (b"b.1", Mode::Read),
        ],
        true,
    ),
    // A `/` at the front begins a granule of its own.
    (&[(b"/x/y", Mode::Whole)], &[(b"/x", Mode::Read)], true),
    (
        &[(b"/x", Mode::Whole)],
        &[(b"/", Mode::Write), (b"/y", Mode::Write)],
        false,
    ),
    (&[(b"//", Mode::Whole)], &[(b"/", Mode::Read)], true),
];

/// Fails at the first two parts that clash and should not, or should and do not, in one order or in the other.
fn check_clashes(alloc: Global) -> Result<(), Fail> {
    for (row, (left, right, want)) in CLASHES.iter().enumerate() {
        let (one, other) = clashes(alloc, left, right)?;
        if one != *want || other != *want {
            return Err(wrong(row));
        }
    }
    Ok(())
}

#[test]
fn parts_clash_on_a_row_or_on_a_granule(rt: HostRuntime) -> Result<(), Fail> {
    check_clashes(rt.alloc())
}

/// The granule of a key, and a `!` where the key is its own.
fn granule_told(alloc: Global, key: &[u8]) -> Result<Vec<u8>, Fail> {
    let key = key_of(alloc, key)?;
    let mut out = granule(alloc, &key)?.bytes().to_vec(alloc)?;
    if is_granule(&key) {
        out.push(b'!')?;
    }
    Ok(out)
}

/// Keys, each with its granule, and a `!` behind it where it is its own one.
const GRANULES: &[(&[u8], &[u8])] = &[
    (b"b", b"b!"),
    (b"b/1", b"b"),
    (b"b/1/x", b"b"),
    (b"b-1", b"b-1!"),
    (b"a/", b"a"),
    (b"/", b"/!"),
    (b"//", b"/"),
    (b"/x", b"/x!"),
    (b"/x/y", b"/x"),
    (b"//x", b"/"),
];

/// Fails at the first key that has another granule.
fn check_granules(alloc: Global) -> Result<(), Fail> {
    for (row, (key, want)) in GRANULES.iter().enumerate() {
        if granule_told(alloc, key)?.as_slice() != *want {
            return Err(wrong(row));
        }
    }
    Ok(())
}

#[test]
fn a_granule_ends_before_the_first_slash_with_a_byte_before_it(
    rt: HostRuntime,
) -> Result<(), Fail> {
    check_granules(rt.alloc())
}

/// The id that a word spells, printed.
fn id_of(alloc: Global, word: &[u8]) -> Result<Vec<u8>, Fail> {
    let mut out = Vec::new(alloc);
    if word.len() > 20 {
        return Err(Fail::from("a test reads few bytes"));
    }
    if let Some(id) = read_id(word) {
        put_id(alloc, &mut out, id)?;
    }
    Ok(out)
}

/// Words, each with the id that it spells, printed, or nothing.
const IDS: &[(&[u8], &[u8])] = &[
    (b"1.0", b"1.0"),
    (b"20.7", b"20.7"),
    (b"4294967295.255", b"4294967295.255"),
    (b"", b""),
    (b".", b""),
    (b"1", b""),
    (b"1.", b""),
    (b".1", b""),
    (b"0.1", b""),
    (b"01.1", b""),
    (b"1.01", b""),
    (b"1.256", b""),
    (b"4294967296.0", b""),
    (b"1.0.0", b""),
    (b"+1.0", b""),
];

/// Fails at the first word that spells another id.
fn check_ids(alloc: Global) -> Result<(), Fail> {
    for (row, (word, want)) in IDS.iter().enumerate() {
        if id_of(alloc, word)?.as_slice() != *want {
            return Err(wrong(row));
        }
    }
    Ok(())
}

#[test]
fn an_id_has_one_spelling(rt: HostRuntime) -> Result<(), Fail> {
    check_ids(rt.alloc())
}

/// Whether an access is copied.
fn is_copied(alloc: Global, access: &Access) -> Result<bool, Fail> {
    Ok(access.copy(alloc)? == *access)
}

/// Whether a write of a key is copied.
fn write_is_copied(alloc: Global, key: Key) -> Result<bool, Fail> {
    let mut writes = Writes::new(alloc);
    writes.push((key, Some(Value::Int(5))))?;
    Ok(writes.copy(alloc)?.as_slice() == writes.as_slice())
}

/// Whether an access, and a write of its key, are copied.
fn access_is_copied(alloc: Global) -> Result<bool, Fail> {
    let access = Access {
        key: key_of(alloc, b"b")?,
        mode: Mode::Write,
        home: 1,
        counter: 2,
    };
    let same = is_copied(alloc, &access)?;
    Ok(write_is_copied(alloc, access.key)? && same)
}

/// Whether 600 ids are copied.
fn ids_are_copied(alloc: Global) -> Result<bool, Fail> {
    let mut ids = Ids::new(alloc);
    for seq in 1..601u32 {
        ids.push(TxnId { seq, region: 0 })?;
    }
    Ok(ids.copy(alloc)? == ids)
}

/// Whether a copy of a part, with the copies of its keys and its homes, has what the part has.
fn is_copy(alloc: Global, part: &Part, copied: &Part) -> Result<bool, Fail> {
    let keys = copied.keys.copy(alloc)?.as_slice() == part.keys.as_slice();
    let homes = copied.homes.copy(alloc)?.as_slice() == part.homes.as_slice();
    Ok(keys && homes && has_numbers_of(part, copied))
}

/// Whether a part has the id, the rank and the home of another.
fn has_numbers_of(part: &Part, other: &Part) -> bool {
    other.id == part.id && other.rank == part.rank && other.home == part.home
}

/// Whether a part is copied with its keys and its homes.
fn part_is_copied(alloc: Global) -> Result<bool, Fail> {
    let part = part_of(alloc, &[(b"b", Mode::Read)])?;
    let copied = part.copy(alloc)?;
    is_copy(alloc, &part, &copied)
}

#[test]
fn copies_are_equal(rt: HostRuntime) -> Result<(), Fail> {
    assert!(rt; access_is_copied(rt.alloc())?);
    assert!(rt; ids_are_copied(rt.alloc())?);
    assert!(rt; part_is_copied(rt.alloc())?);
    Ok(())
}

//! Indexes of ids: each answers what a search of all pairs of an id and a place does, the last one first.
use dt_access::TxnId;
use dt_index::IdIndex;
use dt_test_texts::wrong;
use std::alloc::Global;
use std::test::Fail;

/// How many places are put into an index.
const PUTS: u32 = 400;

/// Ids and places: how far the number of an id is from that of the step before, of which bits numbers are made, and the place
/// of the first step, from which places are counted on.
type Row = (u32, u32, usize);

/// The id of a step.
fn id_of(row: Row, step: u32) -> TxnId {
    let (stride, mask, _) = row;
    TxnId {
        seq: step.wrapping_mul(stride) & mask,
        region: (step % 5) as u8,
    }
}

/// The place that was last put for an id.
fn searched(pairs: &[(TxnId, usize)], id: TxnId) -> Option<usize> {
    let mut found = None;
    for (other, place) in pairs {
        if *other == id {
            found = Some(*place);
        }
    }
    found
}

/// Puts a place for an id, for which the index was prepared or not.
fn put(
    alloc: Global,
    index: &mut IdIndex,
    id: TxnId,
    place: usize,
    is_prepared: bool,
) -> Result<(), Fail> {
    if is_prepared {
        index.prepare(alloc, id)?;
    }
    index.reserve(1)?;
    index.put(id, place);
    Ok(())
}

/// Whether the index answers for the ids of many steps, of which some have no place, what a search does.
fn is_alike(index: &IdIndex, pairs: &[(TxnId, usize)], row: Row) -> bool {
    for step in 0..2 * PUTS {
        let id = id_of(row, step);
        if index.get(id) != searched(pairs, id) {
            return false;
        }
    }
    true
}

/// Whether an index answers what a search does, while it is empty and with all places of a row.
fn row_is_alike(alloc: Global, row: Row) -> Result<bool, Fail> {
    let mut index = IdIndex::new(alloc);
    let mut pairs = Vec::new(alloc);
    let was_alike = is_alike(&index, &[], row);
    for step in 0..PUTS {
        let (id, place) = (id_of(row, step), row.2.wrapping_add(step as usize));
        put(alloc, &mut index, id, place, step % 7 != 0)?;
        pairs.push((id, place))?;
    }
    Ok(was_alike && is_alike(&index, pairs.as_slice(), row))
}

/// In order; out of order; all far apart; some far apart; falling; and ids that come again, whose places are too large for a list
/// at last, or at first.
const ROWS: &[Row] = &[
    (1, 4294967295, 0),
    (77, 255, 0),
    (1031, 4294967295, 0),
    (409, 4294967295, 10),
    (4294967289, 2047, 0),
    (3, 15, 4294967095),
    (3, 15, 18446744073709551415),
];

/// Fails at the first row of which an index answers something else.
fn check_rows(alloc: Global) -> Result<(), Fail> {
    for (number, row) in ROWS.iter().enumerate() {
        if !row_is_alike(alloc, *row)? {
            return Err(wrong(number));
        }
    }
    Ok(())
}

#[test]
fn an_index_answers_what_a_search_of_all_pairs_does(rt: HostRuntime) -> Result<(), Fail> {
    check_rows(rt.alloc())
}

//! The class of an id in logs, found without a scheduler: in a graph of ids, with an edge wherever two parts of one log clash.
use crate::classes::{Ask, asked};
use dt_access::{Part, TxnId, clash};
use dt_text::Listed;
use std::alloc::Global;
use std::test::Fail;

/// How many ids a graph has vertices for: the first ones.
pub const MOST: u32 = 8;

/// The place of an id among ids, or how many they are where it is none of them.
fn place_of(ids: &[TxnId], id: TxnId) -> u32 {
    let mut place: u32 = 0;
    for other in ids {
        if *other == id {
            break;
        }
        place = place.saturating_add(1);
    }
    place
}

/// Adds an edge to the id of a part from that of each earlier one that clashes with it.
fn add_edges(
    ids: &[TxnId],
    edges: &mut Vec<(u32, u32)>,
    earlier: &[Part],
    part: &Part,
) -> Result<(), Fail> {
    let target = place_of(ids, part.id);
    for other in earlier {
        if clash(other, part) {
            edges.push((place_of(ids, other.id), target))?;
        }
    }
    Ok(())
}

/// Adds the edges of a log, in which each part stands behind those that were inserted before it.
fn add_log(ids: &[TxnId], edges: &mut Vec<(u32, u32)>, log: &[Part]) -> Result<(), Fail> {
    for (place, part) in log.iter().enumerate() {
        add_edges(ids, edges, &log[..place], part)?;
    }
    Ok(())
}

/// The edges of logs, each between the places of two ids.
pub fn edges_of(
    alloc: Global,
    ids: &[TxnId],
    logs: &[Listed<Part>],
) -> Result<Vec<(u32, u32)>, Fail> {
    let mut edges = Vec::new(alloc);
    for log in logs {
        add_log(ids, &mut edges, log.as_slice())?;
    }
    Ok(edges)
}

/// The ids at these places, in the order of the places.
fn at_places(alloc: Global, ids: &[TxnId], places: &[u32]) -> Result<Vec<TxnId>, Fail> {
    let mut some = Vec::new(alloc);
    for place in places {
        if let Some(id) = ids.get(*place as usize) {
            some.push(*id)?;
        }
    }
    Ok(some)
}

/// The class of the id at a place, by edges between places, in the order of the ids.
pub fn class_at(
    alloc: Global,
    ids: &[TxnId],
    edges: &[(u32, u32)],
    place: u32,
) -> Result<Vec<TxnId>, Fail> {
    let places = asked(alloc, MOST, edges, Ask::Class, place)?;
    at_places(alloc, ids, places.as_slice())
}

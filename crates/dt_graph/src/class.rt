ghost use Rattle.std.specs.Prelude.{◌≡◌, ◌≤◌, ◌<◌, ◌^◌, IfOk, length};
ghost use Rattle.dt_lists.specs.Lists.{AllIn, Distinct};
ghost use Rattle.dt_queue.specs.Queues.{HasDistinctSlots, IsQueued};
ghost use Rattle.dt_waits.specs.Among.{IsAmong};
ghost use Rattle.dt_graph.specs.LinksInner.{IsSourceAt, IsSourceOf, HasLinked};
ghost use Rattle.dt_waits.specs.Steps.{HaveSlots};

use crate::group::Group;
use crate::vertices::Vertices;
use dt_class::Adj;
use dt_queue::Queues;
use dt_text::NoMemory;
use std::alloc::Global;

/// What vertices wait for among themselves, by their places in a list, and which of them wait for others too.
#[derive(Drop)]
pub struct Among {
    pub graph: Adj,
    pub blocked: Vec<u32>,
}

/// Puts in the edges from the neighbours of the entry at a slot to the vertex at a place, and says whether some neighbour is
/// not in the group.
fn link_slot(
    alloc: Global,
    queues: &Queues,
    slot: usize,
    group: &Group,
    place: u32,
    graph: &mut Adj,
) -> Result<bool, NoMemory>
    requires waits { IsQueued queues.now slot }
    requires once { Distinct group.now }
    requires place { place < graph.old.vertices }
    requires size { graph.old.vertices ≡ length group.now }
    ensures { IfOk result (HasLinked (IsSourceOf queues.now slot) group.now place graph.old graph.new) }
{
    let neighbours = queues.neighbours(alloc, slot)?;
    let mut blocked = false;
    for neighbour in neighbours.as_slice() {
        match group.place_of(*neighbour) {
            Some(source) => graph.edge(source, place)?,
            None => blocked = true,
        }
    }
    Ok(blocked)
}

/// Puts in the edges into the vertex at a place, and says whether it waits for some vertex that is not in the group.
fn link(
    alloc: Global,
    queues: &Queues,
    slots: &[usize],
    group: &Group,
    place: u32,
    graph: &mut Adj,
) -> Result<bool, NoMemory>
    requires waits { AllIn (IsQueued queues.now) slots.now }
    requires once { Distinct group.now }
    requires place { place < graph.old.vertices }
    requires size { graph.old.vertices ≡ length group.now }
    ensures { IfOk result (HasLinked (IsSourceAt queues.now slots.now) group.now place graph.old graph.new) }
{
    let mut blocked = false;
    for slot in slots {
        blocked |= link_slot(alloc, queues, *slot, group, place, graph)?;
    }
    Ok(blocked)
}

/// What the vertices of a list wait for.
pub fn gather(
    alloc: Global,
    queues: &Queues,
    vertices: &Vertices,
    list: &[u32],
) -> Result<Among, NoMemory>
    requires distinct { HasDistinctSlots queues.now }
    requires once { Distinct list.now }
    requires few { length list.now < 2 ^ 32 }
    requires slots { HaveSlots queues.now vertices.now.vertices list.now }
    requires kept { AllIn (λ v. vertices.now.first ≤ v) list.now }
    ensures { IfOk result (λ among. IsAmong queues.now list.now among.graph among.blocked.items) }
{
    let group = Group::of(alloc, list)?;
    let mut graph = Adj::new(alloc, list.len() as u32)?;
    let mut blocked = Vec::new(alloc);
    for (place, vertex) in list.iter().enumerate() {
        let slots = vertices.get(*vertex).slots.as_slice();
        if link(alloc, queues, slots, &group, place as u32, &mut graph)? {
            blocked.push(place as u32)?;
        }
    }
    Ok(Among { graph, blocked })
}

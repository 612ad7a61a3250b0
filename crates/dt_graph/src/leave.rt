ghost use Rattle.std.specs.Prelude.{◌≡◌, ◌≢◌, ◌≤◌, ◌<◌, ◌==◌, ℕ, not, filter, get_or, length, sum_by};
ghost use Rattle.std.specs.List.{list_any};
ghost use Rattle.dt_lists.specs.Lists.{AllIn, AnyIn, Distinct};
ghost use Rattle.dt_queue.specs.Queues.{HasDistinctSlots, IsQueued};
ghost use Rattle.dt_waits.specs.Graph.{vertex_at};
ghost use Rattle.dt_waits.specs.Steps.{AreEntriesBelow, HaveSlots};
ghost use Rattle.dt_graph.specs.SmallStepsInner.{AreLowered, IsFollowedAt, Wakes, falls};
ghost use Rattle.dt_graph.specs.VerticesInner.{IsVertexKept};
ghost use Rattle.dt_waits.specs.Waits.{IsFollowed, is_leaving, lowered, lowered_by};

use crate::vertices::Vertices;
use dt_queue::Queues;

/// Takes one from the degree of a follower of an entry of a vertex, unless it follows itself.
fn lower(vertices: &mut Vertices, follower: u32, vertex: u32)
    requires within { IsVertexKept vertices.old follower }
    requires sizes { length vertices.old.degrees ≡ length vertices.old.vertices }
    requires enough { follower ≢ vertex → 1 ≤ get_or vertices.old.degrees follower 0 }
    ensures lowered { AreLowered (falls vertex follower) vertices.old.degrees vertices.new.degrees }
    ensures same { vertices.new ≡ record vertices.old { degrees = vertices.new.degrees } }
{
    if follower != vertex {
        vertices.lower(follower);
    }
}

/// A vertex is ready, if it is stuck and has come to degree 0.
fn wake(vertices: &mut Vertices, vertex: u32)
    requires { IsVertexKept vertices.old vertex }
    ensures woken { Wakes (λ v. vertex ≡ v) vertices.old.degrees vertices.old.stuck vertices.old.ready vertices.new.stuck vertices.new.ready }
    ensures vertices { vertices.new.vertices ≡ vertices.old.vertices }
    ensures degrees { vertices.new.degrees ≡ vertices.old.degrees }
    ensures first { vertices.new.first ≡ vertices.old.first }
{
    if vertices.degree(vertex) == 0 && vertices.is_stuck(vertex) {
        vertices.take_stuck(vertex);
        vertices.add_ready(vertex);
    }
}

/// Lowers the degrees of the followers of the entry at a slot of a vertex, but not its own; those that are stuck and come to
/// degree 0 are ready.
fn free_followers(queues: &Queues, slot: usize, vertex: u32, vertices: &mut Vertices)
    requires waits { IsQueued queues.now slot }
    requires below { AreEntriesBelow (length vertices.old.degrees) queues.now }
    requires kept { AllIn (λ w. vertices.old.first ≤ w.vertex) queues.now }
    requires sizes { length vertices.old.degrees ≡ length vertices.old.vertices }
    requires enough { (v : ℕ) → v < length vertices.old.degrees → lowered queues.now slot vertex v ≤ get_or vertices.old.degrees v 0 }
    ensures lowered { AreLowered (lowered queues.now slot vertex) vertices.old.degrees vertices.new.degrees }
    ensures woken { Wakes (IsFollowedAt queues.now slot) vertices.new.degrees vertices.old.stuck vertices.old.ready vertices.new.stuck vertices.new.ready }
    ensures same { vertices.new.vertices ≡ vertices.old.vertices }
    ensures first { vertices.new.first ≡ vertices.old.first }
{
    let mut followers = queues.followers(slot);
    while let Some(follower) = followers.next() {
        lower(vertices, follower.vertex, vertex);
        wake(vertices, follower.vertex);
    }
}

/// Lowers the degrees of the followers of the entries of a vertex, but not its own; those that are stuck and come to degree 0 are
/// ready.
fn free_slots(queues: &Queues, vertex: u32, vertices: &mut Vertices)
    requires within { IsVertexKept vertices.old vertex }
    requires wait { AllIn (IsQueued queues.now) (vertex_at vertices.old.vertices vertex).slots }
    requires below { AreEntriesBelow (length vertices.old.degrees) queues.now }
    requires kept { AllIn (λ w. vertices.old.first ≤ w.vertex) queues.now }
    requires sizes { length vertices.old.degrees ≡ length vertices.old.vertices }
    requires enough { (v : ℕ) → v < length vertices.old.degrees →
        sum_by (λ slot. lowered queues.now slot vertex v) (vertex_at vertices.old.vertices vertex).slots ≤ get_or vertices.old.degrees v 0 }
    ensures lowered { AreLowered (λ v. sum_by (λ slot. lowered queues.now slot vertex v) (vertex_at vertices.old.vertices vertex).slots) vertices.old.degrees vertices.new.degrees }
    ensures woken { Wakes (λ v. AnyIn (λ slot. IsFollowedAt queues.now slot v) (vertex_at vertices.old.vertices vertex).slots)
        vertices.new.degrees vertices.old.stuck vertices.old.ready vertices.new.stuck vertices.new.ready }
    ensures same { vertices.new.vertices ≡ vertices.old.vertices }
    ensures first { vertices.new.first ≡ vertices.old.first }
{
    for place in 0..vertices.get(vertex).slots.len() {
        let slot = vertices.get(vertex).slots.as_slice()[place];
        free_followers(queues, slot, vertex, vertices);
    }
}

/// Lowers the degrees of the followers of all entries of the vertices; those that are stuck and come to degree 0 are ready.
fn free_all(queues: &Queues, vertices: &mut Vertices, leaving: &[u32])
    requires slots { HaveSlots queues.now vertices.old.vertices leaving.now }
    requires left { AllIn (λ u. vertices.old.first ≤ u) leaving.now }
    requires below { AreEntriesBelow (length vertices.old.degrees) queues.now }
    requires kept { AllIn (λ w. vertices.old.first ≤ w.vertex) queues.now }
    requires sizes { length vertices.old.degrees ≡ length vertices.old.vertices }
    requires enough { (v : ℕ) → v < length vertices.old.degrees → lowered_by queues.now leaving.now v ≤ get_or vertices.old.degrees v 0 }
    ensures lowered { AreLowered (lowered_by queues.now leaving.now) vertices.old.degrees vertices.new.degrees }
    ensures woken { Wakes (IsFollowed queues.now leaving.now) vertices.new.degrees vertices.old.stuck vertices.old.ready vertices.new.stuck vertices.new.ready }
    ensures same { vertices.new.vertices ≡ vertices.old.vertices }
    ensures first { vertices.new.first ≡ vertices.old.first }
{
    for vertex in leaving {
        free_slots(queues, *vertex, vertices);
    }
}

/// Takes the entries at some slots out of the queues.
fn remove_slots(queues: &mut Queues, slots: &[usize])
    requires once { Distinct slots.now }
    requires wait { AllIn (IsQueued queues.old) slots.now }
    ensures { queues.new ≡ filter (λ w. not (list_any (λ s. s == w.slot) slots.now)) queues.old }
{
    for slot in slots {
        queues.remove(*slot);
    }
}

/// Takes all entries of the vertices out of the queues.
fn remove_all(queues: &mut Queues, vertices: &Vertices, leaving: &[u32])
    requires distinct { HasDistinctSlots queues.old }
    requires once { Distinct leaving.now }
    requires slots { HaveSlots queues.old vertices.now.vertices leaving.now }
    requires left { AllIn (λ u. vertices.now.first ≤ u) leaving.now }
    ensures { queues.new ≡ filter (λ w. not (is_leaving leaving.now w.vertex)) queues.old }
{
    for vertex in leaving {
        remove_slots(queues, vertices.get(*vertex).slots.as_slice());
    }
}

/// Lets vertices leave together: first all degrees are lowered, and only then the entries taken out, since what an entry
/// follows is shown by all that stand before it.
pub fn leave(queues: &mut Queues, vertices: &mut Vertices, leaving: &[u32])
    requires distinct { HasDistinctSlots queues.old }
    requires once { Distinct leaving.now }
    requires slots { HaveSlots queues.old vertices.old.vertices leaving.now }
    requires left { AllIn (λ u. vertices.old.first ≤ u) leaving.now }
    requires below { AreEntriesBelow (length vertices.old.degrees) queues.old }
    requires kept { AllIn (λ w. vertices.old.first ≤ w.vertex) queues.old }
    requires sizes { length vertices.old.degrees ≡ length vertices.old.vertices }
    requires enough { (v : ℕ) → v < length vertices.old.degrees → lowered_by queues.old leaving.now v ≤ get_or vertices.old.degrees v 0 }
    ensures lowered { AreLowered (lowered_by queues.old leaving.now) vertices.old.degrees vertices.new.degrees }
    ensures woken { Wakes (IsFollowed queues.old leaving.now) vertices.new.degrees vertices.old.stuck vertices.old.ready vertices.new.stuck vertices.new.ready }
    ensures same { vertices.new.vertices ≡ vertices.old.vertices }
    ensures first { vertices.new.first ≡ vertices.old.first }
    ensures removed { queues.new ≡ filter (λ w. not (is_leaving leaving.now w.vertex)) queues.old }
{
    free_all(queues, vertices, leaving);
    remove_all(queues, vertices, leaving);
}

ghost use Rattle.std.specs.Prelude.{◌≡◌, ◌≤◌, ◌<◌, ◌+◌, ◌-◌, ◌^◌, ◌↔◌, ℕ, List, [], ◌∷◌, ◌++◌, IfOk, IsTrue, OnOk, OnErr, Some, get_or, length, slice_get};
ghost use Rattle.dt_lists.specs.Lists.{AllIn, Distinct, Has};
ghost use Rattle.dt_access.specs.Orders.{AreAscendingHomes};
ghost use Rattle.dt_access.specs.declared.TxnId.{TxnId};
ghost use Rattle.dt_queue.specs.Queues.{HasDistinctSlots, Waiting};
ghost use Rattle.dt_waits.specs.declared.open.Open.{Open};
ghost use Rattle.dt_waits.specs.Graph.{IsClassDone, vertex_at};
ghost use Rattle.dt_waits.specs.Steps.{AreEntriesBelow, HaveSlots, Inserts, Leaves, Resolves};
ghost use Rattle.dt_graph.specs.SmallStepsInner.{Sorts};
ghost use Rattle.dt_waits.specs.Waits.{degree, id_at, lowered_by};
ghost use Rattle.dt_graph.specs.HeldInner.{kept_of};
ghost use Rattle.dt_graph.specs.VerticesInner.{HasPassed, IsVertexKept};

use crate::enter::enter;
use crate::leave::leave;
use crate::vertices::Vertices;
use dt_access::{Homes, Part};
use dt_queue::Queues;
use dt_text::NoMemory;
use dt_waits::{Open, Place, Slots, Vertex};
use std::alloc::Global;

/// The vertices by their numbers, what each waits for, and which of them are ready or stuck.
#[derive(Drop)]
pub struct Waits {
    pub vertices: Vertices,
    pub queues: Queues,
}

impl Waits {
    /// No vertex. Takes no memory.
    pub fn new(alloc: Global) -> Self
        ensures vertices { result.vertices.vertices ≡ [] }
        ensures degrees { result.vertices.degrees ≡ [] }
        ensures ready { result.vertices.ready ≡ [] }
        ensures stuck { result.vertices.stuck ≡ [] }
        ensures queues { result.queues ≡ [] }
        ensures first { result.vertices.first ≡ 0 }
    {
        Waits {
            vertices: Vertices::new(alloc),
            queues: Queues::new(alloc),
        }
    }

    /// Makes room for one more vertex. Nothing else changes.
    pub fn reserve(&mut self) -> Result<(), NoMemory>
        ensures room { OnOk result (0 < self.new.vertices.room) }
        ensures same { (ids : List TxnId) (classes : List Open) → kept_of ids self.new classes ≡ kept_of ids self.old classes }
        ensures first { self.new.vertices.first ≡ self.old.vertices.first }
    {
        self.vertices.reserve()
    }

    /// Puts in a vertex with its first part, for which there is room; after `NoMemory` all is as before.
    pub fn add(&mut self, alloc: Global, part: &Part) -> Result<(), NoMemory>
        requires room { 0 < self.old.vertices.room }
        requires few { length self.old.vertices.vertices + 1 < 2 ^ 32 }
        requires sizes { length self.old.vertices.degrees ≡ length self.old.vertices.vertices }
        requires distinct { HasDistinctSlots self.old.queues }
        requires below { AreEntriesBelow (length self.old.vertices.vertices) self.old.queues }
        requires homed { 1 ≤ length part.now.homes }
        requires first { self.old.vertices.first ≤ length self.old.vertices.vertices }
        requires ready_within { AllIn (λ v. v < length self.old.vertices.vertices) self.old.vertices.ready }
        requires stuck_within { AllIn (λ v. v < length self.old.vertices.vertices) self.old.vertices.stuck }
        ensures added { OnOk result ((ids : List TxnId) (classes : List Open) → length ids ≡ length self.old.vertices.vertices → Distinct ids → (Has ids part.now.id → ⊥) →
            (more : List Waiting) × Inserts part.now (length ids) more (kept_of ids self.old classes) (kept_of (ids ++ part.now.id ∷ []) self.new classes)) }
        ensures same { (ids : List TxnId) (classes : List Open) → OnErr result (kept_of ids self.new classes ≡ kept_of ids self.old classes) }
        ensures first { self.new.vertices.first ≡ self.old.vertices.first }
    {
        let vertex = self.vertices.len() as u32;
        let mut slots = Slots::new(alloc);
        slots.reserve(part.keys.as_slice().len())?;
        let degree = enter(alloc, &mut self.queues, part, vertex, 0, &mut slots)?;
        let added = Vertex {
            slots,
            class: Place::none(),
            missing: other_homes(&part.homes),
            rank: part.rank,
        };
        self.vertices.push(added, degree);
        self.sort(vertex);
        Ok(())
    }

    /// Puts in one more part to a vertex; after `NoMemory` all is as before.
    pub fn extend(&mut self, alloc: Global, vertex: u32, part: &Part) -> Result<(), NoMemory>
        requires vertex { IsVertexKept self.old.vertices vertex }
        requires sizes { length self.old.vertices.degrees ≡ length self.old.vertices.vertices }
        requires distinct { HasDistinctSlots self.old.queues }
        requires missing { 0 < (vertex_at self.old.vertices.vertices vertex).missing }
        requires counted { get_or self.old.vertices.degrees vertex 0 ≡ degree self.old.queues vertex }
        requires not_ready { ¬ (Has self.old.vertices.ready vertex) }
        requires not_stuck { ¬ (Has self.old.vertices.stuck vertex) }
        ensures extended { OnOk result ((ids : List TxnId) (classes : List Open) → length ids ≡ length self.old.vertices.vertices → Distinct ids → id_at ids vertex ≡ part.now.id →
            (more : List Waiting) × Inserts part.now vertex more (kept_of ids self.old classes) (kept_of ids self.new classes)) }
        ensures same { (ids : List TxnId) (classes : List Open) → OnErr result (kept_of ids self.new classes ≡ kept_of ids self.old classes) }
        ensures first { self.new.vertices.first ≡ self.old.vertices.first }
    {
        let mut slots = self.copied_slots(alloc, vertex)?;
        slots.reserve(part.keys.as_slice().len())?;
        let degree = enter(
            alloc,
            &mut self.queues,
            part,
            vertex,
            self.vertices.degree(vertex),
            &mut slots,
        )?;
        self.vertices.grow(vertex, slots, degree);
        self.sort(vertex);
        Ok(())
    }

    /// A copy of the slots of a vertex.
    fn copied_slots(&self, alloc: Global, vertex: u32) -> Result<Slots, NoMemory>
        requires { IsVertexKept self.now.vertices vertex }
        ensures { IfOk result (λ slots. slots ≡ (vertex_at self.now.vertices.vertices vertex).slots) }
    {
        self.vertices.get(vertex).slots.copy(alloc)
    }

    /// Puts a vertex that is neither ready nor stuck to those that are, if it is complete.
    fn sort(&mut self, vertex: u32)
        requires vertex { IsVertexKept self.old.vertices vertex }
        requires not_ready { ¬ (Has self.old.vertices.ready vertex) }
        requires not_stuck { ¬ (Has self.old.vertices.stuck vertex) }
        ensures sorted { Sorts vertex self.old.vertices.vertices self.old.vertices.degrees self.old.vertices.ready self.old.vertices.stuck self.new.vertices.ready self.new.vertices.stuck }
        ensures vertices { self.new.vertices.vertices ≡ self.old.vertices.vertices }
        ensures degrees { self.new.vertices.degrees ≡ self.old.vertices.degrees }
        ensures queues { self.new.queues ≡ self.old.queues }
        ensures first { self.new.vertices.first ≡ self.old.vertices.first }
    {
        if self.vertices.get(vertex).missing == 0 {
            if self.vertices.degree(vertex) == 0 {
                self.vertices.add_ready(vertex);
            } else {
                self.vertices.add_stuck(vertex);
            }
        }
    }

    /// Puts the stuck vertices into the resolved class at a place; the first one is ready now.
    pub fn resolve(&mut self, members: &[u32], class: usize)
        requires within { AllIn (λ v. v < length self.old.vertices.vertices) members.now }
        requires kept { AllIn (λ v. self.old.vertices.first ≤ v) members.now }
        requires few { class + 1 < 2 ^ 32 }
        ensures resolved { (ids : List TxnId) (classes : List Open) →
            Resolves members.now class (kept_of ids self.old classes) (kept_of ids self.new (classes ++ record { members = members.now; next = 0 } ∷ [])) }
        ensures first { self.new.vertices.first ≡ self.old.vertices.first }
    {
        for vertex in members {
            self.vertices.put_in_class(*vertex, class as u32);
            self.vertices.take_stuck(*vertex);
        }
        if let Some(first) = members.first() {
            self.vertices.add_ready(*first);
        }
    }

    /// Lets vertices leave together.
    pub fn leave(&mut self, leaving: &[u32])
        requires distinct { HasDistinctSlots self.old.queues }
        requires once { Distinct leaving.now }
        requires slots { HaveSlots self.old.queues self.old.vertices.vertices leaving.now }
        requires sizes { length self.old.vertices.degrees ≡ length self.old.vertices.vertices }
        requires left { AllIn (λ u. self.old.vertices.first ≤ u) leaving.now }
        requires below { AreEntriesBelow (length self.old.vertices.vertices) self.old.queues }
        requires kept { AllIn (λ w. self.old.vertices.first ≤ w.vertex) self.old.queues }
        requires enough { (v : ℕ) → v < length self.old.vertices.degrees → lowered_by self.old.queues leaving.now v ≤ get_or self.old.vertices.degrees v 0 }
        ensures left { (ids : List TxnId) (classes : List Open) → Leaves leaving.now (kept_of ids self.old classes) (kept_of ids self.new classes) }
        ensures first { self.new.vertices.first ≡ self.old.vertices.first }
    {
        leave(&mut self.queues, &mut self.vertices, leaving);
    }

    /// Forgets the vertices at the front whose transactions have left, up to the first that has not. Takes no memory.
    pub fn forget(&mut self, classes: &[Open])
        requires few { length self.old.vertices.vertices < 2 ^ 32 }
        requires first { self.old.vertices.first ≤ length self.old.vertices.vertices }
        ensures same { (ids : List TxnId) (kept : List Open) → kept_of ids self.new kept ≡ kept_of ids self.old kept }
        ensures first { self.new.vertices.first ≤ length self.old.vertices.vertices }
        ensures passed { (v : ℕ) → self.old.vertices.first ≤ v → v < self.new.vertices.first → HasPassed classes.now self.old.vertices v }
        ensures all { self.new.vertices.first < length self.old.vertices.vertices → ¬ (HasPassed classes.now self.old.vertices self.new.vertices.first) }
    {
        while self.has_front_passed(classes) {
            self.vertices.forget();
        }
    }

    /// Whether there is a first vertex that is kept, and its transaction has left.
    fn has_front_passed(&self, classes: &[Open]) -> bool
        requires few { length self.now.vertices.vertices < 2 ^ 32 }
        ensures { IsTrue result ↔ (self.now.vertices.first < length self.now.vertices.vertices) × HasPassed classes.now self.now.vertices self.now.vertices.first }
    {
        let front = self.vertices.first();
        front < self.vertices.len() && self.has_passed(front as u32, classes)
    }

    /// Whether the transaction of a vertex has left.
    fn has_passed(&self, number: u32, classes: &[Open]) -> bool
        requires { IsVertexKept self.now.vertices number }
        ensures { IsTrue result ↔ HasPassed classes.now self.now.vertices number }
    {
        let vertex = self.vertices.get(number);
        vertex.missing == 0
            && !self.vertices.is_ready(number)
            && !self.vertices.is_stuck(number)
            && is_class_done(classes, vertex.class.get())
    }
}

/// Whether the resolved class at a place is done, if there is one.
fn is_class_done(classes: &[Open], place: Option<u32>) -> bool
    ensures { IsTrue result ↔ IsClassDone classes.now place }
{
    let Some(place) = place else { return true };
    match classes.get(place as usize) {
        Some(class) => class.members.as_slice().len() <= class.next,
        None => false,
    }
}

/// How many homes there are beside one of them.
fn other_homes(homes: &Homes) -> u8
    requires { 1 ≤ length homes.now }
    ensures { result ≡ length homes.now - 1 }
{
    let homes = homes.as_slice();
    match homes.last() {
        Some(last) => before_last(homes, *last),
        None => 0,
    }
}

/// How many homes there are before the last one. They ascend from 0 on, so the last one is not less than this count, which has
/// 8 bits as that home has.
fn before_last(homes: &[u8], last: u8) -> u8
    requires some { 1 ≤ length homes.now }
    requires ascending { AreAscendingHomes homes.now }
    requires last { slice_get homes.now (length homes.now - 1) ≡ Some last }
    ensures { result ≡ length homes.now - 1 }
{
    (homes.len() - 1) as u8
}

ghost use Rattle.std.specs.Prelude.{◌≡◌, ◌≤◌, ◌<◌, ◌+◌, ◌-◌, ◌^◌, [], ◌∷◌, ◌++◌, OnOk, Some, get_or, length, set};
ghost use Rattle.dt_waits.specs.Graph.{vertex_at};
ghost use Rattle.dt_graph.specs.declared.kept.State.TheVariants.{Neither};
ghost use Rattle.dt_graph.specs.VerticesInner.{IsIn};

use crate::gone::Gone;
use crate::kept::{Kept, State};
use dt_text::NoMemory;
use dt_waits::{Place, Slots, Vertex};
use std::alloc::Global;
use std::collections::VecDeque;
use std::marker::Model;

/// The records of transactions by their numbers. Those at the front that were forgotten take no memory: contracts alone see them.
#[derive(Drop)]
pub struct Records {
    gone: Gone,
    /// The number of the first record that is kept.
    first: usize,
    kept: VecDeque<Kept>,
}

impl Model for Records {
    ghost use Rattle.std.specs.Prelude.{◌-◌, ◌++◌};
    ghost use Rattle.std.specs.VecDeque.{deque_capacity, deque_len};
    ghost use Rattle.dt_graph.specs.VerticesInner.{IsVertexCounted, RecordsView, degrees_of, states_of, vertices_of};

    ghost Value = { RecordsView };

    ghost view = { λ r. record {
      vertices = vertices_of (r.gone.records ++ r.kept.items);
      degrees = degrees_of (r.gone.records ++ r.kept.items);
      states = states_of (r.gone.records ++ r.kept.items);
      first = r.first;
      room = deque_capacity r.kept - deque_len r.kept;
    } };

    ghost invariant = { λ r. IsVertexCounted r.first r.gone.records r.kept.items };
}

impl Records {
    /// No record. Takes no memory.
    pub fn new(alloc: Global) -> Self
        ensures vertices { result.vertices ≡ [] }
        ensures degrees { result.degrees ≡ [] }
        ensures states { result.states ≡ [] }
        ensures first { result.first ≡ 0 }
    {
        Records {
            gone: Gone::nothing(),
            first: 0,
            kept: VecDeque::new(alloc),
        }
    }

    /// How many there are, with those that were forgotten.
    pub fn len(&self) -> usize
        ensures { result ≡ length self.now.vertices }
    {
        self.first + self.kept.len()
    }

    /// The number of the first that is kept.
    pub fn first(&self) -> usize
        ensures { result ≡ self.now.first }
    {
        self.first
    }

    /// Makes room for one more. Nothing else changes.
    pub fn reserve(&mut self) -> Result<(), NoMemory>
        ensures room { OnOk result (0 < self.new.room) }
        ensures same { self.new ≡ record self.old { room = self.new.room } }
    {
        self.kept.reserve(1)?;
        Ok(())
    }

    /// Adds the record of a vertex that is neither ready nor stuck, for which there is room. Takes no memory.
    pub fn push(&mut self, vertex: Vertex, degree: u128)
        requires room { 0 < self.old.room }
        requires few { length self.old.vertices + 1 < 2 ^ 32 }
        ensures vertices { self.new.vertices ≡ self.old.vertices ++ vertex ∷ [] }
        ensures degrees { self.new.degrees ≡ self.old.degrees ++ degree ∷ [] }
        ensures states { self.new.states ≡ self.old.states ++ Neither ∷ [] }
        ensures first { self.new.first ≡ self.old.first }
    {
        self.kept.push_back_reserved(Kept {
            degree,
            vertex,
            state: State::Neither,
        });
    }

    /// Forgets the first that is kept.
    pub fn forget(&mut self)
        requires { self.old.first < length self.old.vertices }
        ensures { self.new ≡ record self.old { first = self.old.first + 1; room = self.new.room } }
    {
        if let Some(front) = self.kept.pop_front() {
            self.gone = self.gone.after(&front);
            self.first += 1;
        }
    }

    /// The vertex of a number.
    pub fn get(&self, number: u32) -> &Vertex
        requires { IsIn self.now number }
        ensures { result.now ≡ vertex_at self.now.vertices number }
    {
        &self.kept[number as usize - self.first].vertex
    }

    /// The degree of a vertex.
    pub fn degree(&self, number: u32) -> u128
        requires { IsIn self.now number }
        ensures { result ≡ get_or self.now.degrees number 0 }
    {
        self.kept[number as usize - self.first].degree
    }

    /// Whether a vertex is ready or stuck.
    pub fn state(&self, number: u32) -> State
        requires { IsIn self.now number }
        ensures { result ≡ get_or self.now.states number Neither }
    {
        self.kept[number as usize - self.first].state
    }

    /// Gives a vertex a state.
    pub fn set_state(&mut self, number: u32, state: State)
        requires { IsIn self.old number }
        ensures { self.new ≡ record self.old { states = set self.old.states number state } }
    {
        self.kept[number as usize - self.first].state = state;
    }

    /// Gives a vertex with a part more its slots and its degree.
    pub fn grow(&mut self, number: u32, slots: Slots, degree: u128)
        requires within { IsIn self.old number }
        requires missing { 0 < (vertex_at self.old.vertices number).missing }
        ensures { self.new ≡ record self.old {
          vertices = set self.old.vertices number (record (vertex_at self.old.vertices number) { missing = (vertex_at self.old.vertices number).missing - 1; slots = slots });
          degrees = set self.old.degrees number degree;
        } }
    {
        let kept = &mut self.kept[number as usize - self.first];
        kept.vertex.slots = slots;
        kept.vertex.missing -= 1;
        kept.degree = degree;
    }

    /// Puts a vertex into the resolved class at a place.
    pub fn put_in_class(&mut self, number: u32, class: u32)
        requires within { IsIn self.old number }
        requires few { class + 1 < 2 ^ 32 }
        ensures { self.new ≡ record self.old { vertices = set self.old.vertices number (record (vertex_at self.old.vertices number) { class = Some class }) } }
    {
        self.kept[number as usize - self.first].vertex.class = Place::at(class);
    }

    /// Takes one from the degree of a vertex.
    pub fn lower(&mut self, number: u32)
        requires within { IsIn self.old number }
        requires enough { 1 ≤ get_or self.old.degrees number 0 }
        ensures { self.new ≡ record self.old { degrees = set self.old.degrees number (get_or self.old.degrees number 0 - 1) } }
    {
        self.kept[number as usize - self.first].degree -= 1;
    }
}

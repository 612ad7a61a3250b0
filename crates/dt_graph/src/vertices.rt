ghost use Rattle.std.specs.Prelude.{◌≡◌, ◌≤◌, ◌<◌, ◌+◌, ◌-◌, ◌^◌, ◌↔◌, [], ◌∷◌, ◌++◌, IsTrue, OnOk, Some, get_or, length, set, vec_capacity};
ghost use Rattle.dt_lists.specs.Lists.{Has, Distinct};
ghost use Rattle.dt_waits.specs.Graph.{vertex_at};
ghost use Rattle.dt_graph.specs.SubsetInner.{PutsIn, Removes};
ghost use Rattle.dt_graph.specs.VerticesInner.{IsVertexKept};

use crate::kept::Kind;
use crate::members::{put, take};
use crate::records::Records;
use dt_text::NoMemory;
use dt_waits::{Slots, Vertex};
use std::alloc::Global;
use std::marker::Model;

/// The vertices by their numbers, each with its degree, and which of them are ready or stuck.
///
/// There is room for all of them among the ready and among the stuck ones, and each has its place there at hand. So a vertex
/// comes to them and goes from them at once, and takes no memory.
#[derive(Drop)]
pub struct Vertices {
    records: Records,
    ready: Vec<u32>,
    stuck: Vec<u32>,
}

impl Model for Vertices {
    ghost use Rattle.std.specs.Prelude.{length, vec_capacity};
    ghost use Rattle.dt_graph.specs.VerticesInner.{AreVerticesKept, VerticesView, room_of};

    ghost Value = { VerticesView };

    ghost view = { λ v. record {
      vertices = v.records.vertices;
      degrees = v.records.degrees;
      first = v.records.first;
      ready = v.ready.items;
      stuck = v.stuck.items;
      room = room_of (length v.records.vertices) v.records.room (vec_capacity v.ready) (vec_capacity v.stuck);
    } };

    ghost invariant = { λ v. AreVerticesKept v.records v.ready.items v.stuck.items (vec_capacity v.ready) (vec_capacity v.stuck) };
}

impl Vertices {
    /// No vertex. Takes no memory.
    pub fn new(alloc: Global) -> Self
        ensures vertices { result.vertices ≡ [] }
        ensures degrees { result.degrees ≡ [] }
        ensures ready { result.ready ≡ [] }
        ensures stuck { result.stuck ≡ [] }
        ensures first { result.first ≡ 0 }
    {
        Vertices {
            records: Records::new(alloc),
            ready: Vec::new(alloc),
            stuck: Vec::new(alloc),
        }
    }

    /// How many there are, with those that were forgotten.
    pub fn len(&self) -> usize
        ensures { result ≡ length self.now.vertices }
    {
        self.records.len()
    }

    /// Makes room for one more. Nothing else changes.
    pub fn reserve(&mut self) -> Result<(), NoMemory>
        ensures room { OnOk result (0 < self.new.room) }
        ensures same { self.new ≡ record self.old { room = self.new.room } }
    {
        let records = self.records.len() + 1;
        self.records.reserve()?;
        self.ready.reserve(records - self.ready.len())?;
        self.stuck.reserve(records - self.stuck.len())?;
        Ok(())
    }

    /// Adds one that is neither ready nor stuck, for which there is room. Takes no memory.
    pub fn push(&mut self, vertex: Vertex, degree: u128)
        requires room { 0 < self.old.room }
        requires few { length self.old.vertices + 1 < 2 ^ 32 }
        ensures vertices { self.new.vertices ≡ self.old.vertices ++ vertex ∷ [] }
        ensures degrees { self.new.degrees ≡ self.old.degrees ++ degree ∷ [] }
        ensures ready { self.new.ready ≡ self.old.ready }
        ensures stuck { self.new.stuck ≡ self.old.stuck }
        ensures first { self.new.first ≡ self.old.first }
    {
        self.records.push(vertex, degree);
    }

    /// The number of the first that is kept.
    pub fn first(&self) -> usize
        ensures { result ≡ self.now.first }
    {
        self.records.first()
    }

    /// Whether the vertex of a number is kept.
    fn is_kept(&self, number: u32) -> bool
        ensures { IsTrue result ↔ (self.now.first ≤ number) }
    {
        self.records.first() <= number as usize
    }

    /// Forgets the first that is kept, which is neither ready nor stuck.
    pub fn forget(&mut self)
        requires some { self.old.first < length self.old.vertices }
        requires not_ready { ¬ (Has self.old.ready self.old.first) }
        requires not_stuck { ¬ (Has self.old.stuck self.old.first) }
        ensures { self.new ≡ record self.old { first = self.old.first + 1; room = self.new.room } }
    {
        self.records.forget();
    }

    /// The vertex of a number.
    pub fn get(&self, number: u32) -> &Vertex
        requires { IsVertexKept self.now number }
        ensures { result.now ≡ vertex_at self.now.vertices number }
    {
        self.records.get(number)
    }

    /// The degree of a vertex.
    pub fn degree(&self, number: u32) -> u128
        requires { IsVertexKept self.now number }
        ensures { result ≡ get_or self.now.degrees number 0 }
    {
        self.records.degree(number)
    }

    /// Gives a vertex with a part more its slots and its degree.
    pub fn grow(&mut self, number: u32, slots: Slots, degree: u128)
        requires within { IsVertexKept self.old number }
        requires missing { 0 < (vertex_at self.old.vertices number).missing }
        ensures { self.new ≡ record self.old {
          vertices = set self.old.vertices number (record (vertex_at self.old.vertices number) { missing = (vertex_at self.old.vertices number).missing - 1; slots = slots });
          degrees = set self.old.degrees number degree;
        } }
    {
        self.records.grow(number, slots, degree);
    }

    /// Puts a vertex into the resolved class at a place.
    pub fn put_in_class(&mut self, number: u32, class: u32)
        requires within { IsVertexKept self.old number }
        requires few { class + 1 < 2 ^ 32 }
        ensures { self.new ≡ record self.old { vertices = set self.old.vertices number (record (vertex_at self.old.vertices number) { class = Some class }) } }
    {
        self.records.put_in_class(number, class);
    }

    /// Takes one from the degree of a vertex.
    pub fn lower(&mut self, number: u32)
        requires within { IsVertexKept self.old number }
        requires enough { 1 ≤ get_or self.old.degrees number 0 }
        ensures { self.new ≡ record self.old { degrees = set self.old.degrees number (get_or self.old.degrees number 0 - 1) } }
    {
        self.records.lower(number);
    }

    /// The ready ones, in no order.
    pub fn ready(&self) -> &[u32]
        ensures { result.now ≡ self.now.ready }
    {
        self.ready.as_slice()
    }

    /// The stuck ones, in no order.
    pub fn stuck(&self) -> &[u32]
        ensures items { result.now ≡ self.now.stuck }
        ensures once { Distinct self.now.stuck }
    {
        self.stuck.as_slice()
    }

    /// Whether a vertex is ready.
    pub fn is_ready(&self, number: u32) -> bool
        requires { number < length self.now.vertices }
        ensures { IsTrue result ↔ Has self.now.ready number }
    {
        self.is_kept(number) && self.records.state(number).place_in(Kind::Ready).is_some()
    }

    /// Whether a vertex is stuck.
    pub fn is_stuck(&self, number: u32) -> bool
        requires { number < length self.now.vertices }
        ensures { IsTrue result ↔ Has self.now.stuck number }
    {
        self.is_kept(number) && self.records.state(number).place_in(Kind::Stuck).is_some()
    }

    /// Puts a vertex that is not stuck to the ready ones, unless it is one of them. Takes no memory.
    pub fn add_ready(&mut self, number: u32)
        requires within { IsVertexKept self.old number }
        requires apart { ¬ (Has self.old.stuck number) }
        ensures put { PutsIn number self.old.ready self.new.ready }
        ensures same { self.new ≡ record self.old { ready = self.new.ready; room = self.new.room } }
    {
        if !self.is_ready(number) {
            put(&mut self.records, &mut self.ready, Kind::Ready, number);
        }
    }

    /// Puts a vertex that is not ready to the stuck ones, unless it is one of them. Takes no memory.
    pub fn add_stuck(&mut self, number: u32)
        requires within { IsVertexKept self.old number }
        requires apart { ¬ (Has self.old.ready number) }
        ensures put { PutsIn number self.old.stuck self.new.stuck }
        ensures same { self.new ≡ record self.old { stuck = self.new.stuck; room = self.new.room } }
    {
        if !self.is_stuck(number) {
            put(&mut self.records, &mut self.stuck, Kind::Stuck, number);
        }
    }

    /// Takes a vertex out of the ready ones, if it is one of them; the last one comes to its place. Takes no memory.
    pub fn take_ready(&mut self, number: u32)
        requires { IsVertexKept self.old number }
        ensures removed { Removes number self.old.ready self.new.ready }
        ensures same { self.new ≡ record self.old { ready = self.new.ready } }
    {
        take(&mut self.records, &mut self.ready, Kind::Ready, number);
    }

    /// Takes a vertex out of the stuck ones, if it is one of them; the last one comes to its place. Takes no memory.
    pub fn take_stuck(&mut self, number: u32)
        requires { IsVertexKept self.old number }
        ensures removed { Removes number self.old.stuck self.new.stuck }
        ensures same { self.new ≡ record self.old { stuck = self.new.stuck } }
    {
        take(&mut self.records, &mut self.stuck, Kind::Stuck, number);
    }
}

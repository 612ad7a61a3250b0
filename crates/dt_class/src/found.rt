ghost use Rattle.std.specs.Prelude.{◌≡◌, ◌<◌, [], false, length, get_or, replicate, slice_get, IfOk, OnOk};
ghost use Rattle.dt_class.specs.FindsInner.{AddsVertex, AreMarked, IsFoundOf};

use dt_text::NoMemory;
use std::alloc::Global;
use std::marker::Model;

/// The vertices that a search has found, in the order in which it found them, and a mark for each vertex of the graph
/// that says whether it is one of them.
#[derive(Drop)]
pub struct Found {
    marks: Vec<bool>,
    order: Vec<u32>,
}

impl Model for Found {
    ghost use Rattle.dt_class.specs.FindsInner.{FoundView, IsFoundOf};

    ghost Value = { FoundView };

    ghost view = { λ f. record { marks = f.marks.items; order = f.order.items } };

    ghost invariant = { λ f. IsFoundOf f.marks.items f.order.items };
}

impl Found {
    /// Of n vertices nothing is found yet.
    pub fn new(alloc: Global, vertices: u32) -> Result<Self, NoMemory>
        ensures { IfOk result (λ found. found ≡ record { marks = replicate vertices false; order = [] }) }
    {
        Ok(Found {
            marks: vec![in alloc; false; vertices as usize]?,
            order: Vec::new(alloc),
        })
    }

    /// Whether the vertex is found.
    pub fn has(&self, vertex: u32) -> bool
        ensures { result ≡ get_or self.now.marks vertex false }
    {
        self.marks.get(vertex as usize).copied().unwrap_or(false)
    }

    /// The vertex that was found at a place in the order, from 0; `None` past the last one.
    pub fn get(&self, place: usize) -> Option<u32>
        ensures read { result ≡ slice_get self.now.order place }
        ensures once { IsFoundOf self.now.marks self.now.order }
    {
        self.order.get(place).copied()
    }

    /// How many vertices are found.
    pub fn len(&self) -> usize
        ensures { result ≡ length self.now.order }
    {
        self.order.len()
    }

    /// Adds the vertex, if it isn't found yet.
    pub fn add(&mut self, vertex: u32) -> Result<(), NoMemory>
        requires { vertex < length self.old.marks }
        ensures { OnOk result (AddsVertex self.old vertex self.new) }
    {
        if !self.marks[vertex as usize] {
            self.order.push(vertex)?;
            self.marks[vertex as usize] = true;
        }
        Ok(())
    }

    /// The vertices that are found, in ascending order.
    pub fn ascending(&self, alloc: Global) -> Result<Vec<u32>, NoMemory>
        ensures { IfOk result (λ vertices. AreMarked self.now.marks vertices.items) }
    {
        let mut vertices = Vec::new(alloc);
        for (vertex, marked) in self.marks.iter().enumerate() {
            if *marked {
                vertices.push(vertex as u32)?;
            }
        }
        Ok(vertices)
    }
}

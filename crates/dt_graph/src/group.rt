ghost use Rattle.std.specs.Prelude.{◌≡◌, ◌<◌, ◌^◌, IfOk, length};
ghost use Rattle.dt_lists.specs.Lists.{Distinct};
ghost use Rattle.dt_graph.specs.SubsetInner.{StandsAtPlace};

use dt_text::NoMemory;
use indexmap::IndexSet;
use std::alloc::Global;
use std::marker::Model;

/// Vertices, each once, by their places in a list.
#[derive(Drop)]
pub struct Group {
    vertices: IndexSet<u32>,
}

impl Model for Group {
    ghost use Rattle.std.specs.Prelude.{◌<◌, ◌^◌, List, ℕ, length};

    ghost Value = { List ℕ };

    ghost view = { λ g. g.vertices.keys };

    ghost invariant = { λ g. length g.vertices.keys < 2 ^ 32 };
}

impl Group {
    /// The vertices of a list, in which none stands twice.
    pub fn of(alloc: Global, list: &[u32]) -> Result<Self, NoMemory>
        requires once { Distinct list.now }
        requires few { length list.now < 2 ^ 32 }
        ensures { IfOk result (λ group. group ≡ list.now) }
    {
        let mut vertices = IndexSet::with_capacity(alloc, list.len())?;
        for vertex in list {
            vertices.insert(*vertex)?;
        }
        Ok(Group { vertices })
    }

    /// The place of a vertex, if it is one of them.
    pub fn place_of(&self, vertex: u32) -> Option<u32>
        ensures { StandsAtPlace self.now vertex result }
    {
        let place = self.vertices.get_index_of(&vertex)?;
        Some(place as u32)
    }
}

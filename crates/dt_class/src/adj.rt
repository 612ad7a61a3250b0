ghost use Rattle.std.specs.Prelude.{◌≡◌, ◌<◌, ℕ, [], ◌∷◌, ◌++◌, IfOk, MatchOption, OnOk, OnErr};
ghost use Rattle.dt_lists.specs.Lists.{AllIn};
ghost use Rattle.dt_class.specs.Graphs.{AreAllBlocked, AreVertices, IsInClass, IsSource, Leads};
ghost use Rattle.dt_class.specs.FindsInner.{IsReachOf};

use crate::found::Found;
use crate::link::{Link, Way};
use crate::search::reached;
use crate::source::last_start;
use dt_text::NoMemory;
use std::alloc::Global;
use std::marker::Model;

/// A directed graph. Its vertices are the numbers from 0 on, as many as it was made with.
///
/// Contracts see the number of vertices and the list of edges, in the order in which they were added.
#[derive(Drop)]
pub struct Adj {
    links: Vec<Link>,
    newest_from: Vec<Option<usize>>,
    newest_into: Vec<Option<usize>>,
}

impl Model for Adj {
    ghost use Rattle.std.specs.Prelude.{length, map};
    ghost use Rattle.dt_class.specs.Graphs.{AdjView};
    ghost use Rattle.dt_class.specs.LinksInner.{IsKept, edge_of};

    ghost Value = { AdjView };

    ghost view = { λ a. record { vertices = length a.newest_from.items; edges = map edge_of a.links.items } };

    ghost invariant = { λ a. IsKept a.links.items a.newest_from.items a.newest_into.items };
}

impl Adj {
    /// The graph of n vertices, with no edge.
    pub fn new(alloc: Global, vertices: u32) -> Result<Self, NoMemory>
        ensures { IfOk result (λ graph. graph ≡ record { vertices = vertices; edges = [] }) }
    {
        Ok(Adj {
            links: Vec::new(alloc),
            newest_from: vec![in alloc; None; vertices as usize]?,
            newest_into: vec![in alloc; None; vertices as usize]?,
        })
    }

    /// Adds an edge from `source` to `target`; after `NoMemory` the graph is as before.
    pub fn edge(&mut self, source: u32, target: u32) -> Result<(), NoMemory>
        requires source_in { source < self.old.vertices }
        requires target_in { target < self.old.vertices }
        ensures added { OnOk result (self.new ≡ record self.old { edges = self.old.edges ++ record { source = source; target = target } ∷ [] }) }
        ensures same { OnErr result (self.new ≡ self.old) }
    {
        let place = self.links.len();
        let link = Link {
            source,
            target,
            earlier_from: self.newest_from[source as usize],
            earlier_into: self.newest_into[target as usize],
        };
        self.links.push(link)?;
        self.newest_from[source as usize] = Some(place);
        self.newest_into[target as usize] = Some(place);
        Ok(())
    }

    /// What is found from the vertex, the way that is asked.
    fn found(&self, alloc: Global, way: Way, vertex: u32) -> Result<Found, NoMemory>
        requires { vertex < self.now.vertices }
        ensures { IfOk result (IsReachOf self.now way vertex) }
    {
        let links = self.links.as_slice();
        match way {
            Way::Forth => reached(alloc, links, self.newest_from.as_slice(), way, &[vertex]),
            Way::Back => reached(alloc, links, self.newest_into.as_slice(), way, &[vertex]),
        }
    }

    /// All that the vertex reaches, itself with them, in ascending order.
    pub fn behind(&self, alloc: Global, vertex: u32) -> Result<Vec<u32>, NoMemory>
        requires { vertex < self.now.vertices }
        ensures { IfOk result (λ found. AreVertices self.now (λ v. Leads self.now vertex v) found.items) }
    {
        self.found(alloc, Way::Forth, vertex)?.ascending(alloc)
    }

    /// All that reach the vertex, itself with them, in ascending order.
    pub fn ahead(&self, alloc: Global, vertex: u32) -> Result<Vec<u32>, NoMemory>
        requires { vertex < self.now.vertices }
        ensures { IfOk result (λ found. AreVertices self.now (λ v. Leads self.now v vertex) found.items) }
    {
        self.found(alloc, Way::Back, vertex)?.ascending(alloc)
    }

    /// The class of the vertex, in ascending order: all that it reaches and that reach it, itself with them.
    pub fn class_of(&self, alloc: Global, vertex: u32) -> Result<Vec<u32>, NoMemory>
        requires { vertex < self.now.vertices }
        ensures { IfOk result (λ found. AreVertices self.now (IsInClass self.now vertex) found.items) }
    {
        let mut class = self.behind(alloc, vertex)?;
        let ahead = self.found(alloc, Way::Back, vertex)?;
        class.retain(|member| ahead.has(*member));
        Ok(class)
    }

    /// A class that nothing outside of it reaches, and none of the blocked vertices, in ascending order; `None` exactly
    /// where there is none, since the blocked ones reach every vertex.
    pub fn source_class(&self, alloc: Global, blocked: &[u32]) -> Result<Option<Vec<u32>>, NoMemory>
        requires { AllIn (λ v. v < self.now.vertices) blocked.now }
        ensures { IfOk result (λ answer. MatchOption answer (AreAllBlocked self.now blocked.now)
            (λ class. (v : ℕ) × IsSource self.now blocked.now v × AreVertices self.now (IsInClass self.now v) class.items)) }
    {
        let links = self.links.as_slice();
        let newest = self.newest_from.as_slice();
        let found = reached(alloc, links, newest, Way::Forth, blocked)?;
        match last_start(links, newest, Way::Forth, found)? {
            Some(vertex) => Ok(Some(self.ahead(alloc, vertex)?)),
            None => Ok(None),
        }
    }
}

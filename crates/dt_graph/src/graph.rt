ghost use Rattle.std.specs.Prelude.{◌≡◌, ◌<◌, ◌↔◌, ℕ, List, IfOk, IsTrue, MatchOption, OnErr, OnOk, Some, length, slice_get};
ghost use Rattle.dt_lists.specs.Lists.{AllIn, Distinct, Has};
ghost use Rattle.dt_access.specs.Ids.{AreAscending};
ghost use Rattle.dt_access.specs.Orders.{AreAscendingHomes};
ghost use Rattle.dt_access.specs.declared.TxnId.{TxnId};
ghost use Rattle.dt_sched.specs.Decide.{IsExecutable, IsResolvable};
ghost use Rattle.dt_sched.specs.Sched.{CanInsert};
ghost use Rattle.dt_sched.specs.Views.{View};
ghost use Rattle.dt_waits.specs.Graph.{AllAreStuck, AreVerticesOf, KeepsGraph, IsSomeGraph, nothing_kept};
ghost use Rattle.dt_waits.specs.LeftInGraph.{IsOrderly};
ghost use Rattle.dt_graph.specs.SmallStepsInner.{AreIdsAt, FinishesIn, MayFinishIn};
ghost use Rattle.dt_waits.specs.Steps.{RunInOrder, FinishesId, InsertsPart, ResolvesClass};
ghost use Rattle.dt_waits.specs.Waits.{id_at};

use crate::class::gather;
use crate::names::Names;
use crate::waits::Waits;
use dt_access::{Ids, Part, TxnId};
use dt_text::{Listed, NoMemory};
use dt_waits::Open;
use std::alloc::Global;
use std::marker::Model;

/// What is left in the graph.
#[derive(Drop)]
pub struct Graph {
    names: Names,
    waits: Waits,
    classes: Vec<Open>,
}

impl Model for Graph {
    ghost use Rattle.dt_waits.specs.Graph.{GraphView};
    ghost use Rattle.dt_graph.specs.HeldInner.{IsFitted, kept_of};

    ghost Value = { GraphView };

    ghost view = { λ g. kept_of g.names.ids g.waits g.classes.items };

    ghost invariant = { λ g. IsFitted g.names.ids g.waits g.classes.items };
}

/// A member of a class, which is compared as it runs: by rank, then by id.
#[derive(Clone, Copy, PartialEq, Eq, PartialOrd, Ord)]
struct Member {
    rank: u8,
    id: TxnId,
    vertex: u32,
}

impl Graph {
    /// Nothing is left. Takes no memory.
    pub fn new(alloc: Global) -> Self
        ensures { result ≡ nothing_kept }
    {
        Graph {
            names: Names::new(alloc),
            waits: Waits::new(alloc),
            classes: Vec::new(alloc),
        }
    }

    /// Puts in a part; after `NoMemory` all is as before. What has left at the front is forgotten first.
    pub fn insert(&mut self, alloc: Global, part: &Part) -> Result<(), NoMemory>
        requires { (view : View) × (resolved : List (List TxnId)) × (done : List TxnId) × IsOrderly view resolved done × CanInsert view part.now × KeepsGraph view resolved done self.old }
        ensures inserted { OnOk result (InsertsPart part.now self.old self.new) }
        ensures same { OnErr result (self.new ≡ self.old) }
        ensures ascending { AreAscendingHomes part.now.homes }
    {
        self.waits.forget(self.classes.as_slice());
        self.put_in(alloc, part)
    }

    /// Puts in a part, and forgets nothing; after `NoMemory` all is as before.
    fn put_in(&mut self, alloc: Global, part: &Part) -> Result<(), NoMemory>
        requires { (view : View) × (resolved : List (List TxnId)) × (done : List TxnId) × IsOrderly view resolved done × CanInsert view part.now × KeepsGraph view resolved done self.old }
        ensures inserted { OnOk result (InsertsPart part.now self.old self.new) }
        ensures same { OnErr result (self.new ≡ self.old) }
        ensures ascending { AreAscendingHomes part.now.homes }
    {
        let _homes = part.homes.as_slice();
        match self.names.number_of(part.id) {
            Some(vertex) => self.waits.extend(alloc, vertex, part),
            None => {
                self.names.reserve(alloc, part.id)?;
                self.waits.reserve()?;
                self.waits.add(alloc, part)?;
                self.names.add(part.id);
                Ok(())
            }
        }
    }

    /// Whether a transaction is ready.
    pub fn is_ready(&self, id: TxnId) -> bool
        ensures { IsTrue result ↔ (v : ℕ) × (slice_get self.now.ids v ≡ Some id) × Has self.now.ready v }
    {
        match self.names.number_of(id) {
            Some(vertex) => self.waits.vertices.is_ready(vertex),
            None => false,
        }
    }

    /// Some transaction that is ready and not among the busy ones.
    pub fn ready_beside(&self, busy: &[TxnId]) -> Option<TxnId>
        ensures { MatchOption result ((v : ℕ) → Has self.now.ready v → Has busy.now (id_at self.now.ids v))
            (λ id. ((v : ℕ) × Has self.now.ready v × (id_at self.now.ids v ≡ id)) × (Has busy.now id → ⊥)) }
    {
        for vertex in self.waits.vertices.ready() {
            let id = self.names.id_of(*vertex);
            if !busy.contains(&id) {
                return Some(id);
            }
        }
        None
    }

    /// The vertices of transactions, if all of them are stuck.
    fn stuck_of(&self, alloc: Global, ids: &[TxnId]) -> Result<Option<Vec<u32>>, NoMemory>
        ensures { IfOk result (λ answer. MatchOption answer (AllAreStuck self.now ids.now → ⊥) (λ vertices. AreVerticesOf self.now ids.now vertices.items)) }
    {
        let mut vertices = Vec::new(alloc);
        for id in ids {
            match self.names.number_of(*id) {
                Some(vertex) if self.waits.vertices.is_stuck(vertex) => vertices.push(vertex)?,
                _ => return Ok(None),
            }
        }
        Ok(Some(vertices))
    }

    /// Whether the transactions are a class of several stuck ones that wait for each other and for nothing else.
    pub fn is_class(&self, alloc: Global, ids: &[TxnId]) -> Result<bool, NoMemory>
        requires known { IsSomeGraph self.now }
        requires ascending { AreAscending ids.now }
        ensures { (view : View) (resolved : List (List TxnId)) (done : List TxnId) → IsOrderly view resolved done → KeepsGraph view resolved done self.now →
            IfOk result (λ b. IsTrue b ↔ IsResolvable view resolved done ids.now) }
    {
        if ids.len() < 2 {
            return Ok(false);
        }
        let Some(vertices) = self.stuck_of(alloc, ids)? else {
            return Ok(false);
        };
        let among = gather(
            alloc,
            &self.waits.queues,
            &self.waits.vertices,
            vertices.as_slice(),
        )?;
        if !among.blocked.is_empty() {
            return Ok(false);
        }
        let class = among.graph.class_of(alloc, 0)?;
        Ok(class.len() == ids.len())
    }

    /// The transactions of some class of stuck ones that wait for each other and for nothing else, in ascending order.
    pub fn some_class(&self, alloc: Global) -> Result<Option<Ids>, NoMemory>
        requires { IsSomeGraph self.now }
        ensures { (view : View) (resolved : List (List TxnId)) (done : List TxnId) → IsOrderly view resolved done → KeepsGraph view resolved done self.now →
            IfOk result (λ answer. MatchOption answer ((ids : List TxnId) → IsResolvable view resolved done ids → ⊥) (λ ids. IsResolvable view resolved done ids)) }
    {
        let stuck = self.waits.vertices.stuck();
        if stuck.len() < 2 {
            return Ok(None);
        }
        let among = gather(alloc, &self.waits.queues, &self.waits.vertices, stuck)?;
        match among.graph.source_class(alloc, among.blocked.as_slice())? {
            Some(places) => Ok(Some(self.ids_at(alloc, stuck, places.as_slice())?)),
            None => Ok(None),
        }
    }

    /// The ids of the vertices at places of a list, in ascending order.
    fn ids_at(&self, alloc: Global, list: &[u32], places: &[u32]) -> Result<Ids, NoMemory>
        requires list { AllIn (λ v. v < length self.now.ids) list.now }
        requires places { AllIn (λ p. p < length list.now) places.now }
        ensures { IfOk result (AreIdsAt self.now.ids list.now places.now) }
    {
        let mut ids = Vec::with_capacity(alloc, places.len())?;
        for place in places {
            ids.push(self.names.id_of(list[*place as usize]))?;
        }
        ids.sort()?;
        Ok(Ids::from_vec(ids))
    }

    /// The vertices of transactions, all of them stuck, the soonest first.
    fn in_order(&self, alloc: Global, ids: &[TxnId]) -> Result<Listed<u32>, NoMemory>
        requires there { AllIn (Has self.now.ids) ids.now }
        requires once { Distinct ids.now }
        requires stuck { AllAreStuck self.now ids.now }
        ensures { IfOk result (RunInOrder self.now ids.now) }
    {
        let mut members = Vec::with_capacity(alloc, ids.len())?;
        for id in ids {
            if let Some(vertex) = self.names.number_of(*id) {
                let rank = self.waits.vertices.get(vertex).rank;
                members.push(Member {
                    rank,
                    id: *id,
                    vertex,
                })?;
            }
        }
        members.sort()?;
        let mut vertices = Listed::new(alloc);
        for member in members {
            vertices.push(member.vertex)?;
        }
        Ok(vertices)
    }

    /// Keeps a class that was resolved; after `NoMemory` all is as before.
    pub fn resolve(&mut self, alloc: Global, ids: &[TxnId]) -> Result<(), NoMemory>
        requires { (view : View) × (resolved : List (List TxnId)) × (done : List TxnId) × IsOrderly view resolved done × IsResolvable view resolved done ids.now × KeepsGraph view resolved done self.old }
        ensures resolved { OnOk result (ResolvesClass ids.now self.old self.new) }
        ensures same { OnErr result (self.new ≡ self.old) }
    {
        let class = self.classes.len();
        let members = self.in_order(alloc, ids)?;
        self.classes.push(Open { members, next: 0 })?;
        self.waits
            .resolve(self.classes[class].members.as_slice(), class);
        Ok(())
    }

    /// Lets a transaction be done, which is ready.
    pub fn finish(&mut self, id: TxnId)
        requires { (view : View) × (resolved : List (List TxnId)) × (done : List TxnId) × IsOrderly view resolved done × IsExecutable view resolved done id × KeepsGraph view resolved done self.old }
        ensures { FinishesId id self.old self.new }
    {
        if let Some(vertex) = self.names.number_of(id) {
            self.waits.vertices.take_ready(vertex);
            match self.waits.vertices.get(vertex).class.get() {
                None => self.waits.leave(&[vertex]),
                Some(class) => self.finish_in(class),
            }
        }
    }

    /// Lets the next member of a resolved class be done: the one after it is ready, or the class leaves.
    fn finish_in(&mut self, class: u32)
        requires { MayFinishIn class self.old }
        ensures { FinishesIn class self.old self.new }
    {
        let kept = &mut self.classes[class as usize];
        kept.next += 1;
        match kept.members.as_slice().get(kept.next) {
            Some(vertex) => self.waits.vertices.add_ready(*vertex),
            None => self.waits.leave(kept.members.as_slice()),
        }
    }
}

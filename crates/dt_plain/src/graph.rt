ghost use Rattle.std.specs.Prelude.{◌≡◌, ◌↔◌, IsTrue, IfOk, OnOk, map};
ghost use Rattle.dt_plain.specs.SurroundingsInner.{MakesEdge, EdgeInto, EdgeWithin, AreBehind, AreAhead, ArePresent};
ghost use Rattle.dt_plain.specs.GraphsInner.{Gains, AreEdges, GetsIds, turned_link};
ghost use Rattle.dt_lists.specs.Lists.{AllIn, Distinct};
ghost use Rattle.dt_sched.specs.Views.{IsComplete, IsClass, IsSooner};

use crate::class::common;
use crate::complete::{are_complete, is_complete};
use crate::ids::add_once;
use crate::ranks::is_sooner;
use crate::search::{Link, reached};
use dt_access::{Ids, Part, TxnId, clash};
use dt_text::{Listed, NoMemory};
use std::alloc::Global;
use std::marker::Model;

/// The dependency graph of logs. Contracts see the logs.
#[derive(Drop)]
pub struct Graph<'a> {
    logs: &'a [Listed<Part>],
    ids: Ids,
    links: Listed<Link>,
    back: Listed<Link>,
}

impl<'a> Model for Graph<'a> {
    ghost use Rattle.dt_sched.specs.Views.{View};
    ghost use Rattle.dt_plain.specs.GraphsInner.{IsGraphOf};

    ghost Value = { View };

    ghost view = { λ g. g.logs.now };

    ghost invariant = { λ g. IsGraphOf g.logs.now g.ids g.links g.back };
}

/// Whether the one part makes an edge to the other, which stands later in its log.
fn makes_edge(earlier: &Part, later: &Part) -> bool
    ensures { IsTrue result ↔ MakesEdge earlier.now later.now }
{
    earlier.id != later.id && clash(earlier, later)
}

/// Adds the links into a part from those in front of it.
fn link_front(front: &[Part], part: &Part, links: &mut Listed<Link>) -> Result<(), NoMemory>
    ensures { OnOk result (Gains (EdgeInto front.now part.now) links.old links.new) }
{
    for earlier in front {
        if makes_edge(earlier, part) {
            links.push(Link {
                from: earlier.id,
                to: part.id,
            })?;
        }
    }
    Ok(())
}

/// Adds the links within a log.
fn link_log(log: &[Part], links: &mut Listed<Link>) -> Result<(), NoMemory>
    ensures { OnOk result (Gains (EdgeWithin log.now) links.old links.new) }
{
    for (at, part) in log.iter().enumerate() {
        link_front(&log[..at], part, links)?;
    }
    Ok(())
}

/// The edges of logs.
fn edges(alloc: Global, logs: &[Listed<Part>]) -> Result<Listed<Link>, NoMemory>
    ensures { IfOk result (AreEdges logs.now) }
{
    let mut links = Listed::new(alloc);
    for log in logs {
        link_log(log.as_slice(), &mut links)?;
    }
    Ok(links)
}

/// The links, each turned round.
fn turned_round(alloc: Global, links: &[Link]) -> Result<Listed<Link>, NoMemory>
    ensures { IfOk result (λ back. back ≡ map turned_link links.now) }
{
    let mut back = Listed::new(alloc);
    for link in links {
        back.push(link.turned())?;
    }
    Ok(back)
}

/// Adds the ids of the parts of a log, each once.
fn add_ids(log: &[Part], ids: &mut Ids) -> Result<(), NoMemory>
    requires { Distinct ids.old }
    ensures { OnOk result (GetsIds log.now ids.old ids.new) }
{
    for part in log {
        add_once(ids, part.id)?;
    }
    Ok(())
}

/// The ids that have a part in the logs, each once.
fn present(alloc: Global, logs: &[Listed<Part>]) -> Result<Ids, NoMemory>
    ensures { IfOk result (ArePresent logs.now) }
{
    let mut ids = Ids::new(alloc);
    for log in logs {
        add_ids(log.as_slice(), &mut ids)?;
    }
    Ok(ids)
}

impl<'a> Graph<'a> {
    /// The graph of the logs.
    pub fn of(alloc: Global, logs: &'a [Listed<Part>]) -> Result<Self, NoMemory>
        ensures { IfOk result (λ graph. graph ≡ logs.now) }
    {
        let ids = present(alloc, logs)?;
        let links = edges(alloc, logs)?;
        let back = turned_round(alloc, links.as_slice())?;
        Ok(Graph {
            logs,
            ids,
            links,
            back,
        })
    }

    /// The ids that have a part in the logs, each once.
    pub fn ids(&self) -> &[TxnId]
        ensures { ArePresent self.now result.now }
    {
        self.ids.as_slice()
    }

    /// Whether the transaction is complete.
    pub fn is_complete(&self, id: TxnId) -> bool
        ensures { IsTrue result ↔ IsComplete self.now id }
    {
        is_complete(self.logs, id)
    }

    /// Whether each of the transactions is complete.
    pub fn are_complete(&self, ids: &[TxnId]) -> bool
        ensures { IsTrue result ↔ AllIn (IsComplete self.now) ids.now }
    {
        are_complete(self.logs, ids)
    }

    /// Whether the one transaction is sooner than the other: by rank, then by id.
    pub fn is_sooner(&self, left: TxnId, right: TxnId) -> bool
        ensures { IsTrue result ↔ IsSooner self.now left right }
    {
        is_sooner(self.logs, left, right)
    }

    /// All that reaches the transaction, itself with them.
    pub fn behind(&self, alloc: Global, id: TxnId) -> Result<Ids, NoMemory>
        ensures { IfOk result (AreBehind self.now id) }
    {
        reached(alloc, self.back.as_slice(), id)
    }

    /// All that the transaction reaches, itself with them.
    pub fn ahead(&self, alloc: Global, id: TxnId) -> Result<Ids, NoMemory>
        ensures { IfOk result (AreAhead self.now id) }
    {
        reached(alloc, self.links.as_slice(), id)
    }

    /// The class of the transaction, in ascending order.
    pub fn class_of(&self, alloc: Global, id: TxnId) -> Result<Ids, NoMemory>
        ensures { IfOk result (IsClass self.now id) }
    {
        let behind = self.behind(alloc, id)?;
        let ahead = self.ahead(alloc, id)?;
        common(alloc, behind.as_slice(), ahead.as_slice())
    }
}

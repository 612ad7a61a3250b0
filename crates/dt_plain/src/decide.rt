ghost use Rattle.std.specs.Prelude.{◌↔◌, ◌≤◌, IsTrue, IfOk, length};
ghost use Rattle.dt_lists.specs.Lists.{AllIn, Has};
ghost use Rattle.dt_sched.specs.Decide.{IsExecutable, IsResolvable};
ghost use Rattle.dt_sched.specs.Sched.{IsNextReady, IsNextClass};
ghost use Rattle.dt_plain.specs.SurroundingsInner.{IsNoObstacle, IsClear, AreCandidates, IsUnhindered};

use crate::class::{are_among, common, has_class, same};
use crate::graph::Graph;
use crate::ids::has;
use dt_access::{Ids, TxnId};
use dt_text::NoMemory;
use std::alloc::Global;

/// Whether `other`, which reaches `id`, is no obstacle to executing it.
fn is_no_obstacle(graph: &Graph, ahead: &[TxnId], done: &[TxnId], id: TxnId, other: TxnId) -> bool
    ensures { IsTrue result ↔ IsNoObstacle graph.now ahead.now done.now id other }
{
    other == id || has(done, other) || has(ahead, other) && !graph.is_sooner(other, id)
}

/// Whether `other`, which reaches `id`, is complete and no obstacle to executing it.
fn is_clear(graph: &Graph, ahead: &[TxnId], done: &[TxnId], id: TxnId, other: TxnId) -> bool
    ensures { IsTrue result ↔ IsClear graph.now ahead.now done.now id other }
{
    graph.is_complete(other) && is_no_obstacle(graph, ahead, done, id, other)
}

/// Whether all of `behind` is complete and no obstacle to executing `id`.
fn are_clear(graph: &Graph, behind: &[TxnId], ahead: &[TxnId], done: &[TxnId], id: TxnId) -> bool
    ensures { IsTrue result ↔ AllIn (IsClear graph.now ahead.now done.now id) behind.now }
{
    for other in behind {
        if !is_clear(graph, ahead, done, id, *other) {
            return false;
        }
    }
    true
}

/// Whether the class needs no resolving, or is resolved.
fn is_settled(resolved: &[Ids], class: &[TxnId]) -> bool
    ensures { IsTrue result ↔ (2 ≤ length class.now → Has resolved.now class.now) }
{
    class.len() < 2 || has_class(resolved, class)
}

/// Whether the transaction is executable.
pub fn is_executable(
    alloc: Global,
    graph: &Graph,
    resolved: &[Ids],
    done: &[TxnId],
    id: TxnId,
) -> Result<bool, NoMemory>
    ensures { IfOk result (λ b. IsTrue b ↔ IsExecutable graph.now resolved.now done.now id) }
{
    if has(done, id) {
        return Ok(false);
    }
    let behind = graph.behind(alloc, id)?;
    let ahead = graph.ahead(alloc, id)?;
    if !are_clear(graph, behind.as_slice(), ahead.as_slice(), done, id) {
        return Ok(false);
    }
    let class = common(alloc, behind.as_slice(), ahead.as_slice())?;
    Ok(is_settled(resolved, class.as_slice()))
}

/// Whether the ids are several, all complete, and not resolved before.
fn are_candidates(graph: &Graph, resolved: &[Ids], ids: &[TxnId]) -> bool
    ensures { IsTrue result ↔ AreCandidates graph.now resolved.now ids.now }
{
    ids.len() >= 2 && graph.are_complete(ids) && !has_class(resolved, ids)
}

/// Whether the class is the ids, and each id of `behind` is among them or done.
fn is_unhindered(behind: &[TxnId], class: &[TxnId], ids: &[TxnId], done: &[TxnId]) -> bool
    ensures { IsTrue result ↔ IsUnhindered behind.now class.now ids.now done.now }
{
    same(class, ids) && are_among(behind, ids, done)
}

/// Whether the ids are a resolvable class in ascending order.
pub fn is_resolvable(
    alloc: Global,
    graph: &Graph,
    resolved: &[Ids],
    done: &[TxnId],
    ids: &[TxnId],
) -> Result<bool, NoMemory>
    ensures { IfOk result (λ b. IsTrue b ↔ IsResolvable graph.now resolved.now done.now ids.now) }
{
    if !are_candidates(graph, resolved, ids) {
        return Ok(false);
    }
    let behind = graph.behind(alloc, ids[0])?;
    let ahead = graph.ahead(alloc, ids[0])?;
    let class = common(alloc, behind.as_slice(), ahead.as_slice())?;
    Ok(is_unhindered(behind.as_slice(), class.as_slice(), ids, done))
}

/// Whether the transaction is executable and not busy.
fn is_ready(
    alloc: Global,
    graph: &Graph,
    resolved: &[Ids],
    done: &[TxnId],
    busy: &[TxnId],
    id: TxnId,
) -> Result<bool, NoMemory>
    ensures { IfOk result (λ b. IsTrue b ↔ (IsExecutable graph.now resolved.now done.now id × ¬ (Has busy.now id))) }
{
    if has(busy, id) {
        return Ok(false);
    }
    is_executable(alloc, graph, resolved, done, id)
}

/// Some executable transaction that isn't busy, or `None` where there is none.
pub fn next_ready(
    alloc: Global,
    graph: &Graph,
    resolved: &[Ids],
    done: &[TxnId],
    busy: &[TxnId],
) -> Result<Option<TxnId>, NoMemory>
    ensures { IfOk result (IsNextReady (record { logs = graph.now; resolved = resolved.now; done = done.now }) busy.now) }
{
    for id in graph.ids() {
        if is_ready(alloc, graph, resolved, done, busy, *id)? {
            return Ok(Some(*id));
        }
    }
    Ok(None)
}

/// Some resolvable class, or `None` where there is none.
pub fn next_class(
    alloc: Global,
    graph: &Graph,
    resolved: &[Ids],
    done: &[TxnId],
) -> Result<Option<Ids>, NoMemory>
    ensures { IfOk result (IsNextClass (record { logs = graph.now; resolved = resolved.now; done = done.now })) }
{
    for id in graph.ids() {
        let class = graph.class_of(alloc, *id)?;
        if is_resolvable(alloc, graph, resolved, done, class.as_slice())? {
            return Ok(Some(class));
        }
    }
    Ok(None)
}

//! Calls that are made at both schedulers, the plain one and the one with queues.
ghost use Rattle.std.specs.Prelude.{◌≡◌, OnOk};
ghost use Rattle.dt_access.specs.Ids.{AreAscending};

use crate::fitting::fits;
use crate::parts::{Row, Wide, part_of};
use dt_access::{Part, TxnId};
use dt_graph::QueueSched;
use dt_plain::PlainSched;
use dt_sched::Scheduler;
use dt_text::Listed;
use std::alloc::Global;
use std::test::Fail;

/// What is done at both.
#[derive(Clone, Copy)]
pub enum Call {
    /// A part with one key is inserted.
    Insert(Row),
    /// A part with one or two keys is inserted.
    InsertWide(Wide),
    /// The class that the one with queues chooses is resolved, if there is one.
    Resolve,
    /// The id of this number and region is executed.
    Execute(u32, u8),
    /// The first or the last of what is ready is executed, if there is any.
    ExecuteFirst,
    ExecuteLast,
    /// Nothing is done.
    Nothing,
}

/// All that is ready, in ascending order, as the scheduler gives one after another.
pub fn ready<S: Scheduler + Drop>(alloc: Global, sched: &S) -> Result<Vec<TxnId>, Fail> {
    let mut ids = Vec::new(alloc);
    for _ in 0..100 {
        match sched.next_ready(alloc, ids.as_slice())? {
            Some(id) => ids.push(id)?,
            None => break,
        }
    }
    ids.sort()?;
    Ok(ids)
}

/// Resolves a class, which has to be resolvable.
fn resolve<S: Scheduler + Drop>(alloc: Global, sched: &mut S, ids: &[TxnId]) -> Result<(), Fail>
    requires { AreAscending ids.now }
    ensures { (S.seen sched.new).logs ≡ (S.seen sched.old).logs }
{
    if !sched.resolvable(alloc, ids)? {
        return Err(Fail::from("the class is resolvable"));
    }
    sched.resolve(alloc, ids)?;
    Ok(())
}

/// Executes an id, which has to be executable.
fn execute<S: Scheduler + Drop>(alloc: Global, sched: &mut S, id: TxnId) -> Result<(), Fail>
    ensures { (S.seen sched.new).logs ≡ (S.seen sched.old).logs }
{
    if !sched.executable(alloc, id)? {
        return Err(Fail::from("the id is executable"));
    }
    sched.reserve(alloc, 1)?;
    sched.finish(id);
    Ok(())
}

/// Resolves at both the class that the one with queues chooses, if there is one.
fn resolve_some(alloc: Global, plain: &mut PlainSched, queue: &mut QueueSched) -> Result<(), Fail>
    ensures plain { plain.new.seen.logs ≡ plain.old.seen.logs }
    ensures queue { queue.new.logs ≡ queue.old.logs }
{
    if let Some(class) = queue.next_class(alloc)? {
        resolve(alloc, plain, class.as_slice())?;
        resolve(alloc, queue, class.as_slice())?;
    }
    Ok(())
}

/// The id that a call executes, if it executes any: of what is ready, it is seen from the one with queues.
fn executed(alloc: Global, queue: &QueueSched, call: &Call) -> Result<Option<TxnId>, Fail> {
    Ok(match call {
        Call::Execute(seq, region) => Some(TxnId {
            seq: *seq,
            region: *region,
        }),
        Call::ExecuteFirst => ready(alloc, queue)?.first().copied(),
        Call::ExecuteLast => ready(alloc, queue)?.last().copied(),
        _ => None,
    })
}

/// Executes an id at both, if there is one.
fn execute_some(
    alloc: Global,
    plain: &mut PlainSched,
    queue: &mut QueueSched,
    chosen: Option<TxnId>,
) -> Result<(), Fail>
    ensures plain { plain.new.seen.logs ≡ plain.old.seen.logs }
    ensures queue { queue.new.logs ≡ queue.old.logs }
{
    if let Some(id) = chosen {
        execute(alloc, plain, id)?;
        execute(alloc, queue, id)?;
    }
    Ok(())
}

/// Inserts a part at both, and keeps it in the logs, where it has to fit.
fn insert(
    alloc: Global,
    logs: &mut Vec<Listed<Part>>,
    plain: &mut PlainSched,
    queue: &mut QueueSched,
    part: Part,
) -> Result<(), Fail>
    requires plain { plain.old.seen.logs ≡ logs.old.items }
    requires queue { queue.old.logs ≡ logs.old.items }
    ensures plain { OnOk result (plain.new.seen.logs ≡ logs.new.items) }
    ensures queue { OnOk result (queue.new.logs ≡ logs.new.items) }
{
    if !fits(logs.as_slice(), &part) {
        return Err(Fail::from("the part may be inserted"));
    }
    plain.insert(alloc, &part)?;
    queue.insert(alloc, &part)?;
    let log = &mut logs[part.home as usize];
    log.push(part)?;
    Ok(())
}

/// The part that a call inserts, if it inserts any.
fn inserted(alloc: Global, call: &Call) -> Result<Option<Part>, Fail> {
    Ok(match call {
        Call::Insert(row) => {
            let (_, _, _, _, key, mode, _, _) = *row;
            Some(part_of(alloc, &(*row, (key, mode), false))?)
        }
        Call::InsertWide(wide) => Some(part_of(alloc, wide)?),
        _ => None,
    })
}

/// Makes a call at both.
pub fn make(
    alloc: Global,
    logs: &mut Vec<Listed<Part>>,
    plain: &mut PlainSched,
    queue: &mut QueueSched,
    call: &Call,
) -> Result<(), Fail>
    requires plain { plain.old.seen.logs ≡ logs.old.items }
    requires queue { queue.old.logs ≡ logs.old.items }
    ensures plain { OnOk result (plain.new.seen.logs ≡ logs.new.items) }
    ensures queue { OnOk result (queue.new.logs ≡ logs.new.items) }
{
    if let Some(part) = inserted(alloc, call)? {
        return insert(alloc, logs, plain, queue, part);
    }
    if let Call::Resolve = call {
        return resolve_some(alloc, plain, queue);
    }
    let chosen = executed(alloc, queue, call)?;
    execute_some(alloc, plain, queue, chosen)
}

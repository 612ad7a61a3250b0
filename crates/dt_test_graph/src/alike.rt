//! The scheduler with queues beside the plain one: after each call both answer alike, and what they have to where that is known.
ghost use Rattle.std.specs.Prelude.{◌≡◌, [], replicate};

use crate::calls::{Call, make, ready};
use crate::clashes::{MOST, class_at, edges_of};
use dt_access::{Part, TxnId, are_ascending, put_id};
use dt_graph::QueueSched;
use dt_plain::{PlainSched, empty_logs};
use dt_sched::Scheduler;
use dt_text::{Listed, NoMemory};
use std::alloc::Global;
use std::mem::forget;
use std::test::Fail;

/// What is asked after a call, beside what is ready and what is executable. A number is a choice of the ids: of those at the places of
/// its bits.
#[derive(Clone, Copy)]
pub enum Then {
    /// Whether both tell this, and answer alike of each choice of five ids whether it is a class that may be resolved.
    Tells(&'static [u8]),
    /// Whether both answer alike of the class of each of the first eight ids, and of these choices. A choice is mostly no class, but a
    /// part of one, two together, or nothing of the kind.
    Asks([u64; 4]),
}

/// A call, and what is asked after it.
pub type Step = (Call, Then);

/// What is done at schedulers of n regions, and the ids that are asked of after each call.
#[derive(Clone, Copy)]
pub struct Run<'a> {
    pub regions: u8,
    pub steps: &'a [Step],
    pub ids: &'a [TxnId],
}

/// Each choice of five ids.
const EACH: [u64; 32] = [
    0, 1, 2, 3, 4, 5, 6, 7, 8, 9, 10, 11, 12, 13, 14, 15, 16, 17, 18, 19, 20, 21, 22, 23, 24, 25,
    26, 27, 28, 29, 30, 31,
];

/// Adds a word and ids.
fn put_ids(alloc: Global, out: &mut Vec<u8>, word: &[u8], ids: &[TxnId]) -> Result<(), NoMemory> {
    out.extend_from_slice(word)?;
    for id in ids {
        out.push(b' ')?;
        put_id(alloc, out, *id)?;
    }
    Ok(())
}

/// Adds the class that may be resolved, if there is one.
fn put_class<S: Scheduler + Drop>(
    alloc: Global,
    out: &mut Vec<u8>,
    sched: &S,
) -> Result<(), NoMemory> {
    match sched.next_class(alloc)? {
        Some(class) => put_ids(alloc, out, b", class", class.as_slice()),
        None => Ok(()),
    }
}

/// Adds all that is ready, and the class that may be resolved.
fn put_told<S: Scheduler + Drop>(alloc: Global, out: &mut Vec<u8>, sched: &S) -> Result<(), Fail> {
    let ready = ready(alloc, sched)?;
    put_ids(alloc, out, b"ready", ready.as_slice())?;
    put_class(alloc, out, sched)?;
    Ok(())
}

/// Whether this is all that is ready, and the class that may be resolved.
fn tells<S: Scheduler + Drop>(alloc: Global, sched: &S, want: &[u8]) -> Result<bool, Fail> {
    let mut out = Vec::new(alloc);
    put_told(alloc, &mut out, sched)?;
    Ok(out.as_slice() == want)
}

/// Whether both answer alike, of each id and of those that differ from it in the region, whether it is executable.
fn same_executable(
    alloc: Global,
    plain: &PlainSched,
    queue: &QueueSched,
    ids: &[TxnId],
) -> Result<bool, Fail> {
    for known in ids {
        for region in 0..3 {
            let id = TxnId {
                seq: known.seq,
                region,
            };
            if plain.executable(alloc, id)? != queue.executable(alloc, id)? {
                return Ok(false);
            }
        }
    }
    Ok(true)
}

/// The ids at the places of the bits that are set in a number.
fn chosen(alloc: Global, ids: &[TxnId], bits: u64) -> Result<Vec<TxnId>, NoMemory> {
    let mut some = Vec::new(alloc);
    let mut left = bits;
    for id in ids {
        if left % 2 == 1 {
            some.push(*id)?;
        }
        left /= 2;
    }
    Ok(some)
}

/// Whether the ids ascend and are a class that may be resolved.
fn is_resolvable<S: Scheduler + Drop>(
    alloc: Global,
    sched: &S,
    ids: &[TxnId],
) -> Result<bool, Fail> {
    Ok(are_ascending(ids) && sched.resolvable(alloc, ids)?)
}

/// Whether a scheduler lets resolve what the other one chose, and chooses none where that one does.
fn lets_resolve<S: Scheduler + Drop, T: Scheduler + Drop>(
    alloc: Global,
    sched: &S,
    other: &T,
) -> Result<bool, Fail> {
    match other.next_class(alloc)? {
        Some(class) => is_resolvable(alloc, sched, class.as_slice()),
        None => Ok(sched.next_class(alloc)?.is_none()),
    }
}

/// Whether both answer alike whether these ids are a class that may be resolved.
fn same_class(
    alloc: Global,
    plain: &PlainSched,
    queue: &QueueSched,
    ids: &[TxnId],
) -> Result<bool, Fail> {
    let here = is_resolvable(alloc, plain, ids)?;
    Ok(is_resolvable(alloc, queue, ids)? == here)
}

/// Whether both answer alike of each of these choices of ids whether it is a class that may be resolved.
fn same_classes(
    alloc: Global,
    plain: &PlainSched,
    queue: &QueueSched,
    ids: &[TxnId],
    choices: &[u64],
) -> Result<bool, Fail> {
    for choice in choices {
        let some = chosen(alloc, ids, *choice)?;
        if !same_class(alloc, plain, queue, some.as_slice())? {
            return Ok(false);
        }
    }
    Ok(true)
}

/// Whether both answer alike of the class of each of the first eight ids, as it is in the logs, whether it may be resolved.
fn same_of_each(
    alloc: Global,
    plain: &PlainSched,
    queue: &QueueSched,
    ids: &[TxnId],
    logs: &[Listed<Part>],
) -> Result<bool, Fail> {
    let edges = edges_of(alloc, ids, logs)?;
    for place in 0..MOST {
        let class = class_at(alloc, ids, edges.as_slice(), place)?;
        if !same_class(alloc, plain, queue, class.as_slice())? {
            return Ok(false);
        }
    }
    Ok(true)
}

/// Whether the same is ready at both.
fn same_ready(alloc: Global, plain: &PlainSched, queue: &QueueSched) -> Result<bool, Fail> {
    let here = ready(alloc, plain)?;
    Ok(ready(alloc, queue)? == here)
}

/// Whether both answer alike what is ready, what is executable and which class may be resolved.
fn agree(
    alloc: Global,
    plain: &PlainSched,
    queue: &QueueSched,
    ids: &[TxnId],
) -> Result<bool, Fail> {
    Ok(
        same_ready(alloc, plain, queue)?
            && same_executable(alloc, plain, queue, ids)?
            && lets_resolve(alloc, plain, queue)?
            && lets_resolve(alloc, queue, plain)?,
    )
}

/// Whether both answer what is asked after a call as they have to.
fn answer(
    alloc: Global,
    plain: &PlainSched,
    queue: &QueueSched,
    logs: &[Listed<Part>],
    ids: &[TxnId],
    then: &Then,
) -> Result<bool, Fail> {
    match then {
        Then::Tells(want) => Ok(
            tells(alloc, plain, want)?
                && tells(alloc, queue, want)?
                && same_classes(alloc, plain, queue, ids, &EACH)?,
        ),
        Then::Asks(choices) => Ok(
            same_of_each(alloc, plain, queue, ids, logs)?
                && same_classes(alloc, plain, queue, ids, choices)?,
        ),
    }
}

/// Whether both answer alike after each call, and what they have to.
fn go_on(
    alloc: Global,
    plain: &mut PlainSched,
    queue: &mut QueueSched,
    run: &Run,
) -> Result<bool, Fail>
    requires plain { plain.old.seen.logs ≡ replicate run.now.regions [] }
    requires queue { queue.old.logs ≡ replicate run.now.regions [] }
{
    let mut logs = empty_logs(alloc, run.regions)?;
    for (call, then) in run.steps {
        make(alloc, &mut logs, plain, queue, call)?;
        if !agree(alloc, plain, queue, run.ids)? {
            return Ok(false);
        }
        if !answer(alloc, plain, queue, logs.as_slice(), run.ids, then)? {
            return Ok(false);
        }
    }
    Ok(true)
}

/// The same with a new scheduler with queues, which is left to the end of the process.
fn go_on_with_queues(alloc: Global, plain: &mut PlainSched, run: &Run) -> Result<bool, Fail>
    requires { plain.old.seen.logs ≡ replicate run.now.regions [] }
{
    let mut queue = QueueSched::empty(alloc, run.regions)?;
    let alike = go_on(alloc, plain, &mut queue, run);
    forget(queue);
    alike
}

/// Whether both schedulers answer alike after each call, and what they have to. They are left to the end of the process: that they
/// may be dropped would be proved here.
pub fn are_alike(alloc: Global, run: &Run) -> Result<bool, Fail> {
    let mut plain = PlainSched::empty(alloc, run.regions)?;
    let alike = go_on_with_queues(alloc, &mut plain, run);
    forget(plain);
    alike
}

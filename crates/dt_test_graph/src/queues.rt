//! Queues: who waits for whom, and who follows whom.
ghost use Rattle.std.specs.Prelude.{IfOk, OnOk};
ghost use Rattle.dt_lists.specs.Lists.{AllIn};
ghost use Rattle.dt_queue.specs.Queues.{IsQueued};

use dt_access::Mode;
use dt_queue::Queues;
use dt_test_texts::{key_of, wrong};
use std::alloc::Global;
use std::mem::forget;
use std::test::Fail;

/// What an entry is pushed with: its home, its key, its mode and its vertex.
type Use = (u8, &'static [u8], Mode, u32);

/// Pushes an entry, and adds its slot to those of the others.
fn push(alloc: Global, queues: &mut Queues, slots: &mut Vec<usize>, entry: &Use) -> Result<(), Fail>
    requires { AllIn (IsQueued queues.old) slots.old.items }
    ensures { OnOk result (AllIn (IsQueued queues.new) slots.new.items) }
{
    let (home, bytes, mode, vertex) = *entry;
    let key = key_of(alloc, bytes)?;
    let slot = queues.push(alloc, home, &key, mode, vertex)?;
    slots.push(slot)?;
    Ok(())
}

/// Pushes one more entry, and gives its neighbours.
fn neighbours_of(alloc: Global, queues: &mut Queues, entry: &Use) -> Result<Vec<u32>, Fail> {
    let (home, bytes, mode, vertex) = *entry;
    let key = key_of(alloc, bytes)?;
    let slot = queues.push(alloc, home, &key, mode, vertex)?;
    Ok(queues.neighbours(alloc, slot)?)
}

/// Pushes these entries one after the other, and gives their slots.
fn queued(alloc: Global, queues: &mut Queues, uses: &[Use]) -> Result<Vec<usize>, Fail>
    ensures { IfOk result (λ slots. AllIn (IsQueued queues.new) slots.items) }
{
    let mut slots = Vec::new(alloc);
    for entry in uses {
        push(alloc, queues, &mut slots, entry)?;
    }
    Ok(slots)
}

/// The followers of an entry, one after the other.
fn followers_of(alloc: Global, queues: &Queues, slot: usize) -> Result<Vec<u32>, Fail>
    requires { IsQueued queues.now slot }
{
    let mut vertices = Vec::new(alloc);
    let mut followers = queues.followers(slot);
    while let Some(follower) = followers.next() {
        vertices.push(follower.vertex)?;
    }
    Ok(vertices)
}

/// What is asked of an entry, or of one that is pushed after the others.
#[derive(Clone, Copy)]
enum Ask {
    Neighbours,
    Followers,
    NeighboursOf(Use),
}

/// What queues answer for an entry, or for one more.
fn asked(alloc: Global, queues: &mut Queues, slot: usize, ask: Ask) -> Result<Vec<u32>, Fail>
    requires { IsQueued queues.old slot }
{
    match ask {
        Ask::Neighbours => Ok(queues.neighbours(alloc, slot)?),
        Ask::Followers => followers_of(alloc, queues, slot),
        Ask::NeighboursOf(entry) => neighbours_of(alloc, queues, &entry),
    }
}

/// What queues answer for the entry at a place of these, after another one was taken out or not; nothing for one that there isn't.
fn answered(
    alloc: Global,
    queues: &mut Queues,
    slots: &[usize],
    gone: Option<usize>,
    ask: Ask,
    place: usize,
) -> Result<Vec<u32>, Fail>
    requires { AllIn (IsQueued queues.old) slots.now }
{
    let Some(slot) = slots.get(place) else {
        return Ok(Vec::new(alloc));
    };
    let Some(gone) = gone else {
        return asked(alloc, queues, *slot, ask);
    };
    match slots.get(gone) {
        Some(gone) if *gone != *slot => {
            queues.remove(*gone);
            asked(alloc, queues, *slot, ask)
        }
        _ => Ok(Vec::new(alloc)),
    }
}

/// The same of queues of these entries.
fn told_of(
    alloc: Global,
    queues: &mut Queues,
    uses: &[Use],
    gone: Option<usize>,
    ask: Ask,
    place: usize,
) -> Result<Vec<u32>, Fail> {
    let slots = queued(alloc, queues, uses)?;
    answered(alloc, queues, slots.as_slice(), gone, ask, place)
}

/// The same of new queues, which are left to the end of the process: that they may be dropped would be proved here.
fn told(
    alloc: Global,
    uses: &[Use],
    gone: Option<usize>,
    ask: Ask,
    place: usize,
) -> Result<Vec<u32>, Fail> {
    let mut queues = Queues::new(alloc);
    let told = told_of(alloc, &mut queues, uses, gone, ask, place);
    forget(queues);
    told
}

const ROW: [Use; 4] = [
    (0, b"a", Mode::Read, 0),
    (0, b"a", Mode::Read, 1),
    (0, b"a", Mode::Write, 2),
    (0, b"a", Mode::Read, 3),
];

const GRANULE: [Use; 8] = [
    (0, b"a/1", Mode::Write, 0),
    (0, b"a/2", Mode::Read, 1),
    (1, b"a/2", Mode::Write, 2),
    (0, b"a/2", Mode::Read, 3),
    (0, b"a", Mode::Whole, 4),
    (0, b"a/1", Mode::Read, 5),
    (0, b"a", Mode::Whole, 6),
    (0, b"a", Mode::Whole, 7),
];

const ROWS_OF_GRANULE: [Use; 8] = [
    (0, b"a", Mode::Whole, 0),
    (0, b"a/1", Mode::Read, 1),
    (0, b"a/2", Mode::Write, 2),
    (0, b"a/1", Mode::Read, 3),
    (0, b"a/1", Mode::Write, 4),
    (0, b"a/2", Mode::Read, 5),
    (0, b"a", Mode::Whole, 6),
    (0, b"a/3", Mode::Write, 7),
];

/// Entries, one that is taken out or none, what is asked of the one at a place, and what is answered.
const ROWS: &[(&[Use], Option<usize>, Ask, usize, &[u32])] = &[
    // Neighbours are the nearest before it that clash.
    (&ROW, None, Ask::Neighbours, 0, &[]),
    (&ROW, None, Ask::Neighbours, 1, &[]),
    (&ROW, None, Ask::Neighbours, 2, &[0, 1]),
    (&ROW, None, Ask::Neighbours, 3, &[2]),
    (&GRANULE, None, Ask::Neighbours, 2, &[]),
    (&GRANULE, None, Ask::Neighbours, 3, &[]),
    (&GRANULE, None, Ask::Neighbours, 4, &[0, 1, 3]),
    (&GRANULE, None, Ask::Neighbours, 5, &[4]),
    (&GRANULE, None, Ask::Neighbours, 6, &[5]),
    (&GRANULE, None, Ask::Neighbours, 7, &[6]),
    // Followers are those that wait for it.
    (&ROW, None, Ask::Followers, 0, &[2]),
    (&ROW, None, Ask::Followers, 2, &[3]),
    (&ROW, None, Ask::Followers, 3, &[]),
    (&GRANULE, None, Ask::Followers, 0, &[4]),
    (&GRANULE, None, Ask::Followers, 2, &[]),
    (&GRANULE, None, Ask::Followers, 4, &[5]),
    (&GRANULE, None, Ask::Followers, 5, &[6]),
    (&GRANULE, None, Ask::Followers, 6, &[7]),
    (&ROWS_OF_GRANULE, None, Ask::Followers, 0, &[1, 3, 2]),
    (&ROWS_OF_GRANULE, None, Ask::Followers, 4, &[6]),
    (&ROWS_OF_GRANULE, None, Ask::Followers, 6, &[7]),
    // What was taken out is no neighbour.
    (&ROW, Some(0), Ask::Neighbours, 2, &[1]),
    (&ROW, Some(2), Ask::Neighbours, 3, &[]),
    (&GRANULE, Some(4), Ask::Neighbours, 5, &[0]),
    (&GRANULE, Some(5), Ask::Neighbours, 6, &[4]),
    (&GRANULE, Some(6), Ask::Neighbours, 7, &[5]),
    // What is pushed after that waits for what is left.
    (
        &ROW,
        Some(2),
        Ask::NeighboursOf((0, b"a", Mode::Write, 4)),
        0,
        &[0, 1, 3],
    ),
    (
        &ROWS_OF_GRANULE,
        Some(6),
        Ask::NeighboursOf((0, b"a", Mode::Whole, 8)),
        0,
        &[4, 5, 7],
    ),
    (
        &GRANULE,
        Some(7),
        Ask::NeighboursOf((0, b"a", Mode::Whole, 8)),
        0,
        &[6],
    ),
    (
        &GRANULE,
        Some(7),
        Ask::NeighboursOf((0, b"a/1", Mode::Write, 8)),
        0,
        &[6],
    ),
];

/// Fails at the first row that is answered in another way.
fn check(alloc: Global) -> Result<(), Fail> {
    for (row, (uses, gone, ask, place, want)) in ROWS.iter().enumerate() {
        if told(alloc, uses, *gone, *ask, *place)?.as_slice() != *want {
            return Err(wrong(row));
        }
    }
    Ok(())
}

#[test]
fn entries_have_their_neighbours_and_followers(rt: HostRuntime) -> Result<(), Fail> {
    check(rt.alloc())
}

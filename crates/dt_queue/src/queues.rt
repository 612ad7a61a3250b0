ghost use Rattle.std.specs.Prelude.{◌≡◌, ◌==◌, ◌<◌, ◌^◌, [], ◌∷◌, ◌++◌, count_by, length, map, not, option_to_list, IfOk, MatchOption, OnErr};
ghost use Rattle.std.specs.List.Sorted.{IsPermutation};
ghost use Rattle.dt_queue.specs.Queues.{IsQueued, follower_of, followers, neighbours, taken_out};

use crate::follower::Follower;
use crate::kept::Kept;
use crate::mark::Mark;
use crate::next::NextMarks;
use dt_access::Mode;
use dt_text::{Key, NoMemory};
use std::alloc::Global;
use std::marker::Model;

/// The queues of all homes and granules.
///
/// Contracts see all entries that wait, in the order of their pushes. Each has a slot of its own while it waits; a slot is
/// given again once its entry is taken out.
#[derive(Drop)]
pub struct Queues {
    kept: Kept,
}

impl Model for Queues {
    ghost use Rattle.std.specs.Prelude.{List};
    ghost use Rattle.dt_queue.specs.Queues.{Waiting};
    ghost use Rattle.dt_queue.specs.KeptInner.{AreQueuesKept, waiting_of};

    ghost Value = { List Waiting };

    ghost view = { λ q. waiting_of q.kept };

    ghost invariant = { λ q. AreQueuesKept q.kept };
}

impl Queues {
    /// No entry waits. Takes no memory.
    pub fn new(alloc: Global) -> Self
        ensures { result ≡ [] }
    {
        Queues {
            kept: Kept::new(alloc),
        }
    }

    /// Adds an entry at the back of its queue, and gives its slot, at which none waited; after `NoMemory` all is as before.
    /// There is no limit to the number of pushes; entries that wait at one time are counted in 64 bits, since each takes memory.
    pub fn push(
        &mut self,
        alloc: Global,
        home: u8,
        key: &Key,
        mode: Mode,
        vertex: u32,
    ) -> Result<usize, NoMemory>
        ensures added { IfOk result (λ slot. self.new ≡ self.old ++ record { slot = slot; home = home; key = key.now; mode = mode; vertex = vertex } ∷ []) }
        ensures fresh { IfOk result (λ slot. ¬ (IsQueued self.old slot)) }
        ensures few { IfOk result (λ slot. length self.new < 2 ^ 64) }
        ensures same { OnErr result (self.new ≡ self.old) }
    {
        self.kept.make_number()?;
        let pushed = self.kept.push(alloc, home, key, mode, vertex);
        let _entries = self.kept.cells.len();
        pushed
    }

    /// The vertices of the neighbours of an entry, in the order of their pushes.
    pub fn neighbours(&self, alloc: Global, slot: usize) -> Result<Vec<u32>, NoMemory>
        requires { IsQueued self.now slot }
        ensures { IfOk result (λ found. found.items ≡ map (λ w. w.vertex) (neighbours self.now slot)) }
    {
        let marks = self.kept.near(alloc, &self.kept.cells[slot])?;
        vertices(alloc, marks.as_slice())
    }

    /// How many of the neighbours of an entry are of other vertices than this one.
    pub fn count_others(&self, alloc: Global, slot: usize, vertex: u32) -> Result<usize, NoMemory>
        requires { IsQueued self.now slot }
        ensures { IfOk result (λ count. count ≡ count_by (λ n. not (n == vertex)) (map (λ w. w.vertex) (neighbours self.now slot))) }
    {
        let cell = &self.kept.cells[slot];
        if self.kept.has_one_near(cell) {
            return Ok(other(self.kept.near_one(cell), vertex));
        }
        let marks = self.kept.near(alloc, cell)?;
        Ok(others(marks.as_slice(), vertex))
    }

    /// The followers of the entry at a slot, each once: those that read or write one row in the order of their pushes, and the rows
    /// in no order. Takes no memory.
    pub fn followers(&self, slot: usize) -> Followers<'_>
        requires { IsQueued self.now slot }
        ensures { IsPermutation (map follower_of (followers self.now slot)) result }
    {
        Followers {
            marks: self.kept.next(&self.kept.cells[slot]),
        }
    }

    /// Takes the entry at a slot out of its queue. Takes no memory.
    pub fn remove(&mut self, slot: usize)
        requires { IsQueued self.old slot }
        ensures { self.new ≡ taken_out self.old slot }
    {
        self.kept.remove(slot);
    }
}

/// The followers of an entry. Contracts see those that are left.
#[derive(Drop)]
pub struct Followers<'a> {
    marks: NextMarks<'a>,
}

impl<'a> Model for Followers<'a> {
    ghost use Rattle.std.specs.Prelude.{List, map};
    ghost use Rattle.dt_queue.specs.LanesInner.{AreApart};
    ghost use Rattle.dt_queue.specs.NextInner.{follower_of_mark, marks_left};
    ghost use Rattle.dt_queue.specs.TableInner.{lanes_read, lanes_written};
    ghost use Rattle.dt_queue.specs.declared.follower.Follower.{Follower};

    ghost Value = { List Follower };

    ghost view = { λ f. map follower_of_mark (marks_left f.marks) };

    ghost invariant = { λ f. AreApart (lanes_read f.marks.table.now) (lanes_written f.marks.table.now) };
}

impl<'a> Followers<'a> {
    /// Takes the next follower, if one is left. Takes no memory.
    pub fn next(&mut self) -> Option<Follower>
        ensures { MatchOption result ((self.old ≡ []) × (self.new ≡ [])) (λ follower. self.old ≡ follower ∷ self.new) }
    {
        let mark = self.marks.next()?;
        Some(Follower {
            slot: mark.slot,
            vertex: mark.vertex,
        })
    }
}

/// The vertices of marks, in order.
fn vertices(alloc: Global, marks: &[Mark]) -> Result<Vec<u32>, NoMemory>
    ensures { IfOk result (λ found. found.items ≡ map (λ m. m.vertex) marks.now) }
{
    let mut vertices = Vec::with_capacity(alloc, marks.len())?;
    for mark in marks {
        vertices.push(mark.vertex)?;
    }
    Ok(vertices)
}

/// How many marks there are of another vertex than this one, where there is one mark at most.
fn other(mark: Option<Mark>, vertex: u32) -> usize
    ensures { result ≡ count_by (λ m. not (m.vertex == vertex)) (option_to_list mark) }
{
    match mark {
        Some(mark) => others(&[mark], vertex),
        None => 0,
    }
}

/// How many marks are of other vertices than this one.
fn others(marks: &[Mark], vertex: u32) -> usize
    ensures { result ≡ count_by (λ m. not (m.vertex == vertex)) marks.now }
{
    marks.iter().filter(|mark| mark.vertex != vertex).count()
}

ghost use Rattle.std.specs.Prelude.{◌≡◌, ◌<◌, ◌≤◌, ◌==◌, [], ◌∷◌, ◌++◌, drop, map, not, slice_get, IsTrue, OnOk, OnErr};
ghost use Rattle.std.specs.List.{filter};
ghost use Rattle.dt_lists.specs.Lists.{AllIn};
ghost use Rattle.dt_queue.specs.LanesInner.{EndsBelow, IsFirstBetween, IsLastBetween, is_between};
ghost use Rattle.dt_queue.specs.NumbersInner.{IsGap, renumbered};

use crate::mark::{Mark, Marks};
use dt_text::NoMemory;
use std::alloc::Global;
use std::collections::VecDeque;
use std::marker::Model;

/// The marks of a lane after its first one, in the order of their pushes. It is searched by halving.
#[derive(Drop)]
pub struct Tail {
    marks: VecDeque<Mark>,
}

impl Model for Tail {
    ghost use Rattle.std.specs.Prelude.{List};
    ghost use Rattle.dt_queue.specs.declared.mark.Mark.{Mark};
    ghost use Rattle.dt_queue.specs.LanesInner.{HasRisingNumbers};

    ghost Value = { List Mark };

    ghost view = { λ t. t.marks.items };

    ghost invariant = { λ t. HasRisingNumbers t.marks.items };
}

impl Tail {
    /// No mark. Takes no memory.
    pub fn new(alloc: Global) -> Self
        ensures { result ≡ [] }
    {
        Tail {
            marks: VecDeque::new(alloc),
        }
    }

    /// Adds a mark at the back; after `NoMemory` all are as before.
    pub fn push(&mut self, mark: Mark) -> Result<(), NoMemory>
        requires { AllIn (λ m. m.number < mark.number) self.old }
        ensures added { OnOk result (self.new ≡ self.old ++ mark ∷ []) }
        ensures same { OnErr result (self.new ≡ self.old) }
    {
        self.marks.push_back(mark)?;
        Ok(())
    }

    /// Takes out the first mark, if there is one. Takes no memory.
    pub fn pop_first(&mut self) -> Option<Mark>
        ensures first { result ≡ slice_get self.old 0 }
        ensures rest { self.new ≡ drop 1 self.old }
    {
        self.marks.pop_front()
    }

    /// Takes out the mark of this number, if there is one. Takes no memory.
    pub fn remove(&mut self, number: u64)
        ensures { self.new ≡ filter (λ m. not (m.number == number)) self.old }
    {
        let place = self.below(number);
        if let Some(mark) = self.marks.get(place) {
            if mark.number == number {
                self.marks.remove(place);
            }
        }
    }

    /// Gives the mark of a number, if there is one, a lesser number; no other mark lies between the two. Takes no memory.
    pub fn renumber(&mut self, number: u64, new: u64)
        requires lesser { new ≤ number }
        requires gap { AllIn (IsGap number new) self.old }
        ensures { self.new ≡ map (renumbered number new) self.old }
    {
        let place = self.below(number);
        if let Some(mark) = self.marks.get(place) {
            if mark.number == number {
                self.marks[place].number = new;
            }
        }
    }

    /// The last mark with a number between the two.
    pub fn last_between(&self, low: u64, high: u64) -> Option<Mark>
        ensures { IsLastBetween low high self.now result }
    {
        let place = self.below(high).checked_sub(1)?;
        let mark = *self.marks.get(place)?;
        if low < mark.number { Some(mark) } else { None }
    }

    /// The first mark with a number between the two.
    pub fn first_between(&self, low: u64, high: u64) -> Option<Mark>
        ensures { IsFirstBetween low high self.now result }
    {
        let place = self.below(low.checked_add(1)?);
        let mark = *self.marks.get(place)?;
        if mark.number < high { Some(mark) } else { None }
    }

    /// Appends the marks with numbers between the two; after `NoMemory` maybe only some of them.
    pub fn add_between(&self, low: u64, high: u64, marks: &mut Marks) -> Result<(), NoMemory>
        ensures { OnOk result (marks.new.items ≡ marks.old.items ++ filter (is_between low high) self.now) }
    {
        let Some(next) = low.checked_add(1) else {
            return Ok(());
        };
        let mut place = self.below(next);
        while let Some(mark) = self.marks.get(place) {
            if mark.number >= high {
                return Ok(());
            }
            marks.push(*mark)?;
            place += 1;
        }
        Ok(())
    }

    /// The place of the first mark that has not a lesser number, or the number of marks. The last mark is tried first, since an
    /// entry that was just pushed stands behind all others.
    fn below(&self, number: u64) -> usize
        ensures { EndsBelow number self.now result }
    {
        if self.are_below(number) {
            return self.marks.len();
        }
        self.marks.partition_point(|mark| mark.number < number)
    }

    /// Whether all marks have lesser numbers, as is seen by the last one.
    fn are_below(&self, number: u64) -> bool
        ensures { IsTrue result → AllIn (λ m. m.number < number) self.now }
    {
        match self.marks.back() {
            Some(last) => last.number < number,
            None => true,
        }
    }
}

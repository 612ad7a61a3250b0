ghost use Rattle.std.specs.Prelude.{◌≡◌, ◌<◌, ◌≤◌, ◌==◌, [], ◌∷◌, ◌++◌, drop, length, map, not, OnOk, OnErr};
ghost use Rattle.std.specs.List.{filter};
ghost use Rattle.dt_lists.specs.Lists.{AllIn};
ghost use Rattle.dt_queue.specs.FurtherInner.{IsIdleEmpty, tail_of};
ghost use Rattle.dt_queue.specs.LanesInner.{IsFirstBetween, IsLastBetween, is_between};
ghost use Rattle.dt_queue.specs.NumbersInner.{IsGap, renumbered};

use crate::mark::{Mark, Marks};
use crate::tail::Tail;
use dt_text::NoMemory;
use std::alloc::Global;
use std::marker::Model;
use std::mem;

/// The marks of entries that use one row in one way, in the order of their pushes. Most lanes have one mark at a time: so the
/// first lies in the lane itself, and only those after it lie elsewhere.
#[derive(Drop)]
pub struct Lane {
    /// Its number is 0 where there is no mark.
    first: Mark,
    further: Further,
}

/// The marks of a lane after its first one.
#[derive(Drop)]
enum Further {
    /// There has been none.
    None,
    /// There is none, but the memory of earlier ones is kept for the next.
    Idle(Box<Tail>),
    /// They lie there, as far as there are any.
    Marks(Box<Tail>),
}

impl Model for Lane {
    ghost use Rattle.std.specs.Prelude.{List};
    ghost use Rattle.dt_queue.specs.declared.mark.Mark.{Mark};
    ghost use Rattle.dt_queue.specs.FurtherInner.{IsIdleEmpty, tail_of};
    ghost use Rattle.dt_queue.specs.LanesInner.{IsOneLane, marks_of};

    ghost Value = { List Mark };

    ghost view = { λ l. marks_of l.first (tail_of l.further) };

    ghost invariant = { λ l. IsOneLane l.first (tail_of l.further) × IsIdleEmpty l.further };
}

impl Lane {
    /// A lane with no mark. Takes no memory.
    pub fn new() -> Self
        ensures { result ≡ [] }
    {
        Lane {
            first: Mark::none(),
            further: Further::None,
        }
    }

    /// Whether there is no mark.
    pub fn is_empty(&self) -> bool
        ensures { result ≡ (length self.now == 0) }
    {
        self.first.number == 0
    }

    /// Adds a mark at the back; after `NoMemory` the lane is as before.
    pub fn push(&mut self, alloc: Global, mark: Mark) -> Result<(), NoMemory>
        requires positive { 0 < mark.number }
        requires last { AllIn (λ m. m.number < mark.number) self.old }
        ensures added { OnOk result (self.new ≡ self.old ++ mark ∷ []) }
        ensures same { OnErr result (self.new ≡ self.old) }
    {
        if self.first.number == 0 {
            self.first = mark;
            return Ok(());
        }
        self.push_to_tail(alloc, mark)
    }

    /// The same, where the lane has a mark.
    fn push_to_tail(&mut self, alloc: Global, mark: Mark) -> Result<(), NoMemory>
        requires some { 0 < length self.old }
        requires positive { 0 < mark.number }
        requires last { AllIn (λ m. m.number < mark.number) self.old }
        ensures added { OnOk result (self.new ≡ self.old ++ mark ∷ []) }
        ensures same { OnErr result (self.new ≡ self.old) }
    {
        if let Further::Marks(tail) = &mut self.further {
            return tail.push(mark);
        }
        let mut tail = match mem::replace(&mut self.further, Further::None) {
            Further::Idle(tail) => tail,
            _ => Box::new(alloc, Tail::new(alloc))?,
        };
        tail.push(mark)?;
        self.further = Further::Marks(tail);
        Ok(())
    }

    /// Takes out the mark of this number, if there is one. Takes no memory.
    pub fn remove(&mut self, number: u64)
        ensures { self.new ≡ filter (λ m. not (m.number == number)) self.old }
    {
        if self.first.number == number {
            self.remove_first();
        } else if let Further::Marks(tail) = &mut self.further {
            tail.remove(number);
        }
    }

    /// Takes out the first mark, if there is one. Takes no memory. A lane that has no mark any more keeps the memory of its tail,
    /// and does not look at it again before a mark is put there.
    fn remove_first(&mut self)
        ensures { self.new ≡ drop 1 self.old }
    {
        let next = match &mut self.further {
            Further::Marks(tail) => tail.pop_first(),
            _ => None,
        };
        match next {
            Some(mark) => self.first = mark,
            None => {
                self.first = Mark::none();
                self.further = mem::replace(&mut self.further, Further::None).idle();
            }
        }
    }

    /// Gives the mark of a number, if there is one, a lesser number; no other mark lies between the two. Takes no memory.
    pub fn renumber(&mut self, number: u64, new: u64)
        requires positive { 0 < new }
        requires lesser { new ≤ number }
        requires gap { AllIn (IsGap number new) self.old }
        ensures { self.new ≡ map (renumbered number new) self.old }
    {
        if self.first.number == number {
            self.first.number = new;
        } else if let Further::Marks(tail) = &mut self.further {
            tail.renumber(number, new);
        }
    }

    /// The last mark with a number between the two.
    pub fn last_between(&self, low: u64, high: u64) -> Option<Mark>
        ensures { IsLastBetween low high self.now result }
    {
        if let Further::Marks(tail) = &self.further {
            let last = tail.last_between(low, high);
            if last.is_some() {
                return last;
            }
        }
        self.first.between(low, high)
    }

    /// The first mark with a number between the two.
    pub fn first_between(&self, low: u64, high: u64) -> Option<Mark>
        ensures { IsFirstBetween low high self.now result }
    {
        let first = self.first.between(low, high);
        match &self.further {
            Further::Marks(tail) if first.is_none() => tail.first_between(low, high),
            _ => first,
        }
    }

    /// Appends the marks with numbers between the two; after `NoMemory` maybe only some of them.
    pub fn add_between(&self, low: u64, high: u64, marks: &mut Marks) -> Result<(), NoMemory>
        ensures { OnOk result (marks.new.items ≡ marks.old.items ++ filter (is_between low high) self.now) }
    {
        if let Some(first) = self.first.between(low, high) {
            marks.push(first)?;
        }
        match &self.further {
            Further::Marks(tail) => tail.add_between(low, high, marks),
            _ => Ok(()),
        }
    }
}

impl Further {
    /// The same, where no mark lies there: the memory of earlier ones is kept, and not looked at before the next.
    fn idle(self) -> Self
        requires none { tail_of self ≡ [] }
        requires empty { IsIdleEmpty self }
        ensures none { tail_of result ≡ [] }
        ensures empty { IsIdleEmpty result }
    {
        match self {
            Further::Marks(tail) => Further::Idle(tail),
            other => other,
        }
    }
}

ghost use Rattle.std.specs.Prelude.{◌≡◌, ◌<◌, ◌+◌, [], List, IfOk, OnOk, length};
ghost use Rattle.dt_proc.specs.Tree.{ProcTree};
ghost use Rattle.dt_session.specs.Sessions.{StandsAt};
ghost use Rattle.dt_node.specs.MeasureInner.{left_for};
ghost use Rattle.dt_node.specs.EagerStartInner.{IsPlacingOwn, MakesNext};
ghost use Rattle.dt_node.specs.Steps.{AllWhoMight, IsNextAt};
ghost use Rattle.dt_node.specs.StepsInner.{IsAnswering, IsSubmission, StepsAt};
ghost use Rattle.dt_node.specs.Turn.{BeginsEagerly, HasPlacedOwn, MayAnswerAt, MaySubmitAt, MovesOn};
ghost use Rattle.dt_node.specs.TurnInner.{CanGo, CanTake, EndsAll, EndsOne, EndsPlacing, KnowsTheSame};

use crate::node::Node;
use dt_proc::Procs;
use dt_sched::Scheduler;
use dt_site::{Origin, last_outcome_at, next_attempt};
use dt_text::NoMemory;
use dt_txn::Body;
use std::alloc::Global;

impl<S: Scheduler + Drop> Node<S> {
    /// Answers each session whose attempt has ended, in byte order of names. Says whether there was one.
    pub(crate) fn answer_all(&mut self, alloc: Global) -> Result<bool, NoMemory>
        requires can { CanTake [] self.old }
        ensures moved { (procs : List ProcTree) → MovesOn procs [] self.old self.new }
        ensures knows { KnowsTheSame self.old self.new }
        ensures seats { length self.new.sessions.seats ≡ length self.old.sessions.seats }
        ensures ends { IfOk result (λ some. EndsAll MayAnswerAt self.old some self.new) }
        ensures all { OnOk result (AllWhoMight MayAnswerAt IsAnswering self.old self.new) }
    {
        let mut some = false;
        let mut index = 0;
        'sessions: while self.sessions.name(index).is_some() {
            some |= self.answer_one(alloc, index)?;
            index += 1;
        }
        Ok(some)
    }

    /// Answers the session at this place, if its attempt has ended. Says whether it did. The event is kept first, which may
    /// take memory; the session goes on after that, which takes none.
    fn answer_one(&mut self, alloc: Global, index: u32) -> Result<bool, NoMemory>
        requires can { CanTake [] self.old }
        ensures moved { (procs : List ProcTree) → MovesOn procs [] self.old self.new }
        ensures knows { KnowsTheSame self.old self.new }
        ensures seats { length self.new.sessions.seats ≡ length self.old.sessions.seats }
        ensures ends { IfOk result (λ some. EndsOne MayAnswerAt self.old index some self.new) }
        ensures one { IfOk result (λ some. StepsAt IsAnswering self.old index some self.new) }
    {
        let last = last_outcome_at(&self.sessions, &self.site.region, index);
        if !self.sessions.may_answer_at(index, last) {
            return Ok(false);
        }
        let Some(name) = self.sessions.name(index) else {
            unreachable!()
        };
        self.site.region.answer(alloc, name)?;
        let last = last_outcome_at(&self.sessions, &self.site.region, index);
        self.sessions.answer_at(index, last);
        Ok(true)
    }

    /// Lets each session submit its next attempt, if it may, in byte order of names; what an attempt asks of this region
    /// itself is placed at once. Says whether there was one.
    pub(crate) fn submit_all(&mut self, alloc: Global, procs: &Procs) -> Result<bool, NoMemory>
        requires can { CanGo procs.now [] self.old }
        ensures moved { MovesOn procs.now [] self.old self.new }
        ensures knows { KnowsTheSame self.old self.new }
        ensures seats { length self.new.sessions.seats ≡ length self.old.sessions.seats }
        ensures ends { IfOk result (λ some. EndsAll MaySubmitAt self.old some self.new) }
        ensures all { OnOk result (AllWhoMight MaySubmitAt (IsSubmission procs.now) self.old self.new) }
        ensures begins { OnOk result (BeginsEagerly procs.now self.old self.new) }
    {
        // Asks for a name, so that the proof has the order of names that the type keeps.
        let _first = self.sessions.name(0);
        let mut some = false;
        let mut index = 0;
        'sessions: while self.sessions.name(index).is_some() {
            some |= self.submit_one(alloc, procs, index)?;
            index += 1;
        }
        Ok(some)
    }

    /// Lets the session at this place submit its next attempt, if it may, and places what that asks of this region itself.
    /// Says whether it did.
    fn submit_one(&mut self, alloc: Global, procs: &Procs, index: u32) -> Result<bool, NoMemory>
        requires can { CanGo procs.now [] self.old }
        ensures moved { MovesOn procs.now [] self.old self.new }
        ensures knows { KnowsTheSame self.old self.new }
        ensures seats { length self.new.sessions.seats ≡ length self.old.sessions.seats }
        ensures ends { IfOk result (λ some. EndsOne MaySubmitAt self.old index some self.new) }
        ensures one { IfOk result (λ some. StepsAt (IsSubmission procs.now) self.old index some self.new) }
    {
        let next = next_attempt(alloc, &self.sessions, &self.site.region, index)?;
        let Some((origin, rank, body)) = next else {
            return Ok(false);
        };
        self.submit(alloc, procs, index, origin, rank, body)?;
        self.place_own(alloc)?;
        Ok(true)
    }

    /// Submits an attempt, for which its session, which stands at this place, waits from then on.
    fn submit(
        &mut self,
        alloc: Global,
        procs: &Procs,
        index: u32,
        origin: Origin,
        rank: u8,
        body: Body,
    ) -> Result<(), NoMemory>
        requires can { CanGo procs.now [] self.old }
        requires place { StandsAt self.old.sessions index origin.session }
        requires next { IsNextAt self.old origin.session origin rank body }
        ensures moved { MovesOn procs.now [] self.old self.new }
        ensures knows { KnowsTheSame self.old self.new }
        ensures seats { length self.new.sessions.seats ≡ length self.old.sessions.seats }
        ensures less { OnOk result (left_for self.new.sessions < left_for self.old.sessions) }
        ensures some { OnOk result (length self.new.site.region.events ≡ length self.old.site.region.events + 1) }
        ensures made { OnOk result (MakesNext procs.now self.old origin rank body self.new) }
    {
        let id = self.site.submit(alloc, rank, body, procs, origin)?;
        let last = last_outcome_at(&self.sessions, &self.site.region, index);
        self.sessions.wait_at(index, id, last);
        Ok(())
    }

    /// Places what this region asked of itself, as far as it isn't placed.
    fn place_own(&mut self, alloc: Global) -> Result<(), NoMemory>
        requires can { CanTake [] self.old }
        ensures moved { (procs : List ProcTree) → MovesOn procs [] self.old self.new }
        ensures knows { KnowsTheSame self.old self.new }
        ensures sessions { self.new.sessions ≡ self.old.sessions }
        ensures placed { OnOk result (HasPlacedOwn self.new) }
        ensures own { IsPlacingOwn self.old self.new }
    {
        while self.place_next(alloc)? {}
        Ok(())
    }

    /// Places the next request that this region asked of itself. Says whether there was one.
    fn place_next(&mut self, alloc: Global) -> Result<bool, NoMemory>
        requires can { CanTake [] self.old }
        ensures moved { (procs : List ProcTree) → MovesOn procs [] self.old self.new }
        ensures knows { KnowsTheSame self.old self.new }
        ensures sessions { self.new.sessions ≡ self.old.sessions }
        ensures ends { IfOk result (λ some. EndsPlacing self.old some self.new) }
        ensures own { IsPlacingOwn self.old self.new }
    {
        let region = &self.site.region;
        let me = region.number();
        let number = region.taken(me);
        let asked = region.asked(me);
        if number as usize >= asked.len() {
            return Ok(false);
        }
        let Some(txn) = region.common_txn(asked[number as usize]) else {
            unreachable!()
        };
        let txn = txn.copy()?;
        self.site.region.append_owned(alloc, me, number, txn)?;
        Ok(true)
    }
}

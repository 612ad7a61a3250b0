ghost use Rattle.std.specs.Prelude.{◌≡◌, ◌↔◌, ◌≤◌, ◌<◌, ◌+◌, ◌-◌, length, map, option_and_then, option_map, slice_get, IfOk, IfSome, IsSome, IsTrue, MatchOption, None, Some};
ghost use Rattle.std.specs.Option.{option_copied};
ghost use Rattle.dt_lists.specs.Lists.{Distinct};
ghost use Rattle.dt_access.specs.Clash.{Bytes};
ghost use Rattle.dt_access.specs.Orders.{HasAscendingKeys};
ghost use Rattle.dt_workload.specs.Valid.{calls_in, session_count_at, session_names};
ghost use Rattle.dt_session.specs.Sessions.{AreAllAnswered, AreSoundSeats, EachNameIsAnswered, IsNext, IsSoundSeat, MayBeAnswered, MayGo, MaySeatEnd, MaySeatTry, StandsAt};
ghost use Rattle.dt_session.specs.Sessions.{after_answer, after_wait, all_idle, answered_seat, numbers_next, seat_of, waiting, waits_of, wanted_of};
ghost use Rattle.dt_session.specs.Tries.{IsLast, IsStale, body_of, ranked_body};

use dt_access::{TryCopy, TxnId};
use dt_text::{Name, NoMemory};
use dt_txn::{Body, Outcome};
use dt_workload::{Bodies, Wanted, Workload};
use indexmap::IndexMap;
use std::alloc::Global;
use std::collections::BTreeMap;
use std::marker::Model;

/// An attempt that a session waits for.
#[derive(Clone, Copy, Debug, PartialEq, Eq)]
pub struct Waiting {
    pub id: TxnId,
    /// The number of the attempt in its call, from 1.
    pub attempt: u32,
}

/// A session: what it wants, and where it stands.
#[derive(Drop)]
pub struct Seat {
    pub calls: Bodies,
    /// How many of its calls are answered.
    pub answered: u32,
    /// The attempt that it waits for, if it does.
    pub waits: Option<Waiting>,
}

/// The sessions of one region, found by their names.
///
/// Contracts see how often a call may be tried (`tries`), and as `seats` each session with its name, in byte order of names. Its
/// type keeps that no name stands twice.
#[derive(Drop)]
pub struct Sessions {
    tries: u32,
    /// In byte order of names.
    seats: IndexMap<Name, Seat>,
}

impl Model for Sessions {
    ghost use Rattle.dt_session.specs.Sessions.{AreSoundSeats, SessionsView};
    ghost use Rattle.dt_session.specs.SessionsCode.{sessions_code};

    ghost Value = { SessionsView };

    ghost coded = { sessions_code };

    ghost view = { λ s. record { tries = s.tries; seats = s.seats.entries } };

    ghost invariant = { λ s. AreSoundSeats s.seats.entries };
}

impl Sessions {
    /// The sessions of a workload that are at this region, before their first calls. A call may be tried `tries` times. No two
    /// sessions of the workload have one name, at most 64 of them are at this region, and it has at most 20,000 calls, as each
    /// workload of a cluster.
    pub fn new(alloc: Global, workload: &Workload, region: u8, tries: u32) -> Result<Self, NoMemory>
        requires names { Distinct (session_names workload.now.sessions) }
        requires sessions { session_count_at region workload.now.sessions ≤ 64 }
        requires few { calls_in workload.now.sessions ≤ 20000 }
        ensures { IfOk result (λ sessions. sessions ≡ all_idle tries region workload.now) }
    {
        let sessions = workload.sessions.as_slice();
        let mut seats = BTreeMap::new(alloc);
        for session in sessions.iter().rev() {
            if session.region == region {
                let seat = Seat {
                    calls: session.calls.copy(alloc)?,
                    answered: 0,
                    waits: None,
                };
                seats.insert(session.name.copy(alloc)?, seat)?;
            }
        }
        Ok(Sessions {
            tries,
            seats: listed(alloc, seats)?,
        })
    }

    /// The place, from 0, in byte order of names, of the session of this name. `None` exactly where it is not here.
    pub fn place_of(&self, session: &Name) -> Option<u32>
        ensures { MatchOption result (seat_of self.now session.now ≡ None) (λ place. StandsAt self.now place session.now) }
    {
        Some(self.seats.get_index_of(session)? as u32)
    }

    /// The session at this place, from 0, in byte order of names, if one stands there.
    fn seat_at(&self, index: u32) -> Option<&Seat>
        ensures found { (name : Bytes) → StandsAt self.now index name → option_copied result ≡ seat_of self.now name }
        ensures there { IsSome result ↔ (index < length self.now.seats) }
        ensures sound { IfSome result (λ seat. IsSoundSeat seat.now) }
    {
        let (_, seat) = self.seats.get_index(index as usize)?;
        Some(seat)
    }

    /// The numbers of the call and of the attempt, both from 1, that the session at this place, from 0, in byte order of names,
    /// may submit next. `last` is the outcome here of the attempt that it waits for, if there is one. `None` exactly where it may
    /// submit nothing, or no session stands there.
    pub fn next_at(&self, index: u32, last: Option<&Outcome>) -> Option<(u32, u32)>
        ensures numbers { (name : Bytes) → StandsAt self.now index name → IsNext self.now name (option_copied last.entry) result }
        ensures there { IsSome result → index < length self.now.seats }
    {
        next_numbers(self.tries, self.seat_at(index)?, last)
    }

    /// Lets the session at this place, from 0, in byte order of names, wait for its next attempt, which got this id. `next_at`
    /// gives its numbers.
    pub fn wait_at(&mut self, index: u32, id: TxnId, last: Option<&Outcome>)
        requires { (name : Bytes) × StandsAt self.old index name × MayGo self.old name (option_copied last) }
        ensures { (name : Bytes) → StandsAt self.old index name → self.new ≡ after_wait self.old name id }
    {
        let Some(seat) = self.seats.get_index_mut(index as usize) else {
            unreachable!()
        };
        begin_try(self.tries, seat, id, last);
    }

    /// The rank of the call of this number, from 1, of the session at this place, from 0, in byte order of names, and what it is
    /// to do.
    pub fn body_at(&self, alloc: Global, index: u32, call: u32) -> Result<(u8, Body), NoMemory>
        requires from { 1 ≤ call }
        requires there { (name : Bytes) × StandsAt self.now index name × IsSome (wanted_of self.now name call) }
        ensures { (name : Bytes) → StandsAt self.now index name → IfOk result (λ answer. option_map ranked_body (wanted_of self.now name call) ≡ Some answer) }
    {
        let Some(seat) = self.seat_at(index) else {
            unreachable!()
        };
        call_body(alloc, seat, call)
    }

    /// The name of the session at this place, from 0, in byte order of names, in which no name stands twice. `None` exactly at or
    /// past their number. The name finds the session of that place.
    pub fn name(&self, index: u32) -> Option<&Name>
        ensures place { option_copied result ≡ slice_get (map (λ p. p.0) self.now.seats) index }
        ensures finds { option_and_then (seat_of self.now) (option_copied result) ≡ option_map (λ p. p.1) (slice_get self.now.seats index) }
        ensures ascending { HasAscendingKeys self.now.seats }
    {
        let (name, _) = self.seats.get_index(index as usize)?;
        Some(name)
    }

    /// The attempt that the session at this place, from 0, in byte order of names, waits for. `None` exactly where it is idle or
    /// not here.
    pub fn waits_at(&self, index: u32) -> Option<TxnId>
        ensures { result ≡ option_and_then (waits_of self.now) (slice_get (map (λ p. p.0) self.now.seats) index) }
    {
        waited_for(self.seat_at(index)?)
    }

    /// Whether every call of every session is answered, so of each session that a name finds.
    pub fn all_answered(&self) -> bool
        ensures all { IsTrue result ↔ AreAllAnswered self.now }
        ensures by_name { IsTrue result ↔ EachNameIsAnswered self.now }
    {
        self.seats
            .iter()
            .all(|entry| entry.1.answered as usize == entry.1.calls.len())
    }

    /// Whether the session at this place, from 0, in byte order of names, may be answered. `last` is the outcome here of the
    /// attempt that it waits for, if there is one. `false` too where no session stands there.
    pub fn may_answer_at(&self, index: u32, last: Option<&Outcome>) -> bool
        ensures may { (name : Bytes) → StandsAt self.now index name → IsTrue result ↔ MayBeAnswered self.now name (option_copied last.entry) }
        ensures there { IsTrue result → index < length self.now.seats }
    {
        let Some(seat) = self.seat_at(index) else {
            return false;
        };
        is_answerable(self.tries, seat, last)
    }

    /// Answers the session at this place, from 0, in byte order of names, if it may be answered: it waits for nothing then, before
    /// its next call. `last` is the outcome here of the attempt that it waits for, if there is one. Where it may not, or no session
    /// stands there, nothing changes.
    pub fn answer_at(&mut self, index: u32, last: Option<&Outcome>) -> bool
        ensures legal { (name : Bytes) → StandsAt self.old index name → IsTrue result ↔ MayBeAnswered self.old name (option_copied last.entry) }
        ensures answered { IsTrue result → (name : Bytes) → StandsAt self.old index name → self.new ≡ after_answer self.old name }
        ensures there { IsTrue result → index < length self.old.seats }
        ensures same { ¬ (IsTrue result) → self.new ≡ self.old }
    {
        let Some(seat) = self.seats.get_index_mut(index as usize) else {
            return false;
        };
        end_call(self.tries, seat, last)
    }
}

/// The sessions of a map, in the order of their names.
fn listed(alloc: Global, seats: BTreeMap<Name, Seat>) -> Result<IndexMap<Name, Seat>, NoMemory>
    ensures { IfOk result (λ listed. listed.entries ≡ seats.entries) }
{
    let mut listed = IndexMap::with_capacity(alloc, seats.len())?;
    for (name, seat) in seats {
        listed.insert(name, seat)?;
    }
    Ok(listed)
}

/// The numbers of the call and of the attempt, both from 1, that a session may submit next, where the attempt that it waits
/// for, if it waits for one, has this outcome. `None` exactly where it may submit nothing.
fn next_numbers(tries: u32, seat: &Seat, last: Option<&Outcome>) -> Option<(u32, u32)>
    requires { IsSoundSeat seat.now }
    ensures may { IsSome result ↔ MaySeatTry tries (Some seat.now) (option_copied last.entry) }
    ensures numbers { IfSome result (λ numbers. numbers ≡ numbers_next seat.now) }
{
    let Some(waiting) = seat.waits else {
        return if (seat.answered as usize) < seat.calls.len() {
            Some((seat.answered + 1, 1))
        } else {
            None
        };
    };
    if !is_stale(last) || waiting.attempt >= tries {
        return None;
    }
    Some((seat.answered + 1, waiting.attempt + 1))
}

/// Lets a session wait for its next attempt, which got this id. `last` is the outcome of the attempt that it waits for, if there
/// is one.
fn begin_try(tries: u32, seat: &mut Seat, id: TxnId, last: Option<&Outcome>)
    requires sound { IsSoundSeat seat.old }
    requires may { MaySeatTry tries (Some seat.old) (option_copied last) }
    ensures waits { seat.new ≡ waiting seat.old id }
    ensures sound { IsSoundSeat seat.new }
{
    let Some((_, attempt)) = next_numbers(tries, seat, last) else {
        unreachable!()
    };
    seat.waits = Some(Waiting { id, attempt });
}

/// Answers a session, if it may be answered. `last` is the outcome of the attempt that it waits for, if there is one. Where it
/// may not, nothing changes.
fn end_call(tries: u32, seat: &mut Seat, last: Option<&Outcome>) -> bool
    requires { IsSoundSeat seat.old }
    ensures legal { IsTrue result ↔ MaySeatEnd tries (Some seat.old) (option_copied last.entry) }
    ensures answered { IsTrue result → seat.new ≡ answered_seat seat.old }
    ensures same { ¬ (IsTrue result) → seat.new ≡ seat.old }
    ensures sound { IsSoundSeat seat.new }
{
    if !is_answerable(tries, seat, last) {
        return false;
    }
    seat.answered += 1;
    seat.waits = None;
    true
}

/// The rank of the call of this number, from 1, of a session, and what it is to do.
fn call_body(alloc: Global, seat: &Seat, call: u32) -> Result<(u8, Body), NoMemory>
    requires from { 1 ≤ call }
    requires there { IsSome (slice_get seat.now.calls (call - 1)) }
    ensures { IfOk result (λ answer. option_map ranked_body (slice_get seat.now.calls (call - 1)) ≡ Some answer) }
{
    let ranked = &seat.calls.as_slice()[call as usize - 1];
    Ok((ranked.rank, copy_body(alloc, &ranked.wanted)?))
}

/// Whether a session may be answered, where the attempt that it waits for, if it waits for one, has this outcome.
fn is_answerable(tries: u32, seat: &Seat, last: Option<&Outcome>) -> bool
    ensures { IsTrue result ↔ MaySeatEnd tries (Some seat.now) (option_copied last.entry) }
{
    let Some(waiting) = seat.waits else {
        return false;
    };
    is_last(tries, waiting.attempt, last)
}

/// The attempt that a session waits for, if it does.
fn waited_for(seat: &Seat) -> Option<TxnId>
    ensures { result ≡ option_map (λ w. w.id) seat.now.waits }
{
    let waiting = seat.waits?;
    Some(waiting.id)
}

/// What a call or a move of a workload is to do.
fn copy_body(alloc: Global, wanted: &Wanted) -> Result<Body, NoMemory>
    ensures { IfOk result (λ body. body ≡ body_of wanted.now) }
{
    match wanted {
        Wanted::Call(proc, args) => Ok(Body::Call(*proc, args.copy(alloc)?)),
        Wanted::Move(key, target) => Ok(Body::Move(key.copy(alloc)?, *target)),
    }
}

/// Whether an outcome is there, and stale.
fn is_stale(last: Option<&Outcome>) -> bool
    ensures { IsTrue result ↔ IsStale (option_copied last.entry) }
{
    matches!(last, Some(Outcome::Stale { .. }))
}

/// Whether an attempt of this number, with this outcome, ends its call.
fn is_last(tries: u32, attempt: u32, last: Option<&Outcome>) -> bool
    ensures { IsTrue result ↔ IsLast tries attempt (option_copied last.entry) }
{
    match last {
        None => false,
        Some(Outcome::Stale { .. }) => attempt == tries,
        Some(_) => true,
    }
}

ghost use Rattle.std.specs.Prelude.{◌≡◌, ◌↔◌, ◌<◌, ◌≤◌, ◌*◌, ◌^◌, ◌+◌, ℕ, List, [], ◌∷◌, ◌++◌, length, max, vec_len, vec_capacity};
ghost use Rattle.std.specs.Prelude.{IfOk, IsTrue, OnErr, OnOk, Some, get_or, slice_get, slice_index};
ghost use Rattle.std.specs.Option.{option_copied};
ghost use Rattle.dt_events.specs.Stamps.{last_stamp};
ghost use Rattle.dt_events.specs.declared.Event.TheVariants.{Insert, Resolve, Execute};
ghost use Rattle.dt_sched.specs.Views.{log_at};
ghost use Rattle.dt_sched.specs.Sched.{CanExecute, IsNextClass, IsNextReady};
ghost use Rattle.dt_proc.specs.Tree.{ProcTree};
ghost use Rattle.dt_txn.specs.declared.txn.Txn.{Txn};
ghost use Rattle.dt_txn.specs.Execution.{one};
ghost use Rattle.dt_txn.specs.Replica.{HasInsertedAll, IsDrained, taken_from};
ghost use Rattle.dt_txn.specs.Transaction.{BodyFits};
ghost use Rattle.dt_region.specs.Region.{HasStamp, held, latest_stamp, outcome_of, sched_of};
ghost use Rattle.dt_region.specs.Rules.{opening_state, MakesSubmit, MakesAppend, MakesDelivery, MakesStep, MakesAnswer, after_finishing};
ghost use Rattle.dt_region.specs.Conditions.{IsTableFor, CanAppend, CanDeliver, CanMove, ComesTo, HasRun, HoldsValid};
ghost use Rattle.dt_region.specs.Sound.{IsSoundRegion};

use crate::by_id::ById;
use crate::entries::{add, keep_all, parts_and_txns_past, place, reserve};
use crate::foreign::Foreign;
use crate::kept::Kept;
use crate::opening::{Lists, no_lists};
use crate::requests::ask;
use dt_access::{Ids, Part, TxnId, are_ascending};
use dt_events::{Event, Stamped};
use dt_log::{Log, Taken};
use dt_proc::Procs;
use dt_sched::Scheduler;
use dt_table::{Effect, Table};
use dt_text::{Common, Name, NoMemory};
use dt_txn::{Body, Entry, Outcome, Txn, annotate, execute, homes, part_at};
use std::alloc::Global;
use std::marker::Model;

// How many changes of a table one execution makes at most: 16 rows of a call and one move.
const CHANGES: usize = 17;

/// One region of a cluster. What it may execute and resolve is decided by its scheduler `S`.
///
/// Contracts see its `state`, as `events` the events that it made, in order, each with its stamp, as `heard` the greatest
/// stamp that it heard of, and as `room` how many executions it can finish before memory is needed. Its type keeps what
/// `IsSoundRegion` says: in each log every id stands once, every part is that of the transaction which the region holds under
/// its id, all logs together have at most 4,294,967,295 parts, and what is resolved and done could be resolved and done.
#[derive(Drop)]
pub struct Region<S: Scheduler> {
    number: u8,
    regions: u8,
    submitted: Vec<Common<Txn>>,
    foreign: Foreign,
    asked: Vec<Ids>,
    taken: Vec<u32>,
    logs: Vec<Log>,
    inserted: Vec<u32>,
    done: ById<Outcome>,
    table: Table,
    scheduler: S,
    events: Kept,
    heard: u64,
    room: usize,
}

impl<S: Scheduler> Model for Region<S> {
    ghost use Rattle.dt_region.specs.Region.{RegionView};
    ghost use Rattle.dt_region.specs.RegionCode.{region_code};

    ghost Value = { RegionView };

    ghost coded = { region_code };

    ghost use Rattle.dt_region.specs.RegionInner.{region_in, IsWell};

    ghost view = { λ r. region_in S.seen r };

    ghost invariant = { λ r. IsWell S.seen S.spare r };
}

impl<S: Scheduler> Region<S> {
    /// The region of this number before anything happens, in a cluster of n regions, with this table, which is one
    /// for n regions. It fails only when out of memory.
    pub fn new(alloc: Global, number: u8, regions: u8, table: Table) -> Result<Self, NoMemory>
        requires number { number < regions }
        requires regions { regions ≤ 8 }
        requires table { IsTableFor regions table.state }
        ensures opening { IfOk result (λ region. region ≡ record { state = opening_state number regions table.state; events = []; heard = 0; room = 0 }) }
        ensures sound { IfOk result (λ region. IsSoundRegion region.state) }
    {
        let Lists {
            asked,
            taken,
            logs,
            inserted,
            scheduler,
        } = no_lists(alloc, regions)?;
        Ok(Region {
            number,
            regions,
            submitted: Vec::new(alloc),
            foreign: Foreign::new(alloc),
            asked,
            taken,
            logs,
            inserted,
            done: ById::new(alloc),
            table,
            scheduler,
            events: Kept::new(alloc),
            heard: 0,
            room: 0,
        })
    }

    /// Makes room for what comes of n calls that are expected in all regions together, so that the lists need not be moved
    /// while they grow: of a call comes about one outcome, and a few events. Nothing that contracts see changes, whatever
    /// the answer.
    pub fn expect(&mut self, calls: u32) -> Result<(), NoMemory>
        ensures same { self.new ≡ self.old }
        ensures sound { IsSoundRegion self.new.state }
    {
        let calls = calls as usize;
        self.events.reserve(calls * 4)?;
        self.done.expect(calls + calls / 8)?;
        self.foreign.expect(calls)?;
        self.submitted.reserve_exact(calls / 2)?;
        reserve(self.logs.as_mut_slice(), calls)
    }

    /// Its number. Takes no memory.
    pub fn number(&self) -> u8
        ensures number { result ≡ self.now.state.number }
        ensures sound { IsSoundRegion self.now.state }
    {
        self.number
    }

    /// How many regions there are. Takes no memory.
    pub fn regions(&self) -> u8
        ensures regions { result ≡ self.now.state.regions }
        ensures sound { IsSoundRegion self.now.state }
    {
        self.regions
    }

    /// What it asked a home to place, in order. Takes no memory.
    pub fn asked(&self, home: u8) -> &[TxnId]
        requires { home < self.now.state.regions }
        ensures { result.now ≡ get_or self.now.state.here.asked home [] }
    {
        self.asked[home as usize].as_slice()
    }

    /// How many requests of a region it has placed in its log. Takes no memory.
    pub fn taken(&self, source: u8) -> u32
        requires { source < self.now.state.regions }
        ensures taken { result ≡ taken_from self.now.state.here source }
        ensures sound { IsSoundRegion self.now.state }
    {
        self.taken[source as usize]
    }

    /// The log of a home, as far as it received it; its own log whole. Takes no memory.
    pub fn log(&self, home: u8) -> &Log
        requires { home < self.now.state.regions }
        ensures { result.now ≡ log_at self.now.state.logs home }
    {
        &self.logs[home as usize]
    }

    /// How many parts of a home's log it has inserted. Takes no memory.
    pub fn inserted(&self, home: u8) -> u32
        requires { home < self.now.state.regions }
        ensures { result ≡ slice_index self.now.state.here.inserted home }
    {
        self.inserted[home as usize]
    }

    /// Its rows. Takes no memory.
    pub fn table(&self) -> &Table
        ensures { result.now.state ≡ self.now.state.here.table }
    {
        &self.table
    }

    /// The transaction of an id. `None` exactly where the region neither submitted it, nor was given it in a request or
    /// in a delivery. Takes no memory.
    pub fn txn(&self, id: TxnId) -> Option<&Txn>
        ensures { option_copied result ≡ held self.now.state id }
    {
        match self.common_txn(id) {
            Some(txn) => Some(txn.get()),
            None => None,
        }
    }

    /// The same transaction as `txn`, to be had in common with the region. Takes no memory.
    pub fn common_txn(&self, id: TxnId) -> Option<&Common<Txn>>
        ensures { option_copied result ≡ held self.now.state id }
    {
        if id.region != self.number {
            return self.foreign.get(id);
        }
        numbered(self.submitted.as_slice(), id.seq)
    }

    /// The outcome of an id. `None` exactly where the id isn't done here. Takes no memory.
    pub fn outcome(&self, id: TxnId) -> Option<&Outcome>
        ensures { option_copied result ≡ outcome_of self.now.state id }
    {
        self.done.get(id)
    }

    /// The events that it made, in order, each with its stamp. Takes no memory.
    pub fn events(&self) -> &[Stamped]
        ensures { result.now ≡ self.now.events }
    {
        self.events.as_slice()
    }

    /// The stamp of the last event that it made, or 0. Takes no memory.
    pub fn stamp(&self) -> u64
        ensures { result ≡ last_stamp self.now.events }
    {
        match self.events.as_slice().last() {
            Some(last) => last.stamp,
            None => 0,
        }
    }

    /// Hears of a stamp: all its later events have greater ones. Takes no memory.
    pub fn hear(&mut self, stamp: u64)
        ensures { self.new ≡ record self.old { heard = max self.old.heard stamp } }
    {
        self.heard = self.heard.max(stamp);
    }

    // The stamp of its next event: one above its last event's and all that it heard of.
    fn next_stamp(&self) -> u64
        requires { HasStamp self.now }
        ensures { result ≡ latest_stamp self.now + 1 }
    {
        self.stamp().max(self.heard) + 1
    }

    /// Submits a body of this rank for a session: it becomes the transaction of the region's next id, annotated by the
    /// region's table, and each of its homes is asked for its part. Gives the id, and keeps the event. Whether the session
    /// may submit is for the caller to know. After `NoMemory` the region is as before.
    pub fn submit(
        &mut self,
        alloc: Global,
        session: &Name,
        rank: u8,
        body: Body,
        procs: &Procs,
    ) -> Result<TxnId, NoMemory>
        requires stamp { HasStamp self.old }
        requires fits { BodyFits procs.now self.old.state.here.table.version self.old.state.regions body }
        requires rank { rank ≤ 9 }
        requires place { length self.old.state.submitted < 4294967295 }
        ensures makes { MakesSubmit procs.now self.old session.now rank body result self.new }
        ensures sound { IsSoundRegion self.new.state }
    {
        let stamp = self.next_stamp();
        let id = TxnId {
            seq: self.submitted.len() as u32 + 1,
            region: self.number,
        };
        let event = Event::Submit {
            region: self.number,
            session: session.copy(alloc)?,
        };
        let annotated = annotate(alloc, id, rank, body, procs, &self.table)?;
        let txn = Common::new(alloc, annotated)?;
        let homes = homes(alloc, txn.get())?;
        self.events.reserve(self.room + 1)?;
        self.submitted.reserve(1)?;
        ask(&mut self.asked, homes.as_slice(), id)?;
        add_last(&mut self.submitted, txn);
        self.events.keep(stamp, event);
        Ok(id)
    }

    /// Places the part of a transaction at the end of the region's own log, as request `number` of region `source`: the
    /// transaction is held from now on, one more request is taken from `source`, and the event is kept. False exactly where
    /// `number` isn't the number of requests that were taken from it; then nothing changes, and neither does after
    /// `NoMemory`.
    pub fn append(
        &mut self,
        alloc: Global,
        source: u8,
        number: u32,
        txn: &Txn,
    ) -> Result<bool, NoMemory>
        requires source { source < self.old.state.regions }
        requires stamp { HasStamp self.old }
        requires can { CanAppend self.old.state source number txn.now }
        ensures makes { MakesAppend self.old source number txn.now result self.new }
        ensures sound { IsSoundRegion self.new.state }
    {
        if self.taken(source) != number {
            return Ok(false);
        }
        let txn = Common::new(alloc, txn.copy(alloc)?)?;
        self.append_owned(alloc, source, number, txn)
    }

    /// The same as `append` for a transaction that is handed over, of which no copy is made.
    pub fn append_owned(
        &mut self,
        alloc: Global,
        source: u8,
        number: u32,
        txn: Common<Txn>,
    ) -> Result<bool, NoMemory>
        requires source { source < self.old.state.regions }
        requires stamp { HasStamp self.old }
        requires can { CanAppend self.old.state source number txn }
        ensures makes { MakesAppend self.old source number txn result self.new }
        ensures sound { IsSoundRegion self.new.state }
    {
        if number != self.taken(source) {
            return Ok(false);
        }
        let stamp = self.next_stamp();
        let home = self.number;
        let cut = part_at(alloc, txn.get(), home)?;
        let part = Common::new(alloc, cut)?;
        self.events.reserve(self.room + 1)?;
        self.foreign.reserve_for(alloc, txn.get().id)?;
        place(&mut self.logs, part)?;
        self.taken[source as usize] = number + 1;
        self.foreign.keep(home, txn);
        self.events.keep(
            stamp,
            Event::Append {
                home,
                source,
                number,
            },
        );
        Ok(true)
    }

    /// Takes a delivery of a home's log that begins at place `begin`, of which the entries from place `first` on are given:
    /// what the region has already need not be copied for it. `New` where some stand past the end of what the region has of
    /// that log: these are added, their transactions are held, and the event is kept, from `begin` to the log's new end.
    /// `Gap` where `first` itself stands past that end, and `Old` where no entry is new; then nothing changes, and neither
    /// does after `NoMemory`.
    pub fn deliver(
        &mut self,
        alloc: Global,
        home: u8,
        begin: u32,
        first: u32,
        entries: Vec<Entry>,
    ) -> Result<Taken, NoMemory>
        requires stamp { HasStamp self.old }
        requires home { home < self.old.state.regions }
        requires begins { begin ≤ first }
        requires can { CanDeliver self.old.state home first entries.items }
        ensures makes { MakesDelivery self.old home begin first entries.items result self.new }
        ensures sound { IsSoundRegion self.new.state }
    {
        let end = self.log(home).len();
        if end < first {
            return Ok(Taken::Gap);
        }
        let known = (end - first) as usize;
        if entries.len() <= known {
            return Ok(Taken::Old);
        }
        let stamp = self.next_stamp();
        let region = self.number;
        self.events.reserve(self.room + 1)?;
        let (parts, txns) = parts_and_txns_past(alloc, known, entries)?;
        let new = txns.len();
        self.foreign.reserve_all(alloc, txns.as_slice())?;
        add(&mut self.logs, home, parts)?;
        keep_all(region, &mut self.foreign, txns);
        let new = new as u32;
        let event = Event::Deliver {
            region,
            home,
            first: begin,
            last: end + new,
        };
        self.events.keep(stamp, event);
        Ok(Taken::New(new))
    }

    /// Inserts the next part of a home's log into the region's view, and keeps the event. False exactly where all that is
    /// received is inserted; then nothing changes, and neither does after `NoMemory`.
    pub fn insert(&mut self, alloc: Global, home: u8) -> Result<bool, NoMemory>
        requires stamp { HasStamp self.old }
        requires home { home < self.old.state.regions }
        ensures makes { MakesStep [] self.old (Insert self.old.state.number home) result self.new }
        ensures sound { IsSoundRegion self.new.state }
    {
        let stamp = self.next_stamp();
        let region = self.number;
        let place = self.inserted(home);
        let Some(part) = received_part(self.logs.as_slice(), home, place) else {
            return Ok(false);
        };
        self.events.reserve(self.room + 1)?;
        self.scheduler.insert(alloc, part)?;
        self.inserted[home as usize] = place + 1;
        self.events.keep(stamp, Event::Insert { region, home });
        Ok(true)
    }

    /// Resolves a class of deadlocked transactions, and keeps the event. False exactly where the ids aren't a class that is
    /// resolvable here, in ascending order; then nothing changes, and neither does after `NoMemory`.
    pub fn resolve(&mut self, alloc: Global, ids: &[TxnId]) -> Result<bool, NoMemory>
        requires stamp { HasStamp self.old }
        ensures makes { MakesStep [] self.old (Resolve self.old.state.number ids.now) result self.new }
        ensures sound { IsSoundRegion self.new.state }
    {
        if !are_ascending(ids) || !self.scheduler.resolvable(alloc, ids)? {
            return Ok(false);
        }
        let stamp = self.next_stamp();
        let event = Event::Resolve {
            region: self.number,
            ids: Common::new(alloc, Ids::from_vec(ids.to_vec(alloc)?))?,
        };
        self.events.reserve(self.room + 1)?;
        self.scheduler.resolve(alloc, ids)?;
        self.events.keep(stamp, event);
        Ok(true)
    }

    /// Some class that is resolvable here, in ascending order, or `None` where there is none. It fails only when out of
    /// memory.
    pub fn next_class(&self, alloc: Global) -> Result<Option<Ids>, NoMemory>
        ensures { IfOk result (IsNextClass (sched_of self.now.state.logs self.now.state.here)) }
    {
        self.scheduler.next_class(alloc)
    }

    /// Some id that is executable here and isn't among the busy ones, or `None` where there is none. It fails only when
    /// out of memory.
    pub fn ready(&self, alloc: Global, busy: &[TxnId]) -> Result<Option<TxnId>, NoMemory>
        ensures { IfOk result (IsNextReady (sched_of self.now.state.logs self.now.state.here) busy.now) }
    {
        self.scheduler.next_ready(alloc, busy)
    }

    /// Whether all that is received is inserted, nothing is executable and nothing is resolvable. It fails only when
    /// out of memory.
    pub fn drained(&self, alloc: Global) -> Result<bool, NoMemory>
        ensures { IfOk result (λ b. IsTrue b ↔ IsDrained self.now.state.logs self.now.state.here) }
    {
        if !self.has_inserted_all() || self.ready(alloc, &[])?.is_some() {
            return Ok(false);
        }
        Ok(self.next_class(alloc)?.is_none())
    }

    // Whether all that is received is inserted.
    fn has_inserted_all(&self) -> bool
        ensures { IsTrue result ↔ HasInsertedAll self.now.state.logs self.now.state.here }
    {
        for home in 0..self.regions {
            if self.inserted(home) < self.log(home).len() {
                return false;
            }
        }
        true
    }

    // What a transaction that the region holds comes to on its table, by these procedures.
    fn run(&self, alloc: Global, id: TxnId, procs: &Procs) -> Result<(Outcome, Effect), NoMemory>
        requires holds { HoldsValid procs.now self.now.state }
        requires held { (txn : Txn) × (held self.now.state id ≡ Some txn) }
        ensures { (txn : Txn) → held self.now.state id ≡ Some txn → IfOk result (λ run. run ≡ one procs.now txn self.now.state.here.table) }
    {
        match self.txn(id) {
            Some(txn) => execute(alloc, txn, procs, &self.table),
            None => unreachable!(),
        }
    }

    /// Executes a transaction on the region's table, by these procedures, and keeps the event. False exactly where it isn't
    /// executable here; then nothing changes, and neither does after `NoMemory`. If it is a move, its unit was moved fewer
    /// than 4,294,967,295 times so far.
    pub fn execute(&mut self, alloc: Global, id: TxnId, procs: &Procs) -> Result<bool, NoMemory>
        requires stamp { HasStamp self.old }
        requires holds { HoldsValid procs.now self.old.state }
        requires place { CanMove self.old.state id }
        ensures makes { MakesStep procs.now self.old (Execute self.old.state.number id) result self.new }
        ensures sound { IsSoundRegion self.new.state }
    {
        if !self.scheduler.executable(alloc, id)? {
            return Ok(false);
        }
        let (outcome, effect) = self.run(alloc, id, procs)?;
        self.make_room_for(alloc, id)?;
        self.finish(id, outcome, effect);
        Ok(true)
    }

    /// Sees to it that the outcome of an id will be found fast once it is executed. Nothing that contracts see changes.
    pub fn prepare(&mut self, alloc: Global, id: TxnId) -> Result<(), NoMemory>
        ensures { self.new ≡ self.old }
    {
        self.done.prepare(alloc, id)
    }

    /// Makes room for n executions: each unit of it is enough for any one execution that is finished. Nothing else
    /// changes, and after `NoMemory` the region is as before.
    pub fn reserve(&mut self, alloc: Global, runs: u32) -> Result<(), NoMemory>
        ensures ok { OnOk result (self.new ≡ record self.old { room = max self.old.room runs }) }
        ensures err { OnErr result (self.new ≡ self.old) }
        ensures sound { IsSoundRegion self.new.state }
    {
        let runs = runs as usize;
        if runs <= self.room {
            return Ok(());
        }
        self.make_room(alloc, runs)
    }

    // Makes room for one execution more, that of this id.
    fn make_room_for(&mut self, alloc: Global, id: TxnId) -> Result<(), NoMemory>
        ensures ok { OnOk result (self.new ≡ record self.old { room = self.old.room + 1 }) }
        ensures err { OnErr result (self.new ≡ self.old) }
    {
        self.prepare(alloc, id)?;
        self.make_room(alloc, self.room + 1)
    }

    // Makes room for n executions, which are more than there is room for.
    fn make_room(&mut self, alloc: Global, runs: usize) -> Result<(), NoMemory>
        requires more { self.old.room < runs }
        requires changes { 17 * runs < 2 ^ 64 }
        ensures ok { OnOk result (self.new ≡ record self.old { room = runs }) }
        ensures err { OnErr result (self.new ≡ self.old) }
        ensures sound { IsSoundRegion self.new.state }
    {
        self.events.reserve(runs)?;
        self.done.reserve(runs)?;
        self.table.reserve(runs * CHANGES)?;
        self.scheduler.reserve(alloc, runs)?;
        self.room = runs;
        Ok(())
    }

    /// Finishes the execution of a transaction that came to this outcome and this effect, and keeps the event. Takes no
    /// memory, but one unit of room. The transaction is executable here, and by some procedures, for which all that the
    /// region holds is valid, this is what it comes to on the region's table. If it is a move, its unit was moved fewer than
    /// 4,294,967,295 times so far.
    pub fn finish(&mut self, id: TxnId, outcome: Outcome, effect: Effect)
        requires stamp { HasStamp self.old }
        requires executable { CanExecute (sched_of self.old.state.logs self.old.state.here) id }
        requires room { 0 < self.old.room }
        requires run { HasRun self.old.state id outcome effect }
        requires place { CanMove self.old.state id }
        ensures makes { (procs : List ProcTree) → ComesTo procs self.old.state id outcome effect → self.new ≡ after_finishing procs self.old id }
        ensures sound { IsSoundRegion self.new.state }
    {
        let stamp = self.next_stamp();
        let region = self.number;
        self.room -= 1;
        self.table.apply(effect);
        self.done.add(id, outcome);
        self.scheduler.finish(id);
        self.events.keep(stamp, Event::Execute { region, id });
    }

    /// Keeps the event that a session is answered, which changes nothing else. Whether the session may be answered is for
    /// the caller to know. After `NoMemory` the region is as before.
    pub fn answer(&mut self, alloc: Global, session: &Name) -> Result<(), NoMemory>
        requires stamp { HasStamp self.old }
        ensures makes { MakesAnswer self.old session.now result self.new }
    {
        let stamp = self.next_stamp();
        let event = Event::Answer {
            region: self.number,
            session: session.copy(alloc)?,
        };
        self.events.reserve(self.room + 1)?;
        self.events.keep(stamp, event);
        Ok(())
    }
}

// The transaction of this number, counted from 1, if there is one.
fn numbered(txns: &[Common<Txn>], number: u32) -> Option<&Common<Txn>>
    ensures none { number ≡ 0 → option_copied result ≡ None }
    ensures some { (place : ℕ) → number ≡ place + 1 → option_copied result ≡ slice_get txns.now place }
{
    txns.get((number as usize).checked_sub(1)?)
}

// Adds a transaction at the end, which takes no memory where there is room.
fn add_last(txns: &mut Vec<Common<Txn>>, txn: Common<Txn>)
    requires { vec_len txns.old < vec_capacity txns.old }
    ensures { txns.new.items ≡ txns.old.items ++ txn ∷ [] }
{
    match txns.push(txn) {
        Ok(()) => (),
        Err(_) => unreachable!(),
    }
}

/// The part at a place of the log of a home, if it was received. Takes no memory.
fn received_part(logs: &[Log], home: u8, place: u32) -> Option<&Part>
    requires { home < length logs.now }
    ensures { option_copied result ≡ slice_get (log_at logs.now home) place }
{
    logs[home as usize].get(place)
}

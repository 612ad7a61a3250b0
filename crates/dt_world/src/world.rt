ghost use Rattle.std.specs.Prelude.{◌≡◌, List, ◌&&◌, ◌+◌, ◌<◌, ◌≤◌, ℕ, nat_le, nat_lt, drop, filter_map, get_or, length, map, slice_get, take, [], Some, IsOk, IfOk, OnOk, OnErr};
ghost use Rattle.dt_lists.specs.Lists.{AllIn};
ghost use Rattle.dt_access.specs.declared.TxnId.{TxnId};
ghost use Rattle.dt_events.specs.Stamps.{events_of};
ghost use Rattle.dt_events.specs.declared.Event.{Event};
ghost use Rattle.dt_events.specs.declared.Event.TheVariants.{Submit, Append, Deliver, Insert, Resolve, Execute, Answer};
ghost use Rattle.dt_sched.specs.Views.{log_at};
ghost use Rattle.dt_table.specs.Table.{shown};
ghost use Rattle.dt_report.specs.Report.{report_text};
ghost use Rattle.dt_region.specs.Region.{held};
ghost use Rattle.dt_region.specs.Sound.{IsSoundRegion};
ghost use Rattle.dt_cluster.specs.Valid.{IsValidCluster};
ghost use Rattle.dt_cluster.specs.declared.Cluster.{Cluster};
ghost use Rattle.dt_workload.specs.Valid.{IsValidWorkload};
ghost use Rattle.dt_workload.specs.declared.Workload.{Workload};
ghost use Rattle.dt_session.specs.Step.{IsLegal, next, rule_of};
ghost use Rattle.dt_session.specs.Run.{AreLegal, order_of, world_after};
ghost use Rattle.dt_world.specs.WorldInner.{opening_sites};
ghost use Rattle.dt_world.specs.WorldReport.{IsOutcomeOf, IsReplyOf, IsToldBy, TextsTellOneRun, answered_name, report_of};
ghost use Rattle.dt_world.specs.WorldSessions.{opening_sessions};
ghost use Rattle.dt_world.specs.WorldView.{Makes, kept_next, kept_after, opening_view, own_events};

use crate::site_reports::{report_of_sites, text_of_sites};
use dt_access::TxnId;
use dt_cluster::Cluster;
use dt_events::{Event, Stamped};
use dt_region::Region;
use dt_report::Report;
use dt_sched::Scheduler;
use dt_session::Sessions;
use dt_site::{Site, first_site, last_outcome_at, next_attempt, opening_of};
use dt_text::{Name, NoMemory};
use dt_txn::Entry;
use dt_workload::Workload;
use std::alloc::Global;
use std::marker::Model;
use std::mem::forget;

/// Why an event was not made.
#[derive(Clone, Copy, Debug, PartialEq, Eq)]
pub enum StepError {
    /// It is not legal by the rule of this number.
    Illegal(u8),
    /// Memory ran out.
    NoMemory,
}

impl From<NoMemory> for StepError {
    ghost use Rattle.std.specs.Prelude.{◌≡◌};
    ghost use Rattle.dt_world.specs.declared.world.StepError.TheVariants.{NoMemory};

    ghost from_gives = { λ _ e. e ≡ NoMemory };

    fn from(_error: NoMemory) -> Self {
        StepError::NoMemory
    }
}

/// All regions and all sessions of a cluster and its workload.
///
/// Contracts see the cluster and the workload, as `state` the state of all regions and sessions, as `kept` the events that
/// each region keeps, and as `steps` how many events were made.
#[derive(Drop)]
pub struct World<S: Scheduler + Drop> {
    cluster: Cluster,
    workload: Workload,
    /// The sessions of each region, by its number.
    sessions: Vec<Sessions>,
    sites: Vec<Site<S>>,
    steps: u32,
}

impl<S: Scheduler + Drop> Model for World<S> {
    ghost use Rattle.dt_world.specs.WorldView.{WorldView};
    ghost use Rattle.dt_world.specs.WorldCode.{world_code};

    ghost Value = { WorldView };

    ghost coded = { world_code };

    ghost use Rattle.dt_world.specs.WorldInner.{IsLawful, view_in};

    ghost view = { λ w. view_in w.cluster (record { workload = w.workload; by_region = w.sessions.items }) w.sites.items w.steps };

    ghost invariant = { λ w. IsLawful w.cluster (record { workload = w.workload; by_region = w.sessions.items }) w.sites.items w.steps };
}

impl<S: Scheduler + Drop> World<S> {
    /// The world before anything happens.
    pub fn begin(alloc: Global, cluster: &Cluster, workload: &Workload) -> Result<Self, NoMemory>
        requires cluster { IsValidCluster cluster.now }
        requires workload { IsValidWorkload cluster.now workload.now }
        ensures { IfOk result (λ world. world ≡ opening_view cluster.now workload.now) }
    {
        World::opening(alloc, cluster.copy(alloc)?, workload.copy(alloc)?)
    }

    /// The world before anything happens, of a cluster and a workload that it takes over.
    pub fn opening(alloc: Global, cluster: Cluster, workload: Workload) -> Result<Self, NoMemory>
        requires cluster { IsValidCluster cluster }
        requires workload { IsValidWorkload cluster workload }
        ensures { IfOk result (λ world. world ≡ opening_view cluster workload) }
    {
        let mut sites = sites(alloc, &cluster)?;
        expect_calls(sites.as_mut_slice(), &workload)?;
        Ok(World {
            sessions: sessions(alloc, &cluster, &workload)?,
            sites,
            cluster,
            workload,
            steps: 0,
        })
    }

    /// Makes an event, if it is legal in this world. After each refusal the world is as before.
    pub fn step(&mut self, alloc: Global, event: &Event) -> Result<(), StepError>
        requires { self.old.steps < 4294967295 }
        ensures legal { IsOk result → IsLegal self.old.cluster self.old.workload self.old.state event.now }
        ensures next { OnOk result (self.new ≡ record self.old {
          state = next self.old.cluster self.old.workload self.old.state event.now;
          kept = kept_next self.old.state self.old.kept event.now;
          steps = self.old.steps + 1;
        }) }
        ensures same { OnErr result (self.new ≡ self.old) }

        // An event is refused by its own rule, and only where it is not legal.
        ensures refused { (rule : ℕ) → result ≡ Err (StepError.Illegal rule) →
            (rule ≡ rule_of event.now) × (¬ (IsLegal self.old.cluster self.old.workload self.old.state event.now)) }
    {
        match event {
            Event::Submit { region, session } => self.submit(alloc, *region, session),
            Event::Append {
                home,
                source,
                number,
            } => self.append(alloc, *home, *source, *number),
            Event::Deliver {
                region,
                home,
                first,
                last,
            } => self.deliver(alloc, *region, *home, *first, *last),
            Event::Insert { region, home } => self.insert(alloc, *region, *home),
            Event::Resolve { region, ids } => self.resolve(alloc, *region, ids.get().as_slice()),
            Event::Execute { region, id } => self.execute(alloc, *region, *id),
            Event::Answer { region, session } => self.answer(alloc, *region, session),
        }
    }

    /// The events that a region keeps, each with its stamp: of the events that were made, its own that took effect, in their
    /// order.
    pub fn kept(&self, region: u8) -> &[Stamped]
        requires { region < self.now.cluster.regions }
        ensures { events_of result.now ≡ get_or self.now.kept region [] }
    {
        self.sites[region as usize].region.events()
    }

    /// Rule 1: a session of the region submits its next attempt.
    fn submit(&mut self, alloc: Global, region: u8, name: &Name) -> Result<(), StepError>
        requires { self.old.steps < 4294967295 }
        ensures { Makes self.old (Submit region name.now) result self.new }
    {
        if region >= self.cluster.regions {
            return Err(StepError::Illegal(1));
        }
        let sessions = &self.sessions[region as usize];
        let Some(place) = sessions.place_of(name) else {
            return Err(StepError::Illegal(1));
        };
        let site = &self.sites[region as usize];
        let next = next_attempt(alloc, sessions, &site.region, place)?;
        let Some((origin, rank, body)) = next else {
            return Err(StepError::Illegal(1));
        };
        let id = self.sites[region as usize].submit(
            alloc,
            rank,
            body,
            &self.cluster.procs,
            origin,
        )?;
        let last = last_outcome_at(
            &self.sessions[region as usize],
            &self.sites[region as usize].region,
            place,
        );
        self.sessions[region as usize].wait_at(place, id, last);
        self.steps += 1;
        Ok(())
    }

    /// Rule 2: a home takes a request of a region.
    fn append(&mut self, alloc: Global, home: u8, source: u8, number: u32) -> Result<(), StepError>
        requires { self.old.steps < 4294967295 }
        ensures { Makes self.old (Append home source number) result self.new }
    {
        if home >= self.cluster.regions || source >= self.cluster.regions {
            return Err(StepError::Illegal(2));
        }
        let asking = &self.sites[source as usize].region;
        let asked = asking.asked(home);
        if number as usize >= asked.len() {
            return Err(StepError::Illegal(2));
        }
        let Some(txn) = asking.common_txn(asked[number as usize]) else {
            unreachable!()
        };
        let txn = txn.copy()?;
        self.sites[home as usize]
            .region
            .append_owned(alloc, source, number, txn)?;
        self.steps += 1;
        Ok(())
    }

    /// Rule 3: a region receives a stretch of a home's log.
    fn deliver(
        &mut self,
        alloc: Global,
        region: u8,
        home: u8,
        first: u32,
        last: u32,
    ) -> Result<(), StepError>
        requires { self.old.steps < 4294967295 }
        ensures { Makes self.old (Deliver region home first last) result self.new }
    {
        if region >= self.cluster.regions || home >= self.cluster.regions {
            return Err(StepError::Illegal(3));
        }
        let source = &self.sites[home as usize].region;
        if first > last || last > source.log(home).len() {
            return Err(StepError::Illegal(3));
        }
        let received = self.sites[region as usize].region.log(home).len();
        if !joins(received, first, last) {
            self.steps += 1;
            return Ok(());
        }
        let entries = entries(alloc, source, home, received, last)?;
        self.sites[region as usize]
            .region
            .deliver(alloc, home, first, received, entries)?;
        self.steps += 1;
        Ok(())
    }

    /// Rule 4: a region inserts the next part of a home's log.
    fn insert(&mut self, alloc: Global, region: u8, home: u8) -> Result<(), StepError>
        requires { self.old.steps < 4294967295 }
        ensures { Makes self.old (Insert region home) result self.new }
    {
        if region >= self.cluster.regions || home >= self.cluster.regions {
            return Err(StepError::Illegal(4));
        }
        if !self.sites[region as usize].region.insert(alloc, home)? {
            return Err(StepError::Illegal(4));
        }
        self.steps += 1;
        Ok(())
    }

    /// Rule 5: a region resolves a class of deadlocked transactions.
    fn resolve(&mut self, alloc: Global, region: u8, ids: &[TxnId]) -> Result<(), StepError>
        requires { self.old.steps < 4294967295 }
        ensures { Makes self.old (Resolve region ids.now) result self.new }
    {
        if region >= self.cluster.regions {
            return Err(StepError::Illegal(5));
        }
        if !self.sites[region as usize].region.resolve(alloc, ids)? {
            return Err(StepError::Illegal(5));
        }
        self.steps += 1;
        Ok(())
    }

    /// Rule 6: a region executes a transaction.
    fn execute(&mut self, alloc: Global, region: u8, id: TxnId) -> Result<(), StepError>
        requires { self.old.steps < 4294967295 }
        ensures { Makes self.old (Execute region id) result self.new }
    {
        if region >= self.cluster.regions {
            return Err(StepError::Illegal(6));
        }
        if !self.sites[region as usize]
            .region
            .execute(alloc, id, &self.cluster.procs)?
        {
            return Err(StepError::Illegal(6));
        }
        self.steps += 1;
        Ok(())
    }

    /// Rule 7: a region answers one of its sessions.
    fn answer(&mut self, alloc: Global, region: u8, name: &Name) -> Result<(), StepError>
        requires { self.old.steps < 4294967295 }
        ensures { Makes self.old (Answer region name.now) result self.new }
    {
        if region >= self.cluster.regions {
            return Err(StepError::Illegal(7));
        }
        let sessions = &self.sessions[region as usize];
        let Some(place) = sessions.place_of(name) else {
            return Err(StepError::Illegal(7));
        };
        let last = last_outcome_at(sessions, &self.sites[region as usize].region, place);
        if !sessions.may_answer_at(place, last) {
            return Err(StepError::Illegal(7));
        }
        self.sites[region as usize].region.answer(alloc, name)?;
        let last = last_outcome_at(
            &self.sessions[region as usize],
            &self.sites[region as usize].region,
            place,
        );
        self.sessions[region as usize].answer_at(place, last);
        self.steps += 1;
        Ok(())
    }

    /// The report of the events that led to this world, from its opening on.
    pub fn report(&self, alloc: Global, events: Vec<Event>) -> Result<Report, NoMemory>
        requires legal { AreLegal self.now.cluster self.now.workload events.items }
        requires reached { self.now.state ≡ world_after self.now.cluster self.now.workload events.items }
        ensures report { IfOk result (λ report. report ≡ report_of self.now.cluster self.now.workload events.items) }

        // Nothing is left out: the order section has each executed id, and there is a reply for each answer.
        ensures all_ran { IfOk result (λ report. map (λ ran. ran.id) report.order ≡ order_of events.items) }
        ensures all_answered { IfOk result (λ report. map (λ reply. reply.session) report.replies ≡ filter_map answered_name events.items) }

        // Each outcome is the one that every region keeps which executed the attempt, and each table is its region's.
        ensures outcomes { IfOk result (λ report. AllIn (λ ran. IsOutcomeOf self.now.cluster.regions self.now.state ran.id ran.outcome) report.order) }
        ensures replies { IfOk result (λ report. AllIn (IsReplyOf self.now.cluster.regions self.now.state) report.replies) }
        ensures tables { IfOk result (λ report. report.tables ≡ map (λ node. shown node.here.table) self.now.state.nodes) }
    {
        // Names the steps, so that the proof has what is kept of their number.
        let _steps = self.steps;
        let sites = each_lent(alloc, self.sites.as_slice())?;
        report_of_sites(
            alloc,
            &self.cluster,
            &self.workload,
            sites.as_slice(),
            events,
        )
    }

    // How many steps it has made.
    fn steps(&self) -> u32
        ensures { result ≡ self.now.steps }
    {
        self.steps
    }

    /// The text of the report of the events that led to this world, from its opening on, and the sites of the world's regions,
    /// which the caller may drop or leave to the end of the program, as the world's sessions are left. What else the text does not
    /// need is freed before it is made, and what it no longer needs meanwhile, since the text is long.
    pub fn text(self, alloc: Global, events: &[Event]) -> Result<(Vec<u8>, Vec<Site<S>>), NoMemory>
        requires legal { AreLegal self.cluster self.workload events.now }
        requires reached { self.state ≡ world_after self.cluster self.workload events.now }
        ensures text { IfOk result (λ made. made.0.items ≡ report_text (report_of self.cluster self.workload events.now)) }
        ensures told { IfOk result (λ made. IsToldBy made.0.items events.now) }
    {
        // Names the steps, so that the proof has what is kept of their number.
        let _made = self.steps();
        let World {
            cluster,
            workload,
            sessions,
            sites,
            ..
        } = self;
        // The program ends soon, and they have little memory, which would take long to free piece by piece.
        forget(sessions);
        let lent = each_lent(alloc, sites.as_slice())?;
        let text = text_of_sites(alloc, cluster, workload, lent.as_slice(), events)?;
        drop(lent);
        Ok((text, sites))
    }
}

/// The sessions of all regions of a cluster before their first calls, by the region's number.
fn sessions(
    alloc: Global,
    cluster: &Cluster,
    workload: &Workload,
) -> Result<Vec<Sessions>, NoMemory>
    requires { IsValidWorkload cluster.now workload.now }
    ensures { IfOk result (λ all. all.items ≡ opening_sessions cluster.now workload.now) }
{
    let mut all = Vec::new(alloc);
    for region in 0..cluster.regions {
        all.push(Sessions::new(alloc, workload, region, cluster.tries)?)?;
    }
    Ok(all)
}

/// The sites of all regions of a cluster before anything happens, by number.
fn sites<S: Scheduler + Drop>(alloc: Global, cluster: &Cluster) -> Result<Vec<Site<S>>, NoMemory>
    requires { IsValidCluster cluster.now }
    ensures opening { IfOk result (λ sites. sites.items ≡ opening_sites cluster.now) }
    ensures sound { IfOk result (λ sites. AllIn (λ site. IsSoundRegion site.region.state) sites.items) }
{
    let opening = opening_of(alloc, cluster)?;
    let mut sites = Vec::new(alloc);
    for number in 0..cluster.regions {
        sites.push(first_site(alloc, cluster, &opening, number)?)?;
    }
    Ok(sites)
}

/// Makes room in each region for what comes of the calls of a workload.
fn expect_calls<S: Scheduler + Drop>(
    sites: &mut [Site<S>],
    workload: &Workload,
) -> Result<(), NoMemory>
    ensures { sites.new ≡ sites.old }
{
    let calls = call_count(workload);
    for site in sites.iter_mut() {
        site.region.expect(calls)?;
    }
    Ok(())
}

/// How many calls and moves a workload has, as far as 32 bits count.
fn call_count(workload: &Workload) -> u32 {
    let mut calls: usize = 0;
    for session in workload.sessions.as_slice() {
        calls = calls.saturating_add(session.calls.len());
    }
    u32::try_from(calls).unwrap_or(u32::MAX)
}

/// Each of some sites, lent.
fn each_lent<S: Scheduler + Drop>(
    alloc: Global,
    sites: &[Site<S>],
) -> Result<Vec<&Site<S>>, NoMemory>
    ensures { IfOk result (λ lent. map (λ site. site.now) lent.items ≡ sites.now) }
{
    let mut lent = Vec::with_capacity(alloc, sites.len())?;
    for site in sites {
        lent.push(site)?;
    }
    Ok(lent)
}

/// What regions keep after events is, of each region, its own of these events that take effect, in their order. This is a
/// law: the function does nothing.
pub fn kept_are_own()
    ensures { (cluster : Cluster) (workload : Workload) (events : List Event) (region : ℕ) → region < cluster.regions →
        get_or (kept_after cluster workload events) region [] ≡ own_events cluster workload region events }
{}

/// The text of a report tells of one list of events. This is a law: the function does nothing.
pub fn texts_tell_one_run()
    ensures { TextsTellOneRun }
{}

/// Whether a delivery of the places from `first` up to `last` goes on where what was received ends, and past it.
fn joins(received: u32, first: u32, last: u32) -> bool
    ensures { result ≡ (nat_le first received && nat_lt received last) }
{
    first <= received && received < last
}

/// The entries of a home's own log from place `first` up to `last`, each with its transaction.
fn entries<S: Scheduler>(
    alloc: Global,
    source: &Region<S>,
    home: u8,
    first: u32,
    last: u32,
) -> Result<Vec<Entry>, NoMemory>
    requires sound { IsSoundRegion source.now.state }
    requires home { home < source.now.state.regions }
    requires order { first ≤ last }
    requires end { last ≤ length (log_at source.now.state.logs home) }
    ensures parts { IfOk result (λ entries. map (λ e. e.part) entries.items ≡ drop first (take last (log_at source.now.state.logs home))) }
    ensures txns { IfOk result (λ entries. AllIn (λ e. held source.now.state e.part.id ≡ Some e.txn) entries.items) }
{
    let mut entries = Vec::new(alloc);
    for place in first..last {
        entries.push(entry_at(source, home, place)?)?;
    }
    Ok(entries)
}

/// The entry at a place of a home's own log, with its transaction.
fn entry_at<S: Scheduler>(source: &Region<S>, home: u8, place: u32) -> Result<Entry, NoMemory>
    requires sound { IsSoundRegion source.now.state }
    requires home { home < source.now.state.regions }
    requires place { place < length (log_at source.now.state.logs home) }
    ensures part { IfOk result (λ entry. slice_get (log_at source.now.state.logs home) place ≡ Some entry.part) }
    ensures txn { IfOk result (λ entry. held source.now.state entry.part.id ≡ Some entry.txn) }
{
    let Some(part) = source.log(home).common(place) else {
        unreachable!()
    };
    let Some(txn) = source.common_txn(part.get().id) else {
        unreachable!()
    };
    Ok(Entry {
        part: part.copy()?,
        txn: txn.copy()?,
    })
}

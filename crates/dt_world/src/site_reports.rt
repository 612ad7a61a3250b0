//! The report of events, read off the sites of all regions, each as it is after these events.
//!
//! Outcomes, whose an attempt is, and rows stand in the sites, so nothing is executed again. The events are gone through for
//! the order of first executions, and to follow what each session waits for, which sites do not keep.
ghost use Rattle.std.specs.Prelude.{if◌then◌else◌, ◌≡◌, ◌+◌, ◌<◌, ◌++◌, ◌∷◌, [], ℕ, List, flat_map, length, map, option_to_list, position, take, IfOk, OnOk};
ghost use Rattle.std.specs.List.{list_any};
ghost use Rattle.dt_lists.specs.Lists.{AllIn, Distinct};
ghost use Rattle.dt_access.specs.Clash.{same_key};
ghost use Rattle.dt_table.specs.Table.{shown};
ghost use Rattle.dt_workload.specs.Valid.{session_names};
ghost use Rattle.dt_session.specs.World.{is_session};
ghost use Rattle.dt_session.specs.Run.{order_of};
ghost use Rattle.dt_agreement.specs.Invariant.{IsExecutedAt};
ghost use Rattle.dt_report.specs.Printable.{IsPrintable, IsPrintableRan, IsPrintableReply};
ghost use Rattle.dt_report.specs.Report.{order_text, ran_line, reply_line, report_text};
ghost use Rattle.dt_report.specs.ShownTables.{all_shown};
ghost use Rattle.dt_world.specs.MarksInner.{AreMarkedIds};
ghost use Rattle.dt_world.specs.SessionReplayInner.{AddsRan, AddsReply, IsAttempt, rans_at, replay_at, replies_at};
ghost use Rattle.dt_world.specs.ReportSourceInner.{LedTo, world_told};
ghost use Rattle.dt_world.specs.SitesAfter.{AreSitesAfter};
ghost use Rattle.dt_world.specs.WorldReport.{report_of, replies_of, rans_of};

use crate::marks::Marks;
use crate::session_replay::SessionReplay;
use dt_access::TxnId;
use dt_cluster::Cluster;
use dt_events::Event;
use dt_report::{
    EventList, Ran, Rans, Replies, Reply, Report, Tables, begin_order, begin_text,
    events_are_written, put_all_shown, put_events, put_ran, put_reply,
};
use dt_sched::Scheduler;
use dt_site::{Origin, Site};
use dt_table::Table;
use dt_text::{Name, NoMemory};
use dt_txn::Outcome;
use dt_workload::Workload;
use indexmap::IndexSet;
use std::alloc::Global;
use std::marker::Model;

/// Events, and the sites of all regions, each as it is after these, with the cluster and the workload.
#[derive(Drop)]
pub struct ReportSource<'a, 'b, S: Scheduler + Drop> {
    cluster: &'a Cluster,
    workload: &'a Workload,
    /// The site of each region, by its number.
    sites: &'a [&'b Site<S>],
    events: &'a [Event],
}

impl<'a, 'b, S: Scheduler + Drop> Model for ReportSource<'a, 'b, S> {
    ghost use Rattle.dt_world.specs.ReportSourceInner.{ReportSourceView};
    ghost use Rattle.dt_world.specs.ReportSourceCode.{report_source_code};

    ghost Value = { ReportSourceView };

    ghost coded = { report_source_code };

    ghost use Rattle.std.specs.Prelude.{map};

    ghost view = { λ t. record { cluster = t.cluster.now; workload = t.workload.now; sites = map (λ site. site.now) t.sites.now; events = t.events.now } };
}

/// The report of events, read off the sites of all regions, each as it is after them. The events become part of it.
pub fn report_of_sites<S: Scheduler + Drop>(
    alloc: Global,
    cluster: &Cluster,
    workload: &Workload,
    sites: &[&Site<S>],
    events: Vec<Event>,
) -> Result<Report, NoMemory>
    requires { AreSitesAfter cluster.now workload.now events.items (map (λ site. site.now) sites.now) }
    ensures { IfOk result (λ report. report ≡ report_of cluster.now workload.now events.items) }
{
    let (replies, order) = replies_and_order(
        alloc,
        &*cluster,
        &*workload,
        &*sites,
        events.as_slice(),
    )?;
    let tables = tables(alloc, sites)?;
    Ok(Report {
        replies,
        order,
        tables,
        events: EventList::from_vec(events),
    })
}

/// The text of the report of events, read off the sites of all regions, each as it is after them. Replies, attempts and rows are
/// written one by one as they are found, so no list is made of them; and the cluster and the workload are freed as soon as the
/// replies and the attempts are written, since the text is long.
pub fn text_of_sites<S: Scheduler + Drop>(
    alloc: Global,
    cluster: Cluster,
    workload: Workload,
    sites: &[&Site<S>],
    events: &[Event],
) -> Result<Vec<u8>, NoMemory>
    requires { AreSitesAfter cluster workload events.now (map (λ site. site.now) sites.now) }
    ensures text { IfOk result (λ text. text.items ≡ report_text (report_of cluster workload events.now)) }
    ensures printable { IfOk result (λ text. IsPrintable (report_of cluster workload events.now)) }
{
    let mut text = begin_text(alloc, events.len())?;
    put_replies_and_order(alloc, &mut text, &cluster, &workload, &*sites, &*events)?;
    drop(cluster);
    drop(workload);
    let tables = tables_lent(alloc, sites)?;
    put_all_shown(alloc, &mut text, tables.as_slice())?;
    put_events(alloc, &mut text, &*events)?;
    events_are_written(events);
    Ok(text)
}

/// Appends the lines of the replies that the events give, and the section of the executed attempts in the serial order.
fn put_replies_and_order<'a, 'b, S: Scheduler + Drop>(
    alloc: Global,
    out: &mut Vec<u8>,
    cluster: &'a Cluster,
    workload: &'a Workload,
    sites: &'a [&'b Site<S>],
    events: &'a [Event],
) -> Result<(), NoMemory>
    requires { AreSitesAfter cluster.now workload.now events.now (map (λ site. site.now) sites.now) }
    ensures text { OnOk result (out.new.items ≡ (out.old.items
        ++ flat_map reply_line (replies_of cluster.now workload.now events.now))
        ++ order_text (rans_of cluster.now workload.now events.now)) }
    ensures replies { OnOk result (AllIn IsPrintableReply (replies_of cluster.now workload.now events.now)) }
    ensures order { OnOk result (AllIn IsPrintableRan (rans_of cluster.now workload.now events.now)) }
{
    let source = ReportSource {
        cluster,
        workload,
        sites,
        events,
    };
    source.put_replies(alloc, out)?;
    source.put_order(alloc, out)?;
    Ok(())
}

/// The replies that the events give, and the executed attempts in the serial order.
fn replies_and_order<'a, 'b, S: Scheduler + Drop>(
    alloc: Global,
    cluster: &'a Cluster,
    workload: &'a Workload,
    sites: &'a [&'b Site<S>],
    events: &'a [Event],
) -> Result<(Replies, Rans), NoMemory>
    requires { AreSitesAfter cluster.now workload.now events.now (map (λ site. site.now) sites.now) }
    ensures replies { IfOk result (λ parts. parts.0 ≡ replies_of cluster.now workload.now events.now) }
    ensures order { IfOk result (λ parts. parts.1 ≡ rans_of cluster.now workload.now events.now) }
{
    let source = ReportSource {
        cluster,
        workload,
        sites,
        events,
    };
    Ok((source.replies(alloc)?, source.order(alloc)?))
}

impl<'a, 'b, S: Scheduler + Drop> ReportSource<'a, 'b, S> {
    /// The executed attempts, in the order of their first executions.
    fn order(&self, alloc: Global) -> Result<Rans, NoMemory>
        requires { LedTo self.now }
        ensures { IfOk result (λ order. order ≡ rans_of self.now.cluster self.now.workload self.now.events) }
    {
        let mut seen = Marks::new(alloc);
        let mut order = Rans::new(alloc);
        self.note_all(alloc, &mut seen, &mut order)?;
        Ok(order)
    }

    /// Lists the attempts that the events execute, each at the first event that does so. None is noted or listed before.
    fn note_all(&self, alloc: Global, seen: &mut Marks, order: &mut Rans) -> Result<(), NoMemory>
        requires led { LedTo self.now }
        requires seen { AreMarkedIds seen.old [] }
        requires order { order.old ≡ [] }
        ensures { OnOk result (order.new ≡ rans_of self.now.cluster self.now.workload self.now.events) }
    {
        for at in 0..self.events.len() {
            if let Some(ran) = self.note(alloc, seen, self.events, at)? {
                order.push(ran)?;
            }
        }
        Ok(())
    }

    /// Appends the section of the executed attempts, in the order of their first executions.
    fn put_order(&self, alloc: Global, out: &mut Vec<u8>) -> Result<(), NoMemory>
        requires { LedTo self.now }
        ensures text { OnOk result (out.new.items ≡ out.old.items ++ order_text (rans_of self.now.cluster self.now.workload self.now.events)) }
        ensures printable { OnOk result (AllIn IsPrintableRan (rans_of self.now.cluster self.now.workload self.now.events)) }
    {
        begin_order(out)?;
        let mut seen = Marks::new(alloc);
        self.put_rans(alloc, out, &mut seen)
    }

    /// Appends the lines of the attempts that the events execute, each at the first event that does so. None is noted before.
    fn put_rans(&self, alloc: Global, out: &mut Vec<u8>, seen: &mut Marks) -> Result<(), NoMemory>
        requires led { LedTo self.now }
        requires seen { AreMarkedIds seen.old [] }
        ensures text { OnOk result (out.new.items ≡ out.old.items ++ flat_map ran_line (rans_of self.now.cluster self.now.workload self.now.events)) }
        ensures printable { OnOk result (AllIn IsPrintableRan (rans_of self.now.cluster self.now.workload self.now.events)) }
    {
        for at in 0..self.events.len() {
            self.put_noted(alloc, out, seen, self.events, at)?;
        }
        Ok(())
    }

    /// Appends the line of the attempt that an event executes, if it is the first to do so, which is noted.
    fn put_noted(
        &self,
        alloc: Global,
        out: &mut Vec<u8>,
        seen: &mut Marks,
        events: &[Event],
        at: usize,
    ) -> Result<(), NoMemory>
        requires led { LedTo self.now }
        requires events { events.now ≡ self.now.events }
        requires at { at < length events.now }
        requires seen { AreMarkedIds seen.old (order_of (take at self.now.events)) }
        ensures seen { OnOk result (AreMarkedIds seen.new (order_of (take (at + 1) self.now.events))) }
        ensures printable { OnOk result (AllIn IsPrintableRan (rans_at self.now at) → AllIn IsPrintableRan (rans_at self.now (at + 1))) }
        ensures lines { OnOk result ((start : List ℕ) → out.old.items ≡ start ++ flat_map ran_line (rans_at self.now at)
            → out.new.items ≡ start ++ flat_map ran_line (rans_at self.now (at + 1))) }
    {
        let Some((region, id)) = self.first_execution(seen, events, at)? else {
            return Ok(());
        };
        let (origin, outcome) = self.attempt(region, id);
        put_ran(
            alloc,
            out,
            id,
            &origin.session,
            origin.call,
            origin.attempt,
            outcome,
        )
    }

    /// The attempt that an event executes, if it is the first to do so, which is noted.
    fn note(
        &self,
        alloc: Global,
        seen: &mut Marks,
        events: &[Event],
        at: usize,
    ) -> Result<Option<Ran>, NoMemory>
        requires led { LedTo self.now }
        requires events { events.now ≡ self.now.events }
        requires at { at < length events.now }
        requires seen { AreMarkedIds seen.old (order_of (take at self.now.events)) }
        ensures seen { OnOk result (AreMarkedIds seen.new (order_of (take (at + 1) self.now.events))) }
        ensures ran { IfOk result (λ ran. rans_at self.now (at + 1) ≡ rans_at self.now at ++ option_to_list ran) }
    {
        let Some((region, id)) = self.first_execution(seen, events, at)? else {
            return Ok(None);
        };
        let (origin, outcome) = self.attempt(region, id);
        Ok(Some(Ran {
            id,
            session: origin.session.copy(alloc)?,
            call: origin.call,
            attempt: origin.attempt,
            outcome: outcome.copy(alloc)?,
        }))
    }

    /// The region and the id of the attempt that an event executes, if it is the first event to do so. The id is marked then.
    fn first_execution(
        &self,
        seen: &mut Marks,
        events: &[Event],
        at: usize,
    ) -> Result<Option<(u8, TxnId)>, NoMemory>
        requires led { LedTo self.now }
        requires events { events.now ≡ self.now.events }
        requires at { at < length events.now }
        requires seen { AreMarkedIds seen.old (order_of (take at self.now.events)) }
        ensures seen { OnOk result (AreMarkedIds seen.new (order_of (take (at + 1) self.now.events))) }
        ensures adds { IfOk result (λ first. AddsRan self.now at first) }
    {
        let Event::Execute { region, id } = &events[at] else {
            return Ok(None);
        };
        if !seen.mark(*id)? {
            return Ok(None);
        }
        Ok(Some((*region, *id)))
    }

    /// Whose an attempt is that a region has executed, and its outcome there.
    fn attempt(&self, region: u8, id: TxnId) -> (&Origin, &Outcome)
        requires led { LedTo self.now }
        requires region { region < self.now.cluster.regions }
        requires executed { IsExecutedAt (world_told self.now) region id }
        ensures { IsAttempt (world_told self.now) region id result.0.now result.1.now }
    {
        let executing = self.sites[region as usize];
        let Some(outcome) = executing.region.outcome(id) else {
            unreachable!()
        };
        let asking = self.sites[id.region as usize];
        (asking.origin(id.seq), outcome)
    }

    /// The answers that the events give, in their order.
    fn replies(&self, alloc: Global) -> Result<Replies, NoMemory>
        requires { LedTo self.now }
        ensures { IfOk result (λ replies. replies ≡ replies_of self.now.cluster self.now.workload self.now.events) }
    {
        let names = names_of(alloc, self.workload)?;
        let sessions = self.workload.sessions.len();
        let mut replay = SessionReplay::new(alloc, sessions, self.cluster.regions)?;
        let mut replies = Replies::new(alloc);
        self.follow_all(alloc, &names, &mut replay, &mut replies)?;
        Ok(replies)
    }

    /// Lists the replies that the events give, by what is followed before the first of them. None is listed before.
    fn follow_all(
        &self,
        alloc: Global,
        names: &IndexSet<Name>,
        replay: &mut SessionReplay,
        replies: &mut Replies,
    ) -> Result<(), NoMemory>
        requires led { LedTo self.now }
        requires names { names.now.keys ≡ session_names self.now.workload.sessions }
        requires replay { replay.old ≡ replay_at self.now 0 }
        requires replies { replies.old ≡ [] }
        ensures { OnOk result (replies.new ≡ replies_of self.now.cluster self.now.workload self.now.events) }
    {
        for at in 0..self.events.len() {
            if let Some(reply) = self.follow(alloc, names, replay, self.events, at)? {
                replies.push(reply)?;
            }
        }
        Ok(())
    }

    /// Appends the lines of the answers that the events give, in their order.
    fn put_replies(&self, alloc: Global, out: &mut Vec<u8>) -> Result<(), NoMemory>
        requires { LedTo self.now }
        ensures text { OnOk result (out.new.items ≡ out.old.items ++ flat_map reply_line (replies_of self.now.cluster self.now.workload self.now.events)) }
        ensures printable { OnOk result (AllIn IsPrintableReply (replies_of self.now.cluster self.now.workload self.now.events)) }
    {
        let names = names_of(alloc, self.workload)?;
        let sessions = self.workload.sessions.len();
        let mut replay = SessionReplay::new(alloc, sessions, self.cluster.regions)?;
        self.put_all_followed(alloc, out, &names, &mut replay)
    }

    /// Appends the lines of the replies that the events give, by what is followed before the first of them.
    fn put_all_followed(
        &self,
        alloc: Global,
        out: &mut Vec<u8>,
        names: &IndexSet<Name>,
        replay: &mut SessionReplay,
    ) -> Result<(), NoMemory>
        requires led { LedTo self.now }
        requires names { names.now.keys ≡ session_names self.now.workload.sessions }
        requires replay { replay.old ≡ replay_at self.now 0 }
        ensures text { OnOk result (out.new.items ≡ out.old.items ++ flat_map reply_line (replies_of self.now.cluster self.now.workload self.now.events)) }
        ensures printable { OnOk result (AllIn IsPrintableReply (replies_of self.now.cluster self.now.workload self.now.events)) }
    {
        for at in 0..self.events.len() {
            self.put_followed(alloc, out, names, replay, self.events, at)?;
        }
        Ok(())
    }

    /// Follows what an event does to sessions, and appends the line of the reply that it gives, if it is an answer.
    fn put_followed(
        &self,
        alloc: Global,
        out: &mut Vec<u8>,
        names: &IndexSet<Name>,
        replay: &mut SessionReplay,
        events: &[Event],
        at: usize,
    ) -> Result<(), NoMemory>
        requires led { LedTo self.now }
        requires events { events.now ≡ self.now.events }
        requires at { at < length events.now }
        requires names { names.now.keys ≡ session_names self.now.workload.sessions }
        requires replay { replay.old ≡ replay_at self.now at }
        ensures replay { OnOk result (replay.new ≡ replay_at self.now (at + 1)) }
        ensures printable { OnOk result (AllIn IsPrintableReply (replies_at self.now at) → AllIn IsPrintableReply (replies_at self.now (at + 1))) }
        ensures lines { OnOk result ((start : List ℕ) → out.old.items ≡ start ++ flat_map reply_line (replies_at self.now at)
            → out.new.items ≡ start ++ flat_map reply_line (replies_at self.now (at + 1))) }
    {
        let Some((session, id)) = self.answered(names, replay, events, at) else {
            return Ok(());
        };
        let (origin, outcome) = self.attempt(id.region, id);
        put_reply(alloc, out, session, origin.call, outcome)
    }

    /// Follows what an event does to sessions. The reply that it gives, if it is an answer.
    fn follow(
        &self,
        alloc: Global,
        names: &IndexSet<Name>,
        replay: &mut SessionReplay,
        events: &[Event],
        at: usize,
    ) -> Result<Option<Reply>, NoMemory>
        requires led { LedTo self.now }
        requires events { events.now ≡ self.now.events }
        requires at { at < length events.now }
        requires names { names.now.keys ≡ session_names self.now.workload.sessions }
        requires replay { replay.old ≡ replay_at self.now at }
        ensures replay { OnOk result (replay.new ≡ replay_at self.now (at + 1)) }
        ensures reply { IfOk result (λ reply. replies_at self.now (at + 1) ≡ replies_at self.now at ++ option_to_list reply) }
    {
        let Some((session, id)) = self.answered(names, replay, events, at) else {
            return Ok(None);
        };
        let (origin, outcome) = self.attempt(id.region, id);
        Ok(Some(Reply {
            session: session.copy(alloc)?,
            call: origin.call,
            outcome: outcome.copy(alloc)?,
        }))
    }

    /// Follows what an event does to sessions. The name of the session that it answers and the attempt that the session waited for,
    /// if it is an answer.
    fn answered<'c>(
        &self,
        names: &IndexSet<Name>,
        replay: &mut SessionReplay,
        events: &'c [Event],
        at: usize,
    ) -> Option<(&'c Name, TxnId)>
        requires led { LedTo self.now }
        requires events { events.now ≡ self.now.events }
        requires at { at < length events.now }
        requires names { names.now.keys ≡ session_names self.now.workload.sessions }
        requires replay { replay.old ≡ replay_at self.now at }
        ensures replay { replay.new ≡ replay_at self.now (at + 1) }
        ensures adds { AddsReply self.now at result }
    {
        match &events[at] {
            Event::Submit { region, session } => {
                let Some(place) = self.find(names, *region, session) else {
                    unreachable!()
                };
                replay.submit(place, *region);
                None
            }
            Event::Answer { region, session } => {
                let Some(place) = self.find(names, *region, session) else {
                    unreachable!()
                };
                let Some(id) = replay.waits(place) else {
                    unreachable!()
                };
                replay.answer(place);
                Some((session, id))
            }
            _ => None,
        }
    }

    /// The place in the workload of the session of this name at a region, by the names of all sessions. `None` exactly where the
    /// region has no such session.
    fn find(&self, names: &IndexSet<Name>, region: u8, name: &Name) -> Option<usize>
        requires names { names.now.keys ≡ session_names self.now.workload.sessions }
        requires once { Distinct (session_names self.now.workload.sessions) }
        ensures { result ≡ position (is_session region name.now) self.now.workload.sessions }
    {
        let place = names.get_index_of(name)?;
        if self.workload.sessions.as_slice()[place].region != region {
            return None;
        }
        Some(place)
    }
}

/// The names of the sessions of a workload, in its order.
fn names_of(alloc: Global, workload: &Workload) -> Result<IndexSet<Name>, NoMemory>
    requires { Distinct (session_names workload.now.sessions) }
    ensures { IfOk result (λ names. names.keys ≡ session_names workload.now.sessions) }
{
    let mut names = IndexSet::new(alloc);
    for session in workload.sessions.as_slice() {
        put_name(alloc, &mut names, &session.name)?;
    }
    Ok(names)
}

/// Appends a name to others, if it is not among them.
fn put_name(alloc: Global, names: &mut IndexSet<Name>, name: &Name) -> Result<(), NoMemory>
    ensures { OnOk result (names.new.keys ≡ (if list_any (same_key name.now) names.old.keys then names.old.keys else names.old.keys ++ name.now ∷ [])) }
{
    names.insert(name.copy(alloc)?)?;
    Ok(())
}

/// The table of each region, as it is shown.
fn tables<S: Scheduler + Drop>(alloc: Global, sites: &[&Site<S>]) -> Result<Tables, NoMemory>
    ensures { IfOk result (λ tables. tables ≡ map (λ site. shown site.now.region.state.here.table) sites.now) }
{
    let mut tables = Tables::new(alloc);
    for site in sites {
        tables.push(site.region.table().shown(alloc)?)?;
    }
    Ok(tables)
}

/// The table of each region, lent.
fn tables_lent<'a, S: Scheduler + Drop>(
    alloc: Global,
    sites: &[&'a Site<S>],
) -> Result<Vec<&'a Table>, NoMemory>
    ensures { IfOk result (λ tables. all_shown tables.items ≡ map (λ site. shown site.now.region.state.here.table) sites.now) }
{
    let mut tables = Vec::with_capacity(alloc, sites.len())?;
    for site in sites {
        tables.push(site.region.table())?;
    }
    Ok(tables)
}

ghost use Rattle.std.specs.List.{range_with_len};
ghost use Rattle.std.specs.Prelude.{◌≡◌, ◌↔◌, ◌<◌, ◌≤◌, length, map, IfOk, OnErr, OnOk, IsTrue, false, true};
ghost use Rattle.dt_lists.specs.Lists.{AllIn};
ghost use Rattle.dt_region.specs.Sound.{IsSoundRegion};
ghost use Rattle.dt_table.specs.Table.{shown};
ghost use Rattle.dt_node.specs.NodeView.{opening_node_of};
ghost use Rattle.dt_cluster.specs.Valid.{IsValidCluster};
ghost use Rattle.dt_workload.specs.Valid.{IsValidWorkload};
ghost use Rattle.dt_run.specs.EndOfRun.{IsAllDone};
ghost use Rattle.dt_run.specs.NodesStand.{AreNodes};
ghost use Rattle.dt_run.specs.NodesView.{kept_by, marks_at, opening_nodes};
ghost use Rattle.dt_run.specs.Phase.{EndsInStep, IsPhase};
ghost use Rattle.dt_run.specs.Run.{AreMerged, IsRunReport, IsRunSummary, IsRunText};
ghost use Rattle.dt_run.specs.SeatsInner.{new_seat, seat_at};
ghost use Rattle.dt_run.specs.Silence.{ComesToAnEnd, PhaseIsCounted, counts_in};

use crate::counts::{Counts, answers_by};
use crate::course::{Course, Setting};
use crate::done::all_done;
use crate::links::link_all;
use crate::merge::merged;
use crate::seat::Seat;
use crate::sites::{kept_of, sites_of};
use dt_cluster::Cluster;
use dt_events::Event;
use dt_gen::summary_text;
use dt_lock::Gate;
use dt_node::Node;
use dt_report::Report;
use dt_sched::Scheduler;
use dt_site::opening_of;
use dt_table::ShownList;
use dt_text::NoMemory;
use dt_workload::Workload;
use dt_world::{report_of_sites, text_of_sites};
use std::alloc::Global;
use std::marker::{Brand, Model};
use std::sync::Wait;
use std::thread::Threads;

/// All nodes of a cluster, and the links between them, with the cluster and the workload.
///
/// Contracts see each node, as `waiting` the packets that wait on each link between two phases, as `marks` of each region how
/// many events it had kept after each phase, and as `broken` whether a phase has run out of memory.
#[derive(Drop)]
pub struct Nodes<S: Scheduler + Drop> {
    pub(crate) setting: Setting,
    pub(crate) course: Course<S>,
}

impl<S: Scheduler + Drop> Model for Nodes<S> {
    ghost use Rattle.dt_run.specs.NodesView.{NodesView};
    ghost use Rattle.dt_run.specs.NodesCode.{nodes_code};
    ghost use Rattle.dt_run.specs.SeatsInner.{AreRunning, nodes_view};

    ghost Value = { NodesView };

    ghost coded = { nodes_code };

    ghost view = { λ n. nodes_view n.setting.cluster n.setting.workload n.course.seats.items n.course.broken };

    ghost invariant = { λ n. AreRunning n.setting.cluster n.setting.workload n.course.seats.items n.course.broken n.course.counts };
}

impl<S: Scheduler + Drop> Nodes<S> {
    /// The nodes of a cluster with a workload before anything happens.
    pub fn new(alloc: Global, cluster: &Cluster, workload: &Workload) -> Result<Self, NoMemory>
        requires cluster { IsValidCluster cluster.now }
        requires workload { IsValidWorkload cluster.now workload.now }
        ensures opening { IfOk result (λ nodes. nodes ≡ opening_nodes cluster.now workload.now) }
        ensures nodes { IfOk result AreNodes }
    {
        Nodes::opening(alloc, cluster.copy(alloc)?, workload.copy(alloc)?)
    }

    /// The nodes before anything happens, of a cluster and a workload that they take over.
    pub fn opening(alloc: Global, cluster: Cluster, workload: Workload) -> Result<Self, NoMemory>
        requires cluster { IsValidCluster cluster }
        requires workload { IsValidWorkload cluster workload }
        ensures opening { IfOk result (λ nodes. nodes ≡ opening_nodes cluster workload) }
        ensures nodes { IfOk result AreNodes }
    {
        let mut seats = seats(alloc, &cluster, &workload)?;
        link_all(alloc, seats.as_mut_slice())?;
        Ok(Nodes {
            setting: Setting { cluster, workload },
            course: Course::begin(seats),
        })
    }

    /// How many phases were made, how many events all regions have kept, and how many silent phases were made since the last
    /// one in which some event was kept. Takes no memory.
    pub fn counts(&self) -> Counts
        requires { self.now.broken ≡ false }
        ensures counts { result ≡ counts_in self.now }
        ensures ends { ComesToAnEnd self.now }
    {
        self.course.counts
    }

    /// Whether every call of every session is answered, and every region has executed every attempt. Takes no memory.
    pub fn finished(&self) -> bool
        ensures { IsTrue result ↔ IsAllDone self.now }
    {
        all_done(self.course.seats.as_slice())
    }

    /// The report of the events that all nodes have kept, in the order of their stamps. It is read off the nodes, and nothing is
    /// executed again.
    pub fn report(&self, alloc: Global) -> Result<Report, NoMemory>
        requires phases { 1 ≤ length (marks_at self.now 0) }
        requires sound { self.now.broken ≡ false }
        requires done { IsAllDone self.now }
        ensures { IfOk result (IsRunReport self.now) }
    {
        let events = self.merged(alloc)?;
        let sites = sites_of(alloc, self.course.seats.as_slice())?;
        report_of_sites(
            alloc,
            &self.setting.cluster,
            &self.setting.workload,
            sites.as_slice(),
            events,
        )
    }

    /// The text of that report. The nodes are taken over, so that what the text no longer needs is freed while it is made, since
    /// it may be long; and it is written line by line, without a list of its replies, attempts or rows.
    pub fn text(self, alloc: Global) -> Result<Vec<u8>, NoMemory>
        requires phases { 1 ≤ length (marks_at self 0) }
        requires sound { self.broken ≡ false }
        requires done { IsAllDone self }
        ensures { IfOk result (λ text. IsRunText self text.items) }
    {
        let merged = self.merged(alloc)?;
        let Nodes { setting, course } = self;
        let Setting { cluster, workload } = setting;
        let sites = sites_of(alloc, course.seats.as_slice())?;
        text_of_sites(
            alloc,
            cluster,
            workload,
            sites.as_slice(),
            merged.as_slice(),
        )
    }

    /// What that report comes to in three lines, for a workload of n calls. It is read off the nodes, and the report is not made.
    pub fn summary(&self, alloc: Global, calls: u32) -> Result<Vec<u8>, NoMemory>
        requires phases { 1 ≤ length (marks_at self.now 0) }
        requires sound { self.now.broken ≡ false }
        requires done { IsAllDone self.now }
        ensures { IfOk result (λ text. IsRunSummary self.now calls text.items) }
    {
        let answers = answers_by(self.course.seats.as_slice());
        let rows = first_rows(alloc, self.course.seats.as_slice())?;
        summary_text(alloc, calls, answers, rows.as_slice())
    }

    /// The events that all nodes have kept, in ascending order of their stamps, and of their regions where these are equal.
    fn merged(&self, alloc: Global) -> Result<Vec<Event>, NoMemory>
        ensures { IfOk result (λ events. AreMerged (kept_by self.now.nodes) events.items) }
    {
        let kept = kept_of(alloc, self.course.seats.as_slice())?;
        merged(alloc, kept)
    }
}

impl<S: Scheduler + Drop + Send> Nodes<S> {
    /// Runs one turn of every node, by a parallel call over the list of nodes. Long calls of a round, or all where the gate may hold
    /// a worker, are made by at most as many workers as the cluster says, each of which passes the gate between its work and its
    /// commit. It fails only if memory runs out; then some turns may be made in part, and links and marks are given up.
    pub fn phase<R: Threads + Wait + Sync, G: Gate>(
        &mut self,
        rt: &R,
        alloc: Global,
        gate: &G,
    ) -> Result<(), NoMemory>
        requires { self.old.broken ≡ false }
        ensures phase { IsPhase self.old self.new }
        ensures in_step { OnOk result (EndsInStep self.old self.new) }
        ensures counted { OnOk result (PhaseIsCounted self.old self.new) }
        ensures ends { OnOk result (ComesToAnEnd self.new) }
        ensures broken { OnErr result (self.new.broken ≡ true) }
        ensures nodes { AreNodes self.new }
    {
        let mut none = Vec::new(alloc);
        self.course
            .phase::<R, G, Brand>(rt, alloc, &self.setting, gate, none.as_mut_slice())
    }
}

/// The rows that the region of the first seat shows.
fn first_rows<S: Scheduler + Drop>(alloc: Global, seats: &[Seat<S>]) -> Result<ShownList, NoMemory>
    requires { 0 < length seats.now }
    ensures { IfOk result (λ rows. rows ≡ shown (seat_at seats.now 0).node.site.region.state.here.table) }
{
    let first = &seats[0];
    first.node.region().table().shown(alloc)
}

/// A seat for the node of each region of a cluster, by its number, before anything happens.
fn seats<S: Scheduler + Drop>(
    alloc: Global,
    cluster: &Cluster,
    workload: &Workload,
) -> Result<Vec<Seat<S>>, NoMemory>
    requires cluster { IsValidCluster cluster.now }
    requires workload { IsValidWorkload cluster.now workload.now }
    ensures sound { IfOk result (λ seats. AllIn (λ s. IsSoundRegion s.node.site.region.state) seats.items) }
    ensures opening { IfOk result (λ seats. seats.items ≡ map (λ region. new_seat (opening_node_of cluster.now workload.now region)) (range_with_len 0 cluster.now.regions)) }
{
    let first = opening_of(alloc, cluster)?;
    let mut seats = Vec::with_capacity(alloc, cluster.regions as usize)?;
    for region in 0..cluster.regions {
        let node: Node<S> = Node::sharing(alloc, cluster, workload, &first, region)?;
        // Names the region, so that the proof has what its type keeps.
        let _number = node.region().number();
        seats.push(Seat::new(alloc, node))?;
    }
    Ok(seats)
}

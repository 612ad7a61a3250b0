ghost use Rattle.std.specs.Prelude.{◌≡◌, ◌<◌, ◌≤◌, ◌+◌, ◌^◌, ℕ, List, [], flat_map, length, map, replicate, IfOk, IsTrue, OnOk};
ghost use Rattle.dt_lists.specs.Lists.{AllIn, Pairwise};
ghost use Rattle.dt_txn.specs.Replica.{IsDrained};
ghost use Rattle.dt_region.specs.Rounds.{Continues};
ghost use Rattle.dt_cluster.specs.Valid.{IsValidCluster};
ghost use Rattle.dt_workload.specs.Valid.{IsValidWorkload};
ghost use Rattle.dt_node.specs.NodeView.{opening_node_of};
ghost use Rattle.dt_node.specs.TurnPackets.{HasSent, LeavesNothingOut};
ghost use Rattle.dt_node.specs.NodeInWorld.{NodeStands};
ghost use Rattle.dt_node.specs.Steps.{HasMadePasses, HasTurned, IsPass};
ghost use Rattle.dt_node.specs.Turn.{BeginsEagerly, HasTaken, IsSettled, MovesOn};
ghost use Rattle.dt_node.specs.TurnInner.{CanGo, KnowsTheSame, PassesOnce, RestsWhereDrained};

use dt_cluster::Cluster;
use dt_packet::{Inlet, LossPlan, Outlet};
use dt_proc::Procs;
use dt_region::{Region, Rounds};
use dt_sched::Scheduler;
use dt_session::Sessions;
use dt_site::{Site, first_site};
use dt_table::Opening;
use dt_text::NoMemory;
use dt_workload::Workload;
use std::alloc::Global;
use std::marker::Model;

/// A region of a cluster that runs by itself, with the sessions that stand at it.
#[derive(Drop)]
pub struct Node<S: Scheduler> {
    pub(crate) site: Site<S>,
    pub(crate) sessions: Sessions,
    /// Of each other region, how many of this one's requests to it that one is known to have placed.
    pub(crate) took: Vec<u32>,
    /// Of each other region, how much of this one's log that one is known to have received.
    pub(crate) received: Vec<u32>,
    pub(crate) plan: LossPlan,
    /// How many turns it has made.
    pub(crate) turns: u64,
}

impl<S: Scheduler> Model for Node<S> {
    ghost use Rattle.dt_node.specs.NodeView.{NodeView};
    ghost use Rattle.dt_node.specs.NodeCode.{running_node_code};

    ghost Value = { NodeView };

    ghost coded = { running_node_code };

    ghost view = { λ n. record { site = n.site; sessions = n.sessions; took = n.took.items; received = n.received.items; plan = n.plan; turns = n.turns } };
}

impl<S: Scheduler + Drop> Node<S> {
    /// The node of this region of a cluster before anything happens, with what the tables of all regions have at first
    /// (`opening_of` of `dt_site`). It shares the homes and rows that the cluster lists with every other node that is made of them.
    pub fn sharing(
        alloc: Global,
        cluster: &Cluster,
        workload: &Workload,
        first: &Opening,
        region: u8,
    ) -> Result<Self, NoMemory>
        requires cluster { IsValidCluster cluster.now }
        requires workload { IsValidWorkload cluster.now workload.now }
        requires homes { first.now.homes ≡ cluster.now.homes }
        requires rows { first.now.rows ≡ cluster.now.rows }
        requires region { region < cluster.now.regions }
        ensures { IfOk result (λ node. node ≡ opening_node_of cluster.now workload.now region) }
    {
        let (took, received) = nothing_known(alloc, cluster.regions)?;
        let sessions = Sessions::new(alloc, workload, region, cluster.tries)?;
        Ok(Node {
            site: first_site(alloc, cluster, first, region)?,
            sessions,
            took,
            received,
            plan: LossPlan {
                drop: cluster.drop,
                repeat: cluster.repeat,
            },
            turns: 0,
        })
    }

    /// Its region. Takes no memory.
    pub fn region(&self) -> &Region<S>
        ensures { result.now ≡ self.now.site.region }
    {
        &self.site.region
    }

    /// Its region, and whose the submissions of that are. Takes no memory.
    pub fn site(&self) -> &Site<S>
        ensures { result.now ≡ self.now.site }
    {
        &self.site
    }

    /// The sessions that stand at it. Takes no memory.
    pub fn sessions(&self) -> &Sessions
        ensures { result.now ≡ self.now.sessions }
    {
        &self.sessions
    }

    /// Makes a turn. `ins` and `outs` have one end for each other region, in ascending order of regions. What waits at the
    /// inlets has to be true in a world in which the node stands, and each outlet needs two free places. It fails only if
    /// memory runs out; then packets and the number of turns are given up, and what the node kept goes on from what there was.
    pub fn turn<D: Rounds<Region<S>>, I: Inlet, O: Outlet>(
        &mut self,
        alloc: Global,
        procs: &Procs,
        rounds: &D,
        ins: &mut [I],
        outs: &mut [O],
    ) -> Result<(), NoMemory>
        requires ready { D.ready rounds.now }
        requires stands { NodeStands procs.now (flat_map I.waits ins.old) self.old }
        requires ends { length outs.old + 1 ≡ self.old.site.region.state.regions }
        requires places { AllIn (λ out. 2 ≤ (O.seen out).free) outs.old }
        requires turns { self.old.turns + 1 < 2 ^ 64 }
        ensures moved { MovesOn procs.now (flat_map I.waits ins.old) self.old self.new }
        ensures emptied { OnOk result (flat_map I.waits ins.new ≡ []) }
        ensures taken { OnOk result (HasTaken (flat_map I.waits ins.old) self.old self.new) }
        ensures settled { OnOk result (IsSettled self.old self.new) }
        ensures steps { OnOk result (HasTurned procs.now (flat_map I.waits ins.old) self.old self.new) }
        ensures begins { OnOk result (flat_map I.waits ins.old ≡ [] → BeginsEagerly procs.now self.old self.new) }
        ensures sent { OnOk result (HasSent self.old self.new (map O.seen outs.old) (map O.seen outs.new)) }
        ensures whole { OnOk result ((target : ℕ) → target < self.new.site.region.state.regions → LeavesNothingOut self.new target) }
        ensures same_ins { (first : List I) → Pairwise I.same first ins.old → Pairwise I.same first ins.new }
        ensures same_outs { (first : List O) → Pairwise O.same first outs.old → Pairwise O.same first outs.new }
    {
        self.receive_all(alloc, ins)?;
        self.go_on(alloc, procs, rounds)?;
        self.send(alloc, outs)
    }

    /// The second to the fourth step: lets the sessions go on and makes a round, until the sessions stand still.
    fn go_on<D: Rounds<Region<S>>>(
        &mut self,
        alloc: Global,
        procs: &Procs,
        rounds: &D,
    ) -> Result<(), NoMemory>
        requires ready { D.ready rounds.now }
        requires can { CanGo procs.now [] self.old }
        ensures moved { MovesOn procs.now [] self.old self.new }
        ensures knows { KnowsTheSame self.old self.new }
        ensures settled { OnOk result (IsSettled self.old self.new) }
        ensures passes { OnOk result (HasMadePasses procs.now self.old self.new) }
        ensures begins { OnOk result (BeginsEagerly procs.now self.old self.new) }
    {
        let mut rested = false;
        while self.pass(alloc, procs, rounds, rested)? {
            rested = true;
        }
        Ok(())
    }

    /// Lets the sessions go on once, and makes a round. Says whether some session went on. If none did and the region has
    /// `rested`, since a round left nothing to do before, the round is left out: it would make no event.
    fn pass<D: Rounds<Region<S>>>(
        &mut self,
        alloc: Global,
        procs: &Procs,
        rounds: &D,
        rested: bool,
    ) -> Result<bool, NoMemory>
        requires ready { D.ready rounds.now }
        requires can { CanGo procs.now [] self.old }
        requires rested { IsTrue rested → IsDrained self.old.site.region.state.logs self.old.site.region.state.here }
        ensures moved { MovesOn procs.now [] self.old self.new }
        ensures knows { KnowsTheSame self.old self.new }
        ensures drained { OnOk result (IsDrained self.new.site.region.state.logs self.new.site.region.state.here) }
        ensures passed { IfOk result (λ some. PassesOnce self.old some self.new) }
        ensures steps { IfOk result (λ some. IsPass procs.now some self.old self.new) }
        ensures begins { OnOk result (BeginsEagerly procs.now self.old self.new) }
    {
        let answered = self.answer_all(alloc)?;
        let submitted = self.submit_all(alloc, procs)?;
        let went = answered | submitted;
        if rested && !went {
            return Ok(false);
        }
        self.round(alloc, procs, rounds)?;
        Ok(went)
    }

    /// The third step: makes a round.
    fn round<D: Rounds<Region<S>>>(
        &mut self,
        alloc: Global,
        procs: &Procs,
        rounds: &D,
    ) -> Result<(), NoMemory>
        requires ready { D.ready rounds.now }
        requires can { CanGo procs.now [] self.old }
        ensures moved { MovesOn procs.now [] self.old self.new }
        ensures knows { KnowsTheSame self.old self.new }
        ensures sessions { self.new.sessions ≡ self.old.sessions }
        ensures asked { self.new.site.region.state.here.asked ≡ self.old.site.region.state.here.asked }
        ensures taken { self.new.site.region.state.here.taken ≡ self.old.site.region.state.here.taken }
        ensures drained { OnOk result (IsDrained self.new.site.region.state.logs self.new.site.region.state.here) }
        ensures rests { RestsWhereDrained self.old self.new }
        ensures continues { Continues procs.now self.old.site.region self.new.site.region }
    {
        let made = rounds.round(alloc, &mut self.site.region, procs);
        // Names the region, so that the proof has what its type keeps.
        let _number = self.site.region.number();
        made
    }
}

/// A zero for each of n regions, twice: how far each region is known to have come with requests, and with a log.
fn nothing_known(alloc: Global, regions: u8) -> Result<(Vec<u32>, Vec<u32>), NoMemory>
    ensures took { IfOk result (λ known. known.0.items ≡ replicate regions 0) }
    ensures received { IfOk result (λ known. known.1.items ≡ replicate regions 0) }
{
    Ok((zeros(alloc, regions)?, zeros(alloc, regions)?))
}

/// A zero for each of n regions.
fn zeros(alloc: Global, regions: u8) -> Result<Vec<u32>, NoMemory>
    ensures { IfOk result (λ counts. counts.items ≡ replicate regions 0) }
{
    Ok(vec![in alloc; 0; regions as usize]?)
}

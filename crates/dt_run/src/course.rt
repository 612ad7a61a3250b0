//! How far a run has come: what its phases change.
ghost use Rattle.std.specs.Prelude.{◌≡◌, ◌↔◌, ◌<◌, length, OnErr, OnOk, IsFalse, false, true};
ghost use Rattle.dt_lists.specs.Lists.{AllIn};
ghost use Rattle.dt_run.specs.HelpersInner.{LendsTurns, nodes_of};
ghost use Rattle.dt_run.specs.Phase.{EndsInStep, IsPhase};
ghost use Rattle.dt_run.specs.SeatsInner.{AreRunning};
ghost use Rattle.dt_run.specs.Silence.{ComesToAnEnd, PhaseIsCounted};

use crate::counts::Counts;
use crate::links::beside_all;
use crate::seat::Seat;
use crate::turns::turn_with;
use dt_cluster::Cluster;
use dt_lock::Gate;
use dt_pool::{Helper, Lending};
use dt_sched::Scheduler;
use dt_text::NoMemory;
use dt_workload::Workload;
use std::alloc::Global;
use std::sync::Wait;
use std::thread::Threads;

/// The cluster and the workload of a run, which stay as they are.
#[derive(Drop)]
pub struct Setting {
    pub cluster: Cluster,
    pub workload: Workload,
}

/// What the phases of a run change.
#[derive(Drop)]
pub struct Course<S: Scheduler + Drop> {
    /// The seat of each region's node, by its number.
    pub seats: Vec<Seat<S>>,
    /// Whether a phase has run out of memory.
    pub broken: bool,
    /// How far the nodes have come.
    pub counts: Counts,
    /// How many events the last phase has kept: the next one is expected to keep as many.
    pub grown: u64,
}

impl<S: Scheduler + Drop> Course<S> {
    /// Before the first phase, with these seats. Takes no memory.
    pub fn begin(seats: Vec<Seat<S>>) -> Self
        ensures seats { result.seats.items ≡ seats.items }
        ensures broken { result.broken ≡ false }
        ensures counts { result.counts ≡ record { made = 0; kept = 0; quiet = 0 } }
    {
        Course {
            seats,
            broken: false,
            counts: Counts::none(),
            grown: 0,
        }
    }
}

impl<S: Scheduler + Drop + Send> Course<S> {
    /// Makes one phase. Helpers that there are make as many of its turns; without any it starts threads of its own.
    pub fn phase<R: Threads + Wait + Sync, G: Gate, N: Lending<Seat<S>>>(
        &mut self,
        rt: &R,
        alloc: Global,
        setting: &Setting,
        gate: &G,
        helpers: &mut [Helper<Seat<S>, N>],
    ) -> Result<(), NoMemory>
        requires running { AreRunning setting.now.cluster setting.now.workload self.old.seats.items self.old.broken self.old.counts }
        requires sound { self.old.broken ≡ false }
        requires turns { 0 < length helpers.old → LendsTurns setting.now.cluster.procs N.can N.goes }
        ensures running { AreRunning setting.now.cluster setting.now.workload self.new.seats.items self.new.broken self.new.counts }
        ensures phase { IsPhase (nodes_of setting.now self.old.seats.items self.old.broken) (nodes_of setting.now self.new.seats.items self.new.broken) }
        ensures in_step { OnOk result (EndsInStep (nodes_of setting.now self.old.seats.items self.old.broken) (nodes_of setting.now self.new.seats.items self.new.broken)) }
        ensures counted { OnOk result (PhaseIsCounted (nodes_of setting.now self.old.seats.items self.old.broken) (nodes_of setting.now self.new.seats.items self.new.broken)) }
        ensures ends { OnOk result (ComesToAnEnd (nodes_of setting.now self.new.seats.items self.new.broken)) }
        ensures broken { OnErr result (self.new.broken ≡ true) }
    {
        let threads = threads_for(self.grown);
        turn_with(
            rt,
            alloc,
            &mut self.seats,
            &setting.cluster.procs,
            setting.cluster.workers,
            gate,
            threads,
            helpers,
        );
        if some_failed(self.seats.as_slice()) {
            self.broken = true;
            return Err(NoMemory);
        }
        beside_all(alloc, self.seats.as_mut_slice());
        let kept = self.counts.kept;
        self.counts = self.counts.after(self.seats.as_slice());
        self.grown = self.counts.kept.saturating_sub(kept);
        Ok(())
    }
}

/// From this many events on, the turns of a phase take longer than threads for them take to start and to end.
const MANY: u64 = 1024;

/// In how many threads the turns of a phase are made that is expected to keep n events: in two where these are few, else in one
/// for each region that there can be.
fn threads_for(events: u64) -> usize
    ensures { 0 < result }
{
    if events < MANY { 2 } else { 8 }
}

/// Whether the last turn at some seat failed.
fn some_failed<S: Scheduler>(seats: &[Seat<S>]) -> bool
    ensures { IsFalse result ↔ AllIn (λ s. s.failed ≡ false) seats.now }
{
    for seat in seats {
        if seat.failed {
            return true;
        }
    }
    false
}

ghost use Rattle.std.specs.Prelude.{◌≡◌, ◌<◌, ◌≤◌, ◌+◌, ◌^◌, ◌++◌, ◌∷◌, ℕ, [], flat_map, length, map, OnOk};
ghost use Rattle.dt_lists.specs.Lists.{AllIn, Pairwise};
ghost use Rattle.dt_ring.specs.Rings.{SameIn, SameOut};
ghost use Rattle.dt_node.specs.TurnPackets.{HasSent, LeavesNothingOut};
ghost use Rattle.dt_node.specs.NodeInWorld.{NodeStands};
ghost use Rattle.dt_node.specs.Steps.{HasTurned};
ghost use Rattle.dt_node.specs.Turn.{BeginsEagerly, HasTaken, IsSettled, MovesOn};
ghost use Rattle.dt_run.specs.SeatsInner.{SeatCan, SeatGoes, SeatTurned, new_seat, seen_out, waits_in};

use dt_node::Node;
use dt_proc::Procs;
use dt_region::{Region, Rounds};
use dt_ring::{RingIn, RingOut};
use dt_sched::Scheduler;
use dt_text::NoMemory;
use std::alloc::Global;
use std::marker::Model;
use std::mem;

/// A node with its ends of all links: what goes to a thread in a phase.
#[derive(Drop)]
pub struct Seat<S: Scheduler> {
    pub(crate) node: Node<S>,
    /// The links from the other regions, in ascending order of these.
    pub(crate) ins: Vec<RingIn>,
    /// The links to the other regions, in ascending order of these.
    pub(crate) outs: Vec<RingOut>,
    /// How many events the region had kept after each phase.
    pub(crate) marks: Vec<usize>,
    /// Whether its last turn failed.
    pub(crate) failed: bool,
}

impl<S: Scheduler> Model for Seat<S> {
    ghost use Rattle.dt_run.specs.NodesCode.{seat_code};
    ghost use Rattle.dt_run.specs.SeatsInner.{SeatView};

    ghost Value = { SeatView };

    ghost coded = { seat_code };

    ghost view = { λ s. record { node = s.node; ins = s.ins.items; outs = s.outs.items; marks = s.marks.items; failed = s.failed } };
}

impl<S: Scheduler + Drop> Seat<S> {
    /// A seat for a node, before its links are made. Takes no memory.
    pub fn new(alloc: Global, node: Node<S>) -> Self
        ensures { result ≡ new_seat node }
    {
        Seat {
            node,
            ins: Vec::new(alloc),
            outs: Vec::new(alloc),
            marks: Vec::new(alloc),
            failed: false,
        }
    }

    /// Puts the outlet of a new link behind those that it has.
    pub fn add_outlet(&mut self, out: RingOut) -> Result<(), NoMemory>
        ensures { OnOk result (self.new ≡ record self.old { outs = self.old.outs ++ out ∷ [] }) }
    {
        self.outs.push(out)?;
        Ok(())
    }

    /// Puts the inlet of a new link behind those that it has.
    pub fn add_inlet(&mut self, inlet: RingIn) -> Result<(), NoMemory>
        ensures { OnOk result (self.new ≡ record self.old { ins = self.old.ins ++ inlet ∷ [] }) }
    {
        self.ins.push(inlet)?;
        Ok(())
    }

    /// Takes all outlets out, until they are put back. Takes no memory.
    pub fn take_outlets(&mut self, alloc: Global) -> Vec<RingOut>
        ensures outlets { result.items ≡ self.old.outs }
        ensures seat { self.new ≡ record self.old { outs = [] } }
    {
        mem::replace(&mut self.outs, Vec::new(alloc))
    }

    /// Puts the outlets back that were taken out.
    pub fn put_outlets(&mut self, outs: Vec<RingOut>)
        ensures { self.new ≡ record self.old { outs = outs.items } }
    {
        self.outs = outs;
    }

    /// Makes a turn, whose rounds `rounds` makes, and notes whether it failed.
    pub fn turn<D: Rounds<Region<S>>>(&mut self, alloc: Global, procs: &Procs, rounds: &D)
        requires ready { D.ready rounds.now }
        requires can { SeatCan procs.now self.old }
        ensures { SeatGoes procs.now self.old self.new }
    {
        let failed = self.make_turn(alloc, procs, rounds).is_err();
        self.failed = failed;
    }

    /// Makes a turn, and adds a mark. It fails only if memory runs out.
    fn make_turn<D: Rounds<Region<S>>>(
        &mut self,
        alloc: Global,
        procs: &Procs,
        rounds: &D,
    ) -> Result<(), NoMemory>
        requires ready { D.ready rounds.now }
        requires can { SeatCan procs.now self.old }
        ensures once { MovesOn procs.now (flat_map waits_in self.old.ins) self.old.node self.new.node }
        ensures ins { Pairwise SameIn self.old.ins self.new.ins }
        ensures outs { Pairwise SameOut self.old.outs self.new.outs }
        ensures whole { OnOk result (SeatTurned procs.now self.old self.new) }
    {
        turn_node(
            &mut self.node,
            alloc,
            procs,
            rounds,
            self.ins.as_mut_slice(),
            self.outs.as_mut_slice(),
        )?;
        let kept = self.node.region().events().len();
        self.marks.push(kept)?;
        Ok(())
    }
}

/// Makes a turn of a node over the ends of its links. It fails only if memory runs out.
fn turn_node<S: Scheduler + Drop, D: Rounds<Region<S>>>(
    node: &mut Node<S>,
    alloc: Global,
    procs: &Procs,
    rounds: &D,
    ins: &mut [RingIn],
    outs: &mut [RingOut],
) -> Result<(), NoMemory>
    requires ready { D.ready rounds.now }
    requires stands { NodeStands procs.now (flat_map waits_in ins.old) node.old }
    requires ends { length outs.old + 1 ≡ node.old.site.region.state.regions }
    requires free { AllIn (λ out. 2 ≤ out.free) outs.old }
    requires turns { node.old.turns + 1 < 2 ^ 64 }
    ensures once { MovesOn procs.now (flat_map waits_in ins.old) node.old node.new }
    ensures ins { Pairwise SameIn ins.old ins.new }
    ensures outs { Pairwise SameOut outs.old outs.new }
    ensures emptied { OnOk result (flat_map waits_in ins.new ≡ []) }
    ensures steps { OnOk result (HasTurned procs.now (flat_map waits_in ins.old) node.old node.new) }
    ensures taken { OnOk result (HasTaken (flat_map waits_in ins.old) node.old node.new) }
    ensures settled { OnOk result (IsSettled node.old node.new) }
    ensures begins { OnOk result (flat_map waits_in ins.old ≡ [] → BeginsEagerly procs.now node.old node.new) }
    ensures sent { OnOk result (HasSent node.old node.new (map seen_out outs.old) (map seen_out outs.new)) }
    ensures whole { OnOk result ((target : ℕ) → target < node.new.site.region.state.regions → LeavesNothingOut node.new target) }
{
    node.turn(alloc, procs, rounds, ins, outs)
}

ghost use Rattle.std.specs.Prelude.{◌≡◌, ◌<◌, ◌≤◌, ◌+◌, ◌∷◌, [], List, flat_map, length, OnOk};
ghost use Rattle.dt_lists.specs.Lists.{Pairwise};
ghost use Rattle.dt_proc.specs.Tree.{ProcTree};
ghost use Rattle.dt_txn.specs.Replica.{taken_from};
ghost use Rattle.dt_node.specs.Turn.{HasPlacedOwn, HasTaken, MovesOn};
ghost use Rattle.dt_node.specs.Steps.{HasTakenEach, HasTakenOne};
ghost use Rattle.dt_node.specs.StepsInner.{HasPlaced, HasReceived, IsPlacedTo};
ghost use Rattle.dt_sched.specs.Views.{log_at};
ghost use Rattle.dt_node.specs.TurnInner.{CanTake, KnowsTheSame, asking_packet, logging_packet, noted};

use crate::node::Node;
use dt_packet::{Inlet, Packet};
use dt_sched::Scheduler;
use dt_text::{Common, NoMemory};
use dt_txn::{Entries, Txn, Txns};
use std::alloc::Global;

impl<S: Scheduler + Drop> Node<S> {
    /// The first step of a turn: takes every packet that waits, in ascending order of the regions that sent them.
    pub(crate) fn receive_all<I: Inlet>(
        &mut self,
        alloc: Global,
        ins: &mut [I],
    ) -> Result<(), NoMemory>
        requires can { CanTake (flat_map I.waits ins.old) self.old }
        ensures moved { (procs : List ProcTree) → MovesOn procs (flat_map I.waits ins.old) self.old self.new }
        ensures emptied { OnOk result (flat_map I.waits ins.new ≡ []) }
        ensures taken { OnOk result (HasTaken (flat_map I.waits ins.old) self.old self.new) }
        ensures each { OnOk result ((procs : List ProcTree) → HasTakenEach procs (flat_map I.waits ins.old) self.old self.new) }
        ensures turns { self.new.turns ≡ self.old.turns }
        ensures sessions { self.new.sessions ≡ self.old.sessions }
        ensures placed { HasPlacedOwn self.old → HasPlacedOwn self.new }
        ensures many { length ins.new ≡ length ins.old }
        ensures same { (first : List I) → Pairwise I.same first ins.old → Pairwise I.same first ins.new }

        // Where no packet waits, nothing changes.
        ensures still { flat_map I.waits ins.old ≡ [] → self.new ≡ self.old }
    {
        for inlet in ins.iter_mut() {
            self.receive_from(alloc, inlet)?;
        }
        Ok(())
    }

    /// Takes every packet that waits at an inlet.
    fn receive_from<I: Inlet>(&mut self, alloc: Global, inlet: &mut I) -> Result<(), NoMemory>
        requires can { CanTake (I.waits inlet.old) self.old }
        ensures moved { (procs : List ProcTree) → MovesOn procs (I.waits inlet.old) self.old self.new }
        ensures emptied { OnOk result (I.waits inlet.new ≡ []) }
        ensures taken { OnOk result (HasTaken (I.waits inlet.old) self.old self.new) }
        ensures each { OnOk result ((procs : List ProcTree) → HasTakenEach procs (I.waits inlet.old) self.old self.new) }
        ensures turns { self.new.turns ≡ self.old.turns }
        ensures sessions { self.new.sessions ≡ self.old.sessions }
        ensures placed { HasPlacedOwn self.old → HasPlacedOwn self.new }
        ensures same { (first : I) → I.same first inlet.old → I.same first inlet.new }
        ensures still { I.waits inlet.old ≡ [] → self.new ≡ self.old }
    {
        while let Some(packet) = inlet.take() {
            self.receive(alloc, packet)?;
        }
        Ok(())
    }

    /// Takes a packet: hears its stamp, places its requests, receives its entries, and notes how far its source has come.
    fn receive(&mut self, alloc: Global, packet: Packet) -> Result<(), NoMemory>
        requires can { CanTake (packet ∷ []) self.old }
        ensures moved { (procs : List ProcTree) → MovesOn procs (packet ∷ []) self.old self.new }
        ensures taken { OnOk result (HasTaken (packet ∷ []) self.old self.new) }
        ensures one { OnOk result ((procs : List ProcTree) → HasTakenOne procs packet self.old self.new) }
        ensures turns { self.new.turns ≡ self.old.turns }
        ensures sessions { self.new.sessions ≡ self.old.sessions }
        ensures placed { HasPlacedOwn self.old → HasPlacedOwn self.new }
    {
        let Packet {
            source,
            stamp,
            asked_at,
            asked,
            log_at,
            entries,
            took,
            received,
            ..
        } = packet;
        self.site.region.hear(stamp);
        self.place_all(alloc, source, asked_at, asked)?;
        self.receive_entries(alloc, source, log_at, entries)?;
        self.note(source, took, received);
        Ok(())
    }

    /// Places requests of a region, of which the first has this number. Those that are placed already change nothing.
    fn place_all(
        &mut self,
        alloc: Global,
        source: u8,
        first: u32,
        asked: Txns,
    ) -> Result<(), NoMemory>
        requires can { CanTake (asking_packet self.old source first asked ∷ []) self.old }
        ensures moved { (procs : List ProcTree) → MovesOn procs (asking_packet self.old source first asked ∷ []) self.old self.new }
        ensures taken { OnOk result (first + length asked ≤ taken_from self.new.site.region.state.here source) }
        ensures append { OnOk result (HasPlaced source self.old self.new) }
        ensures count { OnOk result (IsPlacedTo source (first + length asked) self.old self.new) }
        ensures knows { KnowsTheSame self.old self.new }
        ensures sessions { self.new.sessions ≡ self.old.sessions }
        ensures placed { HasPlacedOwn self.old → HasPlacedOwn self.new }
    {
        let mut number = first;
        for txn in asked.into_vec() {
            self.place_one(alloc, source, number, txn)?;
            number += 1;
        }
        Ok(())
    }

    /// Places a request of a region, which has this number. If it is placed already, nothing changes.
    fn place_one(
        &mut self,
        alloc: Global,
        source: u8,
        number: u32,
        txn: Common<Txn>,
    ) -> Result<(), NoMemory>
        requires can { CanTake (asking_packet self.old source number (txn ∷ []) ∷ []) self.old }
        ensures moved { (procs : List ProcTree) → MovesOn procs (asking_packet self.old source number (txn ∷ []) ∷ []) self.old self.new }
        ensures taken { OnOk result (number + 1 ≤ taken_from self.new.site.region.state.here source) }
        ensures append { OnOk result (HasPlaced source self.old self.new) }
        ensures count { OnOk result (IsPlacedTo source (number + 1) self.old self.new) }
        ensures knows { KnowsTheSame self.old self.new }
        ensures sessions { self.new.sessions ≡ self.old.sessions }
        ensures placed { HasPlacedOwn self.old → HasPlacedOwn self.new }
    {
        self.site.region.append_owned(alloc, source, number, txn)?;
        Ok(())
    }

    /// Receives entries of the log of a region, of which the first has this place. Those that are received already change
    /// nothing.
    fn receive_entries(
        &mut self,
        alloc: Global,
        source: u8,
        first: u32,
        entries: Entries,
    ) -> Result<(), NoMemory>
        requires can { CanTake (logging_packet self.old source first entries ∷ []) self.old }
        ensures moved { (procs : List ProcTree) → MovesOn procs (logging_packet self.old source first entries ∷ []) self.old self.new }
        ensures taken { OnOk result (first + length entries ≤ length (log_at self.new.site.region.state.logs source)) }
        ensures receives { OnOk result (HasReceived source first (first + length entries) self.old self.new) }
        ensures knows { KnowsTheSame self.old self.new }
        ensures sessions { self.new.sessions ≡ self.old.sessions }
        ensures placed { HasPlacedOwn self.old → HasPlacedOwn self.new }
    {
        self.site
            .region
            .deliver(alloc, source, first, first, entries.into_vec())?;
        Ok(())
    }

    /// Notes how far a region has come with this one's requests and log, where that is more than was known.
    fn note(&mut self, source: u8, took: u32, received: u32)
        requires took { source < length self.old.took }
        requires received { source < length self.old.received }
        ensures { self.new ≡ noted self.old source took received }
    {
        let known = &mut self.took[source as usize];
        *known = (*known).max(took);
        let known = &mut self.received[source as usize];
        *known = (*known).max(received);
    }
}

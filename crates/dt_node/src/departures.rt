ghost use Rattle.std.specs.Prelude.{◌≡◌, ◌<◌, ◌≤◌, ◌+◌, ◌^◌, ◌++◌, List, [], filter_map, get_or, length, map, min, option_to_list, vec_len, IfOk, IfSome, OnOk};
ghost use Rattle.dt_lists.specs.Lists.{AllIn, Pairwise};
ghost use Rattle.dt_region.specs.Region.{held};
ghost use Rattle.dt_node.specs.NodeView.{entry_held, most_items, other_at, packet_for, stretch_from};
ghost use Rattle.dt_node.specs.TurnPackets.{HasSent};
ghost use Rattle.dt_node.specs.TurnPacketsInner.{HasEntriesOf, IsReady, entries_from, packets_for, put_at, put_one};

use crate::node::Node;
use dt_access::{Part, TryCopy, TxnId};
use dt_packet::{Outlet, Packet, Verdict};
use dt_region::Region;
use dt_sched::Scheduler;
use dt_text::{Common, NoMemory};
use dt_txn::{Entries, Entry, Txns};
use std::alloc::Global;

/// The most requests, and the most entries, that a packet has.
const MOST_ITEMS: usize = 256;

impl<S: Scheduler + Drop> Node<S> {
    /// The last step of a turn: sends one packet to each other region, as often as the plan says. All packets are made before
    /// the first is put.
    pub(crate) fn send<O: Outlet>(&mut self, alloc: Global, outs: &mut [O]) -> Result<(), NoMemory>
        requires ready { IsReady self.old }
        requires ends { length outs.old + 1 ≡ self.old.site.region.state.regions }
        requires places { AllIn (λ out. 2 ≤ (O.seen out).free) outs.old }
        requires turns { self.old.turns + 1 < 2 ^ 64 }
        ensures still { self.new ≡ record self.old { turns = self.old.turns + 1 } }
        ensures sent { OnOk result (HasSent self.old self.new (map O.seen outs.old) (map O.seen outs.new)) }
        ensures same { (first : List O) → Pairwise O.same first outs.old → Pairwise O.same first outs.new }
    {
        self.turns += 1;
        match self.plan.verdict(self.turns) {
            Verdict::Lost => Ok(()),
            Verdict::Pass => {
                let packets = self.packets(alloc, outs.len())?;
                put_all(outs, packets);
                Ok(())
            }
            Verdict::Twice => {
                let packets = self.packets(alloc, outs.len())?;
                let again = self.packets(alloc, outs.len())?;
                put_all(outs, packets);
                put_all(outs, again);
                Ok(())
            }
        }
    }

    /// The packet for the other region of each of the links.
    fn packets(&self, alloc: Global, links: usize) -> Result<Vec<Packet>, NoMemory>
        requires ready { IsReady self.now }
        requires links { links + 1 ≡ self.now.site.region.state.regions }
        ensures { IfOk result (λ packets. packets.items ≡ packets_for self.now links) }
    {
        let me = self.site.region.number();
        let mut packets = Vec::with_capacity(alloc, links)?;
        for link in 0..links {
            let packet = self.packet(
                alloc,
                other_region(me as usize, link) as u8,
                packets.as_slice().last(),
            )?;
            packets.push(packet)?;
        }
        Ok(packets)
    }

    /// The packet for another region: all that this one is not known to have, as far as there is room. `made` is the one
    /// that was made before it, if there is one: where that begins at the same place, its entries are copied.
    fn packet(&self, alloc: Global, target: u8, made: Option<&Packet>) -> Result<Packet, NoMemory>
        requires ready { IsReady self.now }
        requires target { target < self.now.site.region.state.regions }
        requires made { IfSome made (λ packet. HasEntriesOf self.now.site.region.state packet.now) }
        ensures { IfOk result (λ packet. packet ≡ packet_for self.now target) }
    {
        let region = &self.site.region;
        let asked_at = self.took[target as usize];
        let log_at = self.received[target as usize];
        Ok(Packet {
            source: region.number(),
            target,
            stamp: region.stamp(),
            asked_at,
            asked: requests(alloc, region, target, asked_at)?,
            log_at,
            entries: entries_as_made(alloc, region, log_at, made)?,
            took: region.taken(target),
            received: region.log(target).len(),
        })
    }
}

/// The region at the other end of a region's link of this number: the links are to all other regions, in ascending order.
pub fn other_region(me: usize, link: usize) -> usize
    requires { link + 1 < 2 ^ 64 }
    ensures { result ≡ other_at me link }
{
    if link < me { link } else { link + 1 }
}

/// What a region asked another one to place, from its request of this number on, as far as a packet has room.
fn requests<S: Scheduler>(
    alloc: Global,
    region: &Region<S>,
    target: u8,
    first: u32,
) -> Result<Txns, NoMemory>
    requires { target < region.now.state.regions }
    ensures { IfOk result (λ txns. txns ≡ filter_map (held region.now.state) (stretch_from first (get_or region.now.state.here.asked target []))) }
{
    let asked = region.asked(target);
    let end = end_from(first, asked.len());
    let mut txns = Txns::new(alloc);
    txns.reserve(end.saturating_sub(first as usize))?;
    for place in first as usize..end {
        put_held(&mut txns, region, asked[place])?;
    }
    Ok(txns)
}

/// Appends the transaction of an id, if the region holds it.
fn put_held<S: Scheduler>(txns: &mut Txns, region: &Region<S>, id: TxnId) -> Result<(), NoMemory>
    ensures { OnOk result (txns.new ≡ txns.old ++ option_to_list (held region.now.state id)) }
{
    let Some(txn) = region.common_txn(id) else {
        return Ok(());
    };
    txns.push(txn.copy()?)?;
    Ok(())
}

/// The entries of a region's own log, from this place on, as far as a packet has room. They are copied from a packet that was made
/// before, if that has the same, since each region is mostly known to have as much as the others.
fn entries_as_made<S: Scheduler>(
    alloc: Global,
    region: &Region<S>,
    first: u32,
    made: Option<&Packet>,
) -> Result<Entries, NoMemory>
    requires { IfSome made (λ packet. HasEntriesOf region.now.state packet.now) }
    ensures { IfOk result (λ entries. entries ≡ entries_from region.now.state first) }
{
    match made {
        Some(packet) if packet.log_at == first => packet.entries.copy(alloc),
        _ => entries(alloc, region, first),
    }
}

/// The entries of a region's own log, from this place on, as far as a packet has room.
fn entries<S: Scheduler>(alloc: Global, region: &Region<S>, first: u32) -> Result<Entries, NoMemory>
    ensures { IfOk result (λ entries. entries ≡ entries_from region.now.state first) }
{
    let log = region.log(region.number());
    let end = end_from(first, log.len() as usize);
    let mut entries = Entries::new(alloc);
    entries.reserve(end.saturating_sub(first as usize))?;
    for place in first as usize..end {
        let Some(part) = log.common(place as u32) else {
            unreachable!()
        };
        put_entry(&mut entries, region, part)?;
    }
    Ok(entries)
}

/// Appends the entry of a part, if the region holds its transaction.
fn put_entry<S: Scheduler>(
    entries: &mut Entries,
    region: &Region<S>,
    part: &Common<Part>,
) -> Result<(), NoMemory>
    ensures { OnOk result (entries.new ≡ entries.old ++ option_to_list (entry_held region.now.state part.now)) }
{
    let Some(txn) = region.common_txn(part.get().id) else {
        return Ok(());
    };
    entries.push(Entry {
        part: part.copy()?,
        txn: txn.copy()?,
    })?;
    Ok(())
}

/// Where a packet that begins at this place of a list of this length ends.
fn end_from(first: u32, length: usize) -> usize
    ensures { result ≡ min length (first + most_items) }
{
    length.min(first as usize + MOST_ITEMS)
}

/// Puts one packet on each outlet.
fn put_all<O: Outlet>(outs: &mut [O], packets: Vec<Packet>)
    requires many { vec_len packets ≡ length outs.old }
    requires places { AllIn (λ out. 1 ≤ (O.seen out).free) outs.old }
    ensures put { map O.seen outs.new ≡ put_at (map O.seen outs.old) packets.items }
    ensures same { (first : List O) → Pairwise O.same first outs.old → Pairwise O.same first outs.new }
{
    let mut link = 0;
    for packet in packets {
        put(&mut outs[link], packet);
        link += 1;
    }
}

/// Puts a packet on an outlet.
fn put<O: Outlet>(out: &mut O, packet: Packet)
    requires { 1 ≤ (O.seen out.old).free }
    ensures put { O.seen out.new ≡ put_one (O.seen out.old) packet }
    ensures same { (first : O) → O.same first out.old → O.same first out.new }
{
    match out.put(packet) {
        Ok(()) => (),
        Err(_) => unreachable!(),
    }
}

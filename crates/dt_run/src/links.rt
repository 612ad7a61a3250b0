//! The links between all regions: how they are made, and how their ends are brought beside each other.
ghost use Rattle.std.specs.Prelude.{◌≡◌, ◌≢◌, ◌<◌, [], get_or, length, map, OnOk};
ghost use Rattle.dt_lists.specs.Lists.{AllIn};
ghost use Rattle.dt_ring.specs.Rings.{RingInView};
ghost use Rattle.dt_run.specs.LinksInner.{BesideSoFar, InletGoes, LinkAdded, LinkGoes, LinksGo, RowApart, RowSoFar};
ghost use Rattle.dt_run.specs.NodesView.{link_to};
ghost use Rattle.dt_run.specs.SeatsInner.{EndsAreApart, AreBeside, AreLinkedBy, AreNew, new_seat, seat_at};

use crate::seat::Seat;
use dt_node::other_region;
use dt_ring::{RingIn, RingOut, beside, ring};
use dt_sched::Scheduler;
use dt_text::NoMemory;
use std::alloc::Global;

/// How many places a link has. At most two packets wait on one.
const PLACES: u32 = 8;

/// Makes a link from each seat to each other one.
pub fn link_all<S: Scheduler + Drop>(alloc: Global, seats: &mut [Seat<S>]) -> Result<(), NoMemory>
    requires { AreNew seats.old }
    ensures nodes { OnOk result (map (λ s. new_seat s.node) seats.new ≡ seats.old) }
    ensures marks { OnOk result (AllIn (λ s. s.marks ≡ []) seats.new) }
    ensures linked { OnOk result (AreLinkedBy AreBeside seats.new) }
    ensures empty { OnOk result (AllIn (λ s. AllIn (λ inlet. inlet.waits ≡ []) s.ins) seats.new) }
{
    for region in 0..seats.len() {
        for other in 0..region {
            link(alloc, seats, region, other)?;
            link(alloc, seats, other, region)?;
        }
    }
    Ok(())
}

/// Makes a link from one seat to another, and puts its ends behind those that the two seats have.
fn link<S: Scheduler + Drop>(
    alloc: Global,
    seats: &mut [Seat<S>],
    source: usize,
    target: usize,
) -> Result<(), NoMemory>
    requires source { source < length seats.old }
    requires target { target < length seats.old }
    ensures { OnOk result (LinkAdded source target seats.old seats.new) }
{
    let (out, inlet) = ring(alloc, PLACES)?;
    seats[source].add_outlet(out)?;
    seats[target].add_inlet(inlet)?;
    Ok(())
}

/// Brings the two ends of each link beside each other: what was put since becomes known to wait. Takes no memory.
pub fn beside_all<S: Scheduler + Drop>(alloc: Global, seats: &mut [Seat<S>])
    requires { AreLinkedBy EndsAreApart seats.old }
    ensures { BesideSoFar (length seats.old) seats.old seats.new }
{
    for source in 0..seats.len() {
        beside_from(alloc, seats, source);
    }
}

/// Brings each of the outlets of one seat beside its inlet.
fn beside_from<S: Scheduler + Drop>(alloc: Global, seats: &mut [Seat<S>], source: usize)
    requires { RowApart source (seat_at seats.old source).outs seats.old }
    ensures { LinksGo source seats.old seats.new }
{
    let mut row = seats[source].take_outlets(alloc);
    beside_row(row.as_mut_slice(), seats, source);
    seats[source].put_outlets(row);
}

/// Brings each of some outlets, which were taken out of a seat, beside its inlet.
fn beside_row<S: Scheduler + Drop>(row: &mut [RingOut], seats: &mut [Seat<S>], source: usize)
    requires { RowApart source row.old seats.old }
    ensures { RowSoFar source (length row.old) row.old seats.old row.new seats.new }
{
    for link in 0..row.len() {
        let target = other_region(source, link);
        beside_inlet(
            &mut row[link],
            &mut seats[target],
            link_number(target, source),
        );
    }
}

/// The number, at a region, of its link to another one, or of its link from it.
fn link_number(region: usize, other: usize) -> usize
    requires { other ≢ region }
    ensures { result ≡ link_to region other }
{
    if other < region { other } else { other - 1 }
}

/// Brings an outlet beside the inlet at this place of a seat.
fn beside_inlet<S: Scheduler + Drop>(out: &mut RingOut, seat: &mut Seat<S>, place: usize)
    requires within { place < length seat.old.ins }
    requires apart { (e : RingInView) → EndsAreApart out.old (get_or seat.old.ins place e) }
    ensures { InletGoes place out.old seat.old out.new seat.new }
{
    beside_one(out, &mut seat.ins[place]);
}

/// Brings the two ends of a link beside each other. Takes no memory.
fn beside_one(out: &mut RingOut, inlet: &mut RingIn)
    requires { EndsAreApart out.old inlet.old }
    ensures { LinkGoes out.old inlet.old out.new inlet.new }
{
    match beside(out, inlet) {
        Ok(()) => (),
        Err(_) => unreachable!(),
    }
}

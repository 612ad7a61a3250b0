//! The turns of a phase: one at every seat, by helpers that are kept over all phases, or in threads that are started for it.
ghost use Rattle.std.specs.Prelude.{◌<◌, length, All, OnOk};
ghost use Rattle.dt_region.specs.Rounds.{CanRound, Continues};
ghost use Rattle.dt_txn.specs.Replica.{IsDrained};
ghost use Rattle.dt_run.specs.SeatsInner.{EachGoes, SeatCan, SeatGoes};
ghost use Rattle.dt_run.specs.HelpersInner.{LendsTurns};

use crate::seat::Seat;
use dt_lock::{By, Gate, round};
use dt_pool::{Helper, Lending, lend_last, take_back};
use dt_proc::Procs;
use dt_region::Region;
use dt_sched::Scheduler;
use dt_text::NoMemory;
use std::alloc::Global;
use std::sync::Wait;
use std::thread;
use std::thread::Threads;

/// One turn at every seat. Where there are helpers, each makes the turn of one of the last seats; else the turns are made in n
/// threads, where they can be made.
pub fn turn_with<
    S: Scheduler + Drop + Send,
    R: Threads + Wait + Sync,
    G: Gate,
    N: Lending<Seat<S>>,
>(
    rt: &R,
    alloc: Global,
    seats: &mut Vec<Seat<S>>,
    procs: &Procs,
    workers: u32,
    gate: &G,
    threads: usize,
    helpers: &mut [Helper<Seat<S>, N>],
)
    requires threads { 0 < threads }
    requires can { All (SeatCan procs.now) seats.old.items }
    requires turns { 0 < length helpers.old → LendsTurns procs.now N.can N.goes }
    ensures { EachGoes procs.now seats.old.items seats.new.items }
{
    if helpers.is_empty() || seats.len() <= helpers.len() {
        turn_all(
            rt,
            alloc,
            seats.as_mut_slice(),
            procs,
            workers,
            gate,
            threads,
        );
        return;
    }
    lend_last(rt, seats, helpers);
    turn_all(rt, alloc, seats.as_mut_slice(), procs, workers, gate, 1);
    take_back(rt, seats, helpers);
}

/// One turn at every seat, in n threads where they can be made.
fn turn_all<S: Scheduler + Drop + Send, R: Threads + Wait + Sync, G: Gate>(
    rt: &R,
    alloc: Global,
    seats: &mut [Seat<S>],
    procs: &Procs,
    workers: u32,
    gate: &G,
    threads: usize,
)
    requires threads { 0 < threads }
    requires can { All (SeatCan procs.now) seats.old }
    ensures { EachGoes procs.now seats.old seats.new }
{
    thread::for_each_mut(
        rt,
        seats,
        threads,
        &|_, seat: &mut Seat<S>|
            requires { SeatCan procs.now seat.now }
            ensures { SeatGoes procs.entry.now seat.entry.now seat.exit.now }
        {
            turn_seat(rt, alloc, seat, procs, workers, gate);
        },
    );
}

/// One turn at a seat, with rounds of n workers.
pub fn turn_seat<S: Scheduler + Drop + Send, R: Threads + Wait + Sync, G: Gate>(
    rt: &R,
    alloc: Global,
    seat: &mut Seat<S>,
    procs: &Procs,
    workers: u32,
    gate: &G,
)
    requires { SeatCan procs.now seat.old }
    ensures { SeatGoes procs.now seat.old seat.new }
{
    let rounds = By {
        by: |alloc: Global, region: &mut Region<S>, procs: &Procs| -> Result<(), NoMemory>
            requires { CanRound procs.now region.now }
            ensures continues { Continues procs.now region.entry.now region.exit.now }
            ensures drained { OnOk result (IsDrained region.exit.now.state.logs region.exit.now.state.here) }
        { round(rt, alloc, region, procs, workers, gate) },
    };
    seat.turn(alloc, procs, &rounds);
}

//! Rounds of a region, to which parts of logs came.
ghost use Rattle.std.specs.Prelude.{◌≡◌, ◌<◌, ◌≤◌, List, [], IfOk, OnOk};
ghost use Rattle.dt_proc.specs.Tree.{ProcTree};
ghost use Rattle.dt_region.specs.Rounds.{CanRound};
ghost use Rattle.dt_table.specs.Table.{opening};
ghost use Rattle.dt_test_round.specs.BegunRegion.{begun_region, begun_rows};
ghost use Rattle.dt_test_round.specs.FedRegion.{WasFed};

use crate::calls::Call;
use crate::feeding::{Row, feed_all};
use crate::outcomes::put_outcomes;
use crate::requests::{Submitted, submit_all};
use dt_access::TxnId;
use dt_events::{Stamped, put_event};
use dt_graph::QueueSched;
use dt_lock::{Gate, NoGate, round};
use dt_plain::PlainSched;
use dt_proc::{Procs, builtin_procs};
use dt_region::{Alone, Region, Rounds};
use dt_sched::Scheduler;
use dt_table::Table;
use dt_test_texts::{exact_key, wrong};
use dt_text::{Value, put_u64};
use std::alloc::Global;
use std::mem::forget;
use std::sync::Wait;
use std::test::Fail;
use std::thread::Threads;

/// Appends an event behind its stamp.
fn put_stamped(alloc: Global, told: &mut Vec<u8>, kept: &Stamped) -> Result<(), Fail> {
    put_u64(alloc, told, kept.stamp)?;
    told.push(b' ')?;
    put_event(alloc, told, &kept.event)?;
    Ok(())
}

/// Appends the events of a region from a place on, each behind its stamp, and at last whether it is drained.
pub fn put_events<S: Scheduler>(
    alloc: Global,
    told: &mut Vec<u8>,
    region: &Region<S>,
    place: usize,
) -> Result<(), Fail> {
    for kept in region.events().iter().skip(place) {
        put_stamped(alloc, told, kept)?;
    }
    let drained = if region.drained(alloc)? {
        b"true".as_slice()
    } else {
        b"false".as_slice()
    };
    told.extend_from_slice(drained)?;
    Ok(())
}

/// What came to a region before its round: its number in a cluster of n regions, what its sessions submitted, and the parts of
/// logs, in their order.
#[derive(Clone, Copy)]
pub struct Story<'a> {
    pub number: u8,
    pub regions: u8,
    pub calls: &'a [Submitted<'a>],
    pub rows: &'a [Row<'a>],
}

/// What is reported of a region after a round: its events, in their order, and whether it is drained; or what it came to, whatever
/// the order was.
#[derive(Clone, Copy)]
pub enum RoundReport {
    Events,
    Outcomes,
}

/// A table with the rows `a` and `b`.
fn opened(alloc: Global, regions: u8) -> Result<Table, Fail>
    requires { 0 < regions }
    ensures { IfOk result (λ table. table.state ≡ opening 1 regions [] begun_rows) }
{
    let rows = [
        (exact_key(alloc, b"a")?, Value::Int(10)),
        (exact_key(alloc, b"b")?, Value::Int(10)),
    ];
    Ok(Table::new(alloc, 1, regions, &[], rows.as_slice())?)
}

/// A region that has done nothing, with the rows `a` and `b`.
pub fn begun<S: Scheduler>(alloc: Global, number: u8, regions: u8) -> Result<Region<S>, Fail>
    requires number { number < regions }
    requires regions { regions ≤ 8 }
    ensures region { IfOk result (λ region. region ≡ begun_region number regions) }
    ensures fed { (procs : List ProcTree) → IfOk result (WasFed procs 0) }
{
    let table = opened(alloc, regions)?;
    Ok(Region::new(alloc, number, regions, table)?)
}

/// All this comes to a region, which may make a round then.
pub fn feed<S: Scheduler>(
    alloc: Global,
    region: &mut Region<S>,
    procs: &Procs,
    story: Story,
) -> Result<(), Fail>
    requires { WasFed procs.now 0 region.old }
    ensures { OnOk result (CanRound procs.now region.new) }
{
    submit_all(alloc, region, procs, story.calls)?;
    feed_all(alloc, region, procs, story.calls.len(), story.rows)?;
    Ok(())
}

/// All this comes to a region, which then makes a round, alone or by so many workers that pass this gate.
fn go_on<R: Threads + Wait + Sync, S: Scheduler + Drop + Send, G: Gate>(
    rt: &R,
    alloc: Global,
    region: &mut Region<S>,
    procs: &Procs,
    story: Story,
    workers: Option<u32>,
    gate: &G,
) -> Result<(), Fail>
    requires fed { WasFed procs.now 0 region.old }
{
    feed(alloc, region, procs, story)?;
    match workers {
        Some(workers) => round(rt, alloc, region, procs, workers, gate)?,
        None => Alone.round(alloc, region, procs)?,
    }
    Ok(())
}

/// What is reported of a region after its round.
fn tell<S: Scheduler>(
    alloc: Global,
    region: &Region<S>,
    story: Story,
    report: RoundReport,
) -> Result<Vec<u8>, Fail> {
    let mut told = Vec::new(alloc);
    let count = story.calls.len().saturating_add(story.rows.len());
    match report {
        RoundReport::Events => put_events(alloc, &mut told, region, count)?,
        RoundReport::Outcomes => put_outcomes(alloc, &mut told, region, story.rows)?,
    }
    Ok(told)
}

/// What a region makes of all this in one round, which are calls of these procedures, alone or by so many workers that pass this gate.
/// The region is left to the end of the process: that it may be dropped would be proved again here.
pub fn told_of<R: Threads + Wait + Sync, S: Scheduler + Drop + Send, G: Gate>(
    rt: &R,
    alloc: Global,
    procs: &Procs,
    story: Story,
    workers: Option<u32>,
    gate: &G,
    report: RoundReport,
) -> Result<Vec<u8>, Fail> {
    if story.number >= story.regions || story.regions > 8 {
        return Err(Fail::from("the region is one of eight at most"));
    }
    let mut region: Region<S> = begun(alloc, story.number, story.regions)?;
    let told = match go_on(rt, alloc, &mut region, procs, story, workers, gate) {
        Ok(()) => tell(alloc, &region, story, report),
        Err(fail) => Err(fail),
    };
    forget(region);
    told
}

/// In a cluster of four the home of `d` and `h` is region 0, that of `a` region 1 and that of `b` region 2.
pub const DA: Call<'static> = (b"xfer", &[b"d", b"a", b"3"]);

pub const AD: Call<'static> = (b"xfer", &[b"a", b"d", b"4"]);

const AB: Call<'static> = (b"xfer", &[b"a", b"b", b"1"]);

const BD: Call<'static> = (b"xfer", &[b"b", b"d", b"1"]);

pub const PUT: Call<'static> = (b"put", &[b"d", b"20"]);

pub const PUT_H: Call<'static> = (b"put", &[b"h", b"30"]);

pub const GET: Call<'static> = (b"get", &[b"d"]);

/// In a cluster of two the home of `a` is region 1, and that of `b` region 0.
const BA: Call<'static> = (b"xfer", &[b"b", b"a", b"3"]);

const AB_4: Call<'static> = (b"xfer", &[b"a", b"b", b"4"]);

/// What comes to region 3 of four: parts of the logs of others.
pub fn parts<'a>(rows: &'a [Row<'a>]) -> Story<'a> {
    Story {
        number: 3,
        regions: 4,
        calls: &[],
        rows,
    }
}

/// What comes to a region, and what a round makes of it: one of two texts, where two transactions may run in either order.
const ROUNDS: &[(Story<'static>, &[u8], &[u8])] = &[
    // Two payments that cross, of which one is the region's own: its own log has their parts in another order than the other one.
    (
        Story {
            number: 0,
            regions: 2,
            calls: &[(b"p", BA)],
            rows: &[
                (0, 1, 0, BA),
                (0, 1, 1, AB_4),
                (1, 1, 1, AB_4),
                (1, 1, 0, BA),
            ],
        },
        b"6 insert 0 0\n7 insert 0 0\n8 insert 0 1\n9 insert 0 1\n10 resolve 0 1.0 1.1\n11 execute 0 1.0\n12 execute 0 1.1\ntrue",
        b"",
    ),
    // Two that wait for each other run once they are resolved, in the order of their ids.
    (
        Story {
            number: 3,
            regions: 4,
            calls: &[],
            rows: &[(0, 1, 0, DA), (0, 1, 1, AD), (1, 1, 1, AD), (1, 1, 0, DA)],
        },
        b"5 insert 3 0\n6 insert 3 0\n7 insert 3 1\n8 insert 3 1\n9 resolve 3 1.0 1.1\n10 execute 3 1.0\n11 execute 3 1.1\ntrue",
        b"",
    ),
    // A group of three waits for what reaches it from outside.
    (
        Story {
            number: 3,
            regions: 4,
            calls: &[],
            rows: &[
                (0, 1, 0, PUT),
                (0, 2, 0, DA),
                (0, 1, 2, BD),
                (1, 1, 1, AB),
                (1, 2, 0, DA),
                (2, 1, 2, BD),
                (2, 1, 1, AB),
            ],
        },
        b"8 insert 3 0\n9 insert 3 0\n10 insert 3 0\n11 insert 3 1\n12 insert 3 1\n13 insert 3 2\n14 insert 3 2\n15 execute 3 1.0\n16 resolve 3 1.1 1.2 2.0\n17 execute 3 1.1\n18 execute 3 1.2\n19 execute 3 2.0\ntrue",
        b"",
    ),
    // Reads run in any order, and a write after both.
    (
        Story {
            number: 3,
            regions: 4,
            calls: &[],
            rows: &[(0, 1, 0, GET), (0, 2, 0, GET), (0, 3, 0, PUT)],
        },
        b"4 insert 3 0\n5 insert 3 0\n6 insert 3 0\n7 execute 3 1.0\n8 execute 3 2.0\n9 execute 3 3.0\ntrue",
        b"4 insert 3 0\n5 insert 3 0\n6 insert 3 0\n7 execute 3 2.0\n8 execute 3 1.0\n9 execute 3 3.0\ntrue",
    ),
    // Nothing runs while a home lacks its part.
    (
        Story {
            number: 3,
            regions: 4,
            calls: &[],
            rows: &[(0, 1, 0, DA), (0, 1, 1, AD)],
        },
        b"3 insert 3 0\n4 insert 3 0\ntrue",
        b"",
    ),
];

/// Fails at the first of these cases of which a round, alone or by so many workers that pass this gate, makes none of its texts.
fn check_by<R: Threads + Wait + Sync, S: Scheduler + Drop + Send, G: Gate>(
    rt: &R,
    alloc: Global,
    procs: &Procs,
    workers: Option<u32>,
    gate: &G,
) -> Result<(), Fail> {
    for (row, (story, want, other)) in ROUNDS.iter().enumerate() {
        let told = told_of::<R, S, G>(
            rt,
            alloc,
            procs,
            *story,
            workers,
            gate,
            RoundReport::Events,
        )?;
        if told.as_slice() != *want && told.as_slice() != *other {
            return Err(wrong(row));
        }
    }
    Ok(())
}

/// The same with the built-in procedures, which are left to the end of the process, too.
fn check<R: Threads + Wait + Sync, S: Scheduler + Drop + Send, G: Gate>(
    rt: &R,
    alloc: Global,
    workers: Option<u32>,
    gate: &G,
) -> Result<(), Fail> {
    let procs = builtin_procs(alloc)?;
    let checked = check_by::<R, S, G>(rt, alloc, &procs, workers, gate);
    forget(procs);
    checked
}

/// A gate that lets everyone pass, but might hold them: so each claim gets a worker of its own.
#[derive(Drop)]
pub struct Open;

impl Gate for Open {
    fn between(&self, _id: TxnId) {}
}

#[test]
fn a_region_goes_on_alone_until_nothing_is_left(rt: HostRuntime) -> Result<(), Fail> {
    check::<_, PlainSched, _>(&rt, rt.alloc(), None, &NoGate)?;
    check::<_, QueueSched, _>(&rt, rt.alloc(), None, &NoGate)
}

#[test]
fn a_round_by_threads_makes_what_one_alone_makes(rt: HostRuntime) -> Result<(), Fail> {
    check::<_, PlainSched, _>(&rt, rt.alloc(), Some(4), &Open)?;
    check::<_, QueueSched, _>(&rt, rt.alloc(), Some(4), &Open)
}

#[test]
fn a_round_of_short_calls_or_without_workers_makes_the_same(rt: HostRuntime) -> Result<(), Fail> {
    check::<_, QueueSched, _>(&rt, rt.alloc(), Some(4), &NoGate)?;
    check::<_, QueueSched, _>(&rt, rt.alloc(), Some(0), &NoGate)
}

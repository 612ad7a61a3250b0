//! Deadlocked groups of many members, with the report that is to come of each.
use crate::scripts::{File, Play, Script};
use crate::sizes::{one_home_each, one_row_each};
use std::test::Fail;

/// Transfers in a circle, one at each of n regions: from the row of its region, which has 10 more than the number of the region,
/// to the row of the next one, and of the last region to that of the first. The ids are these; the ranks are one, or descend while the
/// ids ascend.
pub fn circle(play: &mut Play, regions: u32, ids: &str, descending: bool) -> Result<(), Fail> {
    one_home_each(&mut play.cluster, regions)?;
    play.cluster.add("[rows]", &[])?;
    for region in 0..regions {
        let value = region.saturating_add(10);
        play.cluster.add("k# = #", &[region, value])?;
        play.workload.add("session s# at #", &[region, region])?;
        let rank = if descending { 9 - region.min(9) } else { 5 };
        let next = next_of(regions, region);
        play.workload
            .add("call/# xfer \"k#\" \"k#\" 1", &[rank, region, next])?;
    }
    place_circle(&mut play.events, regions)?;
    for region in 0..regions {
        run_circle(&mut play.events, (regions, ids), descending, region)?;
    }
    report_circle(&mut play.report, regions, descending)
}

/// The region after this one, and after the last one the first.
fn next_of(regions: u32, region: u32) -> u32 {
    let next = region.saturating_add(1);
    if next < regions { next } else { 0 }
}

/// The region whose transfer runs at this place.
fn runs_at(regions: u32, descending: bool, place: u32) -> u32 {
    if descending {
        regions.saturating_sub(place).saturating_sub(1)
    } else {
        place
    }
}

/// Submits the transfers. Each home places first that of its own region, and then that of the region before it.
fn place_circle(events: &mut Script, regions: u32) -> Result<(), Fail> {
    for region in 0..regions {
        events.add("submit # s#", &[region, region])?;
        events.add("append # # 0", &[region, region])?;
    }
    for region in 0..regions {
        events.add("append # # 0", &[next_of(regions, region), region])?;
    }
    Ok(())
}

/// One region receives all logs, and resolves and runs the circle, which has these ids, once it has all of them.
fn run_circle(
    events: &mut Script,
    (regions, ids): (u32, &str),
    descending: bool,
    region: u32,
) -> Result<(), Fail> {
    for home in 0..regions {
        events.add("deliver # # 0 2", &[region, home])?;
        events.add("insert # #", &[region, home])?;
        events.add_named("resolve # $ !5", ids, &[region])?;
        events.add("insert # #", &[region, home])?;
    }
    events.add_named("resolve # $", ids, &[region])?;
    for place in 0..regions {
        let first = runs_at(regions, descending, place);
        events.add("execute # 1.#", &[region, first])?;
    }
    events.add("answer # s#", &[region, region])
}

/// What the transfer of a region leaves in the row that it takes from, and in the other one. The first to run takes from a row that
/// has got nothing yet, and the last one gives to a row that has already been taken from.
fn left(regions: u32, descending: bool, region: u32) -> (u32, u32) {
    let is_last = next_of(regions, region) == 0;
    let own = match (descending, region) {
        (false, 0) => 9,
        (false, _) => region.saturating_add(10),
        (true, 0) => 10,
        (true, _) => region.saturating_add(9),
    };
    let other = match (descending, is_last) {
        (false, true) => 10,
        (false, false) => region.saturating_add(12),
        (true, true) => 11,
        (true, false) => region.saturating_add(11),
    };
    (own, other)
}

/// The report of the circle: each region answers its own session.
fn report_circle(report: &mut File, regions: u32, descending: bool) -> Result<(), Fail> {
    report.add("replies", &[])?;
    for region in 0..regions {
        let (own, other) = left(regions, descending, region);
        report.add("reply s# 1 done # #", &[region, own, other])?;
    }
    report.add("order", &[])?;
    for place in 0..regions {
        let region = runs_at(regions, descending, place);
        let (own, other) = left(regions, descending, region);
        report.add("1.# s# 1 1 done # #", &[region, region, own, other])?;
    }
    one_row_each(report, regions)
}

/// Ten transfers of all ranks between two rows, alternately from the one and from the other, which all wait for each other: the smaller
/// the id, the greater the rank.
pub fn all_ranks(play: &mut Play) -> Result<(), Fail> {
    play.cluster
        .add_all(&["regions = 2", "[rows]", "a = 100", "b = 100"])?;
    for number in 0..10 {
        let region = number % 2;
        play.workload.add("session s# at #", &[number, region])?;
        let call = match region {
            0 => "call/# xfer \"b\" \"a\" #",
            _ => "call/# xfer \"a\" \"b\" #",
        };
        play.workload.add(call, &[9 - number, number + 1])?;
    }
    place_ranks(&mut play.events)?;
    run_ranks(&mut play.events)?;
    play.report.add_all(&RANKS_REPORT)
}

/// Submits the transfers. Each home places first those of its own region, and then those of the other.
fn place_ranks(events: &mut Script) -> Result<(), Fail> {
    for number in 0..10 {
        let region = number % 2;
        events.add("submit # s#", &[region, number])?;
        events.add("append # # #", &[region, region, number / 2])?;
    }
    for number in 0..10 {
        let region = number % 2;
        events.add("append # # #", &[1 - region, region, number / 2])?;
    }
    Ok(())
}

/// Region 0 has all of them, and runs the one of the least rank first.
fn run_ranks(events: &mut Script) -> Result<(), Fail> {
    events.add("deliver 0 1 0 10", &[])?;
    for _ in 0..10 {
        events.add_all(&["insert 0 0", "insert 0 1"])?;
    }
    events.add_all(&[
        "execute 0 5.1 !6",
        "resolve 0 1.0 1.1 !5",
        "resolve 0 5.1 5.0 4.1 4.0 3.1 3.0 2.1 2.0 1.1 1.0 !5",
        "resolve 0 1.0 1.1 2.0 2.1 3.0 3.1 4.0 4.1 5.0 5.1",
    ])?;
    for behind in 0..5 {
        let id = 5 - behind;
        events.add("execute 0 #.0 !6", &[id])?;
        events.add("execute 0 #.1", &[id])?;
        events.add("execute 0 #.0", &[id])?;
    }
    events.add("answer 0 s0", &[])
}

/// The report of the transfers of all ranks.
const RANKS_REPORT: [&str; 19] = [
    "replies",
    "reply s0 1 done 105 95",
    "order",
    "5.1 s9 1 1 done 90 110",
    "5.0 s8 1 1 done 101 99",
    "4.1 s7 1 1 done 91 109",
    "4.0 s6 1 1 done 102 98",
    "3.1 s5 1 1 done 92 108",
    "3.0 s4 1 1 done 103 97",
    "2.1 s3 1 1 done 93 107",
    "2.0 s2 1 1 done 104 96",
    "1.1 s1 1 1 done 94 106",
    "1.0 s0 1 1 done 105 95",
    "table 0",
    "a = 95 home 1 moves 0",
    "b = 105 home 0 moves 0",
    "table 1",
    "a = 100 home 1 moves 0",
    "b = 100 home 0 moves 0",
];

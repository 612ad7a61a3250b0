//! Worlds of many members, made by loops, each with the report that is to come of it.
use crate::circles::{all_ranks, circle};
use crate::scripts::{File, Play, Script};
use crate::tries::tries_of_a_call;
use dt_test_texts::wrong;
use std::alloc::Global;
use std::mem::forget;
use std::test::Fail;

/// What is many.
#[derive(Clone, Copy)]
enum Size {
    /// Transfers in a circle, one at each of n regions; their ids, and whether their ranks descend while their ids ascend.
    Circle(u32, &'static str, bool),
    /// Transfers of all ranks, which wait for each other.
    Ranks,
    /// A call over n homes.
    Homes(u32),
    /// A call that may be tried m times, and n moves of its row meanwhile.
    Tries(u32, u32),
    /// Sessions at up to five regions, and the calls of each.
    Calls(u32, u32),
    /// Rows of a granule of this name.
    Rows(u32, &'static str),
}

/// The world of this size, as it is tried.
fn fill(play: &mut Play, size: Size) -> Result<(), Fail> {
    match size {
        Size::Circle(regions, ids, descending) => circle(play, regions, ids, descending),
        Size::Ranks => all_ranks(play),
        Size::Homes(homes) => homes_of_a_call(play, homes),
        Size::Tries(tries, moves) => tries_of_a_call(play, tries, moves),
        Size::Calls(sessions, calls) => calls_of_sessions(play, sessions, calls),
        Size::Rows(rows, name) => rows_of_a_granule(play, rows, name),
    }
}

/// Names of 124 and of 128 bytes. A key has at most 128.
const LONG_NAME: &str =
    "bbbbbbbbbbbbbbbbbbbbbbbbbbbbbbbbbbbbbbbbbbbbbbbbbbbbbbbbbbbbbbbbbbbbbbbbbbbbbbbbbbbbbbbbbbbbbbbbbbbbbbbbbbbbbbbbbbbbbbbbbbbb";

const LONGEST_NAME: &str =
    "bbbbbbbbbbbbbbbbbbbbbbbbbbbbbbbbbbbbbbbbbbbbbbbbbbbbbbbbbbbbbbbbbbbbbbbbbbbbbbbbbbbbbbbbbbbbbbbbbbbbbbbbbbbbbbbbbbbbbbbbbbbbbbbb";

/// Whether all comes of the world of this size, which is tried in this play, that is to come of it.
fn comes_as_wanted(alloc: Global, play: &mut Play, size: Size) -> Result<bool, Fail> {
    fill(play, size)?;
    play.comes_as_wanted(alloc)
}

/// Fails at the first of these sizes of whose world something else comes. Plays are left to the end of the process: that they
/// may be dropped would be proved here.
fn check(alloc: Global, sizes: &[Size]) -> Result<(), Fail> {
    for (row, size) in sizes.iter().enumerate() {
        let mut play = Play::new(alloc);
        let comes = comes_as_wanted(alloc, &mut play, *size);
        forget(play);
        if !comes? {
            return Err(wrong(row));
        }
    }
    Ok(())
}

/// Groups that are resolved.
const GROUPS: [Size; 6] = [
    Size::Circle(2, "1.0 1.1", false),
    Size::Circle(4, "1.0 1.1 1.2 1.3", false),
    Size::Circle(4, "1.0 1.1 1.2 1.3", true),
    Size::Circle(5, "1.0 1.1 1.2 1.3 1.4", false),
    Size::Circle(8, "1.0 1.1 1.2 1.3 1.4 1.5 1.6 1.7", true),
    Size::Ranks,
];

#[test]
fn groups_have_many_members(rt: HostRuntime) -> Result<(), Fail> {
    check(rt.alloc(), &GROUPS)
}

/// Calls of many homes; calls of many tries, of which the last one succeeds or not; one session of many calls, and many sessions; and
/// granules of many rows, and of long names.
const OTHERS: [Size; 11] = [
    Size::Homes(1),
    Size::Homes(3),
    Size::Homes(8),
    Size::Tries(2, 2),
    Size::Tries(8, 7),
    Size::Tries(8, 8),
    Size::Calls(1, 300),
    Size::Calls(320, 1),
    Size::Rows(300, "b"),
    Size::Rows(2, LONG_NAME),
    Size::Rows(0, LONGEST_NAME),
];

#[test]
fn there_are_many_homes_tries_calls_sessions_and_rows(rt: HostRuntime) -> Result<(), Fail> {
    check(rt.alloc(), &OTHERS)
}

/// The beginning of a cluster of n regions, each the home of one key.
pub fn one_home_each(cluster: &mut File, regions: u32) -> Result<(), Fail> {
    cluster.add("regions = #\n[homes]", &[regions])?;
    for home in 0..regions {
        cluster.add("k# = #", &[home, home])?;
    }
    Ok(())
}

/// The tables of all regions, each with the rows of all: a row has 10 more than the number of its home.
pub fn one_row_each(report: &mut File, regions: u32) -> Result<(), Fail> {
    for region in 0..regions {
        report.add("table #", &[region])?;
        for home in 0..regions {
            let value = home.saturating_add(10);
            report.add("k# = # home # moves 0", &[home, value, home])?;
        }
    }
    Ok(())
}

/// A call that writes the key of each region, and runs in all of them.
fn homes_of_a_call(play: &mut Play, homes: u32) -> Result<(), Fail> {
    play.cluster.add("procs = '''proc wide(n: int)", &[])?;
    for home in 0..homes {
        play.cluster.add("write a# = \"k#\";", &[home, home])?;
    }
    play.cluster.add("{", &[])?;
    for home in 0..homes {
        play.cluster.add("set a# = n + #;", &[home, home])?;
    }
    play.cluster.add("}'''", &[])?;
    one_home_each(&mut play.cluster, homes)?;
    play.workload.add_all(&["session s at 0", "call wide 10"])?;
    events_of_homes(&mut play.events, homes)?;
    play.report
        .add_all(&["replies", "reply s 1 done", "order", "1.0 s 1 1 done"])?;
    one_row_each(&mut play.report, homes)
}

/// The call has a part at each home.
fn events_of_homes(events: &mut Script, homes: u32) -> Result<(), Fail> {
    events.add("submit 0 s", &[])?;
    for home in 0..homes {
        events.add("append # 0 0", &[home])?;
    }
    for region in 0..homes {
        run_call(events, homes, region)?;
    }
    events.add("answer 0 s", &[])
}

/// A region does not run the call before it has the last part.
fn run_call(events: &mut Script, homes: u32, region: u32) -> Result<(), Fail> {
    for home in 0..homes {
        events.add("deliver # # 0 1", &[region, home])?;
        events.add("execute # 1.0 !6", &[region])?;
        events.add("insert # #", &[region, home])?;
    }
    events.add("execute # 1.0", &[region])
}

/// Sessions at up to five regions in rotation, each with n calls: puts of keys of their own, at home in the region of the session.
/// One more region receives all logs whole.
fn calls_of_sessions(play: &mut Play, sessions: u32, calls: u32) -> Result<(), Fail> {
    let homes = sessions.min(5);
    play.cluster.add("regions = #\n[homes]", &[homes + 1])?;
    play.report.add("replies", &[])?;
    play.order.add("order", &[])?;
    for session in 0..sessions {
        let region = session % homes;
        play.workload.add("session s# at #", &[session, region])?;
        for call in 0..calls {
            let id = key_of(calls, session / homes, call).saturating_sub(999);
            make_call(
                play,
                key_of(calls, session, call),
                (session, region),
                (call, id),
            )?;
        }
    }
    for home in 0..homes {
        let length = (sessions / homes).saturating_mul(calls);
        receive(&mut play.events, homes, home, length)?;
        put_table(&mut play.order, home, sessions, calls)?;
    }
    play.order.add("table #", &[homes])
}

/// The number in the key of a call: keys of one length, which ascend as the sessions and their calls do.
fn key_of(calls: u32, session: u32, call: u32) -> u32 {
    session
        .saturating_mul(calls)
        .saturating_add(call)
        .saturating_add(1000)
}

/// A put of this key by a session: the call of this number, from 0, and of this sequence number in its region.
fn make_call(
    play: &mut Play,
    key: u32,
    (session, region): (u32, u32),
    (call, id): (u32, u32),
) -> Result<(), Fail> {
    let number = call.saturating_add(1);
    play.cluster.add("k# = #", &[key, region])?;
    play.workload.add("call put \"k#\" #", &[key, session])?;
    play.report.add("reply s# # done", &[session, number])?;
    play.order
        .add("#.# s# # 1 done", &[id, region, session, number])?;
    run_put(&mut play.events, session, region, id)
}

/// The events by which the session makes its call.
fn run_put(events: &mut Script, session: u32, region: u32, id: u32) -> Result<(), Fail> {
    events.add("submit # s#", &[region, session])?;
    events.add("append # # #", &[region, region, id.saturating_sub(1)])?;
    events.add("insert # #", &[region, region])?;
    events.add("execute # #.#", &[region, id, region])?;
    events.add("answer # s#", &[region, session])
}

/// A region receives a log of this length whole, and inserts it.
fn receive(events: &mut Script, region: u32, home: u32, length: u32) -> Result<(), Fail> {
    events.add("deliver # # 0 #", &[region, home, length])?;
    for _ in 0..length {
        events.add("insert # #", &[region, home])?;
    }
    events.add("insert # # !4", &[region, home])
}

/// The table of a region: the rows of its own sessions alone.
fn put_table(report: &mut File, region: u32, sessions: u32, calls: u32) -> Result<(), Fail> {
    report.add("table #", &[region])?;
    for session in 0..sessions {
        if session % 5 == region {
            for call in 0..calls {
                let key = key_of(calls, session, call);
                report.add("k# = # home # moves 0", &[key, session, region])?;
            }
        }
    }
    Ok(())
}

/// The events of a move of a granule, and of a call of one of its rows, which was annotated before the move and is made again.
const MOVED: [&str; 18] = [
    "submit 0 m",
    "submit 0 p",
    "append 0 0 0",
    "append 0 0 1",
    "append 1 0 0",
    "deliver 0 1 0 1",
    "insert 0 0",
    "insert 0 0",
    "insert 0 1",
    "execute 0 1.0",
    "execute 0 2.0",
    "submit 0 p",
    "append 1 0 1",
    "deliver 0 1 1 2",
    "insert 0 1",
    "execute 0 3.0",
    "answer 0 m",
    "answer 0 p",
];

/// A granule of this name, of n rows. It is moved, and the name itself, which is a key of it too, gets a value.
fn rows_of_a_granule(play: &mut Play, rows: u32, name: &str) -> Result<(), Fail> {
    play.cluster.add("regions = 2\nversion = 2\n[rows]", &[])?;
    play.workload.add_all_named(&MOVED_WORKLOAD, name)?;
    play.events.add_all(&MOVED)?;
    play.report.add_all_named(&MOVED_REPORT, name)?;
    play.order.add("table 1", &[])?;
    put_rows(play, rows, name)
}

/// A move of the granule, and a call of the key of its name.
const MOVED_WORKLOAD: [&str; 4] = [
    "session m at 0",
    "move $ to 1",
    "session p at 0",
    "call add \"$\" 5",
];

/// The report of them, up to the row of the name in the table of region 0.
const MOVED_REPORT: [&str; 9] = [
    "replies",
    "reply m 1 done",
    "reply p 1 done 5",
    "order",
    "1.0 m 1 1 done",
    "2.0 p 1 1 stale $ had 0 by 1.0",
    "3.0 p 1 2 done 5",
    "table 0",
    "$ = 5 home 1 moves 1",
];

/// The rows, each with its number as its value: region 0 has moved all, and region 1 none.
fn put_rows(play: &mut Play, rows: u32, name: &str) -> Result<(), Fail> {
    for number in 100..rows.saturating_add(100) {
        play.cluster
            .add_named("\"$/#\" = #", name, &[number, number])?;
        play.report
            .add_named("$/# = # home 1 moves 1", name, &[number, number])?;
        play.order
            .add_named("$/# = # home 0 moves 0", name, &[number, number])?;
    }
    Ok(())
}

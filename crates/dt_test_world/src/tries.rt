//! Calls that are tried again and again, while their row is moved to and fro.
use crate::scripts::{Play, Script};
use std::test::Fail;

/// A put that may be tried n times, and n moves of its row to and fro, or one less, each while the put is under way.
pub fn tries_of_a_call(play: &mut Play, tries: u32, moves: u32) -> Result<(), Fail> {
    play.cluster.add("regions = 2", &[])?;
    play.cluster.add("tries = #", &[tries])?;
    play.workload.add("session m at 0", &[])?;
    for number in 0..moves {
        play.workload.add("move b to #", &[1 - number % 2])?;
        move_meanwhile(&mut play.events, tries, number)?;
    }
    play.workload
        .add_all(&["session p at 0", "call put \"b\" 7"])?;
    if moves < tries {
        try_alone(&mut play.events, moves)?;
    }
    play.events.add_all(&["submit 0 p !1", "answer 0 p"])?;
    report_tries(play, tries, moves)
}

/// How many requests the homes 0 and 1 were asked for by n moves, each with a try.
fn requests_of(number: u32) -> (u32, u32) {
    (
        number.saturating_add(number.div_ceil(2)),
        number.saturating_add(number / 2),
    )
}

/// The sequence numbers of the move of this number, from 0, and of the try that goes with it.
fn ids_of(number: u32) -> (u32, u32) {
    let id = number.saturating_mul(2).saturating_add(1);
    (id, id.saturating_add(1))
}

/// A home takes a request of region 0, which inserts it.
fn take(events: &mut Script, home: u32, number: u32) -> Result<(), Fail> {
    events.add("append # 0 #", &[home, number])?;
    events.add("deliver 0 # # #", &[home, number, number.saturating_add(1)])?;
    events.add("insert 0 #", &[home])
}

/// The move of this number, from 0, and a try that was annotated before it.
fn move_meanwhile(events: &mut Script, tries: u32, number: u32) -> Result<(), Fail> {
    let (first, second) = requests_of(number);
    let (id, last) = ids_of(number);
    events.add_all(&["submit 0 m", "submit 0 p", "submit 0 p !1"])?;
    take(events, 0, first)?;
    take(events, 1, second)?;
    if number % 2 == 0 {
        take(events, 0, first.saturating_add(1))?;
    } else {
        take(events, 1, second.saturating_add(1))?;
    }
    execute_both(events, id, last)?;
    events.add("answer 0 m", &[])?;
    if number.saturating_add(1) < tries {
        events.add("answer 0 p !7", &[])?;
    }
    Ok(())
}

/// Region 0 executes a move, and then the try that goes with it.
fn execute_both(events: &mut Script, id: u32, last: u32) -> Result<(), Fail> {
    events.add("execute 0 #.0 !6", &[last])?;
    events.add("execute 0 #.0", &[id])?;
    events.add("execute 0 #.0", &[last])
}

/// A try after n moves, and no move meanwhile.
fn try_alone(events: &mut Script, moves: u32) -> Result<(), Fail> {
    let (first, second) = requests_of(moves);
    let (id, _) = ids_of(moves);
    events.add("submit 0 p", &[])?;
    if moves % 2 == 0 {
        take(events, 0, first)?;
    } else {
        take(events, 1, second)?;
    }
    events.add("execute 0 #.0", &[id])
}

/// The report of the tries and the moves.
fn report_tries(play: &mut Play, tries: u32, moves: u32) -> Result<(), Fail> {
    play.report.add("replies", &[])?;
    play.order.add("order", &[])?;
    for number in 0..moves {
        let (id, last) = ids_of(number);
        let call = number.saturating_add(1);
        play.report.add("reply m # done", &[call])?;
        play.order.add("#.0 m # 1 done", &[id, call])?;
        play.order.add("#.0 p 1 # stale b had # by #.0", &[last, call, number, id])?;
    }
    if moves < tries {
        let (id, _) = ids_of(moves);
        play.report.add("reply p 1 done", &[])?;
        play.order.add("#.0 p 1 # done", &[id, tries])?;
        play.order
            .add("table 0\nb = 7 home # moves #", &[moves % 2, moves])?;
    } else {
        let number = moves.saturating_sub(1);
        let (id, _) = ids_of(number);
        play.report
            .add("reply p 1 stale b had # by #.0", &[number, id])?;
        play.order
            .add("table 0\nb = none home # moves #", &[moves % 2, moves])?;
    }
    play.order.add("table 1", &[])
}

//! Runs: all regions at once, which make the events themselves.
use super::{AMPLE, called, joined, told_over, words_of};
use dt_command::threaded_words;
use dt_test_texts::wrong;
use dt_text::NoMemory;
use std::alloc::Global;
use std::sync::Wait;
use std::test::Fail;
use std::thread::Threads;

/// A run, and what it reports.
struct Case {
    /// What the case shows.
    shows: &'static str,
    cluster: &'static [u8],
    workload: &'static [u8],
    /// The lines of the replies, which may come in any order.
    replies: &'static [&'static [u8]],
    /// The report from its order up to its events.
    told: &'static [u8],
    /// The lines of some of the events.
    events: &'static [&'static [u8]],
}

/// The cluster and the calls of a shop: the second call has not enough credit.
const SHOP: &[u8] = br#"regions = 2
procs = '''
proc buy(c: text, s: text, n: int)
  write who = "cust/" ++ c;
  write item = "stock/" ++ s;
{
  let price = 20 * n;
  if int(item) < n { abort "sold out"; }
  if int(who) < price { abort "credit"; }
  set item = int(item) - n;
  set who = int(who) - price;
  give int(item), int(who);
}
'''
[homes]
"stock/7" = 0
"cust/ann" = 1
[rows]
"stock/7" = 3
"cust/ann" = 50
"#;

/// The workload of the shop: one session, which buys twice.
const SHOP_CALLS: &[u8] = b"session w at 0\n\
    call buy \"ann\" \"7\" 2\n\
    call buy \"ann\" \"7\" 1\n";

const CASES: &[Case] = &[
    Case {
        shows: "a run of nothing reports nothing",
        cluster: b"regions = 1\n",
        workload: b"",
        replies: &[],
        told: b"order\n\
            table 0\n\
            events\n",
        events: &[],
    },
    Case {
        shows: "every second packet is lost, and both regions resolve the same group",
        cluster: b"regions = 2\n\
            drop = 2\n\
            repeat = 3\n\
            [rows]\n\
            a = 10\n\
            b = 10\n",
        workload: b"session p at 0\n\
            call xfer \"b\" \"a\" 3\n\
            session q at 1\n\
            call xfer \"a\" \"b\" 4\n",
        replies: &[b"reply p 1 done 7 13\n", b"reply q 1 done 9 11\n"],
        told: b"order\n\
            1.0 p 1 1 done 7 13\n\
            1.1 q 1 1 done 9 11\n\
            table 0\n\
            a = 9 home 1 moves 0\n\
            b = 11 home 0 moves 0\n\
            table 1\n\
            a = 9 home 1 moves 0\n\
            b = 11 home 0 moves 0\n\
            events\n",
        events: &[b"resolve 0 1.0 1.1\n", b"resolve 1 1.0 1.1\n"],
    },
    Case {
        shows: "a session makes its calls in turn, and the second has not enough credit",
        cluster: SHOP,
        workload: SHOP_CALLS,
        replies: &[b"reply w 1 done 1 10\n", b"reply w 2 abort \"credit\"\n"],
        told: b"order\n\
            1.0 w 1 1 done 1 10\n\
            2.0 w 2 1 abort \"credit\"\n\
            table 0\n\
            cust/ann = 10 home 1 moves 0\n\
            stock/7 = 1 home 0 moves 0\n\
            table 1\n\
            cust/ann = 10 home 1 moves 0\n\
            stock/7 = 1 home 0 moves 0\n\
            events\n",
        events: &[b"answer 0 w\n"],
    },
    Case {
        shows: "two regions move one key, and the later move is tried again",
        cluster: b"regions = 2\n\
            [rows]\n\
            b = 1\n",
        workload: b"session m at 0\n\
            move b to 1\n\
            session n at 1\n\
            move b to 1\n",
        replies: &[b"reply m 1 done\n", b"reply n 1 done\n"],
        told: b"order\n\
            1.0 m 1 1 done\n\
            1.1 n 1 1 stale b had 0 by 1.0\n\
            2.1 n 1 2 done\n\
            table 0\n\
            b = 1 home 1 moves 2\n\
            table 1\n\
            b = 1 home 1 moves 2\n\
            events\n",
        events: &[b"execute 0 2.1\n", b"execute 1 2.1\n"],
    },
];

/// The first place of a piece in a text.
fn place_of(text: &[u8], piece: &[u8]) -> Option<usize> {
    for at in 0..text.len() {
        if text.get(at..)?.starts_with(piece) {
            return Some(at);
        }
    }
    None
}

/// Whether each of these lines stands in a text.
fn each_stands_in(text: &[u8], lines: &[&[u8]]) -> bool {
    for line in lines {
        if place_of(text, *line).is_none() {
            return false;
        }
    }
    true
}

/// The events behind these lines of a report, if they are its lines from the order up to the events, behind these replies.
fn events_behind<'a>(
    alloc: Global,
    report: &'a [u8],
    replies: &[&[u8]],
    lines: &[u8],
) -> Result<Option<&'a [u8]>, NoMemory> {
    let Some(at) = place_of(report, lines) else {
        return Ok(None);
    };
    let Some((front, rest)) = report.split_at_checked(at) else {
        return Ok(None);
    };
    let length = b"0 |replies\n".len() + joined(alloc, replies)?.len();
    if front.len() != length || !each_stands_in(front, replies) {
        return Ok(None);
    }
    Ok(rest.strip_prefix(lines))
}

/// Whether what a run printed is as the case says: the report has its replies, in some order, what follows them, and these events; and
/// a replay of the events that are printed reports the same bytes.
fn is_printed<R: Threads + Wait + Sync>(
    rt: &R,
    alloc: Global,
    case: &Case,
    ran: &[u8],
) -> Result<bool, NoMemory> {
    let Some(events) = events_behind(alloc, ran, case.replies, case.told)? else {
        return Ok(false);
    };
    let words = ["replay", "c", "w", "e"];
    let again = told_over(rt, alloc, &words, case.cluster, case.workload, events)?;
    Ok(again.as_slice() == ran && each_stands_in(events, case.events))
}

/// Fails at the first case whose run prints something else.
fn check<R: Threads + Wait + Sync>(rt: &R, alloc: Global) -> Result<(), Fail> {
    for case in CASES {
        let words = ["run", "c", "w"];
        let ran = told_over(rt, alloc, &words, case.cluster, case.workload, b"")?;
        if !is_printed(rt, alloc, case, ran.as_slice())? {
            return Err(Fail::new(case.shows));
        }
    }
    Ok(())
}

#[test]
fn what_a_run_prints_is_replayed_to_the_same_bytes(rt: HostRuntime) -> Result<(), Fail> {
    check(&rt, rt.alloc())
}

#[test]
fn a_big_run_tells_its_calls_its_answers_and_its_sum(rt: HostRuntime) -> Result<(), Fail> {
    let told = called(&rt, rt.alloc(), &["big", "1"], &[], &[], (AMPLE, AMPLE))?;
    assert!(rt; told.as_slice() == b"0 |calls 1\nanswers 1\nsum 100000\n".as_slice());
    Ok(())
}

/// Words that ask for what threads do.
const THREADED: &[&[&str]] = &[
    &["run", ":1", "w"],
    &["run", ":8", ":w"],
    &["run", "c", "w"],
    &["big", "1"],
    &["big", "20000"],
];

/// Fails at the first words that are not asked of threads.
fn check_threaded(alloc: Global) -> Result<(), Fail> {
    for (row, words) in THREADED.iter().enumerate() {
        let words = words_of(alloc, words)?;
        if threaded_words(words.as_slice()).is_none() {
            return Err(wrong(row));
        }
    }
    Ok(())
}

#[test]
fn runs_and_big_runs_are_asked_of_threads(rt: HostRuntime) -> Result<(), Fail> {
    check_threaded(rt.alloc())
}

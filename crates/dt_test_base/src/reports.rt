//! Reports: the words of each outcome, and reports of hundreds of lines.
use dt_access::TxnId;
use dt_eval::{Cause, Values};
use dt_report::{EventList, Ran, Rans, Replies, Reply, Report, Tables, print};
use dt_table::{Shown, ShownList};
use dt_test_texts::{key_of, name_of, wrong};
use dt_text::{Common, NoMemory, Str, Value};
use dt_txn::Outcome;
use std::alloc::Global;
use std::mem::forget;
use std::test::Fail;

/// A report of nothing.
fn empty_report(alloc: Global) -> Report {
    Report {
        replies: Replies::new(alloc),
        order: Rans::new(alloc),
        tables: Tables::new(alloc),
        events: EventList::new(alloc),
    }
}

/// The text of a few bytes.
fn text_of(alloc: Global, bytes: &[u8]) -> Result<Str, Fail> {
    if bytes.len() > Str::LONGEST {
        return Err(Fail::from("a text has few bytes"));
    }
    Ok(Str::read(alloc, bytes)?)
}

/// An outcome of a test.
#[derive(Clone, Copy)]
enum What {
    /// It gave the numbers 7 and -13, nothing of a row that is not there, and a text.
    Gave,
    GaveNothing,
    Funds,
    Overflow,
    Zero,
    Kind,
    Long,
    Stale,
}

/// The outcome.
fn outcome_of(alloc: Global, what: What) -> Result<Outcome, Fail> {
    match what {
        What::Gave => Ok(Outcome::Gave(some_values(alloc)?)),
        What::GaveNothing => Ok(Outcome::Gave(Values::new(alloc))),
        What::Funds => Ok(Outcome::Aborted(funds(alloc)?)),
        What::Overflow => Ok(Outcome::Aborted(Cause::Overflow)),
        What::Zero => Ok(Outcome::Aborted(Cause::Zero)),
        What::Kind => Ok(Outcome::Aborted(Cause::Kind)),
        What::Long => Ok(Outcome::Aborted(Cause::Long)),
        What::Stale => stale(alloc),
    }
}

/// The cause of a word.
fn funds(alloc: Global) -> Result<Cause, Fail> {
    let word = text_of(alloc, b"funds")?;
    Ok(Cause::Word(Common::new(alloc, word)?))
}

/// What comes of a stale attempt.
fn stale(alloc: Global) -> Result<Outcome, Fail> {
    let key = key_of(alloc, b"b")?;
    Ok(Outcome::Stale {
        key: Common::new(alloc, key)?,
        had: 0,
        by: TxnId { seq: 1, region: 5 },
    })
}

/// Adds numbers.
fn add_numbers(values: &mut Values, numbers: &[i64]) -> Result<(), NoMemory> {
    for number in numbers {
        values.push(Some(Value::Int(*number)))?;
    }
    Ok(())
}

/// Adds none and a text.
fn add_none_and_text(alloc: Global, values: &mut Values, bytes: &[u8]) -> Result<(), Fail> {
    values.push(None)?;
    values.push(Some(Value::Text(text_of(alloc, bytes)?)))?;
    Ok(())
}

/// Values of each kind, and none.
fn some_values(alloc: Global) -> Result<Values, Fail> {
    let mut values = Values::new(alloc);
    add_numbers(&mut values, &[7, -13])?;
    add_none_and_text(alloc, &mut values, b"x\"\\y")?;
    Ok(values)
}

/// Adds an answer of a session `a` with a copy of an outcome.
fn add_reply(alloc: Global, replies: &mut Replies, outcome: &Outcome) -> Result<(), Fail> {
    replies.push(Reply {
        session: name_of(alloc, b"a")?,
        call: 1,
        outcome: outcome.copy(alloc)?,
    })?;
    Ok(())
}

/// Adds an executed attempt of a session `p` with a copy of an outcome.
fn add_ran(alloc: Global, order: &mut Rans, outcome: &Outcome) -> Result<(), Fail> {
    order.push(Ran {
        id: TxnId { seq: 2, region: 0 },
        session: name_of(alloc, b"p")?,
        call: 1,
        attempt: 3,
        outcome: outcome.copy(alloc)?,
    })?;
    Ok(())
}

/// Adds a row without a value.
fn add_row(alloc: Global, rows: &mut ShownList) -> Result<(), Fail> {
    rows.push(Shown {
        key: key_of(alloc, b"c")?,
        value: None,
        home: 1,
        moves: 2,
    })?;
    Ok(())
}

/// Adds two tables: one with n rows, and one with none.
fn add_tables(alloc: Global, tables: &mut Tables, count: u32) -> Result<(), Fail> {
    let mut rows = ShownList::new(alloc);
    for _ in 0..count {
        add_row(alloc, &mut rows)?;
    }
    tables.push(rows)?;
    tables.push(ShownList::new(alloc))?;
    Ok(())
}

/// Adds n answers, attempts and rows, with this outcome.
fn fill(alloc: Global, report: &mut Report, outcome: &Outcome, count: u32) -> Result<(), Fail> {
    for _ in 0..count {
        add_reply(alloc, &mut report.replies, outcome)?;
        add_ran(alloc, &mut report.order, outcome)?;
    }
    add_tables(alloc, &mut report.tables, count)
}

/// A report that is filled so, in words.
fn printed(alloc: Global, report: &mut Report, what: What, count: u32) -> Result<Vec<u8>, Fail> {
    let outcome = outcome_of(alloc, what)?;
    fill(alloc, report, &outcome, count)?;
    Ok(print(alloc, report)?)
}

/// The report of n answers, attempts and rows, with this outcome. It is left to the end of the process: that it may be dropped would be
/// proved here.
fn told(alloc: Global, what: What, count: u32) -> Result<Vec<u8>, Fail> {
    let mut report = empty_report(alloc);
    let told = printed(alloc, &mut report, what, count);
    forget(report);
    told
}

/// The report that is wanted of one answer, attempt and row, with the words of an outcome.
fn wanted(alloc: Global, words: &str) -> Result<String, Fail> {
    Ok(format!(in alloc;
        "replies\nreply a 1 {words}\norder\n2.0 p 1 3 {words}\ntable 0\nc = none home 1 moves 2\ntable 1\nevents\n"
    )?)
}

/// Outcomes, each with its words.
const WORDS: &[(What, &str)] = &[
    (What::Gave, "done 7 -13 none \"x\\\"\\\\y\""),
    (What::GaveNothing, "done"),
    (What::Funds, "abort \"funds\""),
    (What::Overflow, "abort overflow"),
    (What::Zero, "abort zero"),
    (What::Kind, "abort kind"),
    (What::Long, "abort long"),
    (What::Stale, "stale b had 0 by 1.5"),
];

/// Fails at the first outcome that has other words in a report.
fn check_words(alloc: Global) -> Result<(), Fail> {
    for (row, (what, words)) in WORDS.iter().enumerate() {
        if told(alloc, *what, 1)?.as_slice() != wanted(alloc, words)?.as_bytes() {
            return Err(wrong(row));
        }
    }
    Ok(())
}

#[test]
fn each_outcome_has_its_words_in_a_report(rt: HostRuntime) -> Result<(), Fail> {
    check_words(rt.alloc())
}

/// Numbers of rows, and the bytes of the report: 37 of headings; an answer, an attempt and a row have 15, 15 and 24.
const LENGTHS: &[(u32, usize)] = &[
    (0, 37),
    (255, 13807),
    (256, 13861),
    (257, 13915),
    (600, 32437),
];

/// Fails at the first report that is shorter or longer.
fn check_lengths(alloc: Global) -> Result<(), Fail> {
    for (row, (count, want)) in LENGTHS.iter().enumerate() {
        if told(alloc, What::GaveNothing, *count)?.len() != *want {
            return Err(wrong(row));
        }
    }
    Ok(())
}

#[test]
fn a_report_has_hundreds_of_lines(rt: HostRuntime) -> Result<(), Fail> {
    check_lengths(rt.alloc())
}

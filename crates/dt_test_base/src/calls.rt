//! Calls: which keys they use, and how they end.
ghost use Rattle.std.specs.Prelude.{◌≡◌, IfOk, map};

use crate::rows::put_option;
use dt_access::{Keys, Mode, TryCopy, Writes};
use dt_eval::{Args, Cause, Finish, Reads, Values, fits, keys_of, run};
use dt_proc::{Proc, Procs, builtin_procs, read_procs};
use dt_test_texts::{put_number, wrong};
use dt_text::{Key, NoMemory, Str, Value, read_i64};
use std::alloc::Global;
use std::mem::forget;
use std::test::Fail;

/// More bytes than a test reads.
const MANY: usize = 100000;

/// The value that a word stands for: a number, or the text of its bytes; `-` alone stands for none.
fn value(alloc: Global, word: &[u8]) -> Result<Option<Value>, Fail> {
    if word == b"-".as_slice() || word.len() > MANY {
        return Ok(None);
    }
    match read_i64(word) {
        Some(number) => Ok(Some(Value::Int(number))),
        None => Ok(Some(Value::Text(Str::read(alloc, word)?))),
    }
}

/// The values that words stand for, one space apart.
fn values(alloc: Global, line: &[u8]) -> Result<Vec<Option<Value>>, Fail> {
    let mut values = Vec::new(alloc);
    for word in line.split(|byte| *byte == b' ') {
        values.push(value(alloc, word)?)?;
    }
    Ok(values)
}

/// The arguments that words stand for, one space apart.
fn arguments(alloc: Global, line: &[u8]) -> Result<Args, Fail> {
    let mut arguments = Args::new(alloc);
    for word in line.split(|byte| *byte == b' ') {
        if let Some(value) = value(alloc, word)? {
            arguments.push(value)?;
        }
    }
    Ok(arguments)
}

/// Reads of these keys, with these values in order; a key without one reads none.
fn reads(alloc: Global, keys: &[(Key, Mode)], values: &[Option<Value>]) -> Result<Reads, NoMemory>
    ensures { IfOk result (λ reads. map (λ read. read.0) reads ≡ map (λ used. used.0) keys.now) }
{
    let mut reads = Reads::new(alloc);
    for (place, (key, _)) in keys.iter().enumerate() {
        let value = match values.get(place) {
            Some(value) => value.copy(alloc)?,
            None => None,
        };
        reads.push((key.copy(alloc)?, value))?;
    }
    Ok(reads)
}

/// Keys as a text: each after its mode, `r` or `w`, and before a space.
fn put_keys(out: &mut Vec<u8>, keys: &Keys) -> Result<(), NoMemory> {
    for (key, mode) in keys.as_slice() {
        out.push(if mode.may_change() { b'w' } else { b'r' })?;
        out.extend_from_slice(key.bytes())?;
        out.push(b' ')?;
    }
    Ok(())
}

/// Values, each behind a space.
fn put_values(alloc: Global, out: &mut Vec<u8>, values: &Values) -> Result<(), NoMemory> {
    for value in values.as_slice() {
        out.push(b' ')?;
        put_option(alloc, out, value.as_ref())?;
    }
    Ok(())
}

/// Writes, each behind a `;` as its key, `=` and its value.
fn put_writes(alloc: Global, out: &mut Vec<u8>, writes: &Writes) -> Result<(), NoMemory> {
    for (key, value) in writes.as_slice() {
        out.push(b';')?;
        out.extend_from_slice(key.bytes())?;
        out.push(b'=')?;
        put_option(alloc, out, value.as_ref())?;
    }
    Ok(())
}

/// How a run ends, as a text: the values given, then each write as its key, `=` and its value; or the cause of the abort.
fn put_finish(alloc: Global, out: &mut Vec<u8>, finish: &Finish) -> Result<(), NoMemory> {
    match finish {
        Finish::Gave(values, writes) => {
            out.extend_from_slice(b"gave")?;
            put_values(alloc, out, values)?;
            put_writes(alloc, out, writes)
        }
        Finish::Aborted(cause) => put_cause(out, &cause.copy()?),
    }
}

/// The cause of an abort as a text: a word, and behind it what the body says.
fn put_cause(out: &mut Vec<u8>, cause: &Cause) -> Result<(), NoMemory> {
    let (word, said) = match cause {
        Cause::Word(said) => (b"word ".as_slice(), said.get().bytes()),
        Cause::Overflow => (b"overflow".as_slice(), b"".as_slice()),
        Cause::Zero => (b"zero".as_slice(), b"".as_slice()),
        Cause::Kind => (b"kind".as_slice(), b"".as_slice()),
        Cause::Long => (b"long".as_slice(), b"".as_slice()),
    };
    out.extend_from_slice(word)?;
    out.extend_from_slice(said)?;
    Ok(())
}

/// The keys of a call, and how it ends.
fn finish_told(alloc: Global, keys: &Keys, finish: &Finish) -> Result<Vec<u8>, Fail> {
    let mut out = Vec::new(alloc);
    put_keys(&mut out, keys)?;
    put_finish(alloc, &mut out, finish)?;
    Ok(out)
}

/// The keys of a call, and how it ends where they have these values, in order of keys.
fn ends(
    alloc: Global,
    body: &Proc,
    arguments: &[Value],
    values: &[Option<Value>],
) -> Result<Vec<u8>, Fail> {
    if !fits(body, arguments) {
        return Ok(b"unfit".to_vec(alloc)?);
    }
    match keys_of(alloc, body, arguments) {
        Ok(keys) => {
            let reads = reads(alloc, keys.as_slice(), values)?;
            let finish = run(alloc, body, arguments, &reads)?;
            finish_told(alloc, &keys, &finish)
        }
        Err(error) => Ok(format!(in alloc; "{error}")?.as_bytes().to_vec(alloc)?),
    }
}

/// The procedures of a text; those that are built in for no text.
fn procs_of(alloc: Global, source: &[u8]) -> Result<Procs, Fail> {
    if source.len() > MANY {
        return Err(Fail::from("a test reads few bytes"));
    }
    if source.is_empty() {
        return Ok(builtin_procs(alloc)?);
    }
    Ok(read_procs(alloc, source)?)
}

/// What a call by the last procedure of a name comes to: its words are that name and the arguments.
fn told_by(
    alloc: Global,
    procs: &Procs,
    name: &[u8],
    line: &[u8],
    rows: &[u8],
) -> Result<Vec<u8>, Fail> {
    let Some(number) = procs.find(name) else {
        return Err(Fail::from("the procedure is there"));
    };
    let Some(body) = procs.get(number) else {
        return Err(Fail::from("the number is that of a procedure"));
    };
    let arguments = arguments(alloc, line)?;
    let values = values(alloc, rows)?;
    ends(alloc, body, arguments.as_slice(), values.as_slice())
}

/// The same by the procedures of a text. They are left to the end of the process: that they may be dropped would be proved here.
fn told(
    alloc: Global,
    source: &[u8],
    name: &[u8],
    line: &[u8],
    rows: &[u8],
) -> Result<Vec<u8>, Fail> {
    let procs = procs_of(alloc, source)?;
    let told = told_by(alloc, &procs, name, line, rows);
    forget(procs);
    told
}

/// A procedure, the arguments of a call, the values of its rows, and what the call comes to. The procedure is a built-in one of this
/// name, or `f` of this text.
type Row = (&'static [u8], &'static [u8], &'static [u8], &'static [u8]);

/// Fails at the first call that comes to something else.
fn check(alloc: Global, rows: &[Row], are_built_in: bool) -> Result<(), Fail> {
    for (row, (procedure, line, values, want)) in rows.iter().enumerate() {
        let (source, name) = if are_built_in {
            (b"".as_slice(), *procedure)
        } else {
            (*procedure, b"f".as_slice())
        };
        if told(alloc, source, name, line, values)?.as_slice() != *want {
            return Err(wrong(row));
        }
    }
    Ok(())
}

/// The least number, and the greatest.
const LEAST: &[u8] = b"-9223372036854775808";

const MOST: &[u8] = b"9223372036854775807";

/// Calls of built-in procedures: the name, the arguments, the values of the rows, and what the call comes to.
const BUILT_IN: &[Row] = &[
    (b"put", b"b 7", b"-", b"wb gave;b=7"),
    (b"put", b"b 7", b"7", b"wb gave;b=7"),
    (b"note", b"b x", b"1", b"wb gave;b=\"x\""),
    (b"get", b"b", b"7", b"rb gave 7"),
    (b"get", b"b", b"-", b"rb gave none"),
    (b"del", b"b", b"7", b"wb gave;b=none"),
    (b"add", b"b 1", b"-", b"wb gave 1;b=1"),
    (b"add", b"b 1", b"4", b"wb gave 5;b=5"),
    (b"add", b"b 1", MOST, b"wb overflow"),
    (b"add", b"b 1", b"x", b"wb kind"),
    (b"div", b"b 2", b"-7", b"rb gave -3"),
    (b"div", b"b 2", b"-", b"rb kind"),
    (b"div", b"b 0", b"9", b"rb zero"),
    (b"div", b"b -1", LEAST, b"rb overflow"),
    (b"sum", b"y x", b"1 20", b"rx ry gave 21"),
    (b"sum", b"x x", b"4", b"rx gave 8"),
    (b"sum", b"A A", b"-", b"declaration 0 gives no key"),
    (b"sum", b"x A", b"-", b"declaration 1 gives no key"),
    (b"sum", b"x", b"-", b"unfit"),
    (b"xfer", b"b a 3", b"1 5", b"wa wb gave 2 4;a=4;b=2"),
    (b"xfer", b"b a 3", b"1 2", b"wa wb word funds"),
    (b"xfer", b"b a 3", b"- 5", b"wa wb kind"),
    (b"xfer", b"b b 3", b"5", b"wb gave 5 5;b=5"),
    (b"xfer", b"a a 1", b"-", b"wa kind"),
    (b"put", b"b c", b"-", b"unfit"),
    (b"get", b"b 1", b"-", b"unfit"),
];

#[test]
fn calls_of_built_in_procedures_end_as_their_texts_say(rt: HostRuntime) -> Result<(), Fail> {
    check(rt.alloc(), BUILT_IN, true)
}

/// Procedures `f`, each with the arguments of a call, the values of its rows, and what the call comes to.
const BODIES: &[Row] = &[
    (
        b"proc f(k: text) read a = k; { give int(a) % 3, int(a) % -3, int(a) / -2; }",
        b"k",
        b"-7",
        b"rk gave -1 -1 3",
    ),
    (
        b"proc f(k: text) read a = k; { give int(a) % 3, int(a) % -3, int(a) / -2; }",
        b"k",
        b"7",
        b"rk gave 1 1 -3",
    ),
    (
        b"proc f(k: text) read a = k; { give int(a) % -1; }",
        b"k",
        b"-9223372036854775808",
        b"rk overflow",
    ),
    (
        b"proc f(k: text) read a = k; { give -int(a); }",
        b"k",
        b"-9223372036854775808",
        b"rk overflow",
    ),
    (
        b"proc f(k: text) read a = k; { if has(a) and int(a) / 0 == 0 { give 1; } if not has(a) or int(a) == 0 { give 2; } }",
        b"k",
        b"-",
        b"rk gave 2",
    ),
    (
        b"proc f(k: text) read a = k; { if not has(a) and int(a) == 0 { give 1; } }",
        b"k",
        b"-",
        b"rk kind",
    ),
    (
        b"proc f(k: text) write a = k; { set a = 1; give int(a); if int(a) == 1 { if true { abort \"x\"; } } }",
        b"k",
        b"-",
        b"wk word x",
    ),
    (
        b"proc f(k: text) write a = k; write b = k; { set a = 1; set b = int(a) + 1; give int(a), row(b); clear a; give row(b); }",
        b"k",
        b"-",
        b"wk gave 2 2 none;k=none",
    ),
    (
        b"proc f(k: text) read a = k; { let x = 1; if int(a) < 5 { let y = x + 1; let z = y + 1; give z; } else { let y = 9; give y; } let w = x + 10; give w, x; }",
        b"k",
        b"4",
        b"rk gave 3 11 1",
    ),
    (
        b"proc f(k: text) read a = k; { let x = 1; if int(a) < 5 { let y = x + 1; let z = y + 1; give z; } else { let y = 9; give y; } let w = x + 10; give w, x; }",
        b"k",
        b"5",
        b"rk gave 9 11 1",
    ),
    (
        b"proc f(k: text) read a = k; { let b = text(a) ++ text(a); let c = b ++ b; let d = c ++ c; give len(d ++ d); }",
        b"k",
        b"0123456789abcdef",
        b"rk gave 256",
    ),
    (
        b"proc f(k: text) read a = k; { let b = text(a) ++ text(a); let c = b ++ b; let d = c ++ c; give len(d ++ d ++ \"x\"); }",
        b"k",
        b"0123456789abcdef",
        b"rk long",
    ),
    (
        b"proc f(k: text) read a = k; { if text(a) < \"ab\" and text(a) <= \"a\" and \"b\" > text(a) and \"a\" >= text(a) { give show(-5) ++ text(a); } }",
        b"k",
        b"a",
        b"rk gave \"-5a\"",
    ),
    (
        b"proc f(k: text) read a = k; { if text(a) == \"a\" and text(a) != \"\" { give 1; } else { give 2; } }",
        b"k",
        b"a",
        b"rk gave 1",
    ),
    (
        b"proc f(k: text) read a = k; write b = k ++ \"/5\"; { set b = int(a); }",
        b"k",
        b"3",
        b"rk wk/5 gave;k/5=3",
    ),
    (
        b"proc f(k: text) read a = k; write b = \"k\"; { set b = 2; give int(a); }",
        b"k",
        b"1",
        b"wk gave 2;k=2",
    ),
    (
        b"proc f(k: text, n: int) read a = k ++ \"/\" ++ show(n); write b = \"k/-5\"; read c = k; { give int(c); }",
        b"k -5",
        b"3",
        b"rk wk/-5 gave 3",
    ),
];

#[test]
fn calls_end_as_their_texts_say(rt: HostRuntime) -> Result<(), Fail> {
    check(rt.alloc(), BODIES, false)
}

/// A text in which a piece stands `times` times.
pub(crate) fn repeated(
    alloc: Global,
    front: &[u8],
    piece: &[u8],
    times: u32,
    back: &[u8],
) -> Result<Vec<u8>, Fail> {
    let mut text = front.to_vec(alloc)?;
    for _ in 0..times {
        text.extend_from_slice(piece)?;
    }
    text.extend_from_slice(back)?;
    Ok(text)
}

/// What is before a piece, the piece, how often it stands there, what is after it, the length of what a call comes to, and its end.
const MANY_PIECES: &[(&[u8], &[u8], u32, &[u8], usize, &[u8])] = &[
    // Statements, values, operands, and statements in a block.
    (
        b"proc f(k: text) write a = k; { set a = 0; ",
        b"set a = int(a) + 1; ",
        600,
        b"give int(a); }",
        17,
        b"wk gave 600;k=600",
    ),
    (
        b"proc f(k: text) read a = k; { ",
        b"give 7; ",
        600,
        b"}",
        1207,
        b" 7 7 7",
    ),
    (
        b"proc f(k: text) read a = k; { give ",
        b"1+",
        127,
        b"-1; }",
        11,
        b"rk gave 126",
    ),
    (
        b"proc f(k: text) write a = k; { set a = 0; if true { ",
        b"set a = int(a) + 1; ",
        600,
        b"} give int(a); }",
        17,
        b"wk gave 600;k=600",
    ),
];

/// Fails at the first text whose call comes to something of another length or with another end.
fn check_pieces(alloc: Global) -> Result<(), Fail> {
    for (row, (front, piece, times, back, length, end)) in MANY_PIECES.iter().enumerate() {
        let source = repeated(alloc, front, piece, *times, back)?;
        let told = told(alloc, source.as_slice(), b"f", b"k", b"-")?;
        if told.len() != *length || !told.ends_with(end) {
            return Err(wrong(row));
        }
    }
    Ok(())
}

#[test]
fn a_procedure_is_as_long_as_it_is(rt: HostRuntime) -> Result<(), Fail> {
    check_pieces(rt.alloc())
}

/// A procedure that reads a key two bytes longer than its argument.
const LONGER: &[u8] = b"proc f(k: text) read a = k ++ \"/5\"; { give 1; }";

/// Lengths of the argument, and the end of what the call comes to.
const KEYS: &[(u32, &[u8])] = &[
    (63, b"kk/5 gave 1"),
    (126, b"kk/5 gave 1"),
    (127, b"declaration 0 gives no key"),
];

/// Fails at the first length with another end.
fn check_keys(alloc: Global) -> Result<(), Fail> {
    for (row, (length, end)) in KEYS.iter().enumerate() {
        let line = repeated(alloc, b"", b"k", *length, b"")?;
        if !told(alloc, LONGER, b"f", line.as_slice(), b"-")?.ends_with(end) {
            return Err(wrong(row));
        }
    }
    Ok(())
}

#[test]
fn a_call_uses_keys_of_128_bytes_and_no_longer_ones(rt: HostRuntime) -> Result<(), Fail> {
    check_keys(rt.alloc())
}

/// Adds variables up to the one of a number, each greater by one than the one before.
fn put_variables(alloc: Global, text: &mut Vec<u8>, last: u32) -> Result<(), NoMemory> {
    for number in 0..u64::from(last) {
        put_number(alloc, text, b"let v", number + 1)?;
        put_number(alloc, text, b" = v", number)?;
        text.extend_from_slice(b" + 1; ")?;
    }
    Ok(())
}

/// A procedure with n variables, which gives the last.
fn counting(alloc: Global, variables: u32) -> Result<Vec<u8>, Fail> {
    let last = variables.saturating_sub(1);
    let mut text = b"proc f(k: text) read a = k; { let v0 = 0; ".to_vec(alloc)?;
    put_variables(alloc, &mut text, last)?;
    put_number(alloc, &mut text, b"give v", u64::from(last))?;
    text.extend_from_slice(b"; }")?;
    Ok(text)
}

/// Numbers of variables, and what the call comes to.
const VARIABLES: &[(u32, &[u8])] = &[
    (255, b"rk gave 254"),
    (256, b"rk gave 255"),
    (257, b"rk gave 256"),
    (700, b"rk gave 699"),
];

/// Fails at the first number of variables with which the call comes to something else.
fn check_variables(alloc: Global) -> Result<(), Fail> {
    for (row, (variables, want)) in VARIABLES.iter().enumerate() {
        let source = counting(alloc, *variables)?;
        if told(alloc, source.as_slice(), b"f", b"k", b"-")?.as_slice() != *want {
            return Err(wrong(row));
        }
    }
    Ok(())
}

#[test]
fn a_procedure_has_hundreds_of_variables(rt: HostRuntime) -> Result<(), Fail> {
    check_variables(rt.alloc())
}

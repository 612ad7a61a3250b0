//! Texts of procedures: what they mean, or the first fault in them.
use crate::calls::repeated;
use crate::printed::{put_body, put_fault, put_procs};
use dt_proc::{ProcError, Procs, builtin_procs, read_procs};
use dt_test_texts::wrong;
use dt_text::NoMemory;
use std::alloc::Global;
use std::mem::forget;
use std::test::Fail;

/// A text on each odd line, and on the next line the procedures or the fault.
const TEXTS: &[u8] = b"

\x0c
Syntax 0
proc
Syntax 4
proc\x00
Syntax 4
proc f(k: text) read a = j; { }
Unknown 25
proc a_0123456789_bcdefghijklmnopqrst()read a=\"\";{}
proc a_0123456789_bcdefghijklmnopqrst() read \"\"; {}
proc a_0123456789_bcdefghijklmnopqrstu()
Syntax 5
proc _a
Syntax 5
proc A
Syntax 5
proc 9
Syntax 5
proc proc
Syntax 5
proc f g
Syntax 7
read a
Syntax 0
f
Syntax 0
proc f(k: text, k: int)
Syntax 23
proc f(k: text, k: int)read a=k;{}
Twice 16
proc f(k: has)
Syntax 10
proc f(k text)
Syntax 9
proc f(,)
Syntax 7
proc f(k: int,)
Syntax 14
proc f()
Syntax 8
proc f(){}
Syntax 8
proc f()read a=\"\";write b=\"\";
Syntax 29
proc f(k:int,t:text)read a=t++\"/\"++show(k)++\"\";{}
proc f(int, text) read p1 ++ \"/\" ++ s0 ++ \"\"; {}
proc f(k:int)read a=k;{}
Kind 20
proc f(t:text)read a=show(t);{}
Kind 26
proc f(t:text)read a=show(u);{}
Unknown 26
proc f(t:text)read a=\"x\"++a;{}
Unknown 26
proc f(t:text)read a=t;read b=a;{}
Kind 30
proc f(t:text)read t=t;{}
Twice 19
proc f(t:text)read a=t;write a=u;{}
Twice 29
proc f()read a=1;{}
Syntax 15
proc f()read a=\"\";read b=show(\"\");{}
Syntax 30
proc f()write a=\"x\"+\"y\";{}
Syntax 19
proc f()write a=\"x\"{}
Syntax 19
proc f()read a=\"\";{}}
Syntax 20
proc f()read a=\"\";{
Syntax 19
proc f()read a=\"\";{} proc g()write b=\"\";{}
proc f() read \"\"; {} proc g() write \"\"; {}
proc f()read a=\"\";{} proc f()read a=\"\";{}
Twice 26
proc f()read a=u;{} proc f()read a=\"\";{}
Unknown 15
proc f()read a=\"\";{} proc f(x:int,x:int)read a=\"\";{}
Twice 26
proc f()read a=\"\";{} proc f()read a=\"\";{ let
Syntax 44";

/// Before the statements of a body; the first statement stands at byte 64.
const FRONT: &[u8] = b"proc f(n: int, t: text) read r = t; write w = \"x\" ++ show(n); { ";

/// Statements on each odd line, and on the next line the body or the fault.
const BODIES: &[u8] = b"let x = 0;
{let 0;}
let x = 9223372036854775807;
{let 9223372036854775807;}
let x = 9223372036854775808;
Syntax 72
let x = 01;
Syntax 72
let x = 0a;
Syntax 72
let x = 1_;
Syntax 72
let x = -0;
{let -(0);}
let x = \"\";
{let \"\";}
let x = \"\\\"\\\\\";
{let \"\\\"\\\\\";}
let x = \"\\n\";
Syntax 72
let x = \"a\tb\";
Syntax 72
let x = \"a;
Syntax 72
let x = \"a\"b;
Syntax 75
let x = true or false and true;
{let (true or (false and true));}
let x = true and false or true;
{let ((true and false) or true);}
let x = true or true or false;
{let ((true or true) or false);}
let x = true and true and false;
{let ((true and true) and false);}
let x = not true and not false;
{let (not(true) and not(false));}
let x = not not true;
Syntax 76
let x = not (true and true);
{let not((true and true));}
let x = 1 == 2 or 3 != 4;
{let ((1 == 2) or (3 != 4));}
let x = 1 < 2 == 3;
Syntax 78
let x = 1 < 2 and \"a\" <= t;
{let ((1 < 2) and (\"a\" <= v1));}
let x = n > 1 or t >= \"b\";
{let ((v0 > 1) or (v1 >= \"b\"));}
let x = (1 == 2) == true;
Kind 81
let x = 1 == \"1\";
Kind 74
let x = \"1\" < 1;
Kind 76
let x = true != false;
Kind 77
let x = 1 - 2 * 3 - 4;
{let ((1 - (2 * 3)) - 4);}
let x = 1 * 2 - 3 / 4 % 5;
{let ((1 * 2) - ((3 / 4) % 5));}
let x = 1 + (2 + 3);
{let (1 + (2 + 3));}
let x = n + n - n;
{let ((v0 + v0) - v0);}
let x = -n - -1;
{let (-(v0) - -(1));}
let x = --1;
Syntax 73
let x = - (1 + 2) * 3;
{let (-((1 + 2)) * 3);}
let x = t ++ \"a\" ++ show(n);
{let ((v1 ++ \"a\") ++ show(v0));}
let x = t ++ 1;
Kind 74
let x = t + t;
Kind 74
let x = n % t;
Kind 74
let x = 1 / true;
Kind 74
let x = n * \"\";
Kind 74
let x = n - t;
Kind 74
let x = -t;
Kind 72
let x = not n;
Kind 72
let x = true and 1;
Kind 77
let x = t or true;
Kind 74
let x = len(t ++ \"a\") + 1;
{let (len((v1 ++ \"a\")) + 1);}
let x = len(n);
Kind 72
let x = show(t);
Kind 72
let x = show(1) ++ text(r);
{let (show(1) ++ t0);}
let x = int(r) + int(w);
{let (i0 + i1);}
let x = int(n);
Kind 76
let x = text(q);
Unknown 77
let x = has(r) and not has(w);
{let (h0 and not(h1));}
let x = has(t);
Kind 76
let x = int(1);
Syntax 76
let x = r;
Kind 72
let x = q;
Unknown 72
let x = x;
Unknown 72
let n = 1;
Twice 68
let w = 1;
Twice 68
let x = 1; let x = 2;
Twice 79
let x = q; let n = 1;
Unknown 72
let n = q;
Twice 68
let x = 1; let y = x + n; let z = y;
{let 1; let (v2 + v0); let v3;}
if true { let x = 1; } let y = x;
Unknown 95
if true { let x = 1; } let x = t; let y = x;
{if true {let 1;} {} let v1; let v2;}
if true { let x = 1; } else { let y = x; }
Unknown 102
if true { let x = 1; if true { let x = 2; } }
Twice 99
if n == 1 { clear w; } else { abort \"no\"; }
{if (v0 == 1) {clear 1;} {abort \"no\";}}
if n { }
Kind 64
if t { } else { }
Kind 64
if true { } else if true { }
Syntax 81
if true let
Syntax 72
if true { } else { } else
Syntax 85
set w = n;
{set 1 v0;}
set w = t;
{set 1 v1;}
set w = true;
Kind 64
set w = n == n and q;
Unknown 83
set r = 1;
Kind 68
set n = 1;
Kind 68
set q = 1;
Unknown 68
clear w;
{clear 1;}
clear r;
Kind 70
clear n;
Kind 70
clear q;
Unknown 70
abort \"sold out\";
{abort \"sold out\";}
abort t;
Syntax 70
abort \"a\" ++ \"b\";
Syntax 74
give n, t, row(r), int(w);
{give v0, v1, row0, i1;}
give row(r);
{give row0;}
give true;
Kind 69
give 1, (n == n);
Kind 72
give (n < 1);
Kind 69
give row(n);
Kind 73
give row(q);
Unknown 73
give row(1);
Syntax 73
give;
Syntax 68
give n,;
Syntax 71
let = 1;
Syntax 68
let x 1;
Syntax 70
let x == 1;
Syntax 70
let x = ;
Syntax 72
let x = 1
Syntax 74
let x = 1 2;
Syntax 74
let x = (1;
Syntax 74
let x = 1);
Syntax 73
let x = !1;
Syntax 72
let x = 1 ! 2;
Syntax 74
x = 1;
Syntax 64
read q = t;
Syntax 64
proc
Syntax 64
}
Syntax 66";

/// What is before a piece, the piece, how often it stands there, what is after it, and the fault.
const REPEATED: &[(&[u8], &[u8], u32, &[u8], Option<ProcError>)] = &[
    (
        b"proc f()read a=\"\";{let x=",
        b"(",
        62,
        b"1",
        Some(ProcError::Syntax(88)),
    ),
    (
        b"proc f()read a=\"\";{let x=",
        b"(",
        63,
        b"1",
        Some(ProcError::Syntax(89)),
    ),
    (
        b"proc f()read a=\"\";{let x=",
        b"(",
        64,
        b"1",
        Some(ProcError::TooMany(88)),
    ),
    (
        b"proc f()read a=\"\";{let x=",
        b"len(",
        63,
        b"\"\"",
        Some(ProcError::Syntax(279)),
    ),
    (
        b"proc f()read a=\"\";{let x=",
        b"show(",
        64,
        b"1",
        Some(ProcError::TooMany(344)),
    ),
    (
        b"proc f()read a=\"\";{",
        b"if true {",
        63,
        b"}",
        Some(ProcError::Syntax(587)),
    ),
    (
        b"proc f()read a=\"\";{",
        b"if true {",
        64,
        b"}",
        Some(ProcError::TooMany(594)),
    ),
    (
        b"proc f()read a=\"\";{let x=",
        b"1+",
        127,
        b"(1);}",
        Some(ProcError::TooMany(281)),
    ),
    (b"proc f()read a=\"\";{let x=", b"1+", 127, b"-1;}", None),
    (
        b"proc f()read a=\"\";{let x=",
        b"1+",
        128,
        b"1;}",
        Some(ProcError::TooMany(281)),
    ),
    (
        b"proc f()read a=\"\";{let x=",
        b"1+",
        127,
        b"1 2",
        Some(ProcError::Syntax(281)),
    ),
    (b"proc f()read a=", b"\"\"++", 127, b"\"\";{}", None),
    (
        b"proc f()read a=",
        b"\"\"++",
        128,
        b"\"\";{}",
        Some(ProcError::TooMany(527)),
    ),
    (
        b"proc f()read a=",
        b"\"\"++",
        128,
        b";{}",
        Some(ProcError::Syntax(527)),
    ),
    (
        b"proc f(",
        b"a:int,",
        15,
        b"p:int)",
        Some(ProcError::Syntax(103)),
    ),
    (
        b"proc f(",
        b"a:int,",
        16,
        b"p:int)",
        Some(ProcError::TooMany(103)),
    ),
    (
        b"proc f(",
        b"a:int,",
        16,
        b")",
        Some(ProcError::Syntax(103)),
    ),
    (
        b"proc f()",
        b"read a=\"\";",
        16,
        b"{}",
        Some(ProcError::Twice(23)),
    ),
    (
        b"proc f()",
        b"write a=\"\";",
        16,
        b"read b",
        Some(ProcError::TooMany(189)),
    ),
    (
        b"proc f()",
        b"write a=\"\";",
        16,
        b"read =",
        Some(ProcError::Syntax(189)),
    ),
    (
        b"",
        b"proc f()read a=\"\";{}",
        64,
        b"",
        Some(ProcError::Twice(25)),
    ),
    (
        b"",
        b"proc f()read a=\"\";{}",
        64,
        b"proc",
        Some(ProcError::Syntax(1284)),
    ),
    (
        b"",
        b"proc f()read a=\"\";{}",
        64,
        b"proc g",
        Some(ProcError::TooMany(1285)),
    ),
    (
        b"",
        b"proc f()read a=\"\";{}",
        64,
        b"proc (",
        Some(ProcError::Syntax(1285)),
    ),
    (b"proc f()read a=\"\";{let x=\"", b"~", 256, b"\";}", None),
    (
        b"proc f()read a=\"\";{let x=\"",
        b"\\\"",
        256,
        b"\";}",
        None,
    ),
    (
        b"proc f()read a=\"\";{let x=\"",
        b" ",
        257,
        b"\";}",
        Some(ProcError::Syntax(25)),
    ),
    (b"proc f()read a=\"\";{give ", b"1,", 300, b"1;}", None),
    (b"", b"#\n", 3, b"proc f()read a=\"k\";{}#", None),
    (
        b" \t\r\n",
        b"# ( \xff\n",
        2,
        b"\x0c",
        Some(ProcError::Syntax(16)),
    ),
];

/// The built-in procedures.
const BUILTIN: &[u8] = b"
proc put(k: text, v: int) write a = k; { set a = v; }
proc note(k: text, v: text) write a = k; { set a = v; }
proc get(k: text) read a = k; { give row(a); }
proc del(k: text) write a = k; { clear a; }
proc add(k: text, n: int) write a = k; {
  if has(a) { set a = int(a) + n; } else { set a = n; }
  give int(a);
}
proc div(k: text, n: int) read a = k; { give int(a) / n; }
proc sum(x: text, y: text) read a = x; read b = y; { give int(a) + int(b); }
proc xfer(from: text, to: text, n: int) write a = from; write b = to; {
  if int(a) < n { abort \"funds\"; }
  set a = int(a) - n;
  set b = int(b) + n;
  give int(a), int(b);
}
";

/// What is printed of a text.
#[derive(Clone, Copy)]
enum What {
    /// Its procedures.
    Procs,
    /// The body of its first procedure.
    Body,
}

/// Procedures, printed from a copy. Procedures are left to the end of the process: that they may be dropped would be proved in each
/// function that owns some.
fn put_copy(alloc: Global, out: &mut Vec<u8>, procs: &Procs) -> Result<(), NoMemory> {
    let copy = procs.copy()?;
    let put = put_procs(alloc, out, &copy);
    forget(copy);
    put
}

/// What is to be printed of procedures.
fn put_what(alloc: Global, out: &mut Vec<u8>, what: What, procs: &Procs) -> Result<(), NoMemory> {
    match (what, procs.get(0)) {
        (What::Procs, _) => put_copy(alloc, out, procs),
        (What::Body, Some(proc)) => put_body(alloc, out, proc.body()),
        (What::Body, None) => Ok(()),
    }
}

/// What is to be printed of a text, or the fault.
fn printed(alloc: Global, what: What, text: &[u8]) -> Result<Vec<u8>, Fail> {
    if text.len() > 2000 {
        return Err(Fail::from("a test reads few bytes"));
    }
    let mut out = Vec::new(alloc);
    match read_procs(alloc, text) {
        Ok(procs) => {
            let put = put_what(alloc, &mut out, what, &procs);
            forget(procs);
            put?;
        }
        Err(fault) => put_fault(alloc, &mut out, fault)?,
    }
    Ok(out)
}

/// What a text means; of a body, where it stands behind the front of a procedure.
fn told(alloc: Global, what: What, text: &[u8]) -> Result<Vec<u8>, Fail> {
    match what {
        What::Procs => printed(alloc, what, text),
        What::Body => printed(
            alloc,
            what,
            repeated(alloc, FRONT, text, 1, b" }")?.as_slice(),
        ),
    }
}

/// Fails at the first line that is not what the text on the line before it means.
fn check(alloc: Global, what: What, lines: &[u8]) -> Result<(), Fail> {
    let mut text = b"".as_slice();
    for (row, line) in lines.split(|byte| *byte == b'\n').enumerate() {
        if row % 2 == 0 {
            text = line;
        } else if told(alloc, what, text)?.as_slice() != line {
            return Err(wrong(row));
        }
    }
    Ok(())
}

#[test]
fn texts_have_their_outcomes(rt: HostRuntime) -> Result<(), Fail> {
    check(rt.alloc(), What::Procs, TEXTS)
}

#[test]
fn bodies_have_their_outcomes(rt: HostRuntime) -> Result<(), Fail> {
    check(rt.alloc(), What::Body, BODIES)
}

/// The fault of a text, if it has one.
fn fault_of(alloc: Global, text: &[u8]) -> Result<Option<ProcError>, Fail> {
    if text.len() > 2000 {
        return Err(Fail::from("a test reads few bytes"));
    }
    match read_procs(alloc, text) {
        Ok(procs) => {
            forget(procs);
            Ok(None)
        }
        Err(fault) => Ok(Some(fault)),
    }
}

/// Fails at the first text with another fault.
fn check_repeated(alloc: Global) -> Result<(), Fail> {
    for (row, (front, piece, times, back, want)) in REPEATED.iter().enumerate() {
        let text = repeated(alloc, front, piece, *times, back)?;
        if fault_of(alloc, text.as_slice())? != *want {
            return Err(wrong(row));
        }
    }
    Ok(())
}

#[test]
fn what_is_one_too_many_is_told(rt: HostRuntime) -> Result<(), Fail> {
    check_repeated(rt.alloc())
}

/// The built-in procedures, printed.
fn built_in(alloc: Global) -> Result<Vec<u8>, Fail> {
    let procs = builtin_procs(alloc)?;
    let mut out = Vec::new(alloc);
    let put = put_procs(alloc, &mut out, &procs);
    forget(procs);
    put?;
    Ok(out)
}

#[test]
fn the_built_in_text_means_the_built_in_procedures(rt: HostRuntime) -> Result<(), Fail> {
    assert!(rt; printed(rt.alloc(), What::Procs, BUILTIN)? == built_in(rt.alloc())?);
    Ok(())
}

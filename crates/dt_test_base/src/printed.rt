//! Trees as texts: each operation stands in brackets, and what is named is shown by its number.

use dt_proc::{Expr, Give, KeyDecl, KeyItem, Kind, Op, Proc, ProcError, Procs, Stmt};
use dt_test_texts::put_number;
use dt_text::{NoMemory, put_i64, put_text, put_u64};
use std::alloc::Global;

/// Procedures, with a space between them.
pub fn put_procs(alloc: Global, out: &mut Vec<u8>, procs: &Procs) -> Result<(), NoMemory> {
    for number in 0..procs.len() {
        separate(out, number as usize, b" ")?;
        if let Some(proc) = procs.get(number) {
            put_proc(alloc, out, proc)?;
        }
    }
    Ok(())
}

fn put_proc(alloc: Global, out: &mut Vec<u8>, proc: &Proc) -> Result<(), NoMemory> {
    put(out, b"proc ")?;
    put(out, proc.name().bytes())?;
    put_kinds(out, proc.params())?;
    for key in proc.keys() {
        put_key(alloc, out, key)?;
    }
    put_body(alloc, out, proc.body())
}

/// Kinds of parameters in brackets.
fn put_kinds(out: &mut Vec<u8>, kinds: &[Kind]) -> Result<(), NoMemory> {
    put(out, b"(")?;
    for (i, kind) in kinds.iter().enumerate() {
        separate(out, i, b", ")?;
        put(out, kind_word(*kind))?;
    }
    put(out, b") ")
}

fn kind_word(kind: Kind) -> &'static [u8] {
    match kind {
        Kind::Int => b"int",
        Kind::Text => b"text",
    }
}

fn put_key(alloc: Global, out: &mut Vec<u8>, key: &KeyDecl) -> Result<(), NoMemory> {
    let word = if key.write {
        b"write ".as_slice()
    } else {
        b"read ".as_slice()
    };
    put(out, word)?;
    for (i, item) in key.items.as_slice().iter().enumerate() {
        separate(out, i, b" ++ ")?;
        put_item(alloc, out, item)?;
    }
    put(out, b"; ")
}

fn put_item(alloc: Global, out: &mut Vec<u8>, item: &KeyItem) -> Result<(), NoMemory> {
    match item {
        KeyItem::Text(text) => put_text(alloc, out, text),
        KeyItem::Param(param) => put_number(alloc, out, b"p", u64::from(*param)),
        KeyItem::Show(param) => put_number(alloc, out, b"s", u64::from(*param)),
    }
}

/// A fault: its cause and its place. Running out of memory is reported as such.
pub fn put_fault(alloc: Global, out: &mut Vec<u8>, fault: ProcError) -> Result<(), NoMemory> {
    let (word, place) = match fault {
        ProcError::Syntax(place) => (b"Syntax ".as_slice(), place),
        ProcError::TooMany(place) => (b"TooMany ".as_slice(), place),
        ProcError::Twice(place) => (b"Twice ".as_slice(), place),
        ProcError::Unknown(place) => (b"Unknown ".as_slice(), place),
        ProcError::Kind(place) => (b"Kind ".as_slice(), place),
        ProcError::NoMemory => return Err(NoMemory),
    };
    put(out, word)?;
    put_u64(alloc, out, place as u64)
}

/// The statements of a body.
pub fn put_body(alloc: Global, out: &mut Vec<u8>, stmts: &[Stmt]) -> Result<(), NoMemory> {
    put(out, b"{")?;
    for (i, stmt) in stmts.iter().enumerate() {
        separate(out, i, b" ")?;
        match stmt {
            Stmt::If(test, then, otherwise) => {
                put_word(alloc, out, b"if ", test)?;
                put_branch(alloc, out, then.as_slice())?;
                put_branch(alloc, out, otherwise.as_slice())?;
            }
            _ => put_plain(alloc, out, stmt)?,
        }
    }
    put(out, b"}")
}

/// A space, and the statements of a branch, in which those with branches are not shown whole.
fn put_branch(alloc: Global, out: &mut Vec<u8>, stmts: &[Stmt]) -> Result<(), NoMemory> {
    put(out, b" {")?;
    for (i, stmt) in stmts.iter().enumerate() {
        separate(out, i, b" ")?;
        put_plain(alloc, out, stmt)?;
    }
    put(out, b"}")
}

/// A few bytes, and an expression behind them.
fn put_word(alloc: Global, out: &mut Vec<u8>, word: &[u8], expr: &Expr) -> Result<(), NoMemory> {
    put(out, word)?;
    put_expr(alloc, out, expr)
}

/// A statement without branches, and a `;`.
fn put_plain(alloc: Global, out: &mut Vec<u8>, stmt: &Stmt) -> Result<(), NoMemory> {
    match stmt {
        Stmt::Let(value) => put_word(alloc, out, b"let ", value)?,
        Stmt::Set(key, value) => {
            put_number(alloc, out, b"set ", u64::from(*key))?;
            put_word(alloc, out, b" ", value)?;
        }
        Stmt::Clear(key) => put_number(alloc, out, b"clear ", u64::from(*key))?,
        Stmt::If(_, _, _) => return put(out, b"if"),
        Stmt::Abort(text) => {
            put(out, b"abort ")?;
            put_text(alloc, out, text)?;
        }
        Stmt::Give(gives) => put_gives(alloc, out, gives.as_slice())?,
    }
    put(out, b";")
}

fn put_gives(alloc: Global, out: &mut Vec<u8>, gives: &[Give]) -> Result<(), NoMemory> {
    put(out, b"give ")?;
    for (i, give) in gives.iter().enumerate() {
        separate(out, i, b", ")?;
        match give {
            Give::Row(key) => put_number(alloc, out, b"row", u64::from(*key))?,
            Give::Value(value) => put_expr(alloc, out, value)?,
        }
    }
    Ok(())
}

fn put_expr(alloc: Global, out: &mut Vec<u8>, expr: &Expr) -> Result<(), NoMemory> {
    match expr {
        Expr::Int(number) => put_i64(alloc, out, *number),
        Expr::Text(text) => put_text(alloc, out, text.get()),
        Expr::Bool(true) => put(out, b"true"),
        Expr::Bool(false) => put(out, b"false"),
        Expr::Var(variable) => put_number(alloc, out, b"v", u64::from(*variable)),
        Expr::IntOf(key) => put_number(alloc, out, b"i", u64::from(*key)),
        Expr::TextOf(key) => put_number(alloc, out, b"t", u64::from(*key)),
        Expr::Has(key) => put_number(alloc, out, b"h", u64::from(*key)),
        Expr::Len(text) => {
            put(out, b"len(")?;
            put_expr(alloc, out, text)?;
            put(out, b")")
        }
        Expr::Show(number) => {
            put(out, b"show(")?;
            put_expr(alloc, out, number)?;
            put(out, b")")
        }
        Expr::Neg(number) => {
            put(out, b"-(")?;
            put_expr(alloc, out, number)?;
            put(out, b")")
        }
        Expr::Not(truth) => {
            put(out, b"not(")?;
            put_expr(alloc, out, truth)?;
            put(out, b")")
        }
        Expr::Binary(op, left, right) => {
            put(out, b"(")?;
            put_expr(alloc, out, left)?;
            put(out, op_word(*op))?;
            put_expr(alloc, out, right)?;
            put(out, b")")
        }
    }
}

fn op_word(op: Op) -> &'static [u8] {
    match op {
        Op::Or => b" or ",
        Op::And => b" and ",
        Op::Equal => b" == ",
        Op::Differ => b" != ",
        Op::Less => b" < ",
        Op::AtMost => b" <= ",
        Op::More => b" > ",
        Op::AtLeast => b" >= ",
        Op::Add => b" + ",
        Op::Sub => b" - ",
        Op::Join => b" ++ ",
        Op::Mul => b" * ",
        Op::Div => b" / ",
        Op::Rem => b" % ",
    }
}

/// What stands in front of a member of a list that is not the first.
fn separate(out: &mut Vec<u8>, place: usize, bytes: &[u8]) -> Result<(), NoMemory> {
    if place > 0 {
        put(out, bytes)?;
    }
    Ok(())
}

fn put(out: &mut Vec<u8>, bytes: &[u8]) -> Result<(), NoMemory> {
    out.extend_from_slice(bytes)?;
    Ok(())
}

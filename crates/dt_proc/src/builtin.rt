ghost use Rattle.std.specs.Prelude.{◌≡◌, [], ◌∷◌, map, true, false, IfOk};
ghost use Rattle.dt_proc.specs.Builtin as builtin;
ghost use Rattle.dt_proc.specs.Tree.{done, then};
ghost use Rattle.dt_proc.specs.TreeViews.{expr_tree, give_tree, stmt_tree};
ghost use Rattle.dt_proc.specs.Tree.{binary};

use crate::procs::{Proc, Procs};
use crate::tree::{Expr, Give, Gives, KeyDecl, KeyItem, KeyItems, Kind, Op, Stmt, Stmts};
use dt_text::{Listed, Name, NoMemory, Str};
use std::alloc::Global;

/// The built-in procedures: `put`, `note`, `get`, `del`, `add`, `div`, `sum` and `xfer`.
pub fn builtin_procs(alloc: Global) -> Result<Procs, NoMemory>
    ensures { IfOk result (λ procs. procs ≡ builtin.builtin_procs) }
{
    let mut procs = Vec::new(alloc);
    procs.push(put(alloc)?)?;
    procs.push(note(alloc)?)?;
    procs.push(get(alloc)?)?;
    procs.push(del(alloc)?)?;
    procs.push(add(alloc)?)?;
    procs.push(div(alloc)?)?;
    procs.push(sum(alloc)?)?;
    procs.push(xfer(alloc)?)?;
    Procs::from_vec(alloc, procs)
}

/// `proc put(k: text, v: int) write a = k; { set a = v; }`
fn put(alloc: Global) -> Result<Proc, NoMemory>
    ensures { IfOk result (λ proc. proc ≡ builtin.put) }
{
    let body = one(alloc, Stmt::Set(0, Expr::Var(1)))?;
    let keys = one_key(alloc, true)?;
    Ok(Proc::new(
        Name::new(alloc, b"put")?,
        kinds(alloc, &[Kind::Text, Kind::Int])?,
        keys,
        body,
    ))
}

/// `proc note(k: text, v: text) write a = k; { set a = v; }`
fn note(alloc: Global) -> Result<Proc, NoMemory>
    ensures { IfOk result (λ proc. proc ≡ builtin.note) }
{
    let body = one(alloc, Stmt::Set(0, Expr::Var(1)))?;
    let keys = one_key(alloc, true)?;
    Ok(Proc::new(
        Name::new(alloc, b"note")?,
        kinds(alloc, &[Kind::Text, Kind::Text])?,
        keys,
        body,
    ))
}

/// `proc get(k: text) read a = k; { give row(a); }`
fn get(alloc: Global) -> Result<Proc, NoMemory>
    ensures { IfOk result (λ proc. proc ≡ builtin.get) }
{
    let body = one(alloc, Stmt::Give(gift(alloc, Give::Row(0))?))?;
    let keys = one_key(alloc, false)?;
    Ok(Proc::new(
        Name::new(alloc, b"get")?,
        kinds(alloc, &[Kind::Text])?,
        keys,
        body,
    ))
}

/// `proc del(k: text) write a = k; { clear a; }`
fn del(alloc: Global) -> Result<Proc, NoMemory>
    ensures { IfOk result (λ proc. proc ≡ builtin.del) }
{
    let body = one(alloc, Stmt::Clear(0))?;
    let keys = one_key(alloc, true)?;
    Ok(Proc::new(
        Name::new(alloc, b"del")?,
        kinds(alloc, &[Kind::Text])?,
        keys,
        body,
    ))
}

/// `proc add(k: text, n: int) write a = k; { if has(a) { set a = int(a) + n; } else { set a = n; } give int(a); }`
fn add(alloc: Global) -> Result<Proc, NoMemory>
    ensures { IfOk result (λ proc. proc ≡ builtin.add) }
{
    let sum = binary(alloc, Op::Add, Expr::IntOf(0), Expr::Var(1))?;
    let there = one(alloc, Stmt::Set(0, sum))?;
    let absent = one(alloc, Stmt::Set(0, Expr::Var(1)))?;
    let mut body = one(alloc, Stmt::If(Expr::Has(0), there, absent))?;
    body.push(Stmt::Give(gift(alloc, Give::Value(Expr::IntOf(0)))?))?;
    let keys = one_key(alloc, true)?;
    Ok(Proc::new(
        Name::new(alloc, b"add")?,
        kinds(alloc, &[Kind::Text, Kind::Int])?,
        keys,
        body,
    ))
}

/// `proc div(k: text, n: int) read a = k; { give int(a) / n; }`
fn div(alloc: Global) -> Result<Proc, NoMemory>
    ensures { IfOk result (λ proc. proc ≡ builtin.div) }
{
    let quotient = binary(alloc, Op::Div, Expr::IntOf(0), Expr::Var(1))?;
    let body = one(alloc, Stmt::Give(gift(alloc, Give::Value(quotient))?))?;
    let keys = one_key(alloc, false)?;
    Ok(Proc::new(
        Name::new(alloc, b"div")?,
        kinds(alloc, &[Kind::Text, Kind::Int])?,
        keys,
        body,
    ))
}

/// `proc sum(x: text, y: text) read a = x; read b = y; { give int(a) + int(b); }`
fn sum(alloc: Global) -> Result<Proc, NoMemory>
    ensures { IfOk result (λ proc. proc ≡ builtin.sum) }
{
    let total = binary(alloc, Op::Add, Expr::IntOf(0), Expr::IntOf(1))?;
    let body = one(alloc, Stmt::Give(gift(alloc, Give::Value(total))?))?;
    let keys = two_keys(alloc, false)?;
    Ok(Proc::new(
        Name::new(alloc, b"sum")?,
        kinds(alloc, &[Kind::Text, Kind::Text])?,
        keys,
        body,
    ))
}

/// `proc xfer(from: text, to: text, n: int) write a = from; write b = to; { if int(a) < n { abort "funds"; }
/// set a = int(a) - n; set b = int(b) + n; give int(a), int(b); }`
fn xfer(alloc: Global) -> Result<Proc, NoMemory>
    ensures { IfOk result (λ proc. proc ≡ builtin.xfer) }
{
    let keys = two_keys(alloc, true)?;
    let params = kinds(alloc, &[Kind::Text, Kind::Text, Kind::Int])?;
    Ok(Proc::new(Name::new(alloc, b"xfer")?, params, keys, transfer(alloc)?))
}

/// The statements of `xfer`.
fn transfer(alloc: Global) -> Result<Stmts, NoMemory>
    ensures { IfOk result (λ body. body ≡ builtin.transfer) }
{
    let mut body = one(alloc, refusal(alloc)?)?;
    let left = binary(alloc, Op::Sub, Expr::IntOf(0), Expr::Var(2))?;
    body.push(Stmt::Set(0, left))?;
    let more = binary(alloc, Op::Add, Expr::IntOf(1), Expr::Var(2))?;
    body.push(Stmt::Set(1, more))?;
    let mut gives = gift(alloc, Give::Value(Expr::IntOf(0)))?;
    gives.push(Give::Value(Expr::IntOf(1)))?;
    body.push(Stmt::Give(gives))?;
    Ok(body)
}

/// `if int(a) < n { abort "funds"; }`
fn refusal(alloc: Global) -> Result<Stmt, NoMemory>
    ensures { IfOk result (λ stmt. stmt_tree stmt ≡ builtin.refusal) }
{
    let few = binary(alloc, Op::Less, Expr::IntOf(0), Expr::Var(2))?;
    let refused = one(alloc, Stmt::Abort(Str::new(alloc, b"funds")?))?;
    Ok(Stmt::If(few, refused, Stmts::new(alloc)))
}

/// These kinds.
fn kinds(alloc: Global, kinds: &[Kind]) -> Result<Listed<Kind>, NoMemory>
    ensures { IfOk result (λ list. list ≡ kinds.now) }
{
    Ok(Listed::from_vec(Vec::from_slice(alloc, kinds)?))
}

/// The key that is given as this parameter.
fn key(alloc: Global, write: bool, param: u32) -> Result<KeyDecl, NoMemory>
    ensures { IfOk result (λ key. key ≡ record { write = write; items = KeyItem.Param param ∷ [] }) }
{
    let mut items = KeyItems::new(alloc);
    items.push(KeyItem::Param(param))?;
    Ok(KeyDecl { write, items })
}

/// One key, given as the first parameter.
fn one_key(alloc: Global, write: bool) -> Result<Listed<KeyDecl>, NoMemory>
    ensures { IfOk result (λ keys. keys ≡ record { write = write; items = KeyItem.Param 0 ∷ [] } ∷ []) }
{
    let mut keys = Listed::new(alloc);
    keys.push(key(alloc, write, 0)?)?;
    Ok(keys)
}

/// Two keys, given as the first two parameters.
fn two_keys(alloc: Global, write: bool) -> Result<Listed<KeyDecl>, NoMemory>
    ensures { IfOk result (λ keys. keys ≡ record { write = write; items = KeyItem.Param 0 ∷ [] }
        ∷ record { write = write; items = KeyItem.Param 1 ∷ [] } ∷ []) }
{
    let mut keys = one_key(alloc, write)?;
    keys.push(key(alloc, write, 1)?)?;
    Ok(keys)
}

/// One statement.
fn one(alloc: Global, stmt: Stmt) -> Result<Stmts, NoMemory>
    ensures { IfOk result (λ stmts. stmts ≡ then (stmt_tree stmt) done) }
{
    let mut stmts = Stmts::new(alloc);
    stmts.push(stmt)?;
    Ok(stmts)
}

/// One gift.
fn gift(alloc: Global, give: Give) -> Result<Gives, NoMemory>
    ensures { IfOk result (λ gives. map give_tree gives ≡ give_tree give ∷ []) }
{
    let mut gives = Gives::new(alloc);
    gives.push(give)?;
    Ok(gives)
}

/// An operator between two operands.
pub(crate) fn binary(alloc: Global, op: Op, left: Expr, right: Expr) -> Result<Expr, NoMemory>
    ensures { IfOk result (λ expr. expr_tree expr ≡ binary op (expr_tree left) (expr_tree right)) }
{
    Ok(Expr::Binary(op, Box::new(alloc, left)?, Box::new(alloc, right)?))
}

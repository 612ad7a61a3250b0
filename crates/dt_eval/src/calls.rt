ghost use Rattle.std.specs.Prelude.{◌≡◌, ◌↔◌, IsTrue, IfOk, length, map};
ghost use Rattle.dt_lists.specs.Lists.{AllIn, AnyIn, Pairwise};
ghost use Rattle.dt_eval.specs.FrameInner.{ArePlaces, IsItemWithin};
ghost use Rattle.dt_eval.specs.Keys.{HasKeys, keys_of, names_given, names_of};
ghost use Rattle.dt_eval.specs.Meaning.{Fits, IsOfKind, meaning, unchanged};

use crate::finish::{Finish, Reads};
use crate::frame::Frame;
use crate::places::place_of;
use crate::rows::{Places, Rows};
use crate::stop::Stop;
use crate::values::Values;
use crate::variables::Variables;
use dt_access::TryCopy;
use dt_proc::{KeyDecl, Kind, Proc};
use dt_text::{Key, NoMemory, Value};
use std::alloc::Global;

/// Whether number and kinds of the arguments are those of the procedure's parameters. Takes no memory.
pub fn fits(body: &Proc, args: &[Value]) -> bool
    ensures { IsTrue result ↔ Fits body.now args.now }
{
    are_of_kinds(body.params(), args)
}

/// Whether there are as many values as kinds, and each has its kind.
fn are_of_kinds(kinds: &[Kind], values: &[Value]) -> bool
    ensures { IsTrue result ↔ Pairwise IsOfKind kinds.now values.now }
{
    if kinds.len() != values.len() {
        return false;
    }
    for (place, kind) in kinds.iter().enumerate() {
        if !is_of_kind(*kind, &values[place]) {
            return false;
        }
    }
    true
}

/// Whether a value has this kind.
fn is_of_kind(kind: Kind, value: &Value) -> bool
    ensures { IsTrue result ↔ IsOfKind kind value.now }
{
    match (kind, value) {
        (Kind::Int, Value::Int(_)) => true,
        (Kind::Text, Value::Text(_)) => true,
        _ => false,
    }
}

/// Runs a call on the values of the rows that it uses.
///
/// The arguments fit, and the reads are of just the keys of `keys_of`, in their order.
pub fn run(alloc: Global, body: &Proc, args: &[Value], reads: &Reads) -> Result<Finish, NoMemory>
    requires fits { Fits body.now args.now }
    requires keys { HasKeys body.now args.now }
    requires reads { map (λ read. read.0) reads.now ≡ map (λ used. used.0) (keys_of body.now args.now) }
    ensures { IfOk result (λ finish. finish ≡ meaning body.now args.now reads.now) }
{
    run_owned(alloc, body, args, reads.copy(alloc)?)
}

/// Runs a call, as `run` does, on rows that are handed over, so that none of their values is copied before the first
/// statement.
pub fn run_owned(
    alloc: Global,
    body: &Proc,
    args: &[Value],
    reads: Reads,
) -> Result<Finish, NoMemory>
    requires fits { Fits body.now args.now }
    requires keys { HasKeys body.now args.now }
    requires reads { map (λ read. read.0) reads ≡ map (λ used. used.0) (keys_of body.now args.now) }
    ensures { IfOk result (λ finish. finish ≡ meaning body.now args.now reads) }
{
    let mut frame = Frame {
        variables: Variables::of(alloc, args),
        rows: rows(alloc, body, args, reads)?,
        given: Values::new(alloc),
    };
    match frame.block(alloc, body.body()) {
        Ok(()) => {
            let Frame { rows, given, .. } = frame;
            Ok(Finish::Gave(given, rows.into_writes(alloc)?))
        }
        Err(Stop::Aborted(cause)) => Ok(Finish::Aborted(cause)),
        Err(Stop::NoMemory) => Err(NoMemory),
    }
}

/// The rows of a run before its first statement.
fn rows(alloc: Global, body: &Proc, args: &[Value], reads: Reads) -> Result<Rows, NoMemory>
    requires fits { Fits body.now args.now }
    requires reads { map (λ read. read.0) reads ≡ map (λ used. used.0) (keys_of body.now args.now) }
    ensures { IfOk result (λ rows. rows ≡ (names_of body.now args.now, map unchanged reads)) }
{
    let declarations = body.keys();
    let places = places(alloc, declarations, args, reads.as_slice())?;
    Rows::new(alloc, reads.into_vec(), places)
}

/// For each declaration the place of its key among the reads.
fn places(
    alloc: Global,
    declarations: &[KeyDecl],
    args: &[Value],
    reads: &[(Key, Option<Value>)],
) -> Result<Places, NoMemory>
    requires within { AllIn (λ d. AllIn (IsItemWithin (length args.now)) d.items) declarations.now }
    requires read { AllIn (λ name. AnyIn (λ r. r.0 ≡ name) reads.now) (names_given args.now declarations.now) }
    ensures { IfOk result (λ places. ArePlaces (names_given args.now declarations.now) (map (λ r. r.0) reads.now) places.items) }
{
    let mut places = Places::with_capacity(alloc, declarations.len())?;
    for declared in declarations {
        places.push(place_of(reads, declared.items.as_slice(), args))?;
    }
    Ok(places)
}

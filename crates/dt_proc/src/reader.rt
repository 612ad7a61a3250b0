//! The reader of procedures.

ghost use Rattle.std.specs.Prelude.{◌≡◌, ◌⊎◌, ◌<◌, ◌^◌, List, [], ◌++◌, length, nat_eq, IfOk, Err};
ghost use Rattle.std.specs.List.{list_any};
ghost use Rattle.std.specs.Cmp.Lexicographic.{pointwise};
ghost use Rattle.dt_syntax.specs.declared.token.Placed.{Placed};
ghost use Rattle.dt_syntax.specs.Grammar as syn;
ghost use Rattle.dt_proc.specs.SecondPass as checked;
ghost use Rattle.dt_proc.specs.WalkInner as walked;
ghost use Rattle.dt_proc.specs.Sound as sound;
ghost use Rattle.dt_proc.specs.Outcome.{Outcome};

use crate::error::ProcError;
use crate::fronts::{after_one, named};
use crate::keys::more_keys;
use crate::parameters::params;
use crate::procs::{Proc, Procs, is_named};
use crate::statements::block;
use dt_syntax::{Placed, read_tokens};
use dt_text::{Listed, Name};
use std::alloc::Global;

/// Whether one of the procedures has this name.
fn is_taken(before: &[Proc], name: &Name) -> bool
    ensures { result ≡ list_any (λ q. pointwise nat_eq q.name name.now) before.now }
{
    before.iter().any(|item| is_named(item, name.bytes()))
}

/// The procedure that comes first, after others, and what follows it.
fn proc<'a>(
    alloc: Global,
    before: &[Proc],
    tokens: &'a [Placed],
) -> Result<(Proc, &'a [Placed]), ProcError>
    requires starts { walked.StartsProc tokens.now }
    requires short { length tokens.now < 2 ^ 32 }
    ensures shorter { IfOk result (λ r. length r.1.now < length tokens.now) }
    ensures fits { IfOk result (λ r. sound.IsSoundProc r.0) }
    ensures right { (p : syn.ProcSyntax) (rest : List Placed) → syn.IsProc p → syn.proc_tokens p ++ rest ≡ tokens.now
        → walked.WalkAnswers (checked.check_proc before.now p) rest (walked.given_shown result) }
{
    let (place, name, rest) = named(after_one(tokens));
    if is_taken(before, name) {
        return Err(ProcError::Twice(place));
    }
    let (mut scope, kinds, rest) = params(alloc, after_one(rest))?;
    let mut keys = Listed::new(alloc);
    let rest = more_keys(alloc, &mut scope, &mut keys, rest)?;
    let (body, rest) = block(alloc, &mut scope, rest)?;
    Ok((Proc::new(name.copy(alloc)?, kinds, keys, body), rest))
}

/// The procedures that all tokens spell.
fn procs(alloc: Global, tokens: &[Placed]) -> Result<Procs, ProcError>
    requires few { walked.AreFewProcs tokens.now }
    requires short { length tokens.now < 2 ^ 32 }
    ensures right { (ps : List syn.ProcSyntax) → syn.AreProcSyntaxes ps → syn.procs_tokens ps ≡ tokens.now
        → walked.PassGives (checked.check_procs [] ps) result }
    ensures sound { IfOk result sound.AreProcs }
{
    let mut procs = Vec::new(alloc);
    let mut rest = tokens;
    while !rest.is_empty() {
        let (item, after) = proc(alloc, procs.as_slice(), rest)?;
        procs.push(item)?;
        rest = after;
    }
    Ok(Procs::from_vec(alloc, procs)?)
}

/// Reads procedures. The answer is the outcome of the text: the procedures that it means, or the
/// first fault in it with its place; or memory ran out.
///
/// The text is tested as a whole for what it is made of first (`Syntax` and `TooMany`), and then for
/// its names and kinds (`Twice`, `Unknown` and `Kind`). A text has exactly one outcome.
#[tactic(auto, using(crate::proofs::ProcsWalk::outcome_first))]
pub fn read_procs(alloc: Global, text: &[u8]) -> Result<Procs, ProcError>
    requires short { length text.now < 2 ^ 32 }
    ensures outcome { (result ≡ Err ProcError.NoMemory) ⊎ Outcome text.now result }
    ensures sound { IfOk result sound.AreProcs }
{
    let tokens = read_tokens(alloc, text)?;
    procs(alloc, tokens.as_slice())
}

//! The second pass over parameters.

ghost use Rattle.std.specs.Prelude.{◌≡◌, ◌<◌, ◌^◌, ℕ, List, [], ◌∷◌, ◌++◌, length, map, IfOk, OnOk, Ok};
ghost use Rattle.std.specs.List.{flat_map};
ghost use Rattle.dt_syntax.specs.declared.token.Placed.{Placed};
ghost use Rattle.dt_syntax.specs.declared.token.Token.TheVariants as tok;
ghost use Rattle.dt_syntax.specs.Grammar as syn;
ghost use Rattle.dt_syntax.specs.Grammar.{at};
ghost use Rattle.dt_proc.specs.Sound.{sort_of};
ghost use Rattle.dt_syntax.specs.declared.kinds.Kind.{Kind};
ghost use Rattle.dt_proc.specs.SecondPass as checked;
ghost use Rattle.dt_proc.specs.WalkInner as walked;
ghost use Rattle.dt_syntax.specs.Fronts as fronts;

use crate::error::ProcError;
use crate::fronts::{after_close, after_comma, after_one, named};
use crate::scope::{Scope, is_new};
use crate::tree::{Kind, Sort};
use dt_syntax::{Placed, Token};
use dt_text::Listed;
use std::alloc::Global;

/// The kind that comes first, and what follows it.
fn kind(tokens: &[Placed]) -> (Kind, &[Placed])
    requires starts { walked.StartsKind tokens.now }
    ensures shorter { length result.1.now < length tokens.now }
    ensures right { (p : ℕ) (k : Kind) (rest : List Placed) → at p (syn.kind_token k) ∷ rest ≡ tokens.now
        → (result.0 ≡ k) × (result.1.now ≡ rest) }
{
    let [first, rest @ ..] = tokens else {
        unreachable!();
    };
    match &first.token {
        Token::IntWord => (Kind::Int, rest),
        Token::TextWord => (Kind::Text, rest),
        _ => unreachable!(),
    }
}

/// What a parameter of this kind gives.
fn sort_of(kind: Kind) -> Sort
    ensures { result ≡ sort_of kind }
{
    match kind {
        Kind::Int => Sort::Int,
        Kind::Text => Sort::Text,
    }
}

/// A parameter, which is visible after it.
fn param<'a>(
    alloc: Global,
    scope: &mut Scope,
    kinds: &mut Listed<Kind>,
    tokens: &'a [Placed],
) -> Result<&'a [Placed], ProcError>
    requires room { walked.HasRoom scope.old tokens.now }
    requires starts { walked.StartsParam tokens.now }
    ensures shorter { IfOk result (λ r. length r.now < length tokens.now) }
    ensures room { IfOk result (λ r. walked.KeepsRoom scope.old tokens.now scope.new r.now) }
    ensures right { (p : syn.Param) (rest : List Placed) → syn.param_tokens p ++ rest ≡ tokens.now
        → walked.WalkAnswers (checked.check_param scope.old p) rest (walked.left_with scope.new result) × OnOk result (kinds.new ≡ kinds.old ++ p.kind ∷ []) }
{
    let (place, name, rest) = named(tokens);
    if !is_new(scope, name) {
        return Err(ProcError::Twice(place));
    }
    let (kind, rest) = kind(after_one(rest));
    scope.add_variable(alloc, name, sort_of(kind))?;
    kinds.push(kind)?;
    Ok(rest)
}

/// More parameters, up to and with the `)`.
fn more_params<'a>(
    alloc: Global,
    scope: &mut Scope,
    kinds: &mut Listed<Kind>,
    tokens: &'a [Placed],
) -> Result<&'a [Placed], ProcError>
    requires room { walked.HasRoom scope.old tokens.now }
    requires starts { walked.StartsMoreParams tokens.now }
    ensures shorter { IfOk result (λ r. length r.now < length tokens.now) }
    ensures room { IfOk result (λ r. walked.KeepsRoom scope.old tokens.now scope.new r.now) }
    ensures right { (more : List (ℕ × syn.Param)) (q : ℕ) (rest : List Placed) → flat_map fronts.comma_param more ++ at q tok.Close ∷ rest ≡ tokens.now
        → walked.WalkAnswers (checked.check_more_params scope.old more) rest (walked.left_with scope.new result)
        × OnOk result (kinds.new ≡ kinds.old ++ map (λ m. m.1.kind) more) }
{
    match after_comma(tokens) {
        Some(rest) => {
            let rest = param(alloc, scope, kinds, rest)?;
            more_params(alloc, scope, kinds, rest)
        }
        None => Ok(after_one(tokens)),
    }
}

/// Parameters, up to and with the `)`: what is visible after them, and their kinds.
pub(crate) fn params(
    alloc: Global,
    tokens: &[Placed],
) -> Result<(Scope, Listed<Kind>, &[Placed]), ProcError>
    requires short { length tokens.now < 2 ^ 32 }
    requires starts { walked.StartsParams tokens.now }
    ensures room { IfOk result (λ r. walked.KeepsRoom (record { variables = []; keys = [] }) tokens.now r.0 r.2.now) }
    ensures right { (ps : syn.Params) (q : ℕ) (rest : List Placed) → syn.params_tokens ps ++ at q tok.Close ∷ rest ≡ tokens.now
        → walked.WalkAnswers (walked.params_told ps) rest (walked.params_shown result) }
{
    let mut scope = Scope::new(alloc);
    let mut kinds = Listed::new(alloc);
    if let Some(rest) = after_close(tokens) {
        return Ok((scope, kinds, rest));
    }
    let rest = param(alloc, &mut scope, &mut kinds, tokens)?;
    let rest = more_params(alloc, &mut scope, &mut kinds, rest)?;
    Ok((scope, kinds, rest))
}

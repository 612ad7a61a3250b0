//! The second pass over the declarations of keys.

ghost use Rattle.std.specs.Prelude.{◌≡◌, ◌<◌, ℕ, List, ◌∷◌, ◌++◌, length, IfOk, Ok};
ghost use Rattle.std.specs.List.{flat_map};
ghost use Rattle.dt_syntax.specs.declared.token.Placed.{Placed};
ghost use Rattle.dt_syntax.specs.declared.token.Token.TheVariants as tok;
ghost use Rattle.dt_syntax.specs.Grammar as syn;
ghost use Rattle.dt_syntax.specs.Grammar.{at, Bracketed, bracketed_tokens};
ghost use Rattle.dt_proc.specs.Names.{meaning_in};
ghost use Rattle.dt_syntax.specs.declared.kinds.Kind.{Kind};
ghost use Rattle.dt_proc.specs.AfterOk.{after_ok};
ghost use Rattle.dt_proc.specs.SecondPass as checked;
ghost use Rattle.dt_proc.specs.WalkInner as walked;
ghost use Rattle.dt_syntax.specs.Fronts as fronts;

use crate::error::ProcError;
use crate::fronts::{after_join, after_one, bracketed, named};
use crate::scope::{Meaning, Scope, is_new};
use crate::tree::{KeyDecl, KeyItem, KeyItems, Sort};
use dt_syntax::{Placed, Token};
use dt_text::{Listed, Name};
use std::alloc::Global;

/// The number of the parameter of this sort that a name means.
fn param_of(scope: &Scope, place: u32, name: &Name, wanted: Sort) -> Result<u32, ProcError>
    ensures { result ≡ checked.as_param place wanted (meaning_in scope.now name.now) }
{
    match scope.meaning(name) {
        Meaning::Variable(number, sort) => {
            if is_same(sort, wanted) {
                Ok(number)
            } else {
                Err(ProcError::Kind(place))
            }
        }
        Meaning::Key(_, _) => Err(ProcError::Kind(place)),
        Meaning::Unknown => Err(ProcError::Unknown(place)),
    }
}

/// Whether two sorts are the same.
fn is_same(left: Sort, right: Sort) -> bool
    ensures { result ≡ checked.same_sort left right }
{
    left == right
}

/// A shown parameter in brackets, as a part of a key expression.
fn shown_part<'a>(scope: &Scope, tokens: &'a [Placed]) -> Result<(KeyItem, &'a [Placed]), ProcError>
    requires starts { walked.StartsBrackets tokens.now }
    ensures shorter { IfOk result (λ r. length r.1.now < length tokens.now) }
    ensures right { (p : ℕ) (b : Bracketed) (rest : List Placed) → bracketed_tokens b ++ rest ≡ tokens.now
        → walked.WalkAnswers (checked.check_part scope.now (syn.show_part p b)) rest (walked.given_shown result) }
{
    let (place, name, rest) = bracketed(tokens);
    let number = param_of(scope, place, name, Sort::Int)?;
    Ok((KeyItem::Show(number), rest))
}

/// A part of a key expression.
fn part<'a>(
    alloc: Global,
    scope: &Scope,
    tokens: &'a [Placed],
) -> Result<(KeyItem, &'a [Placed]), ProcError>
    requires starts { walked.StartsPart tokens.now }
    ensures shorter { IfOk result (λ r. length r.1.now < length tokens.now) }
    ensures right { (i : syn.KeyPart) (rest : List Placed) → syn.part_tokens i ++ rest ≡ tokens.now
        → walked.WalkAnswers (checked.check_part scope.now i) rest (walked.given_shown result) }
{
    let [first, rest @ ..] = tokens else {
        unreachable!();
    };
    match &first.token {
        Token::Text(text) => Ok((KeyItem::Text(text.get().copy(alloc)?), rest)),
        Token::Name(name) => {
            let number = param_of(scope, first.place, name.get(), Sort::Text)?;
            Ok((KeyItem::Param(number), rest))
        }
        Token::Show => shown_part(scope, rest),
        _ => unreachable!(),
    }
}

/// More parts of a key expression, up to and with the `;`.
fn more_parts<'a>(
    alloc: Global,
    scope: &Scope,
    items: &mut KeyItems,
    tokens: &'a [Placed],
) -> Result<&'a [Placed], ProcError>
    requires starts { walked.StartsMoreParts tokens.now }
    ensures shorter { IfOk result (λ r. length r.now < length tokens.now) }
    ensures right { (more : List (ℕ × syn.KeyPart)) (e : ℕ) (rest : List Placed) → flat_map fronts.joined_part more ++ at e tok.Semicolon ∷ rest ≡ tokens.now
        → walked.WalkAnswers (after_ok (checked.check_parts scope.now more) (λ is. Ok (items.old ++ is))) rest (walked.left_with items.new result) }
{
    match after_join(tokens) {
        Some(rest) => {
            let (item, rest) = part(alloc, scope, rest)?;
            items.push(item)?;
            more_parts(alloc, scope, items, rest)
        }
        None => Ok(after_one(tokens)),
    }
}

/// A key, after its word.
fn key<'a>(
    alloc: Global,
    scope: &mut Scope,
    keys: &mut Listed<KeyDecl>,
    write: bool,
    tokens: &'a [Placed],
) -> Result<&'a [Placed], ProcError>
    requires room { walked.HasRoom scope.old tokens.now }
    requires starts { walked.StartsKey tokens.now }
    ensures shorter { IfOk result (λ r. length r.now < length tokens.now) }
    ensures room { IfOk result (λ r. walked.KeepsRoom scope.old tokens.now scope.new r.now) }
    ensures right { (k : syn.KeySyntax) (rest : List Placed) → k.write ≡ write
        → at k.name_at (tok.Name k.name) ∷ at k.is_at tok.Is ∷ (syn.part_tokens k.first ++ (flat_map fronts.joined_part k.more ++ at k.end_at tok.Semicolon ∷ rest)) ≡ tokens.now
        → walked.WalkAnswers (walked.key_told scope.old keys.old k) rest (walked.left_with_both scope.new keys.new result) }
{
    let (place, name, rest) = named(tokens);
    if !is_new(scope, name) {
        return Err(ProcError::Twice(place));
    }
    let (item, rest) = part(alloc, scope, after_one(rest))?;
    let mut items = KeyItems::new(alloc);
    items.push(item)?;
    let rest = more_parts(alloc, scope, &mut items, rest)?;
    scope.add_key(alloc, name, write)?;
    keys.push(KeyDecl { write, items })?;
    Ok(rest)
}

/// More keys, up to and with the `{` after them.
pub(crate) fn more_keys<'a>(
    alloc: Global,
    scope: &mut Scope,
    keys: &mut Listed<KeyDecl>,
    tokens: &'a [Placed],
) -> Result<&'a [Placed], ProcError>
    requires room { walked.HasRoom scope.old tokens.now }
    requires starts { walked.StartsMoreKeys tokens.now }
    ensures room { IfOk result (λ r. walked.KeepsRoom scope.old tokens.now scope.new r.now) }
    ensures right { (ks : List syn.KeySyntax) (b : ℕ) (rest : List Placed) → flat_map syn.key_tokens ks ++ at b tok.Begin ∷ rest ≡ tokens.now
        → walked.WalkAnswers (walked.keys_told scope.old keys.old ks) rest (walked.left_with_both scope.new keys.new result) }
{
    let [first, rest @ ..] = tokens else {
        unreachable!();
    };
    match &first.token {
        Token::Read => {
            let rest = key(alloc, scope, keys, false, rest)?;
            more_keys(alloc, scope, keys, rest)
        }
        Token::Write => {
            let rest = key(alloc, scope, keys, true, rest)?;
            more_keys(alloc, scope, keys, rest)
        }
        _ => Ok(rest),
    }
}

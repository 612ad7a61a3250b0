//! The second pass over expressions.

ghost use Rattle.std.specs.Prelude.{◌≡◌, ◌<◌, ◌≤◌, ℕ, List, ◌∷◌, ◌++◌, length, IfOk, IfSome};
ghost use Rattle.dt_syntax.specs.declared.token.Placed.{Placed};
ghost use Rattle.dt_syntax.specs.declared.token.Token.TheVariants as tok;
ghost use Rattle.dt_syntax.specs.Grammar.{at, Bracketed, bracketed_tokens, Syntax, syntax_tokens, Links, links_tokens, IsLevel, AreLinks};
ghost use Rattle.dt_proc.specs.Names.{meaning_in};
ghost use Rattle.dt_proc.specs.Sound as sound;
ghost use Rattle.dt_proc.specs.AfterOk.{after_ok};
ghost use Rattle.dt_proc.specs.SecondPass as checked;
ghost use Rattle.dt_proc.specs.WalkInner as walked;
ghost use Rattle.dt_syntax.specs.Fronts as fronts;
ghost use Rattle.dt_proc.specs.TreeViews.{expr_tree};

use crate::builtin::binary;
use crate::error::ProcError;
use crate::fronts::{after_one, bracketed};
use crate::scope::{Meaning, Scope};
use crate::tree::{Expr, Op, Sort};
use dt_syntax::{Apart, Placed, Token};
use dt_text::Name;
use std::alloc::Global;

/// The number of the key that the name in brackets means, and what follows the brackets.
pub(crate) fn key_in_brackets<'a>(
    scope: &Scope,
    tokens: &'a [Placed],
) -> Result<(u32, &'a [Placed]), ProcError>
    requires starts { walked.StartsBrackets tokens.now }
    ensures shorter { IfOk result (λ r. length r.1.now < length tokens.now) }
    ensures right { (b : Bracketed) (rest : List Placed) → bracketed_tokens b ++ rest ≡ tokens.now
        → walked.WalkAnswers (checked.key_of scope.now b) rest (walked.given_shown result) }
{
    let (place, name, rest) = bracketed(tokens);
    match scope.meaning(name) {
        Meaning::Key(number, _) => Ok((number, rest)),
        Meaning::Variable(_, _) => Err(ProcError::Kind(place)),
        Meaning::Unknown => Err(ProcError::Unknown(place)),
    }
}

/// An expression of the level: operands of the next one with operators between, which group from the left.
#[cycle(levels)]
pub(crate) fn expression<'a>(
    alloc: Global,
    scope: &Scope,
    tokens: &'a [Placed],
    level: u8,
) -> Result<(Expr, Sort, &'a [Placed]), ProcError>
    requires high { level ≤ 6 }
    requires starts { walked.StartsExpr level tokens.now }
    ensures shorter { IfOk result (λ r. length r.2.now < length tokens.now) }
    ensures right { (x : Syntax) (rest : List Placed) → IsLevel level x → fronts.FrontStops level rest → syntax_tokens x ++ rest ≡ tokens.now
        → walked.WalkAnswers (checked.check scope.now x) rest (walked.expr_shown result) }
{
    if level >= 5 {
        return operand(alloc, scope, tokens, level);
    }
    let (first, sort, rest) = expression(alloc, scope, tokens, level + 1)?;
    links(alloc, scope, first, sort, rest, level)
}

/// What follows an operand of the next level: operators of the level, each with an operand.
#[cycle(levels)]
fn links<'a>(
    alloc: Global,
    scope: &Scope,
    left: Expr,
    sort: Sort,
    tokens: &'a [Placed],
    level: u8,
) -> Result<(Expr, Sort, &'a [Placed]), ProcError>
    requires low { level < 5 }
    requires starts { walked.StartsLinks level tokens.now }
    ensures shorter { IfOk result (λ r. length r.2.now ≤ length tokens.now) }
    ensures right { (ls : Links) (rest : List Placed) → AreLinks level ls → fronts.FrontStops level rest → links_tokens ls ++ rest ≡ tokens.now
        → walked.WalkAnswers (checked.check_links scope.now (expr_tree left, sort) ls) rest (walked.expr_shown result) }
{
    let Some((place, op, after)) = operator(tokens, level) else {
        return Ok((left, sort, tokens));
    };
    let (right, other, rest) = expression(alloc, scope, after, level + 1)?;
    if !fits(op, sort, other) {
        return Err(ProcError::Kind(place));
    }
    links(
        alloc,
        scope,
        binary(alloc, op, left, right)?,
        given_by(op),
        rest,
        level,
    )
}

/// The operator of the level that comes first, with its place, and what follows it.
fn operator(tokens: &[Placed], level: u8) -> Option<(u32, Op, &[Placed])>
    ensures shorter { IfSome result (λ r. length r.2.now < length tokens.now) }
    ensures right { walked.FindsOperator level tokens.now (walked.operator_shown result) }
{
    let [first, rest @ ..] = tokens else {
        return None;
    };
    match &first.token {
        Token::Op(op) => {
            if op.level() == level {
                Some((first.place, *op, rest))
            } else {
                None
            }
        }
        _ => None,
    }
}

/// An operand: an atom, or at level 5 one with `-` or `not` before it.
#[cycle(levels)]
fn operand<'a>(
    alloc: Global,
    scope: &Scope,
    tokens: &'a [Placed],
    level: u8,
) -> Result<(Expr, Sort, &'a [Placed]), ProcError>
    requires low { 5 ≤ level }
    requires high { level ≤ 6 }
    requires starts { walked.StartsExpr level tokens.now }
    ensures shorter { IfOk result (λ r. length r.2.now < length tokens.now) }
    ensures right { (x : Syntax) (rest : List Placed) → IsLevel level x → fronts.FrontStops level rest → syntax_tokens x ++ rest ≡ tokens.now
        → walked.WalkAnswers (checked.check scope.now x) rest (walked.expr_shown result) }
{
    let [first, rest @ ..] = tokens else {
        unreachable!();
    };
    match &first.token {
        Token::Int(number) => Ok((Expr::Int(*number), Sort::Int, rest)),
        Token::Text(text) => {
            let text = Apart::new(alloc, text.get().copy(alloc)?)?;
            Ok((Expr::Text(text), Sort::Text, rest))
        }
        Token::Truth(truth) => Ok((Expr::Bool(*truth), Sort::Bool, rest)),
        Token::Name(name) => variable(scope, first.place, name.get(), rest),
        Token::IntWord => read_row(scope, Reading::Int, rest),
        Token::TextWord => read_row(scope, Reading::Text, rest),
        Token::Has => read_row(scope, Reading::Presence, rest),
        Token::Open => inside(alloc, scope, rest),
        Token::Len => of_brackets(alloc, scope, Prefix::Len, first.place, rest),
        Token::Show => of_brackets(alloc, scope, Prefix::Show, first.place, rest),
        Token::Not => of_atom(alloc, scope, Prefix::Not, first.place, rest),
        Token::Op(_) => of_atom(alloc, scope, Prefix::Minus, first.place, rest),
        _ => unreachable!(),
    }
}

/// The variable that a name means, with what follows the name.
fn variable<'a>(
    scope: &Scope,
    place: u32,
    name: &Name,
    rest: &'a [Placed],
) -> Result<(Expr, Sort, &'a [Placed]), ProcError>
    ensures shorter { IfOk result (λ r. length r.2.now ≤ length rest.now) }
    ensures right { walked.WalkAnswers (checked.as_variable place (meaning_in scope.now name.now)) rest.now (walked.expr_shown result) }
{
    match scope.meaning(name) {
        Meaning::Variable(number, sort) => Ok((Expr::Var(number), sort, rest)),
        Meaning::Key(_, _) => Err(ProcError::Kind(place)),
        Meaning::Unknown => Err(ProcError::Unknown(place)),
    }
}

/// What is read of the row of a key.
#[derive(Clone, Copy, Drop)]
pub(crate) enum Reading {
    /// Its number.
    Int,
    /// Its text.
    Text,
    /// Whether it has a value.
    Presence,
}

/// What is read of the row of the key in brackets.
fn read_row<'a>(
    scope: &Scope,
    reading: Reading,
    tokens: &'a [Placed],
) -> Result<(Expr, Sort, &'a [Placed]), ProcError>
    requires starts { walked.StartsBrackets tokens.now }
    ensures shorter { IfOk result (λ r. length r.2.now < length tokens.now) }
    ensures right { (b : Bracketed) (rest : List Placed) → bracketed_tokens b ++ rest ≡ tokens.now
        → walked.WalkAnswers (after_ok (checked.key_of scope.now b) (λ k. Ok (walked.read_told reading k))) rest (walked.expr_shown result) }
{
    let (key, rest) = key_in_brackets(scope, tokens)?;
    match reading {
        Reading::Int => Ok((Expr::IntOf(key), Sort::Int, rest)),
        Reading::Text => Ok((Expr::TextOf(key), Sort::Text, rest)),
        Reading::Presence => Ok((Expr::Has(key), Sort::Bool, rest)),
    }
}

/// An expression, after the `(` before it, with the `)` after it.
#[cycle(levels)]
fn inside<'a>(
    alloc: Global,
    scope: &Scope,
    tokens: &'a [Placed],
) -> Result<(Expr, Sort, &'a [Placed]), ProcError>
    requires starts { walked.StartsInside tokens.now }
    ensures shorter { IfOk result (λ r. length r.2.now < length tokens.now) }
    ensures right { (x : Syntax) (q : ℕ) (rest : List Placed) → IsLevel 0 x → syntax_tokens x ++ at q tok.Close ∷ rest ≡ tokens.now
        → walked.WalkAnswers (checked.check scope.now x) rest (walked.expr_shown result) }
{
    let (expr, sort, rest) = expression(alloc, scope, tokens, 0)?;
    Ok((expr, sort, after_one(rest)))
}

/// A word or sign before an operand.
#[derive(Clone, Copy, Drop)]
pub(crate) enum Prefix {
    /// `len`, before an operand in brackets.
    Len,
    /// `show`, before an operand in brackets.
    Show,
    /// `-`.
    Minus,
    /// `not`.
    Not,
}

/// What is made of an operand by what stands before it, at the place.
fn made_of(
    alloc: Global,
    prefix: Prefix,
    place: u32,
    operand: Expr,
    sort: Sort,
) -> Result<(Expr, Sort), ProcError>
    ensures { walked.PassGives (walked.prefix_told prefix place (expr_tree operand, sort)) (walked.typed_shown result) }
{
    match (prefix, sort) {
        (Prefix::Len, Sort::Text) => Ok((Expr::Len(Box::new(alloc, operand)?), Sort::Int)),
        (Prefix::Show, Sort::Int) => Ok((Expr::Show(Box::new(alloc, operand)?), Sort::Text)),
        (Prefix::Minus, Sort::Int) => Ok((Expr::Neg(Box::new(alloc, operand)?), Sort::Int)),
        (Prefix::Not, Sort::Bool) => Ok((Expr::Not(Box::new(alloc, operand)?), Sort::Bool)),
        _ => Err(ProcError::Kind(place)),
    }
}

/// What is made of the expression in brackets.
#[cycle(levels)]
fn of_brackets<'a>(
    alloc: Global,
    scope: &Scope,
    prefix: Prefix,
    place: u32,
    tokens: &'a [Placed],
) -> Result<(Expr, Sort, &'a [Placed]), ProcError>
    requires starts { walked.StartsOpen tokens.now }
    ensures shorter { IfOk result (λ r. length r.2.now < length tokens.now) }
    ensures right { (o : ℕ) (x : Syntax) (q : ℕ) (rest : List Placed) → IsLevel 0 x
        → at o tok.Open ∷ (syntax_tokens x ++ at q tok.Close ∷ rest) ≡ tokens.now
        → walked.WalkAnswers (after_ok (checked.check scope.now x) (walked.prefix_told prefix place)) rest (walked.expr_shown result) }
{
    let (operand, sort, rest) = inside(alloc, scope, after_one(tokens))?;
    let (expr, sort) = made_of(alloc, prefix, place, operand, sort)?;
    Ok((expr, sort, rest))
}

/// What is made of the atom.
#[cycle(levels)]
fn of_atom<'a>(
    alloc: Global,
    scope: &Scope,
    prefix: Prefix,
    place: u32,
    tokens: &'a [Placed],
) -> Result<(Expr, Sort, &'a [Placed]), ProcError>
    requires starts { walked.StartsExpr 6 tokens.now }
    ensures shorter { IfOk result (λ r. length r.2.now < length tokens.now) }
    ensures right { (x : Syntax) (rest : List Placed) → IsLevel 6 x → fronts.FrontStops 6 rest → syntax_tokens x ++ rest ≡ tokens.now
        → walked.WalkAnswers (after_ok (checked.check scope.now x) (walked.prefix_told prefix place)) rest (walked.expr_shown result) }
{
    let (operand, sort, rest) = expression(alloc, scope, tokens, 6)?;
    let (expr, sort) = made_of(alloc, prefix, place, operand, sort)?;
    Ok((expr, sort, rest))
}

/// What an operator gives.
fn given_by(op: Op) -> Sort
    ensures { result ≡ sound.sort_given op }
{
    match op {
        Op::Join => Sort::Text,
        Op::Add => Sort::Int,
        Op::Sub => Sort::Int,
        Op::Mul => Sort::Int,
        Op::Div => Sort::Int,
        Op::Rem => Sort::Int,
        Op::Or => Sort::Bool,
        Op::And => Sort::Bool,
        Op::Equal => Sort::Bool,
        Op::Differ => Sort::Bool,
        Op::Less => Sort::Bool,
        Op::AtMost => Sort::Bool,
        Op::More => Sort::Bool,
        Op::AtLeast => Sort::Bool,
    }
}

/// Whether an operator may stand between operands that give these.
fn fits(op: Op, left: Sort, right: Sort) -> bool
    ensures { result ≡ checked.fits_both op left right }
{
    let level = op.level();
    match (left, right) {
        (Sort::Int, Sort::Int) => level >= 3 && !op.is_join() || level == 2,
        (Sort::Text, Sort::Text) => op.is_join() || level == 2,
        (Sort::Bool, Sort::Bool) => level < 2,
        _ => false,
    }
}

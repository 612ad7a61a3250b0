//! The second pass over statements.

ghost use Rattle.std.specs.Prelude.{◌≡◌, ◌<◌, ℕ, List, [], ◌∷◌, ◌++◌, length, IfOk, OnOk, Ok};
ghost use Rattle.dt_lists.specs.Lists.{AllIn};
ghost use Rattle.dt_syntax.specs.declared.token.Placed.{Placed};
ghost use Rattle.dt_syntax.specs.declared.token.Token.TheVariants as tok;
ghost use Rattle.dt_syntax.specs.Grammar as syn;
ghost use Rattle.dt_syntax.specs.Grammar.{at, Bracketed, bracketed_tokens, Syntax, syntax_tokens, IsLevel};
ghost use Rattle.dt_proc.specs.Names.{meaning_in};
ghost use Rattle.dt_proc.specs.Names as names;
ghost use Rattle.dt_proc.specs.AfterOk.{after_ok};
ghost use Rattle.dt_proc.specs.SecondPass as checked;
ghost use Rattle.dt_proc.specs.WalkInner as walked;
ghost use Rattle.dt_syntax.specs.Fronts as fronts;
ghost use Rattle.dt_proc.specs.Tree as tree;
ghost use Rattle.dt_proc.specs.TreeViews.{expr_tree};

use crate::error::ProcError;
use crate::expressions::{expression, key_in_brackets};
use crate::fronts::{after_comma, after_else, after_one, named};
use crate::scope::{Meaning, Scope, is_new};
use crate::tree::{Expr, Give, Gives, Sort, Stmt, Stmts};
use dt_syntax::{Placed, Token};
use dt_text::Name;
use std::alloc::Global;

/// The row of the key in brackets, as an item of `give`.
fn row_of<'a>(scope: &Scope, tokens: &'a [Placed]) -> Result<(Give, &'a [Placed]), ProcError>
    requires starts { walked.StartsBrackets tokens.now }
    ensures shorter { IfOk result (λ r. length r.1.now < length tokens.now) }
    ensures right { (b : Bracketed) (rest : List Placed) → bracketed_tokens b ++ rest ≡ tokens.now
        → walked.WalkAnswers (after_ok (checked.key_of scope.now b) (λ k. Ok (tree.row k))) rest (walked.gift_shown result) }
{
    let (key, rest) = key_in_brackets(scope, tokens)?;
    Ok((Give::Row(key), rest))
}

/// An expression as an item of `give`.
fn value_of<'a>(
    alloc: Global,
    scope: &Scope,
    place: u32,
    tokens: &'a [Placed],
) -> Result<(Give, &'a [Placed]), ProcError>
    requires starts { walked.StartsExpr 0 tokens.now }
    ensures shorter { IfOk result (λ r. length r.1.now < length tokens.now) }
    ensures right { (x : Syntax) (rest : List Placed) → IsLevel 0 x → fronts.FrontStops 0 rest → syntax_tokens x ++ rest ≡ tokens.now
        → walked.WalkAnswers (after_ok (checked.check scope.now x) (λ a. checked.needs_stored place a (tree.value a.0))) rest (walked.gift_shown result) }
{
    match expression(alloc, scope, tokens, 0)? {
        (value, Sort::Int | Sort::Text, rest) => Ok((Give::Value(value), rest)),
        (_, Sort::Bool, _) => Err(ProcError::Kind(place)),
    }
}

/// An item of `give`.
fn item<'a>(
    alloc: Global,
    scope: &Scope,
    tokens: &'a [Placed],
) -> Result<(Give, &'a [Placed]), ProcError>
    requires starts { walked.StartsItem tokens.now }
    ensures shorter { IfOk result (λ r. length r.1.now < length tokens.now) }
    ensures right { (i : syn.Item) (rest : List Placed) → syn.IsItem i → fronts.FrontStops 0 rest → syn.item_tokens i ++ rest ≡ tokens.now
        → walked.WalkAnswers (checked.check_item scope.now i) rest (walked.gift_shown result) }
{
    let [first, rest @ ..] = tokens else {
        unreachable!();
    };
    match &first.token {
        Token::Row => row_of(scope, rest),
        _ => value_of(alloc, scope, first.place, tokens),
    }
}

/// The items of `give`, and what follows the `;` after them.
fn items<'a>(
    alloc: Global,
    scope: &Scope,
    tokens: &'a [Placed],
) -> Result<(Gives, &'a [Placed]), ProcError>
    requires starts { walked.StartsItems tokens.now }
    ensures shorter { IfOk result (λ r. length r.1.now < length tokens.now) }
    ensures right { (i : syn.Item) (more : List (ℕ × syn.Item)) (e : ℕ) (rest : List Placed) → syn.IsItem i → AllIn (λ m. syn.IsItem m.1) more
        → syn.items_tokens i more ++ at e tok.Semicolon ∷ rest ≡ tokens.now
        → walked.WalkAnswers (checked.check_all_items scope.now i more) rest (walked.gifts_shown result) }
{
    let mut gives = Gives::new(alloc);
    let (give, mut rest) = item(alloc, scope, tokens)?;
    gives.push(give)?;
    while let Some(after) = after_comma(rest) {
        let (give, next) = item(alloc, scope, after)?;
        gives.push(give)?;
        rest = next;
    }
    Ok((gives, after_one(rest)))
}

/// A `let`, after its word.
fn let_step<'a>(
    alloc: Global,
    scope: &mut Scope,
    tokens: &'a [Placed],
) -> Result<(Stmt, &'a [Placed]), ProcError>
    requires room { walked.HasRoom scope.old tokens.now }
    requires starts { walked.StartsAssigned tokens.now }
    ensures shorter { IfOk result (λ r. length r.1.now < length tokens.now) }
    ensures room { IfOk result (λ r. walked.KeepsRoom scope.old tokens.now scope.new r.1.now) }
    ensures right { (p q : ℕ) (n : List ℕ) (i : ℕ) (x : Syntax) (e : ℕ) (rest : List Placed) → IsLevel 0 x
        → at q (tok.Name n) ∷ at i tok.Is ∷ (syntax_tokens x ++ at e tok.Semicolon ∷ rest) ≡ tokens.now
        → walked.WalkAnswers (checked.check_statement scope.old (syn.let_new p q n i x e)) rest (walked.step_shown scope.new result) }
{
    let (place, name, rest) = named(tokens);
    if !is_new(scope, name) {
        return Err(ProcError::Twice(place));
    }
    let (value, sort, rest) = expression(alloc, scope, after_one(rest), 0)?;
    scope.add_variable(alloc, name, sort)?;
    Ok((Stmt::Let(value), after_one(rest)))
}

/// The number of the key that a name means, which may be written.
fn written(scope: &Scope, place: u32, name: &Name) -> Result<u32, ProcError>
    ensures { result ≡ checked.as_written place (meaning_in scope.now name.now) }
{
    match scope.meaning(name) {
        Meaning::Key(number, write) => {
            if write {
                Ok(number)
            } else {
                Err(ProcError::Kind(place))
            }
        }
        Meaning::Variable(_, _) => Err(ProcError::Kind(place)),
        Meaning::Unknown => Err(ProcError::Unknown(place)),
    }
}

/// A `set`, after its word, which stands at the place.
fn set_step<'a>(
    alloc: Global,
    scope: &Scope,
    word: u32,
    tokens: &'a [Placed],
) -> Result<(Stmt, &'a [Placed]), ProcError>
    requires starts { walked.StartsAssigned tokens.now }
    ensures shorter { IfOk result (λ r. length r.1.now < length tokens.now) }
    ensures right { (q : ℕ) (n : List ℕ) (i : ℕ) (x : Syntax) (e : ℕ) (rest : List Placed) → IsLevel 0 x
        → at q (tok.Name n) ∷ at i tok.Is ∷ (syntax_tokens x ++ at e tok.Semicolon ∷ rest) ≡ tokens.now
        → walked.WalkAnswers (checked.check_statement scope.now (syn.set_key word q n i x e)) rest (walked.step_shown scope.now result) }
{
    let (place, name, rest) = named(tokens);
    let key = written(scope, place, name)?;
    let (value, sort, rest) = expression(alloc, scope, after_one(rest), 0)?;
    match sort {
        Sort::Bool => Err(ProcError::Kind(word)),
        Sort::Int => Ok((Stmt::Set(key, value), after_one(rest))),
        Sort::Text => Ok((Stmt::Set(key, value), after_one(rest))),
    }
}

/// A `clear`, after its word.
fn clear_step<'a>(scope: &Scope, tokens: &'a [Placed]) -> Result<(Stmt, &'a [Placed]), ProcError>
    requires starts { walked.StartsNamed tokens.now }
    ensures shorter { IfOk result (λ r. length r.1.now < length tokens.now) }
    ensures right { (p q : ℕ) (n : List ℕ) (e : ℕ) (rest : List Placed) → at q (tok.Name n) ∷ at e tok.Semicolon ∷ rest ≡ tokens.now
        → walked.WalkAnswers (checked.check_statement scope.now (syn.clear_key p q n e)) rest (walked.step_shown scope.now result) }
{
    let (place, name, rest) = named(tokens);
    let key = written(scope, place, name)?;
    Ok((Stmt::Clear(key), after_one(rest)))
}

/// An `abort`, after its word.
fn abort_step<'a>(alloc: Global, tokens: &'a [Placed]) -> Result<(Stmt, &'a [Placed]), ProcError>
    requires starts { walked.StartsQuoted tokens.now }
    ensures shorter { IfOk result (λ r. length r.1.now < length tokens.now) }
    ensures right { (s : names.Scope) (p q : ℕ) (t : List ℕ) (e : ℕ) (rest : List Placed) → at q (tok.Text t) ∷ at e tok.Semicolon ∷ rest ≡ tokens.now
        → walked.WalkAnswers (checked.check_statement s (syn.abort p q t e)) rest (walked.step_shown s result) }
{
    let [first, rest @ ..] = tokens else {
        unreachable!();
    };
    let Token::Text(text) = &first.token else {
        unreachable!();
    };
    Ok((Stmt::Abort(text.get().copy(alloc)?), after_one(rest)))
}

/// A `give`, after its word.
fn give_step<'a>(
    alloc: Global,
    scope: &Scope,
    tokens: &'a [Placed],
) -> Result<(Stmt, &'a [Placed]), ProcError>
    requires starts { walked.StartsItems tokens.now }
    ensures shorter { IfOk result (λ r. length r.1.now < length tokens.now) }
    ensures right { (p : ℕ) (i : syn.Item) (more : List (ℕ × syn.Item)) (e : ℕ) (rest : List Placed) → syn.IsItem i → AllIn (λ m. syn.IsItem m.1) more
        → syn.items_tokens i more ++ at e tok.Semicolon ∷ rest ≡ tokens.now
        → walked.WalkAnswers (checked.check_statement scope.now (syn.give p i more e)) rest (walked.step_shown scope.now result) }
{
    let (gives, rest) = items(alloc, scope, tokens)?;
    Ok((Stmt::Give(gives), rest))
}

/// Statements up to and with the `}` that closes them. What they let is no longer visible after it.
#[cycle(blocks)]
pub(crate) fn block<'a>(
    alloc: Global,
    scope: &mut Scope,
    tokens: &'a [Placed],
) -> Result<(Stmts, &'a [Placed]), ProcError>
    requires room { walked.HasRoom scope.old tokens.now }
    requires starts { walked.StartsBlock tokens.now }
    ensures shorter { IfOk result (λ r. length r.1.now < length tokens.now) }
    ensures room { IfOk result (λ r. walked.KeepsRoom scope.old tokens.now scope.new r.1.now) }
    ensures right { (ss : syn.Statements) (e : ℕ) (rest : List Placed) → syn.AreStatements ss
        → syn.statements_tokens ss ++ at e tok.End ∷ rest ≡ tokens.now
        → walked.WalkAnswers (checked.check_block scope.old ss) rest (walked.given_shown result) × OnOk result (scope.new ≡ scope.old) }
{
    let outer = scope.variables();
    let mut stmts = Stmts::new(alloc);
    let mut rest = tokens;
    'steps: while !is_end(rest) {
        let (stmt, after) = step(alloc, scope, rest)?;
        stmts.push(stmt)?;
        rest = after;
    }
    scope.leave(outer);
    Ok((stmts, after_one(rest)))
}

/// Whether a `}` comes first, or nothing.
fn is_end(tokens: &[Placed]) -> bool
    ensures { fronts.EndsBlock tokens.now result }
{
    match tokens {
        [first, ..] => matches!(&first.token, Token::End),
        [] => true,
    }
}

/// A statement.
#[cycle(blocks)]
fn step<'a>(
    alloc: Global,
    scope: &mut Scope,
    tokens: &'a [Placed],
) -> Result<(Stmt, &'a [Placed]), ProcError>
    requires room { walked.HasRoom scope.old tokens.now }
    requires starts { walked.StartsStatement tokens.now }
    ensures shorter { IfOk result (λ r. length r.1.now < length tokens.now) }
    ensures room { IfOk result (λ r. walked.KeepsRoom scope.old tokens.now scope.new r.1.now) }
    ensures right { (s : syn.Statement) (rest : List Placed) → syn.IsStatement s → fronts.NoElse rest → syn.statement_tokens s ++ rest ≡ tokens.now
        → walked.WalkAnswers (checked.check_statement scope.old s) rest (walked.step_shown scope.new result) }
{
    let [first, rest @ ..] = tokens else {
        unreachable!();
    };
    match &first.token {
        Token::Let => let_step(alloc, scope, rest),
        Token::Set => set_step(alloc, scope, first.place, rest),
        Token::Clear => clear_step(scope, rest),
        Token::If => if_step(alloc, scope, first.place, rest),
        Token::Abort => abort_step(alloc, rest),
        Token::Give => give_step(alloc, scope, rest),
        _ => unreachable!(),
    }
}

/// An `if`, after its word, which stands at the place.
#[cycle(blocks)]
fn if_step<'a>(
    alloc: Global,
    scope: &mut Scope,
    word: u32,
    tokens: &'a [Placed],
) -> Result<(Stmt, &'a [Placed]), ProcError>
    requires room { walked.HasRoom scope.old tokens.now }
    requires starts { walked.StartsIf tokens.now }
    ensures shorter { IfOk result (λ r. length r.1.now < length tokens.now) }
    ensures room { IfOk result (λ r. walked.KeepsRoom scope.old tokens.now scope.new r.1.now) }
    ensures one { (x : Syntax) (b : ℕ) (ss : syn.Statements) (e : ℕ) (rest : List Placed) → IsLevel 0 x → syn.AreStatements ss → fronts.NoElse rest
        → syntax_tokens x ++ at b tok.Begin ∷ (syn.statements_tokens ss ++ at e tok.End ∷ rest) ≡ tokens.now
        → walked.WalkAnswers (checked.check_statement scope.old (syn.when word x b ss e)) rest (walked.step_shown scope.new result) }
    ensures two { (x : Syntax) (b : ℕ) (ss : syn.Statements) (e w o : ℕ) (rs : syn.Statements) (f : ℕ) (rest : List Placed) → IsLevel 0 x
        → syn.AreStatements ss → syn.AreStatements rs
        → syntax_tokens x ++ at b tok.Begin ∷ (syn.statements_tokens ss ++ at e tok.End ∷ at w tok.Else ∷ at o tok.Begin
        ∷ (syn.statements_tokens rs ++ at f tok.End ∷ rest)) ≡ tokens.now
        → walked.WalkAnswers (checked.check_statement scope.old (syn.choose word x b ss e w o rs f)) rest (walked.step_shown scope.new result) }
{
    let (test, sort, rest) = expression(alloc, scope, tokens, 0)?;
    match sort {
        Sort::Bool => branches(alloc, scope, test, after_one(rest)),
        Sort::Int => Err(ProcError::Kind(word)),
        Sort::Text => Err(ProcError::Kind(word)),
    }
}

/// The blocks of an `if`, after the first `{`.
#[cycle(blocks)]
fn branches<'a>(
    alloc: Global,
    scope: &mut Scope,
    test: Expr,
    tokens: &'a [Placed],
) -> Result<(Stmt, &'a [Placed]), ProcError>
    requires room { walked.HasRoom scope.old tokens.now }
    requires starts { walked.StartsBranches tokens.now }
    ensures shorter { IfOk result (λ r. length r.1.now < length tokens.now) }
    ensures room { IfOk result (λ r. walked.KeepsRoom scope.old tokens.now scope.new r.1.now) }
    ensures one { (ss : syn.Statements) (e : ℕ) (rest : List Placed) → syn.AreStatements ss → fronts.NoElse rest
        → syn.statements_tokens ss ++ at e tok.End ∷ rest ≡ tokens.now
        → walked.WalkAnswers (checked.one_block scope.old (expr_tree test) (checked.check_block scope.old ss)) rest (walked.step_shown scope.new result) }
    ensures two { (ss : syn.Statements) (e w o : ℕ) (rs : syn.Statements) (f : ℕ) (rest : List Placed) → syn.AreStatements ss → syn.AreStatements rs
        → syn.statements_tokens ss ++ at e tok.End ∷ at w tok.Else ∷ at o tok.Begin ∷ (syn.statements_tokens rs ++ at f tok.End ∷ rest) ≡ tokens.now
        → walked.WalkAnswers (checked.two_blocks scope.old (expr_tree test) (checked.check_block scope.old ss) (checked.check_block scope.old rs)) rest (walked.step_shown scope.new result) }
{
    let (then, rest) = block(alloc, scope, tokens)?;
    match after_else(rest) {
        Some(rest) => {
            let (otherwise, rest) = block(alloc, scope, after_one(rest))?;
            Ok((Stmt::If(test, then, otherwise), rest))
        }
        None => Ok((Stmt::If(test, then, Stmts::new(alloc)), rest)),
    }
}
